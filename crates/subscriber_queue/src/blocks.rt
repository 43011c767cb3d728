//! Frames in blocks: each block is one text of up to as many frames as one take gives, and all but the last are full.

ghost use Rattle.std.specs.Prelude.{◌≡◌, ◌<◌, [], ◌∷◌, ◌++◌, length, take, drop, slice_get, Some, OnOk, OnErr};
ghost use Rattle.world_data.specs.Limits.{take_frames};
ghost use Rattle.std.specs.List.{AllByRecursion};
ghost use Rattle.subscriber_queue.specs.Packed.{IsFull, IsOpen, packed};

use crate::rings::Ring;
use byte_text::NoMemory;
use std::alloc::Global;
use std::marker::Model;
use std::mem;
use world_data::{Frames, TAKE};

/// A list of frames.
pub(crate) struct Blocks {
    alloc: Global,
    full: Ring,
    last: Frames,
    // of all blocks
    count: usize,
}

impl Drop for Blocks {
    fn drop(self) {
        let Blocks {
            alloc: _,
            full: _,
            last: _,
            count: _,
        } = self;
    }
}

impl Model for Blocks {
    ghost use Rattle.std.specs.Prelude.{List};
    ghost use Rattle.byte_text.specs.Names.{Bytes};
    ghost use Rattle.subscriber_queue.specs.Packed.{ArePacked, packed};

    ghost Value = { List Bytes };

    ghost view = { λ b. packed b.full b.last };

    ghost invariant = { λ b. ArePacked b.full b.last b.count };
}

// Sees to it that the last block has a place. The frames stay.
fn open(alloc: Global, full: &mut Ring, last: &mut Frames) -> Result<(), NoMemory>
    requires full { AllByRecursion IsFull full.old }
    requires open { IsOpen last.old }
    ensures same { packed full.new last.new ≡ packed full.old last.old }
    ensures full { AllByRecursion IsFull full.new }
    ensures open { IsOpen last.new }
    ensures place { OnOk result (length last.new.list < last.new.places) }
{
    if last.has_place() {
        return Ok(());
    }
    let fresh = Frames::new(alloc)?;
    if last.is_empty() {
        *last = fresh;
        return Ok(());
    }
    full.push(last, fresh)
}

// Keeps the first `count` frames, where there are more.
fn cut_off(full: &mut Ring, last: &mut Frames, count: usize)
    requires full { AllByRecursion IsFull full.old }
    requires open { IsOpen last.old }
    requires more { count < length (packed full.old last.old) }
    ensures first { packed full.new last.new ≡ take count (packed full.old last.old) }
    ensures full { AllByRecursion IsFull full.new }
    ensures open { IsOpen last.new }
{
    match full.cut(count / TAKE) {
        Some(mut block) => {
            block.keep(count % TAKE);
            *last = block;
        }
        None => last.keep(count % TAKE),
    }
}

impl Blocks {
    /// No frame. It takes no memory; what is pushed takes it from `alloc`.
    pub(crate) fn new(alloc: Global) -> Blocks
        ensures { result ≡ [] }
    {
        Blocks {
            alloc,
            full: Ring::new(alloc),
            last: Frames::bare(alloc),
            count: 0,
        }
    }

    /// How many frames there are.
    pub(crate) fn len(&self) -> usize
        ensures { result ≡ length self.now }
    {
        self.count
    }

    /// The bytes of a frame, counted from 0.
    pub(crate) fn at(&self, i: usize) -> &[u8]
        requires { i < length self.now }
        ensures { slice_get self.now i ≡ Some result.now }
    {
        match self.full.at(i / TAKE) {
            Some(block) => block.at(i % TAKE),
            None => self.last.at(i % TAKE),
        }
    }

    /// Puts a frame last. For want of memory the frames are as before.
    pub(crate) fn push(&mut self, frame: &[u8]) -> Result<(), NoMemory>
        ensures ok { OnOk result (self.new ≡ self.old ++ frame.now ∷ []) }
        ensures err { OnErr result (self.new ≡ self.old) }
    {
        let Some(count) = self.count.checked_add(1) else {
            return Err(NoMemory);
        };
        open(self.alloc, &mut self.full, &mut self.last)?;
        self.last.put(frame)?;
        self.count = count;
        Ok(())
    }

    /// Keeps the first `count` frames, and all where there are no more. It takes no memory.
    pub(crate) fn keep(&mut self, count: usize)
        ensures { self.new ≡ take count self.old }
    {
        if count < self.count {
            cut_off(&mut self.full, &mut self.last, count);
            self.count = count;
        }
    }

    /// Hands out the first block in place of an empty one: the first frames, as many as one take gives. It takes no
    /// memory.
    pub(crate) fn take(&mut self, into: &mut Frames)
        requires { into.old ≡ record { list = []; places = take_frames } }
        ensures given { into.new ≡ record { list = take take_frames self.old; places = take_frames } }
        ensures left { self.new ≡ drop take_frames self.old }
    {
        match self.full.pop_front() {
            Some(block) => {
                self.count -= TAKE;
                *into = block;
            }
            None => {
                if self.count > 0 {
                    self.count = 0;
                    mem::swap(&mut self.last, into);
                }
            }
        }
    }
}
