//! A ring of blocks, which grows where it is full.

ghost use Rattle.std.specs.Prelude.{◌≡◌, [], ◌∷◌, ◌++◌, length, take, drop, slice_get, OnOk, OnErr};
ghost use Rattle.std.specs.Prelude.{option_copied};

use byte_text::NoMemory;
use circular_buffer::HeapCircularBuffer;
use std::alloc::Global;
use std::marker::Model;
use std::mem;
use world_data::Frames;

// The places of a ring when it is made.
const FIRST_PLACES: usize = 4;

/// Blocks in order, from the front to the back.
pub(crate) struct Ring {
    alloc: Global,
    blocks: Option<HeapCircularBuffer<Frames>>,
}

impl Drop for Ring {
    fn drop(self) {
        let Ring {
            alloc: _,
            blocks: _,
        } = self;
    }
}

impl Model for Ring {
    ghost use Rattle.std.specs.Prelude.{List};
    ghost use Rattle.world_data.specs.Frames.{FrameList};
    ghost use Rattle.subscriber_queue.specs.Packed.{blocks_in};

    ghost Value = { List FrameList };

    ghost view = { λ r. blocks_in r.blocks };
}

impl Ring {
    /// No block. It takes no memory.
    pub(crate) fn new(alloc: Global) -> Ring
        ensures { result ≡ [] }
    {
        Ring {
            alloc,
            blocks: None,
        }
    }

    /// How many blocks there are.
    pub(crate) fn len(&self) -> usize
        ensures { result ≡ length self.now }
    {
        match &self.blocks {
            None => 0,
            Some(blocks) => blocks.len(),
        }
    }

    /// The block at a place, counted from the front.
    pub(crate) fn at(&self, i: usize) -> Option<&Frames>
        ensures { option_copied result ≡ slice_get self.now i }
    {
        match &self.blocks {
            None => None,
            Some(blocks) => blocks.get(i),
        }
    }

    // Takes room for one more block. The blocks stay.
    fn grow(&mut self) -> Result<(), NoMemory>
        ensures { self.new ≡ self.old }
    {
        match &mut self.blocks {
            None => {
                self.blocks = Some(HeapCircularBuffer::with_capacity(self.alloc, FIRST_PLACES)?);
            }
            Some(blocks) => {
                if blocks.is_full() {
                    blocks.resize(blocks.capacity() * 2)?;
                }
            }
        }
        Ok(())
    }

    /// Puts a block last, and leaves a fresh one in its stead. For want of memory all is as before.
    pub(crate) fn push(&mut self, last: &mut Frames, fresh: Frames) -> Result<(), NoMemory>
        ensures ok { OnOk result (self.new ≡ self.old ++ last.old ∷ []) }
        ensures fresh { OnOk result (last.new ≡ fresh) }
        ensures err { OnErr result (self.new ≡ self.old) }
        ensures same { OnErr result (last.new ≡ last.old) }
    {
        self.grow()?;
        let Some(blocks) = &mut self.blocks else {
            return Err(NoMemory);
        };
        match blocks.try_push_back(mem::replace(last, fresh)) {
            Ok(()) => Ok(()),
            Err(block) => {
                *last = block;
                Err(NoMemory)
            }
        }
    }

    /// Takes out the first block.
    pub(crate) fn pop_front(&mut self) -> Option<Frames>
        ensures first { result ≡ slice_get self.old 0 }
        ensures rest { self.new ≡ drop 1 self.old }
    {
        match &mut self.blocks {
            None => None,
            Some(blocks) => blocks.pop_front(),
        }
    }

    /// Keeps the first `count` blocks, and takes out the next one.
    pub(crate) fn cut(&mut self, count: usize) -> Option<Frames>
        ensures next { result ≡ slice_get self.old count }
        ensures first { self.new ≡ take count self.old }
    {
        let blocks = match &mut self.blocks {
            None => return None,
            Some(blocks) => blocks,
        };
        if count >= blocks.len() {
            return None;
        }
        blocks.truncate_back(count + 1);
        blocks.pop_back()
    }
}
