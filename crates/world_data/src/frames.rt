//! The frames of a take.

ghost use Rattle.std.specs.Prelude.{◌≡◌, ◌<◌, ◌≤◌, [], ◌∷◌, ◌++◌, length, take, slice_get, Some, IfOk, OnOk, OnErr};
ghost use Rattle.std.specs.Prelude.{IsTrue, ◌↔◌, nat_lt, suc};
ghost use Rattle.world_data.specs.Frames.{frame_bytes, text_of};

use crate::limits::TAKE;
use byte_text::{NoMemory, Text};
use std::alloc::Global;
use std::marker::Model;
use std::mem;

// A text of more bytes than this is let go when the frames are, and its memory is not kept for others.
const MOST_KEPT: usize = 16_384;

/// The frames that a take gives: a block of one text and the ends of the frames in it, and the places that it has, 64
/// or none.
#[derive(Drop)]
pub struct Frames {
    alloc: Global,
    text: Text,
    ends: Vec<usize>,
    places: usize,
}

impl Model for Frames {
    ghost use Rattle.std.specs.Prelude.{◌≤◌, length, vec_capacity};
    ghost use Rattle.world_data.specs.Frames.{AreEnds, FrameList, frames_between};

    ghost Value = { FrameList };

    ghost view = { λ f. record { list = frames_between 0 f.ends.items f.text; places = f.places } };

    ghost invariant = { λ f. AreEnds f.ends.items f.text × (length f.ends.items ≤ f.places)
        × (f.places ≤ vec_capacity f.ends) };
}

impl Frames {
    /// No frame yet, and 64 places.
    pub fn new(alloc: Global) -> Result<Frames, NoMemory>
        ensures { IfOk result (λ f. (f.list ≡ []) × (f.places ≡ 64)) }
    {
        let ends = Vec::with_capacity(alloc, TAKE)?;
        Ok(Frames {
            alloc,
            text: Text::new(alloc),
            ends,
            places: TAKE,
        })
    }

    /// No frame and no place. It takes no memory.
    pub fn bare(alloc: Global) -> Frames
        ensures list { result.list ≡ [] }
        ensures places { result.places ≡ 0 }
    {
        Frames {
            alloc,
            text: Text::new(alloc),
            ends: Vec::new(alloc),
            places: 0,
        }
    }

    /// These frames with their places, in whose stead a bare list is left. It takes no memory.
    pub fn move_out(&mut self) -> Frames
        ensures moved { result ≡ self.old }
        ensures list { self.new.list ≡ [] }
        ensures places { self.new.places ≡ 0 }
    {
        let bare = Frames::bare(self.alloc);
        mem::replace(self, bare)
    }

    /// How many frames there are.
    pub fn len(&self) -> usize
        ensures { result ≡ length self.now.list }
    {
        self.ends.len()
    }

    /// Whether there is no frame.
    pub fn is_empty(&self) -> bool
        ensures { IsTrue result ↔ (self.now.list ≡ []) }
    {
        self.len() == 0
    }

    /// Whether there is a place for one frame more.
    pub fn has_place(&self) -> bool
        ensures { result ≡ nat_lt (length self.now.list) self.now.places }
    {
        self.len() < self.places
    }

    // Where the frame at a place ends in the text.
    fn end(&self, i: usize) -> usize
        requires { i < length self.now.list }
        ensures is { result ≡ length (text_of (take (suc i) self.now.list)) }
        ensures within { result ≤ length (text_of self.now.list) }
    {
        self.ends[i]
    }

    // Where the frame at a place begins in the text, or where the last one ends.
    fn start(&self, i: usize) -> usize
        requires { i ≤ length self.now.list }
        ensures is { result ≡ length (text_of (take i self.now.list)) }
        ensures before { result ≤ length (text_of (take (suc i) self.now.list)) }
    {
        if i == 0 { 0 } else { self.end(i - 1) }
    }

    /// The bytes of all frames, one behind another.
    pub fn bytes(&self) -> &[u8]
        ensures all { result.now ≡ text_of self.now.list }
        ensures size { length result.now ≡ frame_bytes self.now.list }
    {
        self.text.bytes()
    }

    /// The bytes of a frame, counted from 0.
    pub fn at(&self, i: usize) -> &[u8]
        requires { i < length self.now.list }
        ensures { slice_get self.now.list i ≡ Some result.now }
    {
        let (start, end) = (self.start(i), self.end(i));
        let bytes = self.bytes();
        &bytes[start..end]
    }

    /// Lets all frames go. The places stay.
    pub fn clear(&mut self)
        ensures list { self.new.list ≡ [] }
        ensures places { self.new.places ≡ self.old.places }
    {
        self.ends.clear();
        if self.text.len() > MOST_KEPT {
            self.text = Text::new(self.alloc);
        } else {
            self.text.truncate(0);
        }
    }

    /// Keeps the first `count` frames, and all where there are no more. The places stay. It takes no memory.
    pub fn keep(&mut self, count: usize)
        ensures list { self.new.list ≡ take count self.old.list }
        ensures places { self.new.places ≡ self.old.places }
    {
        if count < self.len() {
            let end = self.start(count);
            self.text.truncate(end);
            self.ends.truncate(count);
        }
    }

    /// Puts a frame last, where there is a place. For want of memory all is as before.
    pub fn put(&mut self, frame: &[u8]) -> Result<(), NoMemory>
        requires { length self.old.list < self.old.places }
        ensures ok { OnOk result (self.new.list ≡ self.old.list ++ frame.now ∷ []) }
        ensures places { self.new.places ≡ self.old.places }
        ensures err { OnErr result (self.new ≡ self.old) }
    {
        self.text.push(frame)?;
        self.ends.push_reserved(self.text.len());
        Ok(())
    }
}
