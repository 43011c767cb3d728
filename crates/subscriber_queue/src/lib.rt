//! The frames that wait for a session, and those that are staged behind them. They stand in blocks of up to 64 frames in
//! one text each, all but the last of 64, and a take hands out the first block as it is. What is staged stands in the
//! blocks already, so that placing it moves a mark alone, and neither that nor a take needs memory. No more than a fixed
//! number of frames and of bytes wait.
#![tactic(auto)]

mod blocks;
mod rings;

ghost use Rattle.std.specs.Prelude.{◌≡◌, ◌≤◌, ◌<◌, ◌+◌, true, ◌++◌, [], ◌∷◌, length, take, drop, min, OnOk, OnErr, if◌then◌else◌};
ghost use Rattle.world_data.specs.Limits.{cap_bytes, cap_frames, take_frames};
ghost use Rattle.world_data.specs.Frames.{frame_bytes};
ghost use Rattle.subscriber_queue.specs.Waiting.{takes, takes_first};

use crate::blocks::Blocks;
use byte_text::NoMemory;
use std::alloc::Global;
use std::marker::Model;
use world_data::{CAP_BYTES, CAP_FRAMES, Frames};

/// The frames of a session in order, each the text of one whole reply or message, and those that are staged behind them.
pub struct Outbox {
    blocks: Blocks,
    // how many of the frames wait, and their bytes
    waiting: usize,
    bytes: u64,
}

impl Drop for Outbox {
    fn drop(self) {
        let Outbox {
            blocks: _,
            waiting: _,
            bytes: _,
        } = self;
    }
}

impl Model for Outbox {
    ghost use Rattle.std.specs.Prelude.{◌≡◌, ◌≤◌, length, take, drop};
    ghost use Rattle.world_data.specs.Limits.{cap_frames, cap_bytes};
    ghost use Rattle.world_data.specs.Frames.{frame_bytes};
    ghost use Rattle.subscriber_queue.specs.Waiting.{Waiting};

    ghost Value = { Waiting };

    ghost view = { λ b. record { frames = take b.waiting b.blocks; staged = drop b.waiting b.blocks } };

    ghost invariant = { λ b. (b.waiting ≤ length b.blocks) × (b.waiting ≤ cap_frames)
        × (b.bytes ≡ frame_bytes (take b.waiting b.blocks)) × (b.bytes ≤ cap_bytes) };
}

impl Outbox {
    /// No frame, and nothing staged: it takes no memory. What is staged takes it from `alloc`.
    pub fn new(alloc: Global) -> Outbox
        ensures { result ≡ record { frames = []; staged = [] } }
    {
        Outbox {
            blocks: Blocks::new(alloc),
            waiting: 0,
            bytes: 0,
        }
    }

    /// Stages a frame behind the others. For want of memory all is as before.
    pub fn stage(&mut self, frame: &[u8]) -> Result<(), NoMemory>
        ensures frames { self.new.frames ≡ self.old.frames }
        ensures ok { OnOk result (self.new.staged ≡ self.old.staged ++ frame.now ∷ []) }
        ensures err { OnErr result (self.new ≡ self.old) }
    {
        self.blocks.push(frame)
    }

    /// Keeps the first `count` frames that are staged, and all where there are no more. It takes no memory.
    pub fn keep_staged(&mut self, count: usize)
        ensures frames { self.new.frames ≡ self.old.frames }
        ensures staged { self.new.staged ≡ take count self.old.staged }
    {
        let all = self.blocks.len();
        if count < all - self.waiting {
            self.blocks.keep(self.waiting + count);
        }
    }

    // Whether one more frame of so many bytes may wait.
    fn has_room(&self, size: u64) -> bool
        ensures room { result ≡ takes self.now.frames size }
        ensures few { result ≡ true → length self.now.frames < cap_frames }
        ensures light { result ≡ true → frame_bytes self.now.frames + size ≤ cap_bytes }
    {
        self.waiting < CAP_FRAMES && size <= CAP_BYTES - self.bytes
    }

    /// Lets the first frame that is staged wait behind the others, and answers whether all is well: it is not exactly
    /// where there is one, and 32,768 frames wait already, or the bytes would pass 6,291,456. Then all is as before. It
    /// takes no memory.
    pub fn place_first(&mut self) -> bool
        ensures room { result ≡ takes_first self.old.frames self.old.staged }
        ensures frames { self.new.frames
            ≡ (if result then self.old.frames ++ take 1 self.old.staged else self.old.frames) }
        ensures staged { self.new.staged ≡ (if result then drop 1 self.old.staged else self.old.staged) }
    {
        if self.waiting == self.blocks.len() {
            return true;
        }
        let size = self.blocks.at(self.waiting).len() as u64;
        if !self.has_room(size) {
            return false;
        }
        self.waiting += 1;
        self.bytes += size;
        true
    }

    /// Hands out the first block in place of `into`: the first frames, as many as one take gives. Their number is
    /// answered. What is staged is let go. It takes no memory.
    pub fn take(&mut self, into: &mut Frames) -> usize
        requires { into.old ≡ record { list = []; places = take_frames } }
        ensures given { into.new ≡ record { list = take take_frames self.old.frames; places = take_frames } }
        ensures left { self.new.frames ≡ drop take_frames self.old.frames }
        ensures staged { self.new.staged ≡ [] }
        ensures count { result ≡ min take_frames (length self.old.frames) }
    {
        self.blocks.keep(self.waiting);
        self.blocks.take(into);
        let count = into.len();
        self.waiting -= count;
        self.bytes -= into.bytes().len() as u64;
        count
    }

    /// The number of frames that wait.
    pub fn frames(&self) -> usize
        ensures { result ≡ length self.now.frames }
    {
        self.waiting
    }

    /// The number of frames that are staged.
    pub fn staged(&self) -> usize
        ensures { result ≡ length self.now.staged }
    {
        self.blocks.len() - self.waiting
    }

    /// The bytes of all frames together that wait.
    pub fn bytes(&self) -> u64
        ensures { result ≡ frame_bytes self.now.frames }
    {
        self.bytes
    }
}
