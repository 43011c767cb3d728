//! The queue of a session with what is staged for it: frames that a call will bring, and that do not wait before it is
//! done. Behind them stand the replies to the session's own request.

ghost use Rattle.std.specs.Prelude.{◌≡◌, ◌-◌, ◌++◌, [], ◌∷◌, length, take, drop, min, OnOk, OnErr, if◌then◌else◌};
ghost use Rattle.world_data.specs.Limits.{take_frames};
ghost use Rattle.world_data.specs.Frames.{frame_bytes};
ghost use Rattle.subscriber_queue.specs.Waiting.{takes_first};
ghost use Rattle.session_table.specs.Mail.{Stages, has_room_left};

use byte_text::NoMemory;
use std::alloc::Global;
use std::marker::Model;
use subscriber_queue::Outbox;
use world_data::{CAP_BYTES, CAP_FRAMES, Frames};

/// The frames of a session in order, those that are staged behind them, and the replies behind these.
pub struct Mailbox {
    outbox: Outbox,
    // how many frames are staged, without the replies, and their bytes
    staged: usize,
    bytes: u64,
}

impl Drop for Mailbox {
    fn drop(self) {
        let Mailbox {
            outbox: _,
            staged: _,
            bytes: _,
        } = self;
    }
}

impl Model for Mailbox {
    ghost use Rattle.std.specs.Prelude.{◌≡◌, ◌≤◌, length, take, drop};
    ghost use Rattle.world_data.specs.Frames.{frame_bytes};
    ghost use Rattle.session_table.specs.Mail.{Mail};

    ghost Value = { Mail };

    ghost view = { λ m. record {
      frames = m.outbox.frames;
      staged = take m.staged m.outbox.staged;
      replies = drop m.staged m.outbox.staged;
    } };

    ghost invariant = { λ m. (m.staged ≤ length m.outbox.staged) × (m.bytes ≡ frame_bytes (take m.staged m.outbox.staged)) };
}

impl Mailbox {
    /// No frame, nothing staged, and no reply: it takes no memory. What is staged takes it from `alloc`.
    pub fn new(alloc: Global) -> Mailbox
        ensures { result ≡ record { frames = []; staged = []; replies = [] } }
    {
        Mailbox {
            outbox: Outbox::new(alloc),
            staged: 0,
            bytes: 0,
        }
    }

    /// Whether the frames and all that is staged keep the limits of a queue: 32,768 frames, and 6,291,456 bytes
    /// together. Nothing staged keeps them.
    pub fn has_room_left(&self) -> bool
        ensures { result ≡ has_room_left self.now }
    {
        if self.staged == 0 {
            return true;
        }
        let (frames, bytes) = (self.outbox.frames(), self.outbox.bytes());
        frames <= CAP_FRAMES
            && self.staged <= CAP_FRAMES - frames
            && bytes <= CAP_BYTES
            && self.bytes <= CAP_BYTES - bytes
    }

    /// Stages a frame behind the others; replies are let go. Where there is no room left already the frame is too: what
    /// is staged is more than the queue will take. For want of memory nothing is staged.
    pub fn stage(&mut self, frame: &[u8]) -> Result<(), NoMemory>
        ensures frames { self.new.frames ≡ self.old.frames }
        ensures ok { OnOk result (self.new.staged
            ≡ (if has_room_left self.old then self.old.staged ++ frame.now ∷ [] else self.old.staged)) }
        ensures staged { OnOk result (Stages (frame.now ∷ []) self.old self.new) }
        ensures err { OnErr result (self.new.staged ≡ self.old.staged) }
        ensures replies { self.new.replies ≡ [] }
    {
        self.clear_replies();
        if !self.has_room_left() {
            return Ok(());
        }
        self.outbox.stage(frame)?;
        self.staged = self.outbox.staged();
        self.bytes += frame.len() as u64;
        Ok(())
    }

    /// How many frames are staged.
    pub fn staged(&self) -> usize
        ensures { result ≡ length self.now.staged }
    {
        self.staged
    }

    /// Puts a reply behind the others. For want of memory all is as before.
    pub fn add_reply(&mut self, frame: &[u8]) -> Result<(), NoMemory>
        ensures frames { self.new.frames ≡ self.old.frames }
        ensures staged { self.new.staged ≡ self.old.staged }
        ensures ok { OnOk result (self.new.replies ≡ self.old.replies ++ frame.now ∷ []) }
        ensures err { OnErr result (self.new ≡ self.old) }
    {
        self.outbox.stage(frame)
    }

    /// How many replies there are.
    pub fn replies(&self) -> usize
        ensures { result ≡ length self.now.replies }
    {
        self.outbox.staged() - self.staged
    }

    /// Lets the replies go.
    pub fn clear_replies(&mut self)
        ensures { self.new ≡ record self.old { replies = [] } }
    {
        self.outbox.keep_staged(self.staged);
    }

    /// Lets all go that is staged, and the replies.
    pub fn unstage(&mut self)
        ensures { self.new ≡ record { frames = self.old.frames; staged = []; replies = [] } }
    {
        self.outbox.keep_staged(0);
        self.staged = 0;
        self.bytes = 0;
    }

    /// Lets the first frame that is staged, or where nothing is the first reply, wait behind the others, and answers
    /// whether all is well: it is not exactly where there is one, and 32,768 frames wait already, or the bytes would
    /// pass 6,291,456. Then all is as before. It takes no memory.
    pub fn place_first(&mut self) -> bool
        ensures room { result ≡ takes_first self.old.frames (self.old.staged ++ self.old.replies) }
        ensures placed { self.new
            ≡ (if result then record {
              frames = self.old.frames ++ take 1 (self.old.staged ++ self.old.replies);
              staged = drop 1 self.old.staged;
              replies = drop (1 - length self.old.staged) self.old.replies;
            } else self.old) }
    {
        let before = self.outbox.bytes();
        if !self.outbox.place_first() {
            return false;
        }
        if self.staged == 0 {
            return true;
        }
        self.staged -= 1;
        self.bytes -= self.outbox.bytes() - before;
        true
    }

    /// Hands out the first frames, as many as one take gives, in place of `into`, and answers their number. What is
    /// staged and the replies are let go.
    pub fn take(&mut self, into: &mut Frames) -> usize
        requires { into.old ≡ record { list = []; places = take_frames } }
        ensures given { into.new ≡ record { list = take take_frames self.old.frames; places = take_frames } }
        ensures left { self.new ≡ record { frames = drop take_frames self.old.frames; staged = []; replies = [] } }
        ensures count { result ≡ min take_frames (length self.old.frames) }
    {
        self.staged = 0;
        self.bytes = 0;
        self.outbox.take(into)
    }

    /// The number of frames that wait.
    pub fn frames(&self) -> usize
        ensures { result ≡ length self.now.frames }
    {
        self.outbox.frames()
    }

    /// The bytes of all frames together that wait.
    pub fn bytes(&self) -> u64
        ensures { result ≡ frame_bytes self.now.frames }
    {
        self.outbox.bytes()
    }
}
