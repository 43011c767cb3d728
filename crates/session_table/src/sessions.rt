//! Sessions: their mailboxes and subscriptions, and whether they are served.

ghost use Rattle.std.specs.Prelude.{◌≡◌, ◌≢◌, ◌-◌, List, [], ◌∷◌, ◌++◌, true, false, length, take, drop, min, OnOk, OnErr};
ghost use Rattle.byte_text.specs.Names.{Bytes};
ghost use Rattle.world_data.specs.Limits.{take_frames};
ghost use Rattle.world_model.specs.Halls.{live, is_live, placed_each, frames_for};
ghost use Rattle.world_model.specs.Histories.{is_full};
ghost use Rattle.delivery_model.specs.Staging.{listens};
ghost use Rattle.delivery_model.specs.Plans.{ending};
ghost use Rattle.session_table.specs.Sessions.{AreReplies, AreSoundSubs, session_of, stage_of};
ghost use Rattle.session_table.specs.Mail.{Stages, has_room_left};

use crate::Subscriptions;
use crate::frames::Sending;
use crate::listening::stage_heard;
use crate::mailboxes::Mailbox;
use byte_text::{Name, NoMemory, Text};
use std::alloc::Global;
use std::marker::Model;
use world_data::{FULL_BYTES, FULL_FRAMES, Frames};

/// Whether a session is served, was cut off for its queue, or is to end behind its frames.
#[derive(Clone, Copy, Debug, PartialEq, Eq)]
pub enum Stage {
    Live,
    Cut,
    Closing,
}

/// A session: its number, its mailbox, and its subscriptions, whose patterns are well formed.
pub struct Session {
    number: u32,
    mail: Mailbox,
    subs: Subscriptions,
    stage: Stage,
}

impl Drop for Session {
    fn drop(self) {
        let Session {
            number: _,
            mail: _,
            subs: _,
            stage: _,
        } = self;
    }
}

impl Model for Session {
    ghost use Rattle.session_table.specs.Sessions.{State, stage_of, AreSoundSubs};

    ghost Value = { State };

    ghost view = { λ s. record { number = s.number; mail = s.mail; subs = s.subs; stage = stage_of s.stage } };

    ghost invariant = { λ s. AreSoundSubs s.subs };
}

impl Session {
    /// A new session of a number. It takes no memory; what it holds takes it from `alloc`.
    pub fn new(alloc: Global, number: u32) -> Session
        ensures { result
            ≡ record {
              number = number;
              mail = record { frames = []; staged = []; replies = [] };
              subs = [];
              stage = live;
            } }
    {
        Session {
            number,
            mail: Mailbox::new(alloc),
            subs: Subscriptions::new(alloc),
            stage: Stage::Live,
        }
    }

    /// Its number.
    pub fn number(&self) -> u32
        ensures { result ≡ self.now.number }
    {
        self.number
    }

    /// Whether it is served.
    pub fn is_live(&self) -> bool
        ensures { result ≡ is_live (session_of self.now) }
    {
        match self.stage {
            Stage::Live => true,
            Stage::Cut | Stage::Closing => false,
        }
    }

    /// Whether it has more frames, or bytes of frames, than a call may be made with.
    pub fn is_full(&self) -> bool
        ensures { result ≡ is_full (session_of self.now) }
    {
        self.mail.frames() >= FULL_FRAMES || self.mail.bytes() >= FULL_BYTES
    }

    /// Its subscriptions.
    pub fn subscriptions(&self) -> &Subscriptions
        ensures same { result.now ≡ self.now.subs }
        ensures sound { AreSoundSubs self.now.subs }
    {
        &self.subs
    }

    /// Gives it these subscriptions in place of its own.
    pub fn set_subscriptions(&mut self, subs: Subscriptions)
        requires { AreSoundSubs subs }
        ensures { self.new ≡ record self.old { subs = subs } }
    {
        self.subs = subs;
    }

    /// How many frames wait for it.
    pub fn frames(&self) -> usize
        ensures { result ≡ length self.now.mail.frames }
    {
        self.mail.frames()
    }

    /// Whether something is staged for it.
    pub fn is_told(&self) -> bool
        ensures told { result ≡ true → self.now.mail.staged ≢ [] }
        ensures quiet { result ≡ false → self.now.mail.staged ≡ [] }
    {
        self.mail.staged() > 0
    }

    /// Whether its queue has room for all that is staged for it.
    pub fn has_room_left(&self) -> bool
        ensures { result ≡ has_room_left self.now.mail }
    {
        self.mail.has_room_left()
    }

    /// Puts a reply behind the others, where nothing more is staged before it is placed. Else all stays, also for want of
    /// memory.
    pub fn add_reply(&mut self, frame: &[u8]) -> Result<(), NoMemory>
        ensures same { session_of self.new ≡ session_of self.old }
        ensures staged { self.new.mail.staged ≡ self.old.mail.staged }
        ensures ok { OnOk result (self.new.mail.replies ≡ self.old.mail.replies ++ frame.now ∷ []) }
        ensures err { OnErr result (self.new ≡ self.old) }
    {
        self.mail.add_reply(frame)
    }

    /// Lets the replies go.
    pub fn clear_replies(&mut self)
        ensures { self.new ≡ record self.old { mail = record self.old.mail { replies = [] } } }
    {
        self.mail.clear_replies();
    }

    // Comes to a stage in which it has no subscriptions.
    fn end(&mut self, stage: Stage)
        ensures { self.new ≡ record self.old { subs = []; stage = stage_of stage } }
    {
        self.stage = stage;
        self.subs.clear();
    }

    // Places the first frame that is staged for it, or the first reply, where it is served. Where the queue has no room
    // for it the session is cut instead: it keeps the frames that it has, and loses its subscriptions.
    fn place_first(&mut self)
        ensures same { session_of self.new
            ≡ placed_each (session_of self.old) (take 1 (self.old.mail.staged ++ self.old.mail.replies)) }
        ensures staged { is_live (session_of self.new) ≡ true
            → self.new.mail.staged ≡ drop 1 self.old.mail.staged }
        ensures replies { is_live (session_of self.new) ≡ true
            → self.new.mail.replies ≡ drop (1 - length self.old.mail.staged) self.old.mail.replies }
    {
        if !self.is_live() {
            return;
        }
        if !self.mail.place_first() {
            self.end(Stage::Cut);
        }
    }

    // Lets all go that is staged for a session that is not served, and its replies.
    fn unstage_dead(&mut self)
        ensures same { session_of self.new ≡ session_of self.old }
        ensures live { is_live (session_of self.old) ≡ true → self.new ≡ self.old }
        ensures dead { is_live (session_of self.old) ≡ false
            → (self.new.mail.staged ≡ []) × (self.new.mail.replies ≡ []) }
    {
        if !self.is_live() {
            self.mail.unstage();
        }
    }

    /// Places all that is staged for it, in order. Where the queue has no room for a frame the session is cut: it keeps
    /// the frames that it has, loses its subscriptions, and gets no replies. It takes no memory.
    pub fn place_staged(&mut self)
        ensures same { session_of self.new ≡ placed_each (session_of self.old) self.old.mail.staged }
        ensures staged { self.new.mail.staged ≡ [] }
        ensures replies { is_live (session_of self.new) ≡ true → self.new.mail.replies ≡ self.old.mail.replies }
    {
        // Of most sessions nothing more is looked at.
        if self.mail.staged() == 0 {
            return;
        }
        for _ in 0..self.mail.staged() {
            self.place_first();
        }
        self.unstage_dead();
    }

    /// Places its replies, in order, where all that was staged is placed; else as `place_staged` does.
    pub fn place_replies(&mut self)
        requires { self.old.mail.staged ≡ [] }
        ensures same { (replies : List Bytes) → AreReplies replies self.old
            → session_of self.new ≡ placed_each (session_of self.old) replies }
        ensures staged { self.new.mail.staged ≡ [] }
    {
        for _ in 0..self.mail.replies() {
            self.place_first();
        }
        self.unstage_dead();
    }

    /// Lets all go that is staged for it, and its replies.
    pub fn unstage(&mut self)
        ensures same { session_of self.new ≡ session_of self.old }
        ensures staged { self.new.mail.staged ≡ [] }
    {
        self.mail.unstage();
    }

    /// Lets it end behind its frames, where it is served. Its subscriptions go.
    pub fn close(&mut self)
        ensures same { session_of self.new ≡ ending (session_of self.old) }
        ensures mail { self.new.mail ≡ self.old.mail }
    {
        if self.is_live() {
            self.end(Stage::Closing);
        }
    }

    /// Hands out the first frames of its queue in place of `into`, and answers their number. What is staged is let go.
    pub fn take_frames(&mut self, into: &mut Frames) -> usize
        requires { into.old ≡ record { list = []; places = take_frames } }
        ensures given { into.new ≡ record { list = take take_frames self.old.mail.frames; places = take_frames } }
        ensures left { session_of self.new
            ≡ record (session_of self.old) { frames = drop take_frames self.old.mail.frames } }
        ensures staged { self.new.mail.staged ≡ [] }
        ensures count { result ≡ min take_frames (length self.old.mail.frames) }
    {
        self.mail.take(into)
    }

    /// Stages a message, where it hears it: for the name of its channel, and then for each of its patterns that the
    /// name meets. What it has no room for may be left out. For want of memory a part of it may be staged.
    pub fn stage_message(
        &mut self,
        alloc: Global,
        name: &Name,
        payload: &Text,
    ) -> Result<(), NoMemory>
        ensures same { session_of self.new ≡ session_of self.old }
        ensures staged { OnOk result
            (Stages (frames_for (name.now, payload.now) (listens (session_of self.old))) self.old.mail self.new.mail) }
    {
        let mut sending = Sending::new(alloc, name, payload);
        self.stage_sent(&mut sending)
    }

    /// The same, of a message on its way to more sessions than this one.
    pub(crate) fn stage_sent(&mut self, sending: &mut Sending<'_>) -> Result<(), NoMemory>
        ensures message { sending.new ≡ sending.old }
        ensures same { session_of self.new ≡ session_of self.old }
        ensures staged { OnOk result
            (Stages (frames_for sending.old (listens (session_of self.old))) self.old.mail self.new.mail) }
    {
        if !self.is_live() {
            return Ok(());
        }
        stage_heard(&self.subs, sending, &mut self.mail)
    }
}
