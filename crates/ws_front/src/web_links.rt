//! A link over a conversation of messages.
//!
//! What is read of it is the texts of the requests that come, one behind another, as of any other link; and each frame
//! that is written is said as one message. A message that is not the text of exactly one request is the end: neither it
//! nor anything behind it is read.

ghost use Rattle.std.specs.Prelude.{◌≡◌, ◌<◌, ◌++◌, [], length, None, Some, IfSome, IfOk, OnErr, if◌then◌else◌};
ghost use Rattle.std.specs.List.{AllByRecursion};
ghost use Rattle.outside.specs.Causes.{next_count};
ghost use Rattle.outside.specs.Links.{GotWithin, LinkFails, SentWithin, Reads, Writes};
ghost use Rattle.ws_front.specs.FrameTexts.{IsFrameText};
ghost use Rattle.ws_front.specs.Requests.{is_one_request};
ghost use Rattle.ws_front.specs.Talks.{closed};
ghost use Rattle.ws_front.specs.WebLinks.{begun, link_of, Saying};

use crate::frames::frame_end;
use crate::requests::is_one_request;
use crate::talks::{Said, Talk, Told};
use crate::unread::Unread;
use byte_text::{NoMemory, Text};
use outside::{Failed, Got, ReadyLink, Sent};
use std::alloc::Global;
use std::marker::Model;

/// So many listenings one read makes at most. Where they bring nothing to read, the caller is heard no more.
const MOST_HEARD: u32 = 65_536;

/// How far the reading of a link is.
#[derive(Clone, Copy, Debug, PartialEq, Eq)]
pub enum Phase {
    /// Messages are heard.
    Open,
    /// Nothing more is heard.
    Ended,
    /// It is to be told that hearing failed.
    Failing,
}

/// A link over a conversation of messages.
#[derive(Drop)]
pub struct WebLink<T: Talk> {
    alloc: Global,
    talk: T,
    caller: u64,
    // A message that was heard, and is not known to be a request yet.
    pending: Option<Text>,
    unread: Unread,
    phase: Phase,
    faults: u64,
}

impl<T: Talk> Model for WebLink<T> {
    ghost use Rattle.std.specs.Prelude.{IfSome};
    ghost use Rattle.std.specs.List.{AllByRecursion};
    ghost use Rattle.ws_front.specs.FrameTexts.{IsFrameText};
    ghost use Rattle.ws_front.specs.WebLinks.{WebState};

    ghost Value = { WebState };

    ghost view = { λ w. record {
      talk = T.shows w.talk;
      caller = w.caller;
      pending = w.pending;
      unread = w.unread;
      phase = w.phase;
      faults = w.faults;
    } };

    ghost invariant = { λ w. IfSome (T.shows w.talk).said (λ ms. AllByRecursion IsFrameText ms) };
}

impl<T: Talk> WebLink<T> {
    /// The link to this caller over a conversation in which nothing was said yet.
    pub fn new(alloc: Global, caller: u64, talk: T) -> WebLink<T>
        requires { IfSome (T.shows talk).said (λ ms. ms ≡ []) }
        ensures { result ≡ begun caller (T.shows talk) }
    {
        WebLink {
            alloc,
            talk,
            caller,
            pending: None,
            unread: Unread::new(alloc),
            phase: Phase::Open,
            faults: 0,
        }
    }

    /// The number of its caller.
    pub fn caller(&self) -> u64
        ensures { result ≡ self.now.caller }
    {
        self.caller
    }

    /// Its conversation: each message that was said in it is the text of one frame.
    pub fn talk(&self) -> &T
        ensures talk { T.shows result.now ≡ self.now.talk }
        ensures frames { IfSome self.now.talk.said (λ ms. AllByRecursion IsFrameText ms) }
    {
        &self.talk
    }

    /// Closes its conversation: what was heard before can still be read, and nothing more is written.
    pub fn close(&mut self)
        ensures { self.new ≡ record self.old { talk = closed self.old.talk } }
    {
        // Where no memory is left, the link ends without a word.
        let _ = self.talk.close();
    }

    // Counts a failure.
    fn fail(&mut self) -> Failed
        ensures link { LinkFails (link_of self.old) (link_of self.new) }
        ensures same { self.new ≡ record self.old { faults = next_count self.old.faults } }
    {
        self.faults = self.faults.saturating_add(1);
        Failed
    }

    // A message waits to be looked at, which is read where it is the text of one request. Whether it is.
    fn judge(&mut self, text: Text) -> bool
        requires open { self.old.phase ≡ Phase.Open }
        requires none { self.old.pending ≡ None }
        ensures link { link_of self.new ≡ link_of (record self.old { pending = Some text }) }
        ensures talk { self.new.talk ≡ self.old.talk }
    {
        match self.read_later(text.bytes()) {
            Ok(true) => true,
            Ok(false) => {
                self.phase = Phase::Ended;
                false
            }
            Err(NoMemory) => {
                self.pending = Some(text);
                self.phase = Phase::Failing;
                false
            }
        }
    }

    // Puts the bytes behind those that are read later, where they are the text of one request.
    fn read_later(&mut self, bytes: &[u8]) -> Result<bool, NoMemory>
        ensures is { IfOk result (λ is. is ≡ is_one_request bytes.now) }
        ensures put { IfOk result (λ is. self.new
            ≡ record self.old { unread = if is then self.old.unread ++ bytes.now else self.old.unread }) }
        ensures err { OnErr result (self.new ≡ self.old) }
    {
        if !is_one_request(self.alloc, bytes)? {
            return Ok(false);
        }
        self.unread.push(bytes)?;
        Ok(true)
    }

    // Hears once. Whether there may be more at once.
    fn hear(&mut self) -> bool
        requires open { self.old.phase ≡ Phase.Open }
        requires none { self.old.pending ≡ None }
        ensures link { link_of self.new ≡ link_of self.old }
        ensures said { self.new.talk.said ≡ self.old.talk.said }
    {
        let mut text = Text::new(self.alloc);
        match self.talk.hear(&mut text) {
            Ok(Said::Binary) => {
                self.pending = Some(text);
                true
            }
            Ok(Said::Quiet) => true,
            Ok(Said::Later) => false,
            Ok(Said::Other | Said::Over) => {
                self.phase = Phase::Ended;
                false
            }
            Err(_) => {
                self.phase = Phase::Failing;
                false
            }
        }
    }

    // Looks at the message that waits, or hears once. Whether there may be more at once.
    fn step(&mut self) -> bool
        ensures link { link_of self.new ≡ link_of self.old }
        ensures said { self.new.talk.said ≡ self.old.talk.said }
    {
        if !matches!(self.phase, Phase::Open) {
            return false;
        }
        match self.pending.take() {
            Some(text) => self.judge(text),
            None => self.hear(),
        }
    }

    // Hears messages until so many bytes are to be read, or none comes.
    fn gather(&mut self, room: usize)
        ensures link { link_of self.new ≡ link_of self.old }
        ensures said { self.new.talk.said ≡ self.old.talk.said }
    {
        // What is not given back now is later.
        let _ = self.unread.tidy();
        for _ in 0..MOST_HEARD {
            if self.unread.len() >= room || !self.step() {
                return;
            }
        }
        if self.unread.len() == 0 && matches!(self.phase, Phase::Open) {
            self.phase = Phase::Failing;
        }
    }

    // What a read answers that brings no byte.
    fn without_bytes(&mut self) -> Result<Got, Failed>
        requires { self.old.unread ≡ [] }
        ensures within { GotWithin result 0 }
        ensures read { Reads (link_of self.old) (link_of self.new) result [] }
        ensures talk { self.new.talk ≡ self.old.talk }
    {
        match self.phase {
            Phase::Open => Ok(Got::Later),
            Phase::Ended => Ok(Got::End),
            Phase::Failing => {
                self.phase = Phase::Open;
                Err(self.fail())
            }
        }
    }
}

impl<T: Talk> ReadyLink for WebLink<T> {
    ghost use Rattle.std.specs.Prelude.{◌≡◌, ◌<◌, length};
    ghost use Rattle.outside.specs.Links.{LinkState, GotWithin, SentWithin, Reads, Writes};
    ghost use Rattle.ws_front.specs.WebLinks.{link_of, Saying};

    ghost shows = { λ w. link_of w };

    /// What is read is the texts of the requests that come, up to the first message that is not exactly one: there is
    /// the end.
    fn read(&mut self, into: &mut [u8]) -> Result<Got, Failed>
        requires { 0 < length into.old }
        ensures within { GotWithin result (length into.new) }
        ensures read { Reads (link_of self.old) (link_of self.new) result into.new }
        ensures said { self.new.talk.said ≡ self.old.talk.said }
    {
        self.gather(into.len());
        match self.unread.give(into) {
            0 => self.without_bytes(),
            count => Ok(Got::Bytes(count)),
        }
    }

    /// The first frame is said as one message. Bytes that begin with none are a failure.
    fn write(&mut self, piece: &[u8]) -> Result<Sent, Failed>
        requires { 0 < length piece.now }
        ensures within { SentWithin result (length piece.now) }
        ensures written { Writes (link_of self.old) (link_of self.new) result piece.now }
        ensures frame { Saying self.old.talk self.new.talk result piece.now }
    {
        let Some(len) = frame_end(piece) else {
            return Err(self.fail());
        };
        match self.talk.say(&piece[..len]) {
            Ok(Told::Whole) => Ok(Sent::Bytes(len)),
            Ok(Told::Later) => Ok(Sent::Later),
            Err(_) => Err(self.fail()),
        }
    }
}
