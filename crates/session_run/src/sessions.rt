//! A session as a value that is stepped.
//!
//! It is read, asked and taken from only where nothing of it is to be written. So it holds at most the rest of one
//! block, the requests of one turn, and the frames of one take.

ghost use Rattle.std.specs.Prelude.{◌≡◌, ◌≤◌, ◌<◌, ◌++◌, ◌∷◌, ◌||◌, [], length, take, drop, true, false, None, Decides};
ghost use Rattle.std.specs.List.{list_all, list_any};
ghost use Rattle.std.specs.Io.KnownBytes.{Appends, Keeps};
ghost use Rattle.byte_text.specs.Names.{Bytes};
ghost use Rattle.world_model.specs.Outcomes.{IsCount, is_proper, take_outcome};
ghost use Rattle.world_model.specs.declared.events.Outcome.TheVariants as outcome;
ghost use Rattle.repl_stream.specs.Texts.{max_part, part_text};
ghost use Rattle.outside.specs.Links.{GotWithin, SentWithin, Reads, Writes};
ghost use Rattle.session_run.specs.Live.{sets_channel};
ghost use Rattle.session_run.specs.Outs.{given_bytes};
ghost use Rattle.session_run.specs.Sessions.{opened, demand, owed, WantsToRead, WantsTurn, WantsTake};
ghost use Rattle.session_run.specs.Sessions.{WantsToWrite, IsOver, CanDismiss, goes_on, end_of_asking};
ghost use Rattle.session_run.specs.Steps.{got_bytes, UnlessMemory, UnlessLost, Readies, Answered, Takes, WritesOut};
ghost use Rattle.session_run.specs.Steps.{Dismisses, Cuts};
ghost use Rattle.session_run.specs.Filling.{IsFilled, IsFit};

use crate::ends::InEnd;
use crate::filling::{fill_from, refill};
use crate::live::{put_shown, sets_one};
use crate::parts::put_part;
use crate::phases::{Asking, TakeEnd, end_of};
use crate::waiting_bytes::WaitingBytes;
use outside::{Failed, Got, ReadyLink, Sent};
use repl_stream::Part;
use resp_frames::Requests;
use std::alloc::Global;
use std::marker::Model;
use std::mem;
use world_model::{Answers, AskedList, Frames, Taken};

/// A session: its link, and what it has in hand.
#[derive(Drop)]
pub struct Session<K: ReadyLink> {
    alloc: Global,
    link: K,
    number: u32,
    reader: Requests,
    // What was read and not looked at yet.
    rest: WaitingBytes,
    // The requests that wait for their calls.
    asked: AskedList,
    // What was taken and not written yet.
    out: WaitingBytes,
    asking: Asking,
    taking: Option<TakeEnd>,
    // Its calls have set the channel of its live fence.
    is_fenced: bool,
}

impl<K: ReadyLink> Model for Session<K> {
    ghost use Rattle.session_run.specs.Sessions.{SessionState};
    ghost use Rattle.session_run.specs.Filling.{IsFit};

    ghost Value = { SessionState };

    ghost view = { λ s. record {
      line = K.shows s.link;
      number = s.number;
      held = s.reader;
      rest = s.rest;
      asked = s.asked;
      out = s.out;
      asking = s.asking;
      taking = s.taking;
      is_fenced = s.is_fenced;
    } };

    ghost invariant = { λ s. IsFit s.reader s.asked s.asking };
}

// What is left of the requests of a turn behind those that were answered Ok.
#[tactic(auto, using(crate::proofs::Filled::proper_drop))]
fn left_of(asked: AskedList, served: usize) -> AskedList
    requires within { served ≤ length asked }
    requires few { length asked ≤ 64 }
    requires proper { list_all is_proper asked ≡ true }
    ensures left { result ≡ drop served asked }
    ensures few { length result ≤ 64 }
    ensures proper { list_all is_proper result ≡ true }
{
    let mut asked = asked;
    asked.pass(served);
    asked
}

// Goes on behind the answers to all that was asked: makes requests of what is kept, or comes to the end that a fault
// brought.
fn ask_on(
    alloc: Global,
    number: u32,
    asking: Asking,
    reader: &mut Requests,
    rest: &mut WaitingBytes,
    asked: &mut AskedList,
) -> Asking
    requires fit { IsFit reader.old asked.old asking }
    requires bare { asked.old ≡ [] }
    ensures fit { IsFit reader.new asked.new result }
    ensures open { asking ≡ Asking.Open → IsFilled number reader.old rest.old reader.new rest.new asked.new result }
    ensures broken { asking ≡ Asking.Breaking → result ≡ Asking.Ended InEnd.Broken }
    ensures ended { goes_on asking ≡ false → result ≡ asking }
    ensures same { (asking ≡ Asking.Open → ⊥)
        → (reader.new ≡ reader.old) × (rest.new ≡ rest.old) × (asked.new ≡ asked.old) }
{
    match asking {
        Asking::Open => refill(alloc, number, reader, rest, asked),
        Asking::Breaking => Asking::Ended(InEnd::Broken),
        Asking::Ended(end) => Asking::Ended(end),
    }
}

impl<K: ReadyLink> Session<K> {
    /// The session of this number, before the first byte of its link.
    pub fn new(alloc: Global, link: K, number: u32) -> Session<K>
        ensures { result ≡ opened (K.shows link) number }
    {
        Session {
            alloc,
            link,
            number,
            reader: Requests::new(alloc),
            rest: WaitingBytes::new(alloc),
            asked: AskedList::new(alloc),
            out: WaitingBytes::new(alloc),
            asking: Asking::Open,
            taking: None,
            is_fenced: false,
        }
    }

    /// Its number.
    pub fn number(&self) -> u32
        ensures { result ≡ self.now.number }
    {
        self.number
    }

    /// Whether it is to be read.
    pub fn wants_to_read(&self) -> bool
        ensures { Decides result (WantsToRead self.now) }
    {
        matches!(self.asking, Asking::Open)
            && self.taking.is_none()
            && self.rest.is_empty()
            && self.asked.len() == 0
            && self.out.is_empty()
    }

    /// Whether its calls are to be made.
    pub fn wants_turn(&self) -> bool
        ensures { Decides result (WantsTurn self.now) }
    {
        !matches!(self.asking, Asking::Ended(_))
            && self.taking.is_none()
            && self.asked.len() > 0
            && self.out.is_empty()
    }

    /// Whether its frames may be taken.
    pub fn wants_take(&self) -> bool
        ensures { Decides result (WantsTake self.now) }
    {
        self.taking.is_none() && self.out.is_empty()
    }

    /// Whether it is to be written.
    pub fn wants_to_write(&self) -> bool
        ensures { Decides result (WantsToWrite self.now) }
    {
        !self.out.is_empty() && !matches!(self.taking, Some(TakeEnd::WriteFault | TakeEnd::Late))
    }

    /// Whether nothing more comes of it, so that its link is to be shut.
    pub fn is_over(&self) -> bool
        ensures { Decides result (IsOver self.now) }
    {
        self.taking.is_some() && !self.wants_to_write()
    }

    /// Whether the server may end its asking: all that was read of it is answered, but for the beginning of a request.
    pub fn may_be_dismissed(&self) -> bool
        ensures { Decides result (CanDismiss self.now) }
    {
        matches!(self.asking, Asking::Open) && self.rest.is_empty() && self.asked.len() == 0
    }

    /// How its asking ended, if it did. The hall is to close the session then.
    pub fn end_of_asking(&self) -> Option<InEnd>
        ensures { result ≡ end_of_asking self.now.asking }
    {
        match self.asking {
            Asking::Ended(end) => Some(end),
            _ => None,
        }
    }

    /// How the taking of its frames ended, if it did.
    pub fn end_of_taking(&self) -> Option<TakeEnd>
        ensures { result ≡ self.now.taking }
    {
        self.taking
    }

    /// Whether its calls have set the channel of its live fence, which is to be deleted behind its removal.
    pub fn is_fenced(&self) -> bool
        ensures { result ≡ self.now.is_fenced }
    {
        self.is_fenced
    }

    /// Reads once, and makes requests of what came, as many as one turn carries; the rest is kept. What it is to be
    /// asked is what the bytes ask, in order, each once, and in place of a live search the two requests that it becomes. At the end of the link, at its failure and for want of memory
    /// the asking ends so.
    pub fn on_readable(&mut self, block: &mut [u8]) -> Result<Got, Failed>
        requires some { 0 < length block.old }
        requires ready { WantsToRead self.old }
        ensures within { GotWithin result (length block.new) }
        ensures read { Reads self.old.line self.new.line result block.new }
        ensures readies { Readies self.old self.new result block.new }
        ensures demand { UnlessMemory self.new.asking
            ((more : Bytes) → demand self.old (got_bytes result block.new ++ more) ≡ demand self.new more) }
    {
        let answer = self.link.read(block);
        match answer {
            Ok(Got::Bytes(count)) => {
                self.asking = fill_from(
                    self.alloc,
                    self.number,
                    &mut self.reader,
                    &block[..count],
                    &mut self.rest,
                    &mut self.asked,
                );
            }
            Ok(Got::End) => self.asking = Asking::Ended(InEnd::Over),
            Ok(Got::Later) => {}
            Err(Failed) => self.asking = Asking::Ended(InEnd::ReadFault),
        }
        answer
    }

    /// Hands out the requests that wait, for their calls. They are to come back with the answers.
    pub fn move_asked(&mut self) -> AskedList
        ensures moved { result ≡ self.old.asked }
        ensures bare { self.new ≡ record self.old { asked = [] } }
        ensures few { length result ≤ 64 }
        ensures proper { list_all is_proper result ≡ true }
    {
        let bare = AskedList::new(self.alloc);
        mem::replace(&mut self.asked, bare)
    }

    /// Takes back the requests of a turn with their answers. Those that were answered Ok are asked no more; Full keeps
    /// the rest; any other answer ends the asking so. Where all are answered, requests are made of what is kept. One of
    /// those answered Ok may have set the channel of its live fence.
    pub fn on_answered(&mut self, asked: AskedList, answers: Answers)
        requires moved { self.old.asked ≡ [] }
        requires goes { goes_on self.old.asking ≡ true }
        requires few { length asked ≤ 64 }
        requires proper { list_all is_proper asked ≡ true }
        requires count { IsCount answers.served answers.end (length asked) }
        ensures answered { Answered (record self.old { is_fenced = self.new.is_fenced }) self.new
            asked answers.served answers.end }
        ensures fenced { self.new.is_fenced
            ≡ (self.old.is_fenced || list_any (sets_channel self.old.number) (take answers.served asked)) }
        ensures demand { UnlessMemory self.new.asking
            ((more : Bytes) → demand (record self.old { asked = asked }) more
            ≡ take answers.served asked ++ demand self.new more) }
    {
        self.is_fenced = self.is_fenced || sets_one(self.number, &asked, answers.served);
        self.asked = left_of(asked, answers.served);
        if let Some(end) = end_of(answers.end) {
            self.asking = Asking::Ended(end);
        } else if self.asked.len() == 0 {
            self.asking = ask_on(
                self.alloc,
                self.number,
                self.asking,
                &mut self.reader,
                &mut self.rest,
                &mut self.asked,
            );
        }
    }

    /// Puts what is shown of what a take gave behind what is to be written: of a message of its live fence the payload
    /// alone. For want of memory the frames are lost, and the taking ends so.
    pub fn on_taken(&mut self, taken: Taken, frames: &Frames)
        requires { WantsTake self.old }
        ensures takes { Takes self.old self.new (take_outcome taken frames.now.list) }
        ensures owed { UnlessLost self.new.taking
            (Appends (owed self.old) (owed self.new) (given_bytes self.old.number (take_outcome taken frames.now.list))) }
    {
        match taken {
            Taken::Some(_) => {
                if put_shown(&mut self.out, self.number, frames).is_err() {
                    self.taking = Some(TakeEnd::Memory);
                }
            }
            Taken::Empty => {}
            Taken::Ended => self.taking = Some(TakeEnd::Ended),
            Taken::LogFault => self.taking = Some(TakeEnd::LogFault),
            Taken::Stopped => self.taking = Some(TakeEnd::Stopped),
        }
    }

    /// Puts a part of the log with its bytes behind what is to be written, as one frame that a take gave. For want of
    /// memory it is lost, and the taking ends so.
    #[tactic(auto, using(crate::proofs::PartShown::part_shown))]
    pub fn on_part(&mut self, part: &Part, bytes: &[u8])
        requires ready { WantsTake self.old }
        requires short { length bytes.now ≤ max_part }
        ensures takes { Takes self.old self.new (outcome.Given (part_text part.now bytes.now ∷ [])) }
        ensures owed { UnlessLost self.new.taking
            (Appends (owed self.old) (owed self.new)
            (given_bytes self.old.number (outcome.Given (part_text part.now bytes.now ∷ [])))) }
    {
        if put_part(self.alloc, &mut self.out, part, bytes).is_err() {
            self.taking = Some(TakeEnd::Memory);
        }
    }

    /// Writes once. All that was written and is to be written stays the same. Where the link fails, the taking ends so.
    pub fn on_writable(&mut self) -> Result<Sent, Failed>
        requires { WantsToWrite self.old }
        ensures within { SentWithin result (length self.old.out) }
        ensures written { Writes self.old.line self.new.line result self.old.out }
        ensures writes { WritesOut self.old self.new result }
        ensures owed { Keeps (owed self.old) (owed self.new) }
    {
        let answer = self.link.write(self.out.bytes());
        match answer {
            Ok(Sent::Bytes(count)) => self.out.pass(count),
            Ok(Sent::Later) => {}
            Err(Failed) => self.taking = Some(TakeEnd::WriteFault),
        }
        answer
    }

    /// Ends its asking by the server's will. Nothing is left to be asked, and what is to be written stays.
    pub fn dismiss(&mut self)
        requires { CanDismiss self.old }
        ensures { Dismisses self.old self.new }
    {
        self.asking = Asking::Ended(InEnd::Dismissed);
    }

    /// Gives up what its link doesn't take: nothing more is taken for it or written.
    pub fn cut(&mut self)
        requires { self.old.taking ≡ None }
        ensures { Cuts self.old self.new }
    {
        self.taking = Some(TakeEnd::Late);
    }

    /// Its link, to be shut.
    pub fn into_link(self) -> K
        ensures { K.shows result ≡ self.line }
    {
        let Session {
            alloc: _,
            link,
            number: _,
            reader: _,
            rest: _,
            asked: _,
            out: _,
            asking: _,
            taking: _,
            is_fenced: _,
        } = self;
        link
    }
}
