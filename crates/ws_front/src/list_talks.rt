//! A conversation in memory, which a script drives.

ghost use Rattle.std.specs.Prelude.{◌≡◌, ◌<◌, ◌≤◌, ◌++◌, ◌∷◌, [], length, drop, slice_get, true, Some, Ok, Err, OnOk, OnErr};
ghost use Rattle.outside.specs.Causes.{next_count};
ghost use Rattle.outside.specs.LinkScripts.{later};
ghost use Rattle.ws_front.specs.Talks.{Hears, Says, closed};
ghost use Rattle.ws_front.specs.declared.talks.TalkFault.{TalkFault};
ghost use Rattle.ws_front.specs.ListTalks.{Listed, shown, begun, ended, HeardBy, SaidBy};
ghost use Rattle.ws_front.specs.declared.talks.Said.TheVariants.{Over};
ghost use Rattle.ws_front.specs.declared.talks.TalkFault.TheVariants.{Failed, Memory};

use crate::talks::{Message, Said, Talk, TalkFault, Told};
use byte_text::{NoMemory, Text};
use std::alloc::Global;
use std::collections::VecDeque;
use std::marker::Model;

/// What one listening brings.
#[derive(Drop)]
pub enum Listening {
    /// A message.
    Comes(Message),
    /// Nothing that concerns the listener.
    Quiet,
    /// Nothing yet.
    Later,
    /// The conversation fails.
    Fails,
}

/// How one saying goes.
#[derive(Clone, Copy, Debug, PartialEq, Eq)]
pub enum Saying {
    /// The message is said.
    Whole,
    /// Not yet.
    Later,
    /// The conversation fails.
    Fails,
}

/// A conversation in memory, which a script drives: what each listening brings, and that it is over behind them; and
/// how each saying goes, and behind them that the message is said.
pub struct ListTalk {
    alloc: Global,
    listenings: Vec<Listening>,
    // So many of them have passed.
    passed: usize,
    sayings: VecDeque<Saying>,
    said: Vec<Text>,
    is_closed: bool,
    faults: u64,
}

impl Drop for ListTalk {
    fn drop(self) {
        let ListTalk {
            alloc: _,
            listenings: _,
            passed: _,
            sayings: _,
            said: _,
            is_closed: _,
            faults: _,
        } = self;
    }
}

impl Model for ListTalk {
    ghost Value = { Listed };

    ghost view = { λ t. record {
      listenings = drop t.passed t.listenings.items;
      sayings = t.sayings.items;
      said = t.said.items;
      is_closed = t.is_closed;
      faults = t.faults;
    } };

    ghost invariant = { λ t. (t.passed ≤ length t.listenings.items)
        × (t.is_closed ≡ true → t.passed ≡ length t.listenings.items) };
}

impl ListTalk {
    /// A conversation in which this happens.
    pub fn new(alloc: Global, listenings: Vec<Listening>, sayings: Vec<Saying>) -> ListTalk
        ensures { result ≡ begun listenings.items sayings.items }
    {
        ListTalk {
            alloc,
            listenings,
            passed: 0,
            sayings: VecDeque::from(sayings),
            said: Vec::new(alloc),
            is_closed: false,
            faults: 0,
        }
    }

    /// How many messages were said.
    pub fn said(&self) -> usize
        ensures { result ≡ length self.now.said }
    {
        self.said.len()
    }

    /// The message that was said at this place, counted from 0.
    pub fn said_at(&self, at: usize) -> &[u8]
        requires { at < length self.now.said }
        ensures { slice_get self.now.said at ≡ Some result.now }
    {
        self.said[at].bytes()
    }

    // A message was said.
    fn keep(&mut self, bytes: &[u8]) -> Result<(), NoMemory>
        ensures ok { OnOk result (self.new ≡ record self.old { said = self.old.said ++ bytes.now ∷ [] }) }
        ensures err { OnErr result (self.new ≡ self.old) }
    {
        let text = Text::of(self.alloc, bytes)?;
        self.said.push(text)?;
        Ok(())
    }

    // Counts a failure.
    fn fail(&mut self) -> TalkFault
        ensures fault { result ≡ TalkFault.Failed }
        ensures same { self.new ≡ record self.old { faults = next_count self.old.faults } }
    {
        self.faults = self.faults.saturating_add(1);
        TalkFault::Failed
    }
}

impl Talk for ListTalk {
    ghost use Rattle.std.specs.Prelude.{◌≡◌, true, Ok, Err};
    ghost use Rattle.ws_front.specs.Talks.{TalkState, Hears, Says, closed};
    ghost use Rattle.ws_front.specs.ListTalks.{shown};
    ghost use Rattle.ws_front.specs.declared.talks.Said.TheVariants.{Over};
    ghost use Rattle.ws_front.specs.declared.talks.TalkFault.TheVariants.{Failed};

    ghost shows = { λ t. shown t };

    /// It hears as its script says.
    fn hear(&mut self, into: &mut Text) -> Result<Said, TalkFault>
        ensures heard { Hears (shown self.old) (shown self.new) into.old into.new result }
        ensures closed { self.old.is_closed ≡ true → result ≡ Ok Over }
        ensures by { HeardBy self.old.listenings result }
        ensures passed { (result ≡ Err Memory → ⊥) → self.new.listenings ≡ later self.old.listenings }
        ensures kept { result ≡ Err Memory → self.new.listenings ≡ self.old.listenings }
        ensures sayings { self.new.sayings ≡ self.old.sayings }
    {
        if self.is_closed {
            return Ok(Said::Over);
        }
        let Some(listening) = self.listenings.get(self.passed) else {
            return Ok(Said::Over);
        };
        let heard = match listening {
            Listening::Comes(Message::Binary(text)) => match into.push(text.bytes()) {
                Ok(()) => Ok(Said::Binary),
                Err(_) => return Err(TalkFault::Memory),
            },
            Listening::Comes(Message::Other) => Ok(Said::Other),
            Listening::Quiet => Ok(Said::Quiet),
            Listening::Later => Ok(Said::Later),
            Listening::Fails => Err(TalkFault::Failed),
        };
        self.passed += 1;
        if heard.is_err() {
            return Err(self.fail());
        }
        heard
    }

    /// It says as its script says.
    fn say(&mut self, bytes: &[u8]) -> Result<Told, TalkFault>
        ensures said { Says (shown self.old) (shown self.new) bytes.now result }
        ensures closed { self.old.is_closed ≡ true → result ≡ Err Failed }
        ensures by { SaidBy self.old.is_closed self.old.sayings result }
        ensures sayings { self.new.sayings ≡ later self.old.sayings }
        ensures listenings { self.new.listenings ≡ self.old.listenings }
    {
        let saying = self.sayings.pop_front();
        if self.is_closed {
            return Err(self.fail());
        }
        match saying {
            Some(Saying::Later) => Ok(Told::Later),
            Some(Saying::Fails) => Err(self.fail()),
            Some(Saying::Whole) | None => match self.keep(bytes) {
                Ok(()) => Ok(Told::Whole),
                Err(NoMemory) => Err(TalkFault::Memory),
            },
        }
    }

    /// What its script has left to be heard is heard no more.
    fn close(&mut self) -> Result<(), NoMemory>
        ensures closes { shown self.new ≡ closed (shown self.old) }
        ensures ended { self.new ≡ ended self.old }
        ensures never { OnErr result ⊥ }
    {
        self.passed = self.listenings.len();
        self.is_closed = true;
        Ok(())
    }
}
