//! Bytes that were heard and not read yet.

ghost use Rattle.std.specs.Prelude.{◌≡◌, ◌++◌, [], length, take, drop, min, OnOk, OnErr};

use byte_text::{NoMemory, Text};
use std::alloc::Global;
use std::marker::Model;

/// The most bytes of room that is kept where none are left.
const KEPT_ROOM: usize = 16_384;

/// Bytes that were heard and not read yet, of which the first are read first.
#[derive(Drop)]
pub(crate) struct Unread {
    alloc: Global,
    text: Text,
    // So many of them were read.
    start: usize,
}

impl Model for Unread {
    ghost use Rattle.std.specs.Prelude.{List, ℕ, drop, length, ◌≤◌};

    ghost Value = { List ℕ };

    ghost view = { λ u. drop u.start u.text };

    ghost invariant = { λ u. u.start ≤ length u.text };
}

impl Unread {
    /// None.
    pub(crate) fn new(alloc: Global) -> Unread
        ensures { result ≡ [] }
    {
        Unread {
            alloc,
            text: Text::new(alloc),
            start: 0,
        }
    }

    /// The bytes.
    pub(crate) fn bytes(&self) -> &[u8]
        ensures { result.now ≡ self.now }
    {
        &self.text.bytes()[self.start..]
    }

    /// How many there are.
    pub(crate) fn len(&self) -> usize
        ensures { result ≡ length self.now }
    {
        self.text.len() - self.start
    }

    /// Puts bytes last. At want of memory all is as before.
    pub(crate) fn push(&mut self, bytes: &[u8]) -> Result<(), NoMemory>
        ensures ok { OnOk result (self.new ≡ self.old ++ bytes.now) }
        ensures err { OnErr result (self.new ≡ self.old) }
    {
        self.text.push(bytes)
    }

    /// Gives back the room of what was read. At want of memory all is as before.
    pub(crate) fn tidy(&mut self) -> Result<(), NoMemory>
        ensures { self.new ≡ self.old }
    {
        if self.start == 0 {
            return Ok(());
        }
        let text = Text::of(self.alloc, self.bytes())?;
        self.text = text;
        self.start = 0;
        Ok(())
    }

    /// Puts the first bytes into the front of `into`, as many as fit, and answers how many. They are gone then.
    pub(crate) fn give(&mut self, into: &mut [u8]) -> usize
        ensures count { result ≡ min (length self.old) (length into.old) }
        ensures given { take result into.new ≡ take result self.old }
        ensures left { self.new ≡ drop result self.old }
        ensures room { length into.new ≡ length into.old }
    {
        let held = self.text.len();
        let count = (held - self.start).min(into.len());
        into[..count].copy_from_slice(&self.bytes()[..count]);
        self.start += count;
        if self.start == held && self.start <= KEPT_ROOM {
            self.text.truncate(0);
            self.start = 0;
        }
        count
    }
}
