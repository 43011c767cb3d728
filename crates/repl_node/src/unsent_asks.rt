//! The bytes of an ask that are still to be written.

ghost use Rattle.std.specs.Prelude.{◌≡◌, ◌≤◌, ◌↔◌, [], length, drop, OnOk, OnErr, IsTrue};
ghost use Rattle.repl_stream.specs.Texts.{ask_text};

use byte_text::{NoMemory, Text};
use repl_stream::{Ask, push_ask};
use std::alloc::Global;
use std::marker::Model;

/// The bytes of an ask that are still to be written.
#[derive(Drop)]
pub(crate) struct UnsentAsk {
    text: Text,
    sent: usize,
}

impl Model for UnsentAsk {
    ghost use Rattle.std.specs.Prelude.{List, ℕ, drop, length, ◌≤◌};

    ghost Value = { List ℕ };

    ghost view = { λ u. drop u.sent u.text };

    ghost invariant = { λ u. u.sent ≤ length u.text };
}

impl UnsentAsk {
    /// None yet.
    pub(crate) fn new(alloc: Global) -> UnsentAsk
        ensures { result ≡ [] }
    {
        UnsentAsk {
            text: Text::new(alloc),
            sent: 0,
        }
    }

    /// All that are to be written.
    pub(crate) fn bytes(&self) -> &[u8]
        ensures { result.now ≡ self.now }
    {
        &self.text.bytes()[self.sent..]
    }

    /// Whether none are.
    pub(crate) fn is_empty(&self) -> bool
        ensures { IsTrue result ↔ (self.now ≡ []) }
    {
        self.bytes().is_empty()
    }

    /// This ask is to be written, in place of what was. For want of memory nothing is.
    pub(crate) fn put(&mut self, ask: Ask) -> Result<(), NoMemory>
        ensures ok { OnOk result (self.new ≡ ask_text ask) }
        ensures err { OnErr result (self.new ≡ []) }
    {
        self.text.truncate(0);
        self.sent = 0;
        push_ask(&mut self.text, ask)
    }

    /// The first `count` bytes were written.
    pub(crate) fn pass(&mut self, count: usize)
        requires { count ≤ length self.old }
        ensures { self.new ≡ drop count self.old }
    {
        let left = self.bytes().len() - count;
        self.sent = self.text.len() - left;
    }
}
