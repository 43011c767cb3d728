//! Bytes that wait, of which the first go first.

ghost use Rattle.std.specs.Prelude.{◌≡◌, ◌≤◌, ◌↔◌, ◌++◌, [], length, drop, OnOk, OnErr, IsTrue};

use byte_text::NoMemory;
use std::alloc::Global;
use std::marker::Model;

// The most bytes of room that is kept where none wait.
const KEPT_ROOM: usize = 16_384;

/// Bytes that wait, of which the first go first.
pub(crate) struct WaitingBytes {
    alloc: Global,
    bytes: Vec<u8>,
    start: usize,
}

impl Drop for WaitingBytes {
    fn drop(self) {
        let WaitingBytes {
            alloc: _,
            bytes: _,
            start: _,
        } = self;
    }
}

impl Model for WaitingBytes {
    ghost use Rattle.std.specs.Prelude.{List, ℕ, drop, length, ◌≤◌};

    ghost Value = { List ℕ };

    ghost view = { λ w. drop w.start w.bytes.items };

    ghost invariant = { λ w. w.start ≤ length w.bytes.items };
}

impl WaitingBytes {
    /// None yet.
    pub(crate) fn new(alloc: Global) -> WaitingBytes
        ensures { result ≡ [] }
    {
        WaitingBytes {
            alloc,
            bytes: Vec::new(alloc),
            start: 0,
        }
    }

    /// All that wait.
    pub(crate) fn bytes(&self) -> &[u8]
        ensures { result.now ≡ self.now }
    {
        &self.bytes[self.start..]
    }

    /// Whether none wait.
    pub(crate) fn is_empty(&self) -> bool
        ensures { IsTrue result ↔ (self.now ≡ []) }
    {
        self.bytes().is_empty()
    }

    /// Puts bytes last. For want of memory all is as before.
    pub(crate) fn put(&mut self, bytes: &[u8]) -> Result<(), NoMemory>
        ensures ok { OnOk result (self.new ≡ self.old ++ bytes.now) }
        ensures err { OnErr result (self.new ≡ self.old) }
    {
        self.bytes.extend_from_slice(bytes)?;
        Ok(())
    }

    /// Lets the first `count` bytes go. Behind the last, much room is given back.
    pub(crate) fn pass(&mut self, count: usize)
        requires { count ≤ length self.old }
        ensures { self.new ≡ drop count self.old }
    {
        self.start += count;
        if self.start == self.bytes.len() {
            self.clear();
        }
    }

    /// Lets all bytes go, and much room with them.
    pub(crate) fn clear(&mut self)
        ensures { self.new ≡ [] }
    {
        self.start = 0;
        if self.bytes.capacity() > KEPT_ROOM {
            self.bytes = Vec::new(self.alloc);
        } else {
            self.bytes.clear();
        }
    }
}
