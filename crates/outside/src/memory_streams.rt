//! A source and a sink in memory.

ghost use Rattle.std.specs.Prelude.{◌≡◌, ◌<◌, ◌≤◌, ◌↔◌, ◌++◌, [], length, drop, take, min, Some, IsErr, IsTrue, OnErr};
ghost use Rattle.std.specs.Prelude.{IfOk};
ghost use Rattle.std.specs.Io.KnownBytes.{ReadConsumes};
ghost use Rattle.outside.specs.Causes.{HasCause, next_count};
ghost use Rattle.outside.specs.Memory.{Given, Taken, fails_at};

use crate::failures::Failed;
use crate::streams::{Sink, Source};
use std::alloc::Global;
use std::marker::Model;

/// Bytes in memory, given out in pieces.
pub struct BytesSource {
    bytes: Vec<u8>,
    at: usize,
    piece: usize,
    failing: Vec<u64>,
    calls: u64,
    faults: u64,
}

impl Drop for BytesSource {
    fn drop(self) {
        let BytesSource {
            bytes: _,
            at: _,
            piece: _,
            failing: _,
            calls: _,
            faults: _,
        } = self;
    }
}

impl Model for BytesSource {
    ghost Value = { Given };

    ghost view = { λ s. record {
      left = drop s.at s.bytes.items;
      piece = s.piece;
      failing = s.failing.items;
      calls = s.calls;
      faults = s.faults;
    } };

    ghost invariant = { λ s. (s.at ≤ length s.bytes.items) × (0 < s.piece) };
}

impl BytesSource {
    /// Gives `bytes`, at most `piece` of them at a call. The calls whose numbers are in `failing`, counted from
    /// 1, fail.
    pub fn new(bytes: Vec<u8>, piece: usize, failing: Vec<u64>) -> BytesSource
        requires { 0 < piece }
        ensures { result
            ≡ record { left = bytes.items; piece = piece; failing = failing.items; calls = 0; faults = 0 } }
    {
        BytesSource {
            bytes,
            at: 0,
            piece,
            failing,
            calls: 0,
            faults: 0,
        }
    }
}

impl Source for BytesSource {
    ghost left = { λ s. Some s.left };

    ghost faults = { λ s. s.faults };

    fn read(&mut self, into: &mut [u8]) -> Result<usize, Failed>
        ensures bytes { ReadConsumes (Some self.old.left) (Some self.new.left) result into.new }
        ensures cause { HasCause self.old.faults self.new.faults result }

        // Which calls fail, how many bytes another one gives, and what is left.
        ensures fails { IsErr result ↔ IsTrue (fails_at (next_count self.old.calls) self.old.failing) }
        ensures count { IfOk result (λ n. n ≡ min (min (length self.old.left) (length into.old)) self.old.piece) }
        ensures ok { IfOk result
            (λ n. self.new ≡ record self.old { left = drop n self.old.left; calls = next_count self.old.calls }) }
        ensures err { OnErr result
            (self.new ≡ record self.old { calls = next_count self.old.calls; faults = next_count self.old.faults }) }
        ensures into { IfOk result (λ n. into.new ≡ take n self.old.left ++ drop n into.old) }
        ensures into_err { OnErr result (into.new ≡ into.old) }
    {
        self.calls = self.calls.saturating_add(1);
        if self.failing.contains(&self.calls) {
            self.faults = self.faults.saturating_add(1);
            return Err(Failed);
        }
        let count = (self.bytes.len() - self.at).min(into.len()).min(self.piece);
        into[..count].copy_from_slice(&self.bytes[self.at..self.at + count]);
        self.at += count;
        Ok(count)
    }
}

/// Keeps in memory what is written to it.
pub struct BytesSink {
    bytes: Vec<u8>,
    piece: usize,
    failing: Vec<u64>,
    calls: u64,
    faults: u64,
}

impl Drop for BytesSink {
    fn drop(self) {
        let BytesSink {
            bytes: _,
            piece: _,
            failing: _,
            calls: _,
            faults: _,
        } = self;
    }
}

impl Model for BytesSink {
    ghost Value = { Taken };

    ghost view = { λ s. record {
      held = s.bytes.items;
      piece = s.piece;
      failing = s.failing.items;
      calls = s.calls;
      faults = s.faults;
    } };

    ghost invariant = { λ s. 0 < s.piece };
}

impl BytesSink {
    /// Takes at most `piece` bytes at a call. The calls whose numbers are in `failing`, counted from 1, fail.
    pub fn new(alloc: Global, piece: usize, failing: Vec<u64>) -> BytesSink
        requires { 0 < piece }
        ensures { result ≡ record { held = []; piece = piece; failing = failing.items; calls = 0; faults = 0 } }
    {
        BytesSink {
            bytes: Vec::new(alloc),
            piece,
            failing,
            calls: 0,
            faults: 0,
        }
    }

    /// The bytes that were written.
    pub fn written(&self) -> &[u8]
        ensures { result.now ≡ self.now.held }
    {
        &self.bytes
    }
}

impl Sink for BytesSink {
    ghost held = { λ s. Some s.held };

    ghost faults = { λ s. s.faults };

    /// Where no memory is left for the bytes, it fails too.
    fn write(&mut self, piece: &[u8]) -> Result<usize, Failed>
        ensures some { 0 < length piece.now → IfOk result (λ n. 0 < n) }
        ensures cause { HasCause self.old.faults self.new.faults result }

        // Which calls fail, how many bytes another one takes, and what is held then.
        ensures fails { IsTrue (fails_at (next_count self.old.calls) self.old.failing) → IsErr result }
        ensures count { IfOk result (λ n. n ≡ min (length piece.now) self.old.piece) }
        ensures ok { IfOk result
            (λ n. self.new
            ≡ record self.old { held = self.old.held ++ take n piece.now; calls = next_count self.old.calls }) }
        ensures err { OnErr result
            (self.new ≡ record self.old { calls = next_count self.old.calls; faults = next_count self.old.faults }) }
    {
        self.calls = self.calls.saturating_add(1);
        let count = piece.len().min(self.piece);
        if self.failing.contains(&self.calls)
            || self.bytes.extend_from_slice(&piece[..count]).is_err()
        {
            self.faults = self.faults.saturating_add(1);
            return Err(Failed);
        }
        Ok(count)
    }
}
