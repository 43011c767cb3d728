//! Links in memory, which a script drives.

ghost use Rattle.std.specs.Prelude.{◌≡◌, ◌<◌, ◌-◌, ◌^◌, [], length};
ghost use Rattle.outside.specs.Causes.{next_count};
ghost use Rattle.outside.specs.Links.{LinkState, GotWithin, SentWithin, Reads, Writes};
ghost use Rattle.outside.specs.LinkScripts.{Scripted, begun, shown, next_move, later, ReadBy, WrittenBy};

use crate::failures::Failed;
use crate::links::{Got, ReadyLink, Sent};
use crate::memory_streams::{BytesSink, BytesSource};
use crate::streams::{Sink, Source};
use std::alloc::Global;
use std::collections::VecDeque;
use std::marker::Model;

/// How one call of a link moves.
#[derive(Clone, Copy, Debug, PartialEq, Eq)]
pub enum Move {
    /// By so many bytes at most; by none, it answers Later.
    Most(usize),
    /// It answers Later.
    Later,
    /// It fails.
    Fails,
}

/// What a caller does.
#[derive(Drop)]
pub struct CallerScript {
    /// All that it sends.
    pub sends: Vec<u8>,
    /// Whether it stays behind its last byte: a read then answers Later, and not the end.
    pub stays: bool,
    /// How each read moves, and behind them as much as it may.
    pub reads: Vec<Move>,
    /// How each write moves, and behind them as much as it may.
    pub writes: Vec<Move>,
}

/// A link in memory, which a script drives.
pub struct ScriptedLink {
    caller: u64,
    incoming: BytesSource,
    outgoing: BytesSink,
    stays: bool,
    reads: VecDeque<Move>,
    writes: VecDeque<Move>,
    faults: u64,
}

impl Drop for ScriptedLink {
    fn drop(self) {
        let ScriptedLink {
            caller: _,
            incoming: _,
            outgoing: _,
            stays: _,
            reads: _,
            writes: _,
            faults: _,
        } = self;
    }
}

impl Model for ScriptedLink {
    ghost Value = { Scripted };

    ghost view = { λ s. record {
      caller = s.caller;
      left = s.incoming.left;
      held = s.outgoing.held;
      stays = s.stays;
      reads = s.reads.items;
      writes = s.writes.items;
      faults = s.faults;
    } };

    ghost invariant = { λ s. (s.incoming.failing ≡ []) × (s.incoming.piece ≡ 2 ^ 64 - 1) × (s.outgoing.failing ≡ [])
        × (s.outgoing.piece ≡ 2 ^ 64 - 1) };
}

impl ScriptedLink {
    /// A link to a caller who does so, and who bears this number.
    pub fn new(alloc: Global, caller: u64, script: CallerScript) -> ScriptedLink
        ensures { result ≡ begun caller script }
    {
        ScriptedLink {
            caller,
            incoming: BytesSource::new(script.sends, usize::MAX, Vec::new(alloc)),
            outgoing: BytesSink::new(alloc, usize::MAX, Vec::new(alloc)),
            stays: script.stays,
            reads: VecDeque::from(script.reads),
            writes: VecDeque::from(script.writes),
            faults: 0,
        }
    }

    /// The number of its caller.
    pub fn caller(&self) -> u64
        ensures { result ≡ self.now.caller }
    {
        self.caller
    }

    /// The bytes that were written.
    pub fn written(&self) -> &[u8]
        ensures { result.now ≡ self.now.held }
    {
        self.outgoing.written()
    }

    // Counts a failure.
    fn fail(&mut self) -> Failed
        ensures { self.new ≡ record self.old { faults = next_count self.old.faults } }
    {
        self.faults = self.faults.saturating_add(1);
        Failed
    }

    // A read that may bring so many bytes.
    fn give(&mut self, most: usize, into: &mut [u8]) -> Result<Got, Failed>
        requires { 0 < length into.old }
        ensures within { GotWithin result (length into.new) }
        ensures read { Reads (shown self.old) (shown self.new) result into.new }
        ensures by { ReadBy (Move.Most most) self.old (length into.old) result }
        ensures same { self.new ≡ record self.old { left = self.new.left; faults = self.new.faults } }
    {
        let count = most.min(into.len());
        if count == 0 {
            return Ok(Got::Later);
        }
        match self.incoming.read(&mut into[..count]) {
            Ok(0) if self.stays => Ok(Got::Later),
            Ok(0) => Ok(Got::End),
            Ok(count) => Ok(Got::Bytes(count)),
            Err(Failed) => Err(self.fail()),
        }
    }

    // A write that may take so many bytes.
    fn take(&mut self, most: usize, piece: &[u8]) -> Result<Sent, Failed>
        requires { 0 < length piece.now }
        ensures within { SentWithin result (length piece.now) }
        ensures written { Writes (shown self.old) (shown self.new) result piece.now }
        ensures by { WrittenBy (Move.Most most) (length piece.now) result }
        ensures same { self.new ≡ record self.old { held = self.new.held; faults = self.new.faults } }
    {
        let count = most.min(piece.len());
        if count == 0 {
            return Ok(Sent::Later);
        }
        match self.outgoing.write(&piece[..count]) {
            Ok(count) => Ok(Sent::Bytes(count)),
            Err(Failed) => Err(self.fail()),
        }
    }
}

impl ReadyLink for ScriptedLink {
    ghost use Rattle.outside.specs.Links.{LinkState, GotWithin, SentWithin, Reads, Writes};
    ghost use Rattle.outside.specs.LinkScripts.{shown};

    ghost shows = { λ s. shown s };

    /// It moves as its script says.
    fn read(&mut self, into: &mut [u8]) -> Result<Got, Failed>
        requires { 0 < length into.old }
        ensures within { GotWithin result (length into.new) }
        ensures read { Reads (shown self.old) (shown self.new) result into.new }
        ensures by { ReadBy (next_move self.old.reads) self.old (length into.old) result }
        ensures same { self.new
            ≡ record self.old { left = self.new.left; reads = later self.old.reads; faults = self.new.faults } }
    {
        match self.reads.pop_front() {
            Some(Move::Fails) => Err(self.fail()),
            Some(Move::Later) => Ok(Got::Later),
            Some(Move::Most(most)) => self.give(most, into),
            None => self.give(usize::MAX, into),
        }
    }

    /// It moves as its script says. Where no memory is left for the bytes, it fails too.
    fn write(&mut self, piece: &[u8]) -> Result<Sent, Failed>
        requires { 0 < length piece.now }
        ensures within { SentWithin result (length piece.now) }
        ensures written { Writes (shown self.old) (shown self.new) result piece.now }
        ensures by { WrittenBy (next_move self.old.writes) (length piece.now) result }
        ensures same { self.new
            ≡ record self.old { held = self.new.held; writes = later self.old.writes; faults = self.new.faults } }
    {
        match self.writes.pop_front() {
            Some(Move::Fails) => Err(self.fail()),
            Some(Move::Later) => Ok(Sent::Later),
            Some(Move::Most(most)) => self.take(most, piece),
            None => self.take(usize::MAX, piece),
        }
    }
}
