//! The log on a side of a disk: records are pushed, and a commit makes them stand.

ghost use Rattle.std.specs.Prelude.{Decides, ◌≡◌, ◌+◌, ◌≤◌, ◌<◌, ◌^◌, ◌++◌, ℕ, List, [], length, OnOk, OnErr};
ghost use Rattle.std.specs.Prelude.{Ok, IfOk, IfErr, MatchResult, take, drop};
ghost use Rattle.byte_text.specs.Names.{Bytes};
ghost use Rattle.outside.specs.Causes.{HasCause, Rose};
ghost use Rattle.log_sides.specs.Texts.{StandsRound, IsHeading, newest, committed, front_text, written};
ghost use Rattle.log_sides.specs.Making.{WhileMade};
ghost use Rattle.log_sides.specs.States.{ReadsAs, SideLeads, LogOn};

use crate::commits::append_batch;
use byte_text::NoMemory;
use log_sides::{Batch, FIRST_GATE, NEWEST, make_side};
use outside::{Disk, Failed, Side};
use std::alloc::Global;
use std::mem;

/// The log on a side of a disk, and the records that wait for the next commit.
pub struct AppendLog {
    side: Side,
    version: u8,
    generation: u64,
    gate: u64,
    pending: Batch,
    last: Batch,
    ghost headed: { IsHeading version generation },
    ghost placed: { gate ≤ 2 ^ 62 },
    ghost fits: { 0 < length pending → gate + length pending + 10 ≤ 2 ^ 62 },
}

impl Drop for AppendLog {
    fn drop(self) {
        let AppendLog {
            side: _,
            version: _,
            generation: _,
            gate: _,
            pending: _,
            last: _,
        } = self;
    }
}

/// Why there is no log.
#[derive(Clone, Copy, Debug, PartialEq, Eq)]
pub enum LogFault {
    /// A call of the disk failed.
    Disk,
    Memory,
}

impl AppendLog {
    /// The log of a side of this version and generation whose closed gate stands at this place. Nothing is pending.
    pub fn over(
        alloc: Global,
        side: Side,
        version: u8,
        generation: u64,
        gate: u64,
    ) -> Result<AppendLog, NoMemory>
        requires headed { IsHeading version generation }
        requires gate { gate ≤ 2 ^ 62 }
        ensures side { IfOk result (λ log. log.side ≡ side) }
        ensures version { IfOk result (λ log. log.version ≡ version) }
        ensures generation { IfOk result (λ log. log.generation ≡ generation) }
        ensures gate { IfOk result (λ log. log.gate ≡ gate) }
        ensures pending { IfOk result (λ log. log.pending ≡ []) }
        ensures last { IfOk result (λ log. log.last ≡ []) }
    {
        match (Batch::new(alloc), Batch::new(alloc)) {
            (Ok(pending), Ok(last)) => Ok(AppendLog {
                side,
                version,
                generation,
                gate,
                pending,
                last,
            }),
            _ => Err(NoMemory),
        }
    }

    /// Makes a side of this generation and the newest version, and the log over it. Without memory for that the disk is
    /// left alone.
    pub fn make<D: Disk>(
        alloc: Global,
        disk: &mut D,
        side: Side,
        generation: u64,
    ) -> Result<AppendLog, LogFault>
        requires { IsHeading newest generation }
        ensures stands { (before : Bytes) → length before ≤ 2 ^ 62
            → ReadsAs D.crashes D.seen D.images disk.old side before
            → IfOk result (λ log. LogOn D.crashes D.seen D.images disk.new side newest generation log.gate []) }
        ensures either { (before : Bytes) → length before ≤ 2 ^ 62
            → ReadsAs D.crashes D.seen D.images disk.old side before
            → MatchResult result
            (λ log. SideLeads D.crashes D.seen D.images D.moment D.left_since side
            (WhileMade generation before) disk.old disk.new)
            (λ fault. fault ≡ LogFault.Disk
            → SideLeads D.crashes D.seen D.images D.moment D.left_since side
            (WhileMade generation before) disk.old disk.new) }
        ensures memory { IfErr result (λ fault. fault ≡ LogFault.Memory → disk.new ≡ disk.old) }
        ensures told { D.crashes disk.new ≡ D.crashes disk.old }
        ensures later { D.faults disk.old ≤ D.faults disk.new }
        ensures cause { IfErr result (λ fault. fault ≡ LogFault.Disk → Rose (D.faults disk.old) (D.faults disk.new)) }
        ensures side { IfOk result (λ log. log.side ≡ side) }
        ensures version { IfOk result (λ log. log.version ≡ newest) }
        ensures generation { IfOk result (λ log. log.generation ≡ generation) }
        ensures gate { IfOk result (λ log. log.gate ≡ 16) }
        ensures pending { IfOk result (λ log. log.pending ≡ []) }
        ensures last { IfOk result (λ log. log.last ≡ []) }
    {
        match AppendLog::over(alloc, side, NEWEST, generation, FIRST_GATE) {
            Ok(log) => match make_side(disk, side, generation) {
                Ok(()) => Ok(log),
                Err(Failed) => Err(LogFault::Disk),
            },
            Err(NoMemory) => Err(LogFault::Memory),
        }
    }

    /// Whether the side has room for the pending batch with a record of so many bytes.
    pub fn has_room(&self, bytes: usize) -> bool
        ensures { Decides result (self.now.gate + length self.now.pending + bytes + 10 ≤ 2 ^ 62) }
    {
        let batch = self.pending.len().saturating_add(bytes).saturating_add(10);
        self.gate.saturating_add(batch as u64) <= 1 << 62
    }

    /// Puts a record of the newest version into the pending batch. At want of memory the batch is as before.
    pub fn push(&mut self, entry: &[u8]) -> Result<(), NoMemory>
        requires newest { self.old.version ≡ newest }
        requires room { self.old.gate + length self.old.pending + length entry.now + 10 ≤ 2 ^ 62 }
        ensures ok { OnOk result (self.new.pending ≡ self.old.pending ++ entry.now) }
        ensures err { OnErr result (self.new.pending ≡ self.old.pending) }
        ensures side { self.new.side ≡ self.old.side }
        ensures version { self.new.version ≡ self.old.version }
        ensures generation { self.new.generation ≡ self.old.generation }
        ensures gate { self.new.gate ≡ self.old.gate }
        ensures last { self.new.last ≡ self.old.last }
    {
        self.pending.push(entry)
    }

    /// How many bytes the pending records have.
    pub fn pending(&self) -> u64
        ensures { result ≡ length self.now.pending }
    {
        self.pending.len() as u64
    }

    /// How many bytes the side has in front of the gate where the next batch goes, and the pending records with them.
    pub fn bytes(&self) -> u64
        ensures { result ≡ self.now.gate + length self.now.pending }
    {
        self.gate + self.pending()
    }

    /// The place of the closed gate of the side in use, behind all that was committed.
    pub fn gate(&self) -> u64
        ensures { result ≡ self.now.gate }
    {
        self.gate
    }

    /// Reads what was committed to the side, its header and gates with it, from a place on, as far as there is room, and
    /// answers how many bytes.
    pub fn read<D: Disk>(&self, disk: &mut D, from: u64, into: &mut [u8]) -> Result<usize, Failed>
        requires { from ≤ self.now.gate }
        ensures bytes { (batches : List Bytes)
            → LogOn D.crashes D.seen D.images disk.old self.now.side self.now.version self.now.generation self.now.gate
            batches
            → IfOk result
            (λ n. take n into.new
            ≡ take (length into.old) (drop from (front_text self.now.version self.now.generation batches))) }
        ensures bound { IfOk result (λ n. n ≤ length into.new) }
        ensures safe { (bytes : Bytes) → ReadsAs D.crashes D.seen D.images disk.old self.now.side bytes
            → ReadsAs D.crashes D.seen D.images disk.new self.now.side bytes }
        ensures same { (bytes : Bytes) → ReadsAs D.crashes D.seen D.images disk.old self.now.side bytes
            → SideLeads D.crashes D.seen D.images D.moment D.left_since self.now.side
            (λ x. x ≡ bytes) disk.old disk.new }
        ensures told { D.crashes disk.new ≡ D.crashes disk.old }
        ensures cause { HasCause (D.faults disk.old) (D.faults disk.new) result }
    {
        let room = into.len().min((self.gate - from) as usize);
        disk.read(self.side, from, &mut into[..room])
    }

    /// The version of the side in use.
    pub fn version(&self) -> u8
        ensures { result ≡ self.now.version }
    {
        self.version
    }

    /// The generation of the side in use.
    pub fn generation(&self) -> u64
        ensures { result ≡ self.now.generation }
    {
        self.generation
    }

    /// The side in use.
    pub fn side(&self) -> Side
        ensures { result ≡ self.now.side }
    {
        self.side
    }

    /// What the last commit wrote, gates and all: nothing where nothing was pending.
    pub fn last_batch(&self) -> &[u8]
        ensures { result.now ≡ written self.now.last }
    {
        self.last.written()
    }

    /// Makes another side of the newest version the one in use, whose closed gate stands at this place. Nothing is
    /// pending.
    pub fn turn_to(&mut self, side: Side, generation: u64, gate: u64)
        requires headed { IsHeading newest generation }
        requires pending { self.old.pending ≡ [] }
        requires gate { gate ≤ 2 ^ 62 }
        ensures side { self.new.side ≡ side }
        ensures version { self.new.version ≡ newest }
        ensures generation { self.new.generation ≡ generation }
        ensures gate { self.new.gate ≡ gate }
        ensures pending { self.new.pending ≡ [] }
        ensures last { self.new.last ≡ self.old.last }
    {
        self.side = side;
        self.version = NEWEST;
        self.generation = generation;
        self.gate = gate;
    }

    /// Makes the pending batch stand, by a write of it behind the closed gate and then one of the gate, each of which
    /// is synced. With nothing pending no call of the disk is made. After `Failed` the log stands for the batches
    /// without or with the pending one, and is not to be used again.
    pub fn commit<D: Disk>(&mut self, disk: &mut D) -> Result<(), Failed>
        ensures idle { self.old.pending ≡ [] → disk.new ≡ disk.old }
        ensures idle_ok { self.old.pending ≡ [] → result ≡ Ok tt }
        ensures idle_gate { self.old.pending ≡ [] → self.new.gate ≡ self.old.gate }
        ensures stands { (batches : List Bytes)
            → LogOn D.crashes D.seen D.images disk.old self.old.side self.old.version self.old.generation self.old.gate
            batches
            → OnOk result
            (LogOn D.crashes D.seen D.images disk.new self.old.side self.old.version self.old.generation self.new.gate
            (committed batches self.old.pending)) }
        ensures either { (batches : List Bytes)
            → LogOn D.crashes D.seen D.images disk.old self.old.side self.old.version self.old.generation self.old.gate
            batches
            → SideLeads D.crashes D.seen D.images D.moment D.left_since self.old.side
            (StandsRound self.old.version self.old.generation batches self.old.pending) disk.old disk.new }
        ensures told { D.crashes disk.new ≡ D.crashes disk.old }
        ensures cause { HasCause (D.faults disk.old) (D.faults disk.new) result }
        ensures side { self.new.side ≡ self.old.side }
        ensures version { self.new.version ≡ self.old.version }
        ensures generation { self.new.generation ≡ self.old.generation }
        ensures gate { OnOk result (self.new.gate ≤ self.old.gate + length self.old.pending + 9) }
        ensures pending { OnOk result (self.new.pending ≡ []) }
        ensures err { OnErr result (self.new.pending ≡ self.old.pending) }
        ensures last { OnOk result (self.new.last ≡ self.old.pending) }
    {
        if self.pending.len() == 0 {
            self.last.cut_to(0);
            return Ok(());
        }
        match append_batch(disk, self.side, self.gate, self.pending.bytes()) {
            Ok(()) => {
                self.gate += self.pending.len() as u64 + 9;
                mem::swap(&mut self.pending, &mut self.last);
                self.pending.cut_to(0);
                Ok(())
            }
            Err(Failed) => Err(Failed),
        }
    }
}
