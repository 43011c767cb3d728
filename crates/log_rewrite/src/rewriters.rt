//! A new side is begun, gets batches, and is opened.

ghost use Rattle.std.specs.Prelude.{◌≡◌, ◌+◌, ◌-◌, ◌≤◌, ◌^◌, ℕ, List, [], length, Decides, IfOk, Ok, OnOk};
ghost use Rattle.byte_text.specs.Names.{Bytes};
ghost use Rattle.outside.specs.Causes.{HasCause};
ghost use Rattle.log_sides.specs.Texts.{IsHeading, newest, committed, written};
ghost use Rattle.log_sides.specs.States.{HeldOn, ReadsAs, SideLeads, LogOn};
ghost use Rattle.log_sides.specs.Making.{IsShut, WhileShut};
ghost use Rattle.log_rewrite.specs.NewSides.{NewSideOn, ShutOrStands};

use crate::writes::{settle, write_piece};
use log_sides::{Batch, FIRST_GATE, head_of, shut_side};
use outside::{Disk, Failed, Side, write_durably};

/// A side of the newest version that was made: it stands, and its closed gate is at this place.
#[derive(Clone, Copy, Debug, PartialEq, Eq)]
pub struct NewSide {
    pub side: Side,
    pub generation: u64,
    pub gate: u64,
}

/// A side of the newest version that is written beside the one in use. Until it is finished it is not open, whatever a
/// crash leaves.
#[derive(Drop)]
pub struct Rewriter {
    side: Side,
    generation: u64,
    gate: u64,
    ghost headed: { IsHeading newest generation },
    ghost behind: { 1 ≤ gate },
    ghost placed: { gate + 1 ≤ 2 ^ 62 },
}

impl Rewriter {
    /// Begins a side of this generation and the newest version, which is not the one in use: it holds no batch yet. At
    /// each moment on the way the side is as it was, or not open, and the other one stays.
    pub fn begin<D: Disk>(disk: &mut D, side: Side, generation: u64) -> Result<Rewriter, Failed>
        requires { IsHeading newest generation }
        ensures begun { (before : Bytes) → length before ≤ 2 ^ 62
            → ReadsAs D.crashes D.seen D.images disk.old side before
            → IfOk result (λ r. NewSideOn D.crashes D.seen D.images disk.new side generation r.gate []) }
        ensures either { (before : Bytes) → length before ≤ 2 ^ 62
            → ReadsAs D.crashes D.seen D.images disk.old side before
            → SideLeads D.crashes D.seen D.images D.moment D.left_since side (WhileShut before) disk.old disk.new }
        ensures told { D.crashes disk.new ≡ D.crashes disk.old }
        ensures cause { HasCause (D.faults disk.old) (D.faults disk.new) result }
        ensures side { IfOk result (λ r. r.side ≡ side) }
        ensures generation { IfOk result (λ r. r.generation ≡ generation) }
        ensures gate { IfOk result (λ r. r.gate ≡ 16) }
    {
        match begin_side(disk, side, generation) {
            Ok(()) => Ok(Rewriter {
                side,
                generation,
                gate: FIRST_GATE,
            }),
            Err(Failed) => Err(Failed),
        }
    }

    /// Whether the side has room for a batch whose records have so many bytes.
    pub fn has_room(&self, bytes: usize) -> bool
        ensures { Decides result (self.now.gate + bytes + 10 ≤ 2 ^ 62) }
    {
        self.gate.saturating_add((bytes as u64).saturating_add(10)) <= 1 << 62
    }

    /// Writes the records of some items as one batch, and nothing where there are none. It is not synced.
    pub fn copy_piece<D: Disk>(&mut self, disk: &mut D, piece: &Batch) -> Result<(), Failed>
        requires { self.old.gate + length piece.now + 10 ≤ 2 ^ 62 }
        ensures idle { piece.now ≡ [] → disk.new ≡ disk.old }
        ensures idle_ok { piece.now ≡ [] → result ≡ Ok tt }
        ensures idle_side { piece.now ≡ [] → self.new ≡ self.old }
        ensures grown { (batches : List Bytes)
            → NewSideOn D.crashes D.seen D.images disk.old self.old.side self.old.generation self.old.gate batches
            → OnOk result (NewSideOn D.crashes D.seen D.images disk.new self.old.side self.old.generation self.new.gate
            (committed batches piece.now)) }
        ensures either { HeldOn D.crashes D.seen D.images disk.old self.old.side IsShut
            → SideLeads D.crashes D.seen D.images D.moment D.left_since self.old.side IsShut disk.old disk.new }
        ensures told { D.crashes disk.new ≡ D.crashes disk.old }
        ensures cause { HasCause (D.faults disk.old) (D.faults disk.new) result }
        ensures side { self.new.side ≡ self.old.side }
        ensures generation { self.new.generation ≡ self.old.generation }
        ensures gate { OnOk result (self.new.gate ≤ self.old.gate + length piece.now + 10) }
    {
        self.mirror(disk, piece.written())
    }

    /// Writes a batch as the log's last commit wrote it, gates and all, and nothing where that wrote none. It is not
    /// synced.
    pub fn mirror<D: Disk>(&mut self, disk: &mut D, batch: &[u8]) -> Result<(), Failed>
        requires { self.old.gate + length batch.now ≤ 2 ^ 62 }
        ensures idle { batch.now ≡ [] → disk.new ≡ disk.old }
        ensures idle_ok { batch.now ≡ [] → result ≡ Ok tt }
        ensures idle_side { batch.now ≡ [] → self.new ≡ self.old }
        ensures grown { (batches : List Bytes) (records : Bytes) → batch.now ≡ written records
            → NewSideOn D.crashes D.seen D.images disk.old self.old.side self.old.generation self.old.gate batches
            → OnOk result
            (NewSideOn D.crashes D.seen D.images disk.new self.old.side self.old.generation self.new.gate
            (committed batches records)) }
        ensures either { HeldOn D.crashes D.seen D.images disk.old self.old.side IsShut
            → SideLeads D.crashes D.seen D.images D.moment D.left_since self.old.side IsShut disk.old disk.new }
        ensures told { D.crashes disk.new ≡ D.crashes disk.old }
        ensures cause { HasCause (D.faults disk.old) (D.faults disk.new) result }
        ensures side { self.new.side ≡ self.old.side }
        ensures generation { self.new.generation ≡ self.old.generation }
        ensures gate { OnOk result (self.new.gate ≤ self.old.gate + length batch.now) }
    {
        if batch.len() == 0 {
            return Ok(());
        }
        match write_piece(disk, self.side, self.gate, batch) {
            Ok(()) => {
                self.gate += (batch.len() - 1) as u64;
                Ok(())
            }
            Err(Failed) => Err(Failed),
        }
    }

    /// Makes all that was written safe, and opens the side. Until its gate is open the side is shut, and the other one
    /// stays.
    pub fn finish<D: Disk>(self, disk: &mut D) -> Result<NewSide, Failed>
        ensures stands { (batches : List Bytes)
            → NewSideOn D.crashes D.seen D.images disk.old self.side self.generation self.gate batches
            → IfOk result
            (λ made. LogOn D.crashes D.seen D.images disk.new self.side newest self.generation made.gate batches) }
        ensures either { (batches : List Bytes)
            → NewSideOn D.crashes D.seen D.images disk.old self.side self.generation self.gate batches
            → SideLeads D.crashes D.seen D.images D.moment D.left_since self.side
            (ShutOrStands self.generation batches) disk.old disk.new }
        ensures told { D.crashes disk.new ≡ D.crashes disk.old }
        ensures cause { HasCause (D.faults disk.old) (D.faults disk.new) result }
        ensures side { IfOk result (λ made. made.side ≡ self.side) }
        ensures generation { IfOk result (λ made. made.generation ≡ self.generation) }
        ensures headed { IfOk result (λ made. IsHeading newest made.generation) }
        ensures gate { IfOk result (λ made. made.gate ≡ self.gate) }
    {
        match open_side(disk, self.side) {
            Ok(()) => Ok(NewSide {
                side: self.side,
                generation: self.generation,
                gate: self.gate,
            }),
            Err(Failed) => Err(Failed),
        }
    }
}

// Leaves of a side a closed gate with a header behind it.
fn begin_side<D: Disk>(disk: &mut D, side: Side, generation: u64) -> Result<(), Failed>
    requires { IsHeading newest generation }
    ensures begun { (before : Bytes) → length before ≤ 2 ^ 62 → ReadsAs D.crashes D.seen D.images disk.old side before
        → OnOk result (NewSideOn D.crashes D.seen D.images disk.new side generation 16 []) }
    ensures either { (before : Bytes) → length before ≤ 2 ^ 62 → ReadsAs D.crashes D.seen D.images disk.old side before
        → SideLeads D.crashes D.seen D.images D.moment D.left_since side (WhileShut before) disk.old disk.new }
    ensures told { D.crashes disk.new ≡ D.crashes disk.old }
    ensures cause { HasCause (D.faults disk.old) (D.faults disk.new) result }
{
    match shut_side(disk, side) {
        Ok(()) => write_piece(disk, side, 1, &head_of(generation)),
        Err(Failed) => Err(Failed),
    }
}

// Makes all of a side safe, and then opens its gate.
fn open_side<D: Disk>(disk: &mut D, side: Side) -> Result<(), Failed>
    ensures stands { (generation gate : ℕ) (batches : List Bytes) → gate + 1 ≤ 2 ^ 62
        → NewSideOn D.crashes D.seen D.images disk.old side generation gate batches
        → OnOk result (LogOn D.crashes D.seen D.images disk.new side newest generation gate batches) }
    ensures either { (generation gate : ℕ) (batches : List Bytes) → gate + 1 ≤ 2 ^ 62
        → NewSideOn D.crashes D.seen D.images disk.old side generation gate batches
        → SideLeads D.crashes D.seen D.images D.moment D.left_since side
        (ShutOrStands generation batches) disk.old disk.new }
    ensures told { D.crashes disk.new ≡ D.crashes disk.old }
    ensures cause { HasCause (D.faults disk.old) (D.faults disk.new) result }
{
    match settle(disk, side) {
        Ok(()) => write_durably(disk, side, 0, &[1]),
        Err(Failed) => Err(Failed),
    }
}
