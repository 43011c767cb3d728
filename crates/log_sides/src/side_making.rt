//! A new side is made: its gate is closed until all behind it is safe.
//!
//! That a length goes past the end is said by the number, not by saying that no batch stands there: that would say the
//! same only of sides whose bytes are bytes, which nothing else has to promise.

ghost use Rattle.std.specs.Prelude.{◌≡◌, ◌≤◌, ◌^◌, [], ◌∷◌, length, IfOk, OnOk};
ghost use Rattle.byte_text.specs.Names.{Bytes};
ghost use Rattle.outside.specs.Causes.{HasCause};
ghost use Rattle.log_sides.specs.Texts.{StandsFor, IsHeading, newest};
ghost use Rattle.log_sides.specs.Making.{is_shut, IsShut, IsBare, IsMade, WhileShut, WhileMade, head_text};
ghost use Rattle.log_sides.specs.States.{HasNow, HeldOn, SafeOn, ReadsAs, SideLeads};

use crate::versions::NEWEST;
use outside::{Disk, Failed, Side, write_durably};

/// The place of the closed gate of a side without a batch.
pub const FIRST_GATE: u64 = 16;

/// Makes a side of this generation and the newest version, without a batch. Its gate is closed first, and opened when
/// all else is safe.
pub fn make_side<D: Disk>(disk: &mut D, side: Side, generation: u64) -> Result<(), Failed>
    requires { IsHeading newest generation }
    ensures stands { (before : Bytes) → length before ≤ 2 ^ 62 → ReadsAs D.crashes D.seen D.images disk.old side before
        → OnOk result (SafeOn D.crashes D.seen D.images disk.new side (StandsFor newest generation [])) }
    ensures either { (before : Bytes) → length before ≤ 2 ^ 62 → ReadsAs D.crashes D.seen D.images disk.old side before
        → SideLeads D.crashes D.seen D.images D.moment D.left_since side
        (WhileMade generation before) disk.old disk.new }
    ensures told { D.crashes disk.new ≡ D.crashes disk.old }
    ensures cause { HasCause (D.faults disk.old) (D.faults disk.new) result }
{
    match make_closed(disk, side, generation) {
        Ok(()) => write_durably(disk, side, 0, &[1]),
        Err(Failed) => Err(Failed),
    }
}

// All of a new side but its open gate.
fn make_closed<D: Disk>(disk: &mut D, side: Side, generation: u64) -> Result<(), Failed>
    ensures made { (before : Bytes) → length before ≤ 2 ^ 62 → ReadsAs D.crashes D.seen D.images disk.old side before
        → OnOk result (SafeOn D.crashes D.seen D.images disk.new side (IsMade generation)) }
    ensures either { (before : Bytes) → length before ≤ 2 ^ 62 → ReadsAs D.crashes D.seen D.images disk.old side before
        → SideLeads D.crashes D.seen D.images D.moment D.left_since side (WhileShut before) disk.old disk.new }
    ensures told { D.crashes disk.new ≡ D.crashes disk.old }
    ensures cause { HasCause (D.faults disk.old) (D.faults disk.new) result }
{
    match shut_side(disk, side) {
        Ok(()) => write_durably(disk, side, 1, &head_of(generation)),
        Err(Failed) => Err(Failed),
    }
}

/// What is written behind the gate of a new side: the header of the newest version, and a closed gate.
pub fn head_of(generation: u64) -> [u8; 16]
    ensures { result ≡ head_text generation }
{
    let mut head = [b'T', b'F', b'L', NEWEST, 0, 0, 0, 0, 0, 0, 0, 0, 0, 0, 0, 0];
    head[7..15].copy_from_slice(&generation.to_be_bytes());
    head
}

/// Leaves of a side a closed gate alone, which is not synced.
pub fn shut_side<D: Disk>(disk: &mut D, side: Side) -> Result<(), Failed>
    ensures bare { (before : Bytes) → length before ≤ 2 ^ 62 → ReadsAs D.crashes D.seen D.images disk.old side before
        → OnOk result (HasNow (D.seen disk.new) side IsBare) }
    ensures shut { (before : Bytes) → length before ≤ 2 ^ 62 → ReadsAs D.crashes D.seen D.images disk.old side before
        → OnOk result (HeldOn D.crashes D.seen D.images disk.new side IsShut) }
    ensures either { (before : Bytes) → length before ≤ 2 ^ 62 → ReadsAs D.crashes D.seen D.images disk.old side before
        → SideLeads D.crashes D.seen D.images D.moment D.left_since side (WhileShut before) disk.old disk.new }
    ensures told { D.crashes disk.new ≡ D.crashes disk.old }
    ensures cause { HasCause (D.faults disk.old) (D.faults disk.new) result }
{
    match shut_gate(disk, side) {
        Ok(()) => cut_to_gate(disk, side),
        Err(Failed) => Err(Failed),
    }
}

// Cuts what stands behind a closed gate.
fn cut_to_gate<D: Disk>(disk: &mut D, side: Side) -> Result<(), Failed>
    ensures bare { HeldOn D.crashes D.seen D.images disk.old side IsShut
        → OnOk result (HasNow (D.seen disk.new) side IsBare) }
    ensures either { HeldOn D.crashes D.seen D.images disk.old side IsShut
        → SideLeads D.crashes D.seen D.images D.moment D.left_since side IsShut disk.old disk.new }
    ensures told { D.crashes disk.new ≡ D.crashes disk.old }
    ensures cause { HasCause (D.faults disk.old) (D.faults disk.new) result }
{
    match disk.len(side) {
        Ok(len) => { if len > 1 { disk.cut(side, 1) } else { Ok(()) } }
        Err(Failed) => Err(Failed),
    }
}

// Closes the gate of a side, where it has none or an open one.
fn shut_gate<D: Disk>(disk: &mut D, side: Side) -> Result<(), Failed>
    ensures shut { (before : Bytes) → length before ≤ 2 ^ 62 → ReadsAs D.crashes D.seen D.images disk.old side before
        → OnOk result (SafeOn D.crashes D.seen D.images disk.new side IsShut) }
    ensures either { (before : Bytes) → length before ≤ 2 ^ 62 → ReadsAs D.crashes D.seen D.images disk.old side before
        → SideLeads D.crashes D.seen D.images D.moment D.left_since side (WhileShut before) disk.old disk.new }
    ensures told { D.crashes disk.new ≡ D.crashes disk.old }
    ensures cause { HasCause (D.faults disk.old) (D.faults disk.new) result }
{
    match has_shut_gate(disk, side) {
        Ok(true) => Ok(()),
        Ok(false) => write_durably(disk, side, 0, &[0]),
        Err(Failed) => Err(Failed),
    }
}

// Whether the side has a gate, and it is closed.
fn has_shut_gate<D: Disk>(disk: &mut D, side: Side) -> Result<bool, Failed>
    ensures value { (before : Bytes) → ReadsAs D.crashes D.seen D.images disk.old side before
        → IfOk result (λ b. b ≡ is_shut before) }
    ensures safe { (before : Bytes) → ReadsAs D.crashes D.seen D.images disk.old side before
        → ReadsAs D.crashes D.seen D.images disk.new side before }
    ensures same { (before : Bytes) → ReadsAs D.crashes D.seen D.images disk.old side before
        → SideLeads D.crashes D.seen D.images D.moment D.left_since side (λ x. x ≡ before) disk.old disk.new }
    ensures told { D.crashes disk.new ≡ D.crashes disk.old }
    ensures cause { HasCause (D.faults disk.old) (D.faults disk.new) result }
{
    let mut gate = [1];
    match disk.read(side, 0, &mut gate) {
        Ok(count) => Ok(count == 1 && gate[0] != 1),
        Err(Failed) => Err(Failed),
    }
}
