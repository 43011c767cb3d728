//! The batches of a side are read and taken, block by block.

ghost use Rattle.std.specs.Prelude.{◌≡◌, ◌+◌, ◌≤◌, ◌<◌, ◌^◌, ◌++◌, ℕ, List, [], None, length, OnOk, IfOk, IfErr};
ghost use Rattle.byte_text.specs.Names.{Bytes};
ghost use Rattle.outside.specs.Causes.{Rose};
ghost use Rattle.log_sides.specs.Texts.{gate_place, newest, with_batch};
ghost use Rattle.log_sides.specs.States.{ReadsAs};
ghost use Rattle.append_log.specs.Reading.{IsAtGate, IsInBatch};
ghost use Rattle.journal.specs.Openings.{HasNoRecord, IsRefused, IsBroken, Looked};
ghost use Rattle.journal.specs.Replaying.{TookPiece, TookBatch, TookAll};

use crate::replays::{Refusal, Replay};
use append_log::{Gate, Reader};
use outside::{Disk, Failed};

/// Why a side was not read to its end.
#[derive(Clone, Copy, Debug, PartialEq, Eq)]
pub(crate) enum Stop {
    /// It is damaged at this place.
    Broken(u64),
    /// A call of the disk failed.
    Disk,
    Memory,
}

/// Reads a side of this version to its closed gate, and answers the gate's place.
pub(crate) fn replay_side<D: Disk, R: Replay>(
    disk: &mut D,
    replay: &mut R,
    version: u8,
    mut reader: Reader,
    block: &mut [u8],
) -> Result<u64, Stop>
    requires block { 0 < length block.old }
    requires known { 1 ≤ version }
    requires latest { version ≤ newest }
    requires first { R.took replay.old newest [] [] }
    ensures took { IfOk result
        (λ gate. TookAll R.took R.fault D.crashes D.seen D.images disk.old reader.side version reader.len reader.at gate
        replay.new) }
    ensures placed { IfOk result (λ gate. gate ≤ reader.len) }
    ensures broken { (g : ℕ) (bytes : Bytes) → ReadsAs D.crashes D.seen D.images disk.old reader.side bytes
        → IsAtGate version g [] reader.len reader.at bytes
        → IfErr result (λ stop. (place : ℕ) → stop ≡ Stop.Broken place → IsBroken R.fault version g bytes place) }
    ensures looked { Looked D.crashes D.seen D.images D.moment D.left_since D.faults reader.side disk.old disk.new }
    ensures cause { IfErr result (λ stop. stop ≡ Stop.Disk → Rose (D.faults disk.old) (D.faults disk.new)) }
{
    replay.begin(version);
    'batches: loop {
        match reader.next_batch(disk) {
            Ok(Gate::Open(_)) => match replay_batch(disk, replay, &mut reader, block) {
                Ok(()) => {}
                Err(stop) => return Err(stop),
            },
            Ok(Gate::Closed) => return Ok(reader.place()),
            Ok(Gate::Damaged(place)) => return Err(Stop::Broken(place)),
            Err(Failed) => return Err(Stop::Disk),
        }
    }
}

// Reads a batch whose length was read.
fn replay_batch<D: Disk, R: Replay>(
    disk: &mut D,
    replay: &mut R,
    reader: &mut Reader,
    block: &mut [u8],
) -> Result<(), Stop>
    requires block { 0 < length block.old }
    ensures took { (v : ℕ) (batches : List Bytes) → R.took replay.old v batches []
        → OnOk result
        (TookBatch R.took R.fault D.crashes D.seen D.images disk.old reader.old.side v batches reader.old.len
        reader.old.left reader.old.at reader.new.at replay.new) }
    ensures broken { (v : ℕ) (batches : List Bytes) (g : ℕ) (bytes : Bytes) → R.took replay.old v batches []
        → ReadsAs D.crashes D.seen D.images disk.old reader.old.side bytes
        → IsInBatch v g batches [] reader.old.len reader.old.left reader.old.at bytes
        → IfErr result
        (λ stop. (place : ℕ) → stop ≡ Stop.Broken place → HasNoRecord (R.fault v) v g batches bytes place) }
    ensures looked { Looked D.crashes D.seen D.images D.moment D.left_since D.faults reader.old.side disk.old disk.new }
    ensures cause { IfErr result (λ stop. stop ≡ Stop.Disk → Rose (D.faults disk.old) (D.faults disk.new)) }
    ensures on { OnOk result (reader.old.at ≤ reader.new.at) }
    ensures side { reader.new.side ≡ reader.old.side }
    ensures len { reader.new.len ≡ reader.old.len }
    ensures block_len { length block.new ≡ length block.old }
{
    let start = reader.place();
    'pieces: while reader.left() > 0 {
        match take_piece(disk, replay, reader, block, start) {
            Ok(()) => {}
            Err(stop) => return Err(stop),
        }
    }
    reader.skip();
    end_batch(replay, start)
}

// Reads a piece of a batch whose first byte stands at `start`.
fn take_piece<D: Disk, R: Replay>(
    disk: &mut D,
    replay: &mut R,
    reader: &mut Reader,
    block: &mut [u8],
    start: u64,
) -> Result<(), Stop>
    requires some { 0 < reader.old.left }
    requires block { 0 < length block.old }
    ensures took { (v : ℕ) (batches : List Bytes) (part : Bytes) → R.took replay.old v batches part
        → OnOk result
        (TookPiece R.took R.fault D.crashes D.seen D.images disk.old reader.old.side v batches part reader.old.len
        reader.old.left reader.old.at reader.new.left reader.new.at replay.new) }
    ensures broken { (v : ℕ) (batches : List Bytes) (part : Bytes) (g : ℕ) (bytes : Bytes)
        → R.took replay.old v batches part
        → ReadsAs D.crashes D.seen D.images disk.old reader.old.side bytes
        → IsInBatch v g batches part reader.old.len reader.old.left reader.old.at bytes
        → start ≡ gate_place v g batches + 9
        → IfErr result
        (λ stop. (place : ℕ) → stop ≡ Stop.Broken place → HasNoRecord (R.fault v) v g batches bytes place) }
    ensures looked { Looked D.crashes D.seen D.images D.moment D.left_since D.faults reader.old.side disk.old disk.new }
    ensures cause { IfErr result (λ stop. stop ≡ Stop.Disk → Rose (D.faults disk.old) (D.faults disk.new)) }
    ensures on { OnOk result (reader.new.left < reader.old.left) }
    ensures at { OnOk result (reader.old.at ≤ reader.new.at) }
    ensures side { reader.new.side ≡ reader.old.side }
    ensures len { reader.new.len ≡ reader.old.len }
    ensures block_len { length block.new ≡ length block.old }
{
    match reader.next_piece(disk, block) {
        Ok(count) => {
            // A disk that tells what it holds does not read nothing here.
            if count == 0 {
                return Err(Stop::Broken(start));
            }
            take_read(replay, &block[..count], start)
        }
        Err(Failed) => Err(Stop::Disk),
    }
}

// What was read of a batch.
fn take_read<R: Replay>(replay: &mut R, piece: &[u8], start: u64) -> Result<(), Stop>
    ensures took { (v : ℕ) (batches : List Bytes) (part : Bytes) → R.took replay.old v batches part
        → OnOk result (R.took replay.new v batches (part ++ piece.now)) }
    ensures broken { (v : ℕ) (batches : List Bytes) (part : Bytes) → R.took replay.old v batches part
        → start + length part + length piece.now ≤ 2 ^ 62
        → IfErr result (λ stop. (place : ℕ) → stop ≡ Stop.Broken place
        → (rest : Bytes) → IsRefused (R.fault v) start place ((part ++ piece.now) ++ rest)) }
    ensures cause { IfErr result (λ stop. stop ≡ Stop.Disk → ⊥) }
{
    match replay.take(piece) {
        Ok(()) => Ok(()),
        Err(Refusal::NoRecord(at)) => Err(Stop::Broken(start.saturating_add(at))),
        Err(Refusal::Memory) => Err(Stop::Memory),
    }
}

// The end of a batch.
fn end_batch<R: Replay>(replay: &mut R, start: u64) -> Result<(), Stop>
    ensures took { (v : ℕ) (batches : List Bytes) (part : Bytes) → R.took replay.old v batches part
        → OnOk result (R.took replay.new v (with_batch batches part) []) }
    ensures whole { (v : ℕ) (batches : List Bytes) (part : Bytes) → R.took replay.old v batches part
        → OnOk result (R.fault v part ≡ None) }
    ensures broken { (v : ℕ) (batches : List Bytes) (part : Bytes) → R.took replay.old v batches part
        → start + length part ≤ 2 ^ 62
        → IfErr result (λ stop. (place : ℕ) → stop ≡ Stop.Broken place → IsRefused (R.fault v) start place part) }
    ensures cause { IfErr result (λ stop. stop ≡ Stop.Disk → ⊥) }
{
    match replay.end() {
        Ok(()) => Ok(()),
        Err(Refusal::NoRecord(at)) => Err(Stop::Broken(start.saturating_add(at))),
        Err(Refusal::Memory) => Err(Stop::Memory),
    }
}
