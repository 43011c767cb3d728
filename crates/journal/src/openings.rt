//! A journal is opened: the sides are made safe, the side in use is read and replayed, and where no log was begun one
//! is.

ghost use Rattle.std.specs.Prelude.{◌≡◌, ◌≤◌, ◌<◌, ◌^◌, ◌⊎◌, ℕ, [], Some, true, None, length, IfOk, IfErr};
ghost use Rattle.outside.specs.Causes.{Rose};
ghost use Rattle.outside.specs.Sides.{Sides};
ghost use Rattle.outside.specs.Crashes.{LeavesOnly};
ghost use Rattle.log_sides.specs.Texts.{IsHeading, newest};
ghost use Rattle.journal.specs.Logs.{HoldsLog};
ghost use Rattle.journal.specs.Keeping.{KeptOn};
ghost use Rattle.outside.specs.declared.sides.Side.{Side};
ghost use Rattle.append_log.specs.Heads.{IsSized};
ghost use Rattle.append_log.specs.Logs.{IsFresh};
ghost use Rattle.journal.specs.Openings.{IsDamaged, IsBrokenIn, AllSafeOn, IsUsed, IsLeftByOpening, IsUnopened};
ghost use Rattle.journal.specs.Openings.{opened_version, opened_generation, opened_len, fault_in};
ghost use Rattle.journal.specs.Opened.{IsReplayed, LogRead};

use crate::replays::Replay;
use crate::side_replays::{Stop, replay_side};
use append_log::{AppendLog, LogFault, Reader, Start, start_log};
use byte_text::NoMemory;
use log_sides::FIRST_GATE;
use outside::{Disk, Failed, Side};
use std::alloc::Global;

/// How many bytes are read at once.
pub(crate) const BLOCK: usize = 65536;

/// Why a disk was not opened.
#[derive(Clone, Copy, Debug, PartialEq, Eq)]
pub enum OpenFault {
    /// The sides hold no log that can be read: where.
    Damaged { side: Side, place: u64 },
    /// A call of the disk failed.
    Disk,
    Memory,
}

/// A disk that was not opened, and why.
#[derive(Drop)]
pub struct Unopened<D> {
    pub disk: D,
    pub why: OpenFault,
}

/// The log of a side in use, which has so many bytes.
#[derive(Drop)]
pub(crate) struct UsedLog {
    pub(crate) log: AppendLog,
    pub(crate) len: u64,
}

/// The log on a disk. What it holds is replayed; where no log was begun, one of the newest version is.
pub(crate) fn open_log<D: Disk, R: Replay>(
    alloc: Global,
    disk: &mut D,
    replay: &mut R,
    block: &mut [u8],
) -> Result<UsedLog, OpenFault>
    requires first { R.took replay.old newest [] [] }
    requires block { 0 < length block.old }
    ensures opened { IfOk result
        (λ u. IsReplayed R.took R.fault D.crashes D.seen D.moment D.left_since disk.old disk.new replay.new
        u.log.version
        (λ batches. KeptOn D.crashes D.seen D.images disk.new u.log.side u.log.version u.log.generation u.log.gate
        None batches [])) }
    ensures leaves { (s : Sides) → D.seen disk.old ≡ Some s → D.crashes disk.old ≡ true
        → LeavesOnly D.moment D.left_since disk.old disk.new (IsLeftByOpening (D.images disk.old) s) }
    ensures same { (s : Sides) → D.seen disk.old ≡ Some s → IfErr result (IsUnopened (D.seen disk.new) s) }
    ensures damaged { (s : Sides) → D.seen disk.old ≡ Some s
        → IfErr result
        (λ fault. (side : Side) (place : ℕ) → fault ≡ OpenFault.Damaged side place → IsDamaged R.fault s side place) }
    ensures settled { (s : Sides) → D.seen disk.old ≡ Some s
        → IfErr result
        (λ fault. (side : Side) (place : ℕ) → fault ≡ OpenFault.Damaged side place
        → AllSafeOn D.crashes D.seen D.images disk.new s) }
    ensures told { D.crashes disk.new ≡ D.crashes disk.old }
    ensures later { D.faults disk.old ≤ D.faults disk.new }
    ensures cause { IfErr result (λ fault. fault ≡ OpenFault.Disk → Rose (D.faults disk.old) (D.faults disk.new)) }
    ensures version { (s : Sides) → D.seen disk.old ≡ Some s → IfOk result (λ u. u.log.version ≡ opened_version s) }
    ensures generation { (s : Sides) → D.seen disk.old ≡ Some s
        → IfOk result (λ u. u.log.generation ≡ opened_generation s) }
    ensures len { (s : Sides) → D.seen disk.old ≡ Some s → IfOk result (λ u. u.len ≡ opened_len s) }
    ensures short { IfOk result (λ u. u.len ≤ 2 ^ 62) }
    ensures gate { IfOk result (λ u. u.log.gate ≤ u.len) }
    ensures pending { IfOk result (λ u. u.log.pending ≡ []) }
{
    match start_log(disk) {
        Ok(Start::Fresh) => begin_log(alloc, disk),
        Ok(
            Start::Standing {
                side,
                version,
                generation,
                len,
            },
        ) => read_log(alloc, disk, replay, block, side, version, generation, len),
        Ok(Start::Damaged { side, place }) => Err(OpenFault::Damaged { side, place }),
        Err(Failed) => Err(OpenFault::Disk),
    }
}

// Begins a log on a fresh disk.
fn begin_log<D: Disk>(alloc: Global, disk: &mut D) -> Result<UsedLog, OpenFault>
    ensures kept { (s : Sides) → AllSafeOn D.crashes D.seen D.images disk.old s → IsFresh s
        → IfOk result
        (λ u. KeptOn D.crashes D.seen D.images disk.new u.log.side u.log.version u.log.generation u.log.gate
        None [] []) }
    ensures leaves { (s : Sides) → AllSafeOn D.crashes D.seen D.images disk.old s → IsFresh s
        → D.crashes disk.old ≡ true
        → LeavesOnly D.moment D.left_since disk.old disk.new (HoldsLog newest []) }
    ensures same { (s : Sides) → AllSafeOn D.crashes D.seen D.images disk.old s → IsFresh s
        → IfErr result (IsUnopened (D.seen disk.new) s) }
    ensures damaged { IfErr result (λ fault. (side : Side) (place : ℕ) → fault ≡ OpenFault.Damaged side place → ⊥) }
    ensures told { D.crashes disk.new ≡ D.crashes disk.old }
    ensures later { D.faults disk.old ≤ D.faults disk.new }
    ensures cause { IfErr result (λ fault. fault ≡ OpenFault.Disk → Rose (D.faults disk.old) (D.faults disk.new)) }
    ensures version { IfOk result (λ u. u.log.version ≡ newest) }
    ensures generation { IfOk result (λ u. u.log.generation ≡ 1) }
    ensures len { IfOk result (λ u. u.len ≡ 17) }
    ensures gate { IfOk result (λ u. u.log.gate ≤ u.len) }
    ensures pending { IfOk result (λ u. u.log.pending ≡ []) }
{
    match AppendLog::make(alloc, disk, Side::A, 1) {
        Ok(log) => Ok(UsedLog {
            log,
            len: FIRST_GATE + 1,
        }),
        Err(LogFault::Disk) => Err(OpenFault::Disk),
        Err(LogFault::Memory) => Err(OpenFault::Memory),
    }
}

// Reads the log of a side in use.
fn read_log<D: Disk, R: Replay>(
    alloc: Global,
    disk: &mut D,
    replay: &mut R,
    block: &mut [u8],
    side: Side,
    version: u8,
    generation: u64,
    len: u64,
) -> Result<UsedLog, OpenFault>
    requires sized { IsSized version generation len }
    requires first { R.took replay.old newest [] [] }
    requires block { 0 < length block.old }
    ensures read { IfOk result
        (λ u. LogRead R.took R.fault D.crashes D.seen D.images disk.old side version generation len
        replay.new
        (λ batches. KeptOn D.crashes D.seen D.images disk.new u.log.side u.log.version u.log.generation u.log.gate
        None batches [])) }
    ensures leaves { (s : Sides) → AllSafeOn D.crashes D.seen D.images disk.old s → D.crashes disk.old ≡ true
        → LeavesOnly D.moment D.left_since disk.old disk.new (λ c. c ≡ s) }
    ensures settled { (s : Sides) → AllSafeOn D.crashes D.seen D.images disk.old s
        → AllSafeOn D.crashes D.seen D.images disk.new s }
    ensures damaged { (s : Sides) → AllSafeOn D.crashes D.seen D.images disk.old s
        → IsUsed s side version generation len
        → IfErr result
        (λ fault. (there : Side) (place : ℕ) → fault ≡ OpenFault.Damaged there place
        → IsBrokenIn R.fault s there place) }
    ensures told { D.crashes disk.new ≡ D.crashes disk.old }
    ensures later { D.faults disk.old ≤ D.faults disk.new }
    ensures cause { IfErr result (λ fault. fault ≡ OpenFault.Disk → Rose (D.faults disk.old) (D.faults disk.new)) }
    ensures version { IfOk result (λ u. u.log.version ≡ version) }
    ensures generation { IfOk result (λ u. u.log.generation ≡ generation) }
    ensures len { IfOk result (λ u. u.len ≡ len) }
    ensures gate { IfOk result (λ u. u.log.gate ≤ u.len) }
    ensures pending { IfOk result (λ u. u.log.pending ≡ []) }
{
    match replay_side(disk, replay, version, Reader::new(side, len), block) {
        Ok(gate) => over_side(alloc, side, version, generation, len, gate),
        Err(stop) => Err(fault_at(side, stop)),
    }
}

// The log over a side that was read.
fn over_side(
    alloc: Global,
    side: Side,
    version: u8,
    generation: u64,
    len: u64,
    gate: u64,
) -> Result<UsedLog, OpenFault>
    requires headed { IsHeading version generation }
    requires short { len ≤ 2 ^ 62 }
    requires within { gate ≤ len }
    ensures side { IfOk result (λ u. u.log.side ≡ side) }
    ensures version { IfOk result (λ u. u.log.version ≡ version) }
    ensures generation { IfOk result (λ u. u.log.generation ≡ generation) }
    ensures gate { IfOk result (λ u. u.log.gate ≡ gate) }
    ensures pending { IfOk result (λ u. u.log.pending ≡ []) }
    ensures len { IfOk result (λ u. u.len ≡ len) }
    ensures memory { IfErr result (λ fault. fault ≡ OpenFault.Memory) }
{
    match AppendLog::over(alloc, side, version, generation, gate) {
        Ok(log) => Ok(UsedLog { log, len }),
        Err(NoMemory) => Err(OpenFault::Memory),
    }
}

/// Why the disk is not opened, where a side was not read to its end.
pub(crate) fn fault_at(side: Side, stop: Stop) -> OpenFault
    ensures { result ≡ fault_in side stop }
{
    match stop {
        Stop::Broken(place) => OpenFault::Damaged { side, place },
        Stop::Disk => OpenFault::Disk,
        Stop::Memory => OpenFault::Memory,
    }
}
