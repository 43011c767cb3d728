//! A log is read, and nothing is made: both sides are made safe, and the batches of the side in use are replayed.

ghost use Rattle.std.specs.Prelude.{◌≡◌, ◌≤◌, ◌<◌, ℕ, [], Some, true, length, OnOk, IfErr};
ghost use Rattle.outside.specs.Causes.{Rose};
ghost use Rattle.outside.specs.Sides.{Sides};
ghost use Rattle.outside.specs.Crashes.{LeavesOnly};
ghost use Rattle.outside.specs.declared.sides.Side.{Side};
ghost use Rattle.log_sides.specs.Texts.{newest};
ghost use Rattle.append_log.specs.Heads.{IsSized};
ghost use Rattle.journal.specs.Openings.{IsDamaged, IsBrokenIn, AllSafeOn, IsUsed};
ghost use Rattle.journal.specs.Reads.{IsRead, SideRead};

use crate::openings::{BLOCK, OpenFault, fault_at};
use crate::replays::Replay;
use crate::side_replays::replay_side;
use append_log::{Reader, Start, start_log};
use outside::{Disk, Failed, Side};
use std::alloc::Global;

/// Reads the log on a disk, and makes nothing: both sides are synced, and the batches of the side in use are replayed,
/// in its version. Where no log was begun, there are none, and none is begun. The disk reads as before, and no crash
/// leaves then what it might not have left before. A disk that is answered as damaged is so behind a crash, too.
pub fn replay_log<D: Disk, R: Replay>(
    alloc: Global,
    disk: &mut D,
    replay: &mut R,
) -> Result<(), OpenFault>
    requires { R.took replay.old newest [] [] }
    ensures read { OnOk result (IsRead R.took R.fault (D.seen disk.old) replay.new) }
    ensures same { (s : Sides) → D.seen disk.old ≡ Some s → D.seen disk.new ≡ Some s }
    ensures leaves { (s : Sides) → D.seen disk.old ≡ Some s → D.crashes disk.old ≡ true
        → LeavesOnly D.moment D.left_since disk.old disk.new (D.images disk.old) }
    ensures safe { (s : Sides) → D.seen disk.old ≡ Some s
        → OnOk result (AllSafeOn D.crashes D.seen D.images disk.new s) }
    ensures damaged { (s : Sides) → D.seen disk.old ≡ Some s
        → IfErr result
        (λ fault. (side : Side) (place : ℕ) → fault ≡ OpenFault.Damaged side place → IsDamaged R.fault s side place) }
    ensures settled { (s : Sides) → D.seen disk.old ≡ Some s
        → IfErr result
        (λ fault. (side : Side) (place : ℕ) → fault ≡ OpenFault.Damaged side place
        → AllSafeOn D.crashes D.seen D.images disk.new s) }
    ensures told { D.crashes disk.new ≡ D.crashes disk.old }
    ensures later { D.faults disk.old ≤ D.faults disk.new }
    ensures cause { IfErr result (λ fault. fault ≡ OpenFault.Disk → Rose (D.faults disk.old) (D.faults disk.new)) }
{
    let Ok(mut block) = vec![in alloc; 0u8; BLOCK] else {
        return Err(OpenFault::Memory);
    };
    read_disk(disk, replay, &mut block)
}

// The same, block by block.
fn read_disk<D: Disk, R: Replay>(
    disk: &mut D,
    replay: &mut R,
    block: &mut [u8],
) -> Result<(), OpenFault>
    requires first { R.took replay.old newest [] [] }
    requires block { 0 < length block.old }
    ensures read { OnOk result (IsRead R.took R.fault (D.seen disk.old) replay.new) }
    ensures same { (s : Sides) → D.seen disk.old ≡ Some s → D.seen disk.new ≡ Some s }
    ensures leaves { (s : Sides) → D.seen disk.old ≡ Some s → D.crashes disk.old ≡ true
        → LeavesOnly D.moment D.left_since disk.old disk.new (D.images disk.old) }
    ensures safe { (s : Sides) → D.seen disk.old ≡ Some s
        → OnOk result (AllSafeOn D.crashes D.seen D.images disk.new s) }
    ensures damaged { (s : Sides) → D.seen disk.old ≡ Some s
        → IfErr result
        (λ fault. (side : Side) (place : ℕ) → fault ≡ OpenFault.Damaged side place → IsDamaged R.fault s side place) }
    ensures settled { (s : Sides) → D.seen disk.old ≡ Some s
        → IfErr result
        (λ fault. (side : Side) (place : ℕ) → fault ≡ OpenFault.Damaged side place
        → AllSafeOn D.crashes D.seen D.images disk.new s) }
    ensures told { D.crashes disk.new ≡ D.crashes disk.old }
    ensures later { D.faults disk.old ≤ D.faults disk.new }
    ensures cause { IfErr result (λ fault. fault ≡ OpenFault.Disk → Rose (D.faults disk.old) (D.faults disk.new)) }
{
    match start_log(disk) {
        Ok(Start::Fresh) => Ok(()),
        Ok(
            Start::Standing {
                side,
                version,
                generation,
                len,
            },
        ) => read_side(disk, replay, block, side, version, generation, len),
        Ok(Start::Damaged { side, place }) => Err(OpenFault::Damaged { side, place }),
        Err(Failed) => Err(OpenFault::Disk),
    }
}

// Reads the side in use.
fn read_side<D: Disk, R: Replay>(
    disk: &mut D,
    replay: &mut R,
    block: &mut [u8],
    side: Side,
    version: u8,
    generation: u64,
    len: u64,
) -> Result<(), OpenFault>
    requires sized { IsSized version generation len }
    requires first { R.took replay.old newest [] [] }
    requires block { 0 < length block.old }
    ensures read { OnOk result (SideRead R.took R.fault D.crashes D.seen D.images disk.old side version generation len
        replay.new) }
    ensures leaves { (s : Sides) → AllSafeOn D.crashes D.seen D.images disk.old s → D.crashes disk.old ≡ true
        → LeavesOnly D.moment D.left_since disk.old disk.new (λ c. c ≡ s) }
    ensures settled { (s : Sides) → AllSafeOn D.crashes D.seen D.images disk.old s
        → AllSafeOn D.crashes D.seen D.images disk.new s }
    ensures damaged { (s : Sides) → AllSafeOn D.crashes D.seen D.images disk.old s
        → IsUsed s side version generation len
        → IfErr result
        (λ fault. (there : Side) (place : ℕ) → fault ≡ OpenFault.Damaged there place
        → IsBrokenIn R.fault s there place) }
    ensures told { D.crashes disk.new ≡ D.crashes disk.old }
    ensures later { D.faults disk.old ≤ D.faults disk.new }
    ensures cause { IfErr result (λ fault. fault ≡ OpenFault.Disk → Rose (D.faults disk.old) (D.faults disk.new)) }
{
    match replay_side(disk, replay, version, Reader::new(side, len), block) {
        Ok(_gate) => Ok(()),
        Err(stop) => Err(fault_at(side, stop)),
    }
}
