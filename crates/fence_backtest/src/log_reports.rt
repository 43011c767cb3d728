//! The report of what a fence would have told, over the log of a disk.
//!
//! The batches are taken as they are and read side by side. Where something is damaged the log is read once more, record
//! by record, to the first place that is.

ghost use Rattle.std.specs.Prelude.{◌≡◌, ◌≤◌, ℕ, [], None, Some, true, IfOk, IfErr, IfSome, OnOk};
ghost use Rattle.byte_text.specs.Globs.{is_sound_glob};
ghost use Rattle.fence_model.specs.Fences.{roams_over};
ghost use Rattle.outside.specs.Causes.{Rose};
ghost use Rattle.outside.specs.Crashes.{LeavesOnly};
ghost use Rattle.outside.specs.Sides.{Sides};
ghost use Rattle.outside.specs.declared.sides.Side.{Side};
ghost use Rattle.journal.specs.Openings.{AllSafeOn};
ghost use Rattle.journal.specs.declared.openings.OpenFault.TheVariants as fault_of;
ghost use Rattle.log_record.specs.Readings.{Damaged};
ghost use Rattle.fence_backtest.specs.Reports.{report};
ghost use Rattle.fence_backtest.specs.LogReports.{AreRecords, IsReadAlone, IsReported, TellsDamage};

use crate::log_batches::{LogBatches, read_batches};
use crate::log_changes::LogChanges;
use crate::parts::Parts;
use crate::reports::report_changes;
use byte_text::{NoMemory, Text};
use journal::{OpenFault, Refusal, replay_log};
use outside::Disk;
use std::alloc::Global;
use std::thread::Threads;
use world_data::Channel;
use world_recovery::{damage_is_damage, held_batches_are_recovered, logs_are_their_records};

/// The report of what the channel would have raised over the changes of the records of a disk's log, which are read in
/// its version. Nothing is made, and a log of an older version stays so: the disk reads as before, and no crash leaves
/// then what it might not have left before. Damaged comes only where the sides are damaged, with their first cause and
/// its place.
pub fn backtest_log<R: Threads + Sync, D: Disk>(
    rt: &R,
    alloc: Global,
    disk: &mut D,
    channel: &Channel,
) -> Result<Text, OpenFault>
    requires sound { is_sound_glob channel.now.fence.glob ≡ true }
    requires zone { roams_over channel.now.fence.watch ≡ None }
    ensures told { IfOk result (IsReported (D.seen disk.old) channel.now) }
    ensures damaged { (s : Sides) → D.seen disk.old ≡ Some s
        → IfErr result
        (λ fault. (side : Side) (place : ℕ) → fault ≡ fault_of.Damaged side place → Damaged s side place) }
    ensures same { (s : Sides) → D.seen disk.old ≡ Some s → D.seen disk.new ≡ Some s }
    ensures leaves { (s : Sides) → D.seen disk.old ≡ Some s → D.crashes disk.old ≡ true
        → LeavesOnly D.moment D.left_since disk.old disk.new (D.images disk.old) }
    ensures safe { (s : Sides) → D.seen disk.old ≡ Some s
        → OnOk result (AllSafeOn D.crashes D.seen D.images disk.new s) }
    ensures crashes { D.crashes disk.new ≡ D.crashes disk.old }
    ensures later { D.faults disk.old ≤ D.faults disk.new }
    ensures cause { IfErr result (λ fault. fault ≡ fault_of.Disk → Rose (D.faults disk.old) (D.faults disk.new)) }
{
    let parts = match read_parts(rt, alloc, disk) {
        Ok(parts) => parts,
        Err(fault) => return Err(fault),
    };
    let told = report_parts(rt, alloc, &parts, channel);
    parts.let_go(rt);
    match told {
        Ok(text) => Ok(text),
        Err(NoMemory) => Err(OpenFault::Memory),
    }
}

// The report of changes that are there in parts.
fn report_parts<R: Threads + Sync>(
    rt: &R,
    alloc: Global,
    parts: &Parts,
    channel: &Channel,
) -> Result<Text, NoMemory>
    requires sound { is_sound_glob channel.now.fence.glob ≡ true }
    requires zone { roams_over channel.now.fence.watch ≡ None }
    ensures { IfOk result (λ text. text ≡ report channel.now parts.now) }
{
    let changes = parts.in_order(alloc)?;
    report_changes(rt, alloc, &changes, channel)
}

// The changes of the records of a disk's log.
fn read_parts<R: Threads + Sync, D: Disk>(
    rt: &R,
    alloc: Global,
    disk: &mut D,
) -> Result<Parts, OpenFault>
    ensures read { IfOk result (AreRecords (D.seen disk.old)) }
    ensures damaged { TellsDamage (D.seen disk.old) result }
    ensures alone { IsReadAlone D.crashes D.seen D.images D.moment D.left_since D.faults disk.old disk.new result }
{
    match read_at_once(rt, alloc, disk) {
        Ok(Some(parts)) => Ok(parts),
        Ok(None) => read_in_order(alloc, disk),
        Err(fault) => Err(fault),
    }
}

// The changes, of batches that are read side by side; none where something is damaged.
fn read_at_once<R: Threads + Sync, D: Disk>(
    rt: &R,
    alloc: Global,
    disk: &mut D,
) -> Result<Option<Parts>, OpenFault>
    ensures read { IfOk result (λ found. IfSome found (AreRecords (D.seen disk.old))) }
    ensures undamaged { IfErr result (λ fault. (side : Side) (place : ℕ) → fault ≡ fault_of.Damaged side place → ⊥) }
    ensures alone { IsReadAlone D.crashes D.seen D.images D.moment D.left_since D.faults disk.old disk.new result }
{
    // What is held is recovered, and what was taken are the log's records.
    held_batches_are_recovered();
    logs_are_their_records();
    let mut replay = LogBatches::new(alloc);
    match replay_log(alloc, disk, &mut replay) {
        Ok(()) => match read_batches(rt, alloc, replay.version(), replay.as_slice()) {
            Ok(parts) => Ok(Some(parts)),
            Err(Refusal::NoRecord(_)) => Ok(None),
            Err(Refusal::Memory) => Err(OpenFault::Memory),
        },
        Err(OpenFault::Damaged { side: _, place: _ }) => Ok(None),
        Err(OpenFault::Disk) => Err(OpenFault::Disk),
        Err(OpenFault::Memory) => Err(OpenFault::Memory),
    }
}

// The changes, of records that are read one behind another.
fn read_in_order<D: Disk>(alloc: Global, disk: &mut D) -> Result<Parts, OpenFault>
    ensures read { IfOk result (AreRecords (D.seen disk.old)) }
    ensures damaged { TellsDamage (D.seen disk.old) result }
    ensures alone { IsReadAlone D.crashes D.seen D.images D.moment D.left_since D.faults disk.old disk.new result }
{
    held_batches_are_recovered();
    damage_is_damage();
    logs_are_their_records();
    let mut replay = LogChanges::new(alloc);
    match replay_log(alloc, disk, &mut replay) {
        Ok(()) => match Parts::one(alloc, replay.into_changes()) {
            Ok(parts) => Ok(parts),
            Err(NoMemory) => Err(OpenFault::Memory),
        },
        Err(fault) => {
            drop(replay);
            Err(fault)
        }
    }
}
