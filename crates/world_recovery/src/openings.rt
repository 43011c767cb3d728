//! The opening of a disk: a journal, and the world of its batches.

ghost use Rattle.std.specs.Prelude.{◌≡◌, ◌≤◌, ◌^◌, ℕ, [], true, false, Some, is_some, length, IfOk, IfErr};
ghost use Rattle.outside.specs.Causes.{Rose};
ghost use Rattle.outside.specs.Crashes.{LeavesOnly};
ghost use Rattle.outside.specs.Sides.{Sides};
ghost use Rattle.outside.specs.declared.sides.Side.{Side};
ghost use Rattle.journal.specs.Journals.{Keeps, pending};
ghost use Rattle.journal.specs.Openings.{AllSafeOn, IsLeftByOpening, IsUnopened};
ghost use Rattle.journal.specs.Openings.{opened_version, opened_generation, opened_len};
ghost use Rattle.journal.specs.declared.openings.OpenFault.TheVariants as fault_of;
ghost use Rattle.log_record.specs.Readings.{Damaged};
ghost use Rattle.world_recovery.specs.Opened.{IsOpened, AreRecorded, disk_of};

use crate::world_replays::WorldReplay;
use crate::{damage_is_damage, held_batches_are_recovered};
use journal::{Journal, Unopened};
use outside::Disk;
use std::alloc::Global;
use world_store::StoredWorld;

/// A disk that was opened.
#[derive(Drop)]
pub struct OpenedWorld<D> {
    pub journal: Journal<D>,
    /// The world of its batches.
    pub world: StoredWorld,
    /// How many bytes the side in use has.
    pub len: u64,
}

/// Opens the world on a disk: both sides are synced, and the records of the side in use are folded. On a fresh disk a
/// log is begun, and the world is empty. A log of an older version stays one. Damaged comes only where the sides are damaged, with their first cause and its
/// place, and so after a crash, too; want of memory says nothing of them.
pub fn open_world<D: Disk>(alloc: Global, disk: D) -> Result<OpenedWorld<D>, Unopened<D>>
    ensures opened { IfOk result (λ o. IsOpened D.crashes D.seen D.moment D.left_since disk o.journal.disk o.world
        o.journal.log.version (λ batches. Keeps D.crashes D.seen D.images o.journal batches [])) }
    ensures damaged { (s : Sides) → D.seen disk ≡ Some s
        → IfErr result (λ u. (side : Side) (place : ℕ) → u.why ≡ fault_of.Damaged side place → Damaged s side place) }
    ensures settled { (s : Sides) → D.seen disk ≡ Some s
        → IfErr result
        (λ u. (side : Side) (place : ℕ) → u.why ≡ fault_of.Damaged side place
        → AllSafeOn D.crashes D.seen D.images u.disk s) }
    ensures whole { (s : Sides) → D.seen disk ≡ Some s
        → IfOk result (λ _. (side : Side) (place : ℕ) → Damaged s side place → ⊥) }
    ensures leaves { (s : Sides) → D.seen disk ≡ Some s → D.crashes disk ≡ true
        → LeavesOnly D.moment D.left_since disk (disk_of result) (IsLeftByOpening (D.images disk) s) }
    ensures same { (s : Sides) → D.seen disk ≡ Some s → IfErr result (λ u. IsUnopened (D.seen u.disk) s u.why) }
    ensures told { D.crashes (disk_of result) ≡ D.crashes disk }
    ensures later { D.faults disk ≤ D.faults (disk_of result) }
    ensures cause { IfErr result (λ u. u.why ≡ fault_of.Disk → Rose (D.faults disk) (D.faults u.disk)) }
    ensures recorded { IfOk result (λ o. AreRecorded o.world) }
    ensures version { (s : Sides) → D.seen disk ≡ Some s
        → IfOk result (λ o. o.journal.log.version ≡ opened_version s) }
    ensures generation { (s : Sides) → D.seen disk ≡ Some s
        → IfOk result (λ o. o.journal.log.generation ≡ opened_generation s) }
    ensures len { (s : Sides) → D.seen disk ≡ Some s → IfOk result (λ o. o.len ≡ opened_len s) }
    ensures short { IfOk result (λ o. o.len ≤ 2 ^ 62) }
    ensures gate { IfOk result (λ o. o.journal.log.gate ≤ o.len) }
    ensures pending { IfOk result (λ o. pending o.journal ≡ []) }
    ensures idle { IfOk result (λ o. is_some o.journal.rewriter ≡ false) }
    ensures works { IfOk result (λ o. o.journal.failed ≡ false) }
{
    // What is held is recovered, and what is damaged for a journal is damaged.
    held_batches_are_recovered();
    damage_is_damage();
    let mut replay = WorldReplay::new(alloc);
    match Journal::open(alloc, disk, &mut replay) {
        Ok(opened) => Ok(OpenedWorld {
            journal: opened.journal,
            world: replay.into_world(),
            len: opened.len,
        }),
        Err(unopened) => {
            // By a call, so that the parts of half a world are not proved to be dropped here.
            drop(replay);
            Err(unopened)
        }
    }
}
