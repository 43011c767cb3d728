//! The opening of a core: the world of a disk's log, and the log's end.

ghost use Rattle.std.specs.Prelude.{◌≡◌, ◌≤◌, ◌^◌, ℕ, List, true, Some, IfOk, IfErr};
ghost use Rattle.byte_text.specs.Names.{Bytes};
ghost use Rattle.outside.specs.Causes.{Rose};
ghost use Rattle.outside.specs.Crashes.{EachImage, LeavesOnly};
ghost use Rattle.outside.specs.Sides.{Sides};
ghost use Rattle.outside.specs.declared.sides.Side.{Side};
ghost use Rattle.world_data.specs.Sound.{IsSoundWorld};
ghost use Rattle.world_model.specs.Histories.{opening_hall};
ghost use Rattle.log_sides.specs.Texts.{newest};
ghost use Rattle.journal.specs.Logs.{HasGrown};
ghost use Rattle.journal.specs.Openings.{opened_generation, opened_len, opened_version};
ghost use Rattle.journal.specs.declared.openings.OpenFault.TheVariants as fault_of;
ghost use Rattle.log_record.specs.Readings.{Damaged};
ghost use Rattle.log_record.specs.Recovery.{Recovers};
ghost use Rattle.durable_core.specs.Kept.{settled_log};
ghost use Rattle.durable_core.specs.Logged.{IsLogOf, disk_of, generation_of, hall_of, version_of};
ghost use Rattle.durable_core.specs.declared.rewritings.Rewriting.TheVariants as rewriting;
ghost use Rattle.durable_core.specs.Opened.{IsHandedBack, IsLeftByStart, IsOpening, WasRead, left_disk};
ghost use Rattle.durable_core.specs.Upgrading.{upgraded};
ghost use Rattle.durable_core.specs.Written.{KeepsGrown};

use crate::cores::DurableCore;
use crate::rewritings::Rewriting;
use crate::tails::Tail;
use journal::{OpenFault, Unopened};
use outside::Disk;
use std::alloc::Global;
use tile_core::Core;
use world_model::CallOutcome;
use world_recovery::{OpenedWorld, open_world};

impl<D: Disk> DurableCore<D> {
    /// A core over the world of a disk, without sessions, at moment 0: both sides of the disk are synced, and the
    /// records of the side in use are folded. On a fresh disk a log is begun, and the world is empty. A log of an older
    /// version is rewritten first, as a log of the newest one and of the next generation: at each moment a crash leaves
    /// a log of the same world, and one that grew from whatever the disk's grew from; so did the core's. Damaged comes only where the sides are damaged, with their first cause and its place.
    /// Else the disk is handed back for want of memory, or where it failed.
    pub fn open(alloc: Global, disk: D) -> Result<DurableCore<D>, Unopened<D>>
        ensures hall { IfOk result (λ c. hall_of c ≡ opening_hall (hall_of c).world (hall_of c).logged) }
        ensures sound { IfOk result (λ c. IsSoundWorld (hall_of c).world) }
        ensures opened { IfOk result
            (λ c. WasRead D.crashes D.seen D.moment D.left_since disk (disk_of c) (hall_of c).world) }
        ensures log { (s : Sides) → D.seen disk ≡ Some s
            → IfOk result (λ c. IsLogOf D.crashes D.seen D.images c (settled_log (hall_of c).world)) }
        ensures safe { (s : Sides) → D.seen disk ≡ Some s → D.crashes disk ≡ true
            → IfOk result (λ c. IsOpening D.images D.moment D.left_since (D.moment disk) (D.faults (disk_of c)) c) }
        ensures recovers { (s : Sides) → D.seen disk ≡ Some s → IfOk result (λ c. Recovers s (hall_of c).world) }
        ensures idle { IfOk result (λ c. c.tail.rewriting ≡ rewriting.Idle) }
        ensures version { IfOk result (λ c. version_of c ≡ newest) }
        ensures generation { (s : Sides) → D.seen disk ≡ Some s
            → IfOk result (λ c. generation_of c ≡ upgraded (opened_version s) (opened_generation s)) }
        ensures grown { (s : Sides) → D.seen disk ≡ Some s
            → IfOk result
            (λ c. (before : ℕ) (earlier : List Bytes) → HasGrown before earlier s
            → KeepsGrown D.crashes D.seen D.images c.tail.journal before earlier) }
        ensures len { (s : Sides) → D.seen disk ≡ Some s → IfOk result (λ c. (hall_of c).logged ≡ opened_len s) }
        ensures short { IfOk result (λ c. (hall_of c).logged ≤ 2 ^ 62) }
        ensures damaged { (s : Sides) → D.seen disk ≡ Some s
            → IfErr result
            (λ u. (side : Side) (place : ℕ) → u.why ≡ fault_of.Damaged side place → Damaged s side place) }
        ensures whole { (s : Sides) → D.seen disk ≡ Some s
            → IfOk result (λ _. (side : Side) (place : ℕ) → Damaged s side place → ⊥) }
        ensures leaves { (s : Sides) → D.seen disk ≡ Some s → D.crashes disk ≡ true
            → LeavesOnly D.moment D.left_since disk (left_disk result) (IsLeftByStart (D.images disk) s) }
        ensures leaves_grown { (s : Sides) → D.seen disk ≡ Some s → D.crashes disk ≡ true
            → (before : ℕ) (earlier : List Bytes) → HasGrown before earlier s
            → EachImage (D.images disk) (HasGrown before earlier)
            → LeavesOnly D.moment D.left_since disk (left_disk result) (HasGrown before earlier) }
        ensures same { (s : Sides) → D.seen disk ≡ Some s
            → IfErr result (λ u. IsHandedBack (D.crashes u.disk) (D.seen u.disk) (D.images u.disk) s u.why) }
        ensures told { D.crashes (left_disk result) ≡ D.crashes disk }
        ensures later { D.faults disk ≤ D.faults (left_disk result) }
        ensures cause { IfErr result (λ u. u.why ≡ fault_of.Disk → Rose (D.faults disk) (D.faults u.disk)) }
    {
        match open_world(alloc, disk) {
            Ok(
                OpenedWorld {
                    journal,
                    world,
                    len,
                },
            ) => {
                let mut tail = Tail {
                    journal,
                    rewriting: Rewriting::Idle,
                };
                match Core::over(alloc, world, len) {
                    Ok(core) => match tail.upgrade(alloc, &core) {
                        CallOutcome::Ok => Ok(DurableCore {
                            core,
                            tail,
                            alloc,
                            stopped: false,
                        }),
                        CallOutcome::Memory => {
                            drop(core);
                            Err(handed_back(tail, OpenFault::Memory))
                        }
                        _ => {
                            drop(core);
                            Err(handed_back(tail, OpenFault::Disk))
                        }
                    },
                    Err(_) => Err(handed_back(tail, OpenFault::Memory)),
                }
            }
            Err(unopened) => Err(unopened),
        }
    }
}

// The disk of a log over which no core is made.
fn handed_back<D: Disk>(tail: Tail<D>, why: OpenFault) -> Unopened<D>
    ensures disk { result.disk ≡ tail.journal.disk }
    ensures why { result.why ≡ why }
{
    let Tail {
        journal,
        rewriting: _,
    } = tail;
    Unopened {
        disk: journal.retire(),
        why,
    }
}
