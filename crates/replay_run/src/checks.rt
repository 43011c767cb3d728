//! A look at the world of a disk.

ghost use Rattle.std.specs.Prelude.{◌≡◌, ◌≤◌, ℕ, Some, IfOk, IfErr};
ghost use Rattle.outside.specs.Causes.{Rose};
ghost use Rattle.outside.specs.Sides.{Sides};
ghost use Rattle.outside.specs.declared.sides.Side.{Side};
ghost use Rattle.world_data.specs.declared.worlds.World.{World};
ghost use Rattle.journal.specs.declared.openings.OpenFault.TheVariants as fault_of;
ghost use Rattle.log_record.specs.Readings.{Damaged};
ghost use Rattle.replay_run.specs.HandedBack.{IsBackUnopened};
ghost use Rattle.replay_run.specs.Checks.{IsFound, IsLookedAt};

use durable_core::DurableCore;
use journal::Unopened;
use outside::Disk;
use std::alloc::Global;
use world_model::CallOutcome;

/// What was found on a disk that was opened and retired, how that was answered, and the disk.
#[derive(Drop)]
pub struct Checked<D> {
    pub objects: u64,
    pub channels: u64,
    /// The generation of its log.
    pub generation: u64,
    pub answer: CallOutcome,
    pub disk: D,
}

/// Opens the world on a disk, counts what it has, and retires it.
///
/// Where the disk tells what it holds, the disk that comes back holds a log of the world that was found, and its side
/// in use has the generation that is told. Where it tells crashes, too, it is safe for that: whatever a crash might
/// have left since the opening is recovered as that world, and at no moment might one have left anything but what it
/// might have left before, or a log of that world. A disk that is not opened comes back as the opening leaves it.
pub fn check<D: Disk>(alloc: Global, disk: D) -> Result<Checked<D>, Unopened<D>>
    ensures found { IfOk result
        (λ c. (w : World) × (logged : ℕ) × IsFound (D.seen disk) w logged c.objects c.channels c.answer
        × IsLookedAt D.crashes D.seen D.images D.moment D.left_since disk c.disk w logged c.generation c.answer) }
    ensures back { IfErr result
        (λ u. IsBackUnopened D.crashes D.seen D.images D.moment D.left_since disk u.disk u.why) }
    ensures damaged { (s : Sides) → D.seen disk ≡ Some s
        → IfErr result (λ u. (side : Side) (place : ℕ) → u.why ≡ fault_of.Damaged side place → Damaged s side place) }
    ensures later { IfOk result (λ c. D.faults disk ≤ D.faults c.disk) }
    ensures left { IfErr result (λ u. D.faults disk ≤ D.faults u.disk) }
    ensures retire_cause { IfOk result (λ c. c.answer ≡ CallOutcome.LogFault → Rose (D.faults disk) (D.faults c.disk)) }
    ensures cause { IfErr result (λ u. u.why ≡ fault_of.Disk → Rose (D.faults disk) (D.faults u.disk)) }
{
    match DurableCore::open(alloc, disk) {
        Ok(core) => {
            let mut core = core;
            let objects = core.objects();
            let channels = core.channels();
            let generation = core.generation();
            let answer = core.retire();
            Ok(Checked {
                objects,
                channels,
                generation,
                answer,
                disk: core.into_disk(),
            })
        }
        Err(unopened) => Err(unopened),
    }
}
