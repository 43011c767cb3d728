//! The opening of a script's disk, its opening again, and its retirement.

ghost use Rattle.std.specs.Prelude.{◌≡◌, ◌≢◌, ◌≤◌, ◌++◌, ℕ, Bool, List, [], ◌∷◌, true, false, Some, IfOk, IfErr};
ghost use Rattle.outside.specs.Causes.{Rose};
ghost use Rattle.outside.specs.Sides.{Sides};
ghost use Rattle.outside.specs.declared.sides.Side.{Side};
ghost use Rattle.world_model.specs.Halls.{Hall};
ghost use Rattle.journal.specs.declared.openings.OpenFault.TheVariants as fault_of;
ghost use Rattle.log_record.specs.Readings.{Damaged};
ghost use Rattle.durable_core.specs.Logged.{hall_of, disk_of};
ghost use Rattle.replay_run.specs.Traces.{Deed, opens};
ghost use Rattle.replay_run.specs.Scripts.{opening, Reopens};
ghost use Rattle.replay_run.specs.Undone.{halt_at, ReopenFails};
ghost use Rattle.replay_run.specs.Openings.{Opens};
ghost use Rattle.replay_run.specs.HandedBack.{HoldsWorld, IsBackUnopened};
ghost use Rattle.replay_run.specs.Standing.{IsSafeFor, StandsBehind, StaysSafe, Logs};
ghost use Rattle.replay_run.specs.Plays.{Retires, retired};
ghost use Rattle.replay_run.specs.Players.{played};

use crate::acts::Player;
use durable_core::DurableCore;
use journal::{OpenFault, Unopened};
use outside::Disk;
use std::alloc::Global;
use world_model::{CallOutcome, ChangedSessions, Frames};
use world_recovery::held_batches_are_recovered;

impl<D: Disk> Player<D> {
    /// The player of a script before its first line, over the world of a disk.
    pub(crate) fn open(alloc: Global, disk: D) -> Result<Player<D>, Unopened<D>>
        ensures opened { IfOk result (λ p. Opens (D.seen disk) (hall_of p.core).world (hall_of p.core).logged) }
        ensures first { IfOk result (λ p. played p ≡ opening (hall_of p.core).world (hall_of p.core).logged) }
        ensures log { (s : Sides) → D.seen disk ≡ Some s → IfOk result (λ p. Logs D.crashes D.seen D.images p.core) }
        ensures stands { (s : Sides) → D.seen disk ≡ Some s → D.crashes disk ≡ true
            → IfOk result
            (λ p. StandsBehind D.crashes D.seen D.images D.moment D.left_since D.faults p.core
            (opens (hall_of p.core).world (hall_of p.core).logged ∷ [])) }
        ensures damaged { (s : Sides) → D.seen disk ≡ Some s
            → IfErr result
            (λ u. (side : Side) (place : ℕ) → u.why ≡ fault_of.Damaged side place → Damaged s side place) }
        ensures back { IfErr result
            (λ u. IsBackUnopened D.crashes D.seen D.images D.moment D.left_since disk u.disk u.why) }
        ensures later { IfOk result (λ p. D.faults disk ≤ D.faults (disk_of p.core)) }
        ensures left { IfErr result (λ u. D.faults disk ≤ D.faults u.disk) }
        ensures cause { IfErr result (λ u. u.why ≡ fault_of.Disk → Rose (D.faults disk) (D.faults u.disk)) }
    {
        let (Ok(frames), Ok(touched)) = (Frames::new(alloc), ChangedSessions::new(alloc)) else {
            return Err(Unopened {
                disk,
                why: OpenFault::Memory,
            });
        };
        match DurableCore::open(alloc, disk) {
            Ok(core) => Ok(Player {
                alloc,
                core,
                readers: Vec::new(alloc),
                frames,
                touched,
            }),
            Err(unopened) => Err(unopened),
        }
    }

    /// Retires the core and opens its disk again, without readers. Where the core is not retired, or the disk not
    /// opened, the disk is left.
    pub(crate) fn reopen(self) -> Result<Player<D>, Unopened<D>>
        requires goes { (hall_of self.core).stopped ≡ false }
        ensures again { IfOk result
            (λ p. (deeds : List Deed)
            × ((told : Bool) → (told ≡ true → Logs D.crashes D.seen D.images self.core)
            → Reopens told (played self) deeds (played p))
            × StaysSafe D.crashes D.seen D.images D.moment D.left_since D.faults self.core p.core deeds) }
        ensures goes { IfOk result (λ p. (hall_of p.core).stopped ≡ false) }
        ensures failed { IfErr result (λ u. (deeds : List Deed) × (last : Hall)
            × ((told : Bool) → (told ≡ true → Logs D.crashes D.seen D.images self.core)
            → ReopenFails told (halt_at u.why) (played self) deeds last)
            × (last.stopped ≡ true)
            × ((before : List Deed)
            → StandsBehind D.crashes D.seen D.images D.moment D.left_since D.faults self.core before
            → IsSafeFor D.images D.left_since u.disk (before ++ deeds))) }
        ensures later { IfOk result (λ p. D.faults (disk_of self.core) ≤ D.faults (disk_of p.core)) }
        ensures left { IfErr result (λ u. D.faults (disk_of self.core) ≤ D.faults u.disk) }
        ensures cause { IfErr result
            (λ u. u.why ≡ fault_of.Disk → Rose (D.faults (disk_of self.core)) (D.faults u.disk)) }
    {
        let Player {
            alloc,
            core,
            readers: _,
            frames,
            touched,
        } = self;
        // A fresh disk is one of the empty world, whether a log was begun on it or not.
        held_batches_are_recovered();
        let mut core = core;
        let answer = core.retire();
        let disk = core.into_disk();
        match answer {
            CallOutcome::Ok => match DurableCore::open(alloc, disk) {
                Ok(core) => Ok(Player {
                    alloc,
                    core,
                    readers: Vec::new(alloc),
                    frames,
                    touched,
                }),
                Err(unopened) => Err(unopened),
            },
            _ => Err(Unopened {
                disk,
                why: OpenFault::Disk,
            }),
        }
    }

    /// Retires the core, and gives its disk back.
    pub(crate) fn retire(self) -> (CallOutcome, D)
        ensures retired { Retires (hall_of self.core) result.0 }
        ensures safe { (before : List Deed)
            → StandsBehind D.crashes D.seen D.images D.moment D.left_since D.faults self.core before
            → IsSafeFor D.images D.left_since result.1 (before ++ retired result.0) }
        ensures holds { Logs D.crashes D.seen D.images self.core → result.0 ≡ CallOutcome.Ok
            → HoldsWorld (D.seen result.1) (hall_of self.core).world }
        ensures later { D.faults (disk_of self.core) ≤ D.faults result.1 }
        ensures cause { result.0 ≡ CallOutcome.LogFault → Rose (D.faults (disk_of self.core)) (D.faults result.1) }
    {
        let mut core = self.core;
        let answer = core.retire();
        (answer, core.into_disk())
    }
}
