//! A log of an older version is rewritten before a core is handed out over it.

ghost use Rattle.std.specs.Prelude.{◌≡◌, ◌≢◌, ◌≤◌, ◌+◌, true, false};
ghost use Rattle.outside.specs.Causes.{Rose};
ghost use Rattle.world_data.specs.declared.worlds.World.{World};
ghost use Rattle.log_sides.specs.Texts.{newest};
ghost use Rattle.durable_core.specs.Kept.{IsKeptBy, LeadsTo, settled_log};
ghost use Rattle.durable_core.specs.Rewriting.{is_idle, shown_by};
ghost use Rattle.durable_core.specs.Steps.{IsEnded, ended};
ghost use Rattle.durable_core.specs.Upgrading.{IsUnderway, upgraded};
ghost use Rattle.durable_core.specs.declared.rewritings.Rewriting.TheVariants as rewriting;

use crate::rewritings::Rewriting;
use crate::tails::Tail;
use log_sides::NEWEST;
use outside::Disk;
use std::alloc::Global;
use tile_core::Core;
use world_model::CallOutcome;

impl<D: Disk> Tail<D> {
    /// Rewrites a log of an older version, step by step, to its end. A log of the newest version stays as it is.
    pub(crate) fn upgrade(&mut self, alloc: Global, core: &Core) -> CallOutcome
        requires works { self.old.journal.failed ≡ false }
        requires idle { self.old.rewriting ≡ rewriting.Idle }
        ensures log { (w : World) → IsKeptBy D.crashes D.seen D.images self.old (settled_log w)
            → core.now.hall.world ≡ w
            → LeadsTo D.crashes D.seen D.images D.moment D.left_since self.old self.new (ended result) (settled_log w)
            (settled_log w) }
        ensures same { self.old.journal.log.version ≡ newest → self.new ≡ self.old }
        ensures rewriting { result ≡ CallOutcome.Ok → self.new.rewriting ≡ rewriting.Idle }
        ensures version { result ≡ CallOutcome.Ok → self.new.journal.log.version ≡ newest }
        ensures generation { result ≡ CallOutcome.Ok
            → self.new.journal.log.generation
            ≡ upgraded self.old.journal.log.version self.old.journal.log.generation }
        ensures newest { self.old.journal.log.version ≡ newest → result ≡ CallOutcome.Ok }
        ensures ended { IsEnded result }
        ensures works { result ≢ CallOutcome.LogFault → self.new.journal.failed ≡ false }
        ensures cause { result ≡ CallOutcome.LogFault
            → Rose (D.faults self.old.journal.disk) (D.faults self.new.journal.disk) }
        ensures later { D.faults self.old.journal.disk ≤ D.faults self.new.journal.disk }
        ensures told { D.crashes self.new.journal.disk ≡ D.crashes self.old.journal.disk }
    {
        if self.journal.version() == NEWEST {
            return CallOutcome::Ok;
        }
        self.rewriting = Rewriting::Asked;
        self.rewrite(alloc, core)
    }

    // Goes on with a rewriting to its end.
    fn rewrite(&mut self, alloc: Global, core: &Core) -> CallOutcome
        requires works { self.old.journal.failed ≡ false }
        requires asked { self.old.rewriting ≡ rewriting.Asked }
        ensures log { (w : World) → IsKeptBy D.crashes D.seen D.images self.old (settled_log w)
            → core.now.hall.world ≡ w
            → LeadsTo D.crashes D.seen D.images D.moment D.left_since self.old self.new (ended result) (settled_log w)
            (settled_log w) }
        ensures rewriting { result ≡ CallOutcome.Ok → self.new.rewriting ≡ rewriting.Idle }
        ensures version { result ≡ CallOutcome.Ok → self.new.journal.log.version ≡ newest }
        ensures generation { result ≡ CallOutcome.Ok
            → self.new.journal.log.generation ≡ self.old.journal.log.generation + 1 }
        ensures ended { IsEnded result }
        ensures works { result ≢ CallOutcome.LogFault → self.new.journal.failed ≡ false }
        ensures cause { result ≡ CallOutcome.LogFault
            → Rose (D.faults self.old.journal.disk) (D.faults self.new.journal.disk) }
        ensures later { D.faults self.old.journal.disk ≤ D.faults self.new.journal.disk }
        ensures told { D.crashes self.new.journal.disk ≡ D.crashes self.old.journal.disk }
    {
        'each: while !self.is_idle() {
            match self.step(alloc, core) {
                CallOutcome::Ok => {}
                ended => return ended,
            }
        }
        CallOutcome::Ok
    }

    /// Whether no rewriting was asked for, and none is under way.
    pub(crate) fn is_idle(&self) -> bool
        ensures { result ≡ is_idle self.now.rewriting }
    {
        matches!(self.rewriting, Rewriting::Idle)
    }
}
