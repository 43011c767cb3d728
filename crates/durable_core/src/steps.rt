//! The steps of a rewriting.

ghost use Rattle.std.specs.Prelude.{◌≡◌, ◌≢◌, ◌≤◌, ◌+◌, ◌^◌, true, false, [], length, OnOk, OnErr, IfOk};
ghost use Rattle.outside.specs.Causes.{HasCause, Rose};
ghost use Rattle.world_data.specs.declared.worlds.World.{World};
ghost use Rattle.journal.specs.Journals.{pending};
ghost use Rattle.journal.specs.Keeping.{new_gate};
ghost use Rattle.log_record.specs.Journals as log;
ghost use Rattle.durable_core.specs.Pieces.{IsNextPiece};
ghost use Rattle.durable_core.specs.Rewriting.{items_left, next_rewriting, next_shown, shown_by};
ghost use Rattle.durable_core.specs.Steps.{IsEnded, IsNextStep, ended, next_generation, next_version};
ghost use Rattle.durable_core.specs.Written.{IsMirrored, KeepsSided, Sided, sided_next, sided_with};
ghost use Rattle.log_sides.specs.Texts.{committed, newest};
ghost use Rattle.durable_core.specs.Kept.{IsKeptBy, LeadsTo};
ghost use Rattle.durable_core.specs.declared.rewritings.LastCopied.{LastCopied};
ghost use Rattle.durable_core.specs.declared.rewritings.LastCopied.TheVariants as last;
ghost use Rattle.durable_core.specs.declared.rewritings.Rewriting.TheVariants as rewriting;

use crate::pieces::{NextPiece, next_piece};
use crate::rewritings::{LastCopied, Rewriting};
use crate::tails::Tail;
use byte_text::NoMemory;
use outside::{Disk, Failed};
use std::alloc::Global;
use tile_core::Core;
use world_model::CallOutcome;

/// What a rewriting does next.
#[derive(Drop)]
pub(crate) enum RewriteStep {
    /// None is under way.
    Rest,
    /// A new side is begun.
    Begin,
    /// These items are copied to it.
    Copy(NextPiece),
    /// It takes the place of the side in use.
    Finish,
}

impl<D: Disk> Tail<D> {
    // Begins the new side, to which nothing is copied so far.
    fn begin(&mut self) -> Result<(), Failed>
        requires works { self.old.journal.failed ≡ false }
        requires committed { pending self.old.journal ≡ [] }
        requires asked { self.old.rewriting ≡ rewriting.Asked }
        ensures log { (j : log.Journal) → IsKeptBy D.crashes D.seen D.images self.old j
            → LeadsTo D.crashes D.seen D.images D.moment D.left_since self.old self.new result j j }
        ensures rewriting { OnOk result (self.new.rewriting ≡ rewriting.Going last.Nothing) }
        ensures version { self.new.journal.log.version ≡ self.old.journal.log.version }
        ensures generation { self.new.journal.log.generation ≡ self.old.journal.log.generation }
        ensures pending { OnOk result (pending self.new.journal ≡ []) }
        ensures works { OnOk result (self.new.journal.failed ≡ false) }
        ensures failed { OnErr result (self.new.journal.failed ≡ true) }
        ensures cause { HasCause (D.faults self.old.journal.disk) (D.faults self.new.journal.disk) result }
        ensures written { (s : Sided) → KeepsSided D.crashes D.seen D.images self.old.journal s
            → OnOk result
            (KeepsSided D.crashes D.seen D.images self.new.journal (record { batches = s.batches; copied = [] })) }
        ensures told { D.crashes self.new.journal.disk ≡ D.crashes self.old.journal.disk }
    {
        match self.journal.begin() {
            Ok(()) => {
                self.rewriting = Rewriting::Going(LastCopied::Nothing);
                Ok(())
            }
            Err(_) => Err(Failed),
        }
    }

    // Copies a piece to the new side.
    fn copy(&mut self, next: NextPiece) -> Result<(), Failed>
        requires works { self.old.journal.failed ≡ false }
        requires committed { pending self.old.journal ≡ [] }
        requires going { (from : LastCopied) × (self.old.rewriting ≡ rewriting.Going from) }
        requires room { new_gate self.old.journal.rewriter + length next.piece.records + 10 ≤ 2 ^ 62 }
        ensures log { (from : LastCopied) (j : log.Journal) → self.old.rewriting ≡ rewriting.Going from
            → IsNextPiece from j.committed next
            → IsKeptBy D.crashes D.seen D.images self.old j
            → LeadsTo D.crashes D.seen D.images D.moment D.left_since self.old self.new result j j }
        ensures rewriting { OnOk result (self.new.rewriting ≡ rewriting.Going next.last) }
        ensures version { self.new.journal.log.version ≡ self.old.journal.log.version }
        ensures generation { self.new.journal.log.generation ≡ self.old.journal.log.generation }
        ensures pending { OnOk result (pending self.new.journal ≡ []) }
        ensures works { OnOk result (self.new.journal.failed ≡ false) }
        ensures failed { OnErr result (self.new.journal.failed ≡ true) }
        ensures cause { HasCause (D.faults self.old.journal.disk) (D.faults self.new.journal.disk) result }
        ensures written { (s : Sided) → KeepsSided D.crashes D.seen D.images self.old.journal s
            → OnOk result
            (KeepsSided D.crashes D.seen D.images self.new.journal
            (record { batches = s.batches; copied = committed s.copied next.piece.records })) }
        ensures told { D.crashes self.new.journal.disk ≡ D.crashes self.old.journal.disk }
    {
        match self.journal.copy(&next.piece) {
            Ok(()) => {
                self.rewriting = Rewriting::Going(next.last);
                Ok(())
            }
            Err(_) => Err(Failed),
        }
    }

    // Lets the new side take the place of the one in use, where all was copied.
    fn finish(&mut self) -> Result<(), Failed>
        requires works { self.old.journal.failed ≡ false }
        requires committed { pending self.old.journal ≡ [] }
        requires going { (last : LastCopied) × (self.old.rewriting ≡ rewriting.Going last) }
        ensures log { (last : LastCopied) (j : log.Journal) → self.old.rewriting ≡ rewriting.Going last
            → items_left last j.committed ≡ []
            → IsKeptBy D.crashes D.seen D.images self.old j
            → LeadsTo D.crashes D.seen D.images D.moment D.left_since self.old self.new result j j }
        ensures rewriting { OnOk result (self.new.rewriting ≡ rewriting.Idle) }
        ensures version { OnOk result (self.new.journal.log.version ≡ newest) }
        ensures generation { OnOk result (self.new.journal.log.generation ≡ self.old.journal.log.generation + 1) }
        ensures pending { OnOk result (pending self.new.journal ≡ []) }
        ensures works { OnOk result (self.new.journal.failed ≡ false) }
        ensures failed { OnErr result (self.new.journal.failed ≡ true) }
        ensures cause { HasCause (D.faults self.old.journal.disk) (D.faults self.new.journal.disk) result }
        ensures written { (s : Sided) → KeepsSided D.crashes D.seen D.images self.old.journal s
            → OnOk result
            (KeepsSided D.crashes D.seen D.images self.new.journal (record { batches = s.copied; copied = [] })) }
        ensures told { D.crashes self.new.journal.disk ≡ D.crashes self.old.journal.disk }
    {
        match self.journal.finish() {
            Ok(()) => {
                self.rewriting = Rewriting::Idle;
                Ok(())
            }
            Err(_) => Err(Failed),
        }
    }

    // What a rewriting does next over a world with nothing pending. Where the new side has no room for a piece, there
    // is no memory for it.
    fn next_step(&self, alloc: Global, core: &Core) -> Result<RewriteStep, NoMemory>
        ensures { IfOk result (IsNextStep self.now.rewriting (new_gate self.now.journal.rewriter) core.now.hall.world) }
    {
        let last = match &self.rewriting {
            Rewriting::Idle => return Ok(RewriteStep::Rest),
            Rewriting::Asked => return Ok(RewriteStep::Begin),
            Rewriting::Going(last) => last,
        };
        let next = next_piece(alloc, core, last)?;
        if next.piece.items() == 0 {
            return Ok(RewriteStep::Finish);
        }
        if self.journal.has_room_for(&next.piece) {
            Ok(RewriteStep::Copy(next))
        } else {
            Err(NoMemory)
        }
    }

    // Does the step that comes next. It takes no memory.
    fn make(&mut self, step: RewriteStep) -> Result<(), Failed>
        requires works { self.old.journal.failed ≡ false }
        requires committed { pending self.old.journal ≡ [] }
        requires next { (w : World) × IsNextStep self.old.rewriting (new_gate self.old.journal.rewriter) w step }
        ensures log { (j : log.Journal) → IsKeptBy D.crashes D.seen D.images self.old j
            → IsNextStep self.old.rewriting (new_gate self.old.journal.rewriter) j.committed step
            → LeadsTo D.crashes D.seen D.images D.moment D.left_since self.old self.new result j j }
        ensures shown { (w : World) → IsNextStep self.old.rewriting (new_gate self.old.journal.rewriter) w step
            → OnOk result (shown_by self.new.rewriting w ≡ next_shown w (shown_by self.old.rewriting w)) }
        ensures rewriting { (w : World) → IsNextStep self.old.rewriting (new_gate self.old.journal.rewriter) w step
            → OnOk result (self.new.rewriting ≡ next_rewriting w self.old.rewriting) }
        ensures version { (w : World) → IsNextStep self.old.rewriting (new_gate self.old.journal.rewriter) w step
            → OnOk result
            (self.new.journal.log.version ≡ next_version self.old.rewriting w self.old.journal.log.version) }
        ensures generation { (w : World) → IsNextStep self.old.rewriting (new_gate self.old.journal.rewriter) w step
            → OnOk result
            (self.new.journal.log.generation ≡ next_generation self.old.rewriting w self.old.journal.log.generation) }
        ensures pending { OnOk result (pending self.new.journal ≡ []) }
        ensures works { OnOk result (self.new.journal.failed ≡ false) }
        ensures failed { OnErr result (self.new.journal.failed ≡ true) }
        ensures cause { HasCause (D.faults self.old.journal.disk) (D.faults self.new.journal.disk) result }
        ensures written { (w : World) (s : Sided)
            → IsNextStep self.old.rewriting (new_gate self.old.journal.rewriter) w step
            → KeepsSided D.crashes D.seen D.images self.old.journal s
            → OnOk result (KeepsSided D.crashes D.seen D.images self.new.journal (sided_next self.old.rewriting w s)) }
        ensures told { D.crashes self.new.journal.disk ≡ D.crashes self.old.journal.disk }
    {
        match step {
            RewriteStep::Rest => Ok(()),
            RewriteStep::Begin => self.begin(),
            RewriteStep::Copy(next) => self.copy(next),
            RewriteStep::Finish => self.finish(),
        }
    }

    /// Makes all that is pending stand, and goes one step on with a rewriting of the core's world. For want of memory
    /// the rewriting is as before.
    pub(crate) fn step(&mut self, alloc: Global, core: &Core) -> CallOutcome
        requires { self.old.journal.failed ≡ false }
        ensures log { (j : log.Journal) → IsKeptBy D.crashes D.seen D.images self.old j
            → core.now.hall.world ≡ log.whole j
            → LeadsTo D.crashes D.seen D.images D.moment D.left_since self.old self.new (ended result) j
            (log.settled j) }
        ensures shown { result ≡ CallOutcome.Ok
            → shown_by self.new.rewriting core.now.hall.world
            ≡ next_shown core.now.hall.world (shown_by self.old.rewriting core.now.hall.world) }
        ensures rewriting { result ≡ CallOutcome.Ok
            → self.new.rewriting ≡ next_rewriting core.now.hall.world self.old.rewriting }
        ensures version { result ≡ CallOutcome.Ok
            → self.new.journal.log.version
            ≡ next_version self.old.rewriting core.now.hall.world self.old.journal.log.version }
        ensures generation { result ≡ CallOutcome.Ok
            → self.new.journal.log.generation
            ≡ next_generation self.old.rewriting core.now.hall.world self.old.journal.log.generation }
        ensures memory { result ≡ CallOutcome.Memory
            → (self.new.rewriting ≡ self.old.rewriting)
            × (self.new.journal.log.generation ≡ self.old.journal.log.generation) }
        ensures ended { IsEnded result }
        ensures pending { result ≡ CallOutcome.Ok → pending self.new.journal ≡ [] }
        ensures works { result ≢ CallOutcome.LogFault → self.new.journal.failed ≡ false }
        ensures cause { result ≡ CallOutcome.LogFault
            → Rose (D.faults self.old.journal.disk) (D.faults self.new.journal.disk) }
        ensures later { D.faults self.old.journal.disk ≤ D.faults self.new.journal.disk }
        ensures written { (s : Sided) → KeepsSided D.crashes D.seen D.images self.old.journal s
            → result ≡ CallOutcome.Ok
            → KeepsSided D.crashes D.seen D.images self.new.journal
            (sided_next self.old.rewriting core.now.hall.world (sided_with (pending self.old.journal) s)) }
        ensures unmoved { result ≡ CallOutcome.Memory
            → IsMirrored D.crashes D.seen D.images self.old.journal self.new.journal }
        ensures told { D.crashes self.new.journal.disk ≡ D.crashes self.old.journal.disk }
    {
        match self.commit() {
            Ok(()) => {}
            Err(Failed) => return CallOutcome::LogFault,
        }
        let Ok(step) = self.next_step(alloc, core) else {
            return CallOutcome::Memory;
        };
        match self.make(step) {
            Ok(()) => CallOutcome::Ok,
            Err(Failed) => CallOutcome::LogFault,
        }
    }
}
