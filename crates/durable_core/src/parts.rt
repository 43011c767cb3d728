//! Parts of the log, for those who follow it.

ghost use Rattle.std.specs.Prelude.{◌≡◌, ◌≢◌, ◌≤◌, true, false, [], min, OnOk, OnErr, IfOk};
ghost use Rattle.outside.specs.Causes.{HasCause, Rose};
ghost use Rattle.journal.specs.Journals.{pending};
ghost use Rattle.log_record.specs.Journals as log;
ghost use Rattle.log_sides.specs.Texts.{newest};
ghost use Rattle.repl_stream.specs.Feeds.{IfGiven, bytes_in, called_of};
ghost use Rattle.durable_core.specs.Kept.{IsKeptBy, LeadsTo};
ghost use Rattle.durable_core.specs.Parts.{IsPartOfLog, IsPartOfWorld, MakeWorld, end_of, is_within};
ghost use Rattle.durable_core.specs.Rewriting.{next_rewriting};
ghost use Rattle.durable_core.specs.Steps.{IsEnded, ended, next_generation};
ghost use Rattle.durable_core.specs.Written.{IsMirrored, KeepsSided, Sided, sided_next, sided_with};
ghost use Rattle.std.specs.Prelude.{if◌then◌else◌};

use crate::tails::Tail;
use log_sides::{FIRST_GATE, NEWEST};
use outside::{Disk, Failed};
use repl_stream::{Ask, Part, PartAnswer, PartBytes};
use std::alloc::Global;
use tile_core::Core;
use world_model::CallOutcome;

// Whether an ask is of the log of this generation, from a place on behind its header and not behind its end.
fn is_within(ask: Ask, generation: u64, end: u64) -> bool
    ensures { result ≡ is_within ask generation end }
{
    ask.generation == generation && ask.from >= FIRST_GATE && ask.from <= end
}

// Where the part that answers an ask begins. A log that ends in front of the first gate, which none does, has nothing.
fn first_of(ask: Ask, generation: u64, end: u64) -> u64
    ensures from { result ≡ (if is_within ask generation end then ask.from else min 16 end) }
    ensures within { result ≤ end }
{
    if is_within(ask, generation, end) {
        ask.from
    } else {
        FIRST_GATE.min(end)
    }
}

impl<D: Disk> Tail<D> {
    /// Whether the log is of the newest version, as followers read it.
    pub(crate) fn is_latest(&self) -> bool
        ensures { result ≡ true → self.now.journal.log.version ≡ newest }
    {
        self.journal.version() == NEWEST
    }

    // Reads what an ask asks for, where nothing is pending.
    fn read_part(&mut self, ask: Ask, into: &mut PartBytes) -> Result<Part, Failed>
        requires works { self.old.journal.failed ≡ false }
        requires latest { self.old.journal.log.version ≡ newest }
        requires committed { pending self.old.journal ≡ [] }
        ensures log { (j : log.Journal) → IsKeptBy D.crashes D.seen D.images self.old j
            → LeadsTo D.crashes D.seen D.images D.moment D.left_since self.old self.new (end_of result) j j }
        ensures world { (j : log.Journal) → IsKeptBy D.crashes D.seen D.images self.old j
            → IfOk result
            (λ part. IsPartOfWorld ask self.old.journal.log.generation j.committed part (bytes_in into.new)) }
        ensures part { (s : Sided) → KeepsSided D.crashes D.seen D.images self.old.journal s
            → IfOk result
            (λ part. IsPartOfLog ask self.old.journal.log.generation s.batches part (bytes_in into.new)) }
        ensures whole { (j : log.Journal) (s : Sided) → IsKeptBy D.crashes D.seen D.images self.old j
            → KeepsSided D.crashes D.seen D.images self.old.journal s → MakeWorld s.batches j.committed }
        ensures written { (s : Sided) → KeepsSided D.crashes D.seen D.images self.old.journal s
            → OnOk result (KeepsSided D.crashes D.seen D.images self.new.journal s) }
        ensures rewriting { self.new.rewriting ≡ self.old.rewriting }
        ensures generation { self.new.journal.log.generation ≡ self.old.journal.log.generation }
        ensures works { OnOk result (self.new.journal.failed ≡ false) }
        ensures failed { OnErr result (self.new.journal.failed ≡ true) }
        ensures cause { HasCause (D.faults self.old.journal.disk) (D.faults self.new.journal.disk) result }
        ensures told { D.crashes self.new.journal.disk ≡ D.crashes self.old.journal.disk }
    {
        let end = self.journal.gate();
        let generation = self.journal.generation();
        let from = first_of(ask, generation, end);
        match self.journal.read(from, &mut into.block) {
            Ok(count) => {
                into.len = count;
                Ok(Part {
                    generation,
                    from,
                    end,
                })
            }
            Err(_) => Err(Failed),
        }
    }

    /// Makes all that is pending stand, goes one step on with a rewriting, and then reads what an ask asks for. For want
    /// of memory the rewriting is as before.
    pub(crate) fn part(
        &mut self,
        alloc: Global,
        core: &Core,
        ask: Ask,
        into: &mut PartBytes,
    ) -> PartAnswer
        requires works { self.old.journal.failed ≡ false }
        requires latest { self.old.journal.log.version ≡ newest }
        ensures log { (j : log.Journal) → IsKeptBy D.crashes D.seen D.images self.old j
            → core.now.hall.world ≡ log.whole j
            → LeadsTo D.crashes D.seen D.images D.moment D.left_since self.old self.new (ended (called_of result)) j
            (log.settled j) }
        ensures world { (j : log.Journal) → IsKeptBy D.crashes D.seen D.images self.old j
            → core.now.hall.world ≡ log.whole j
            → IfGiven result
            (λ part. IsPartOfWorld ask self.new.journal.log.generation core.now.hall.world part (bytes_in into.new)) }
        ensures part { (s : Sided) → KeepsSided D.crashes D.seen D.images self.old.journal s
            → IfGiven result
            (λ part. IsPartOfLog ask self.new.journal.log.generation
            (sided_next self.old.rewriting core.now.hall.world (sided_with (pending self.old.journal) s)).batches
            part (bytes_in into.new)) }
        ensures written { (s : Sided) → KeepsSided D.crashes D.seen D.images self.old.journal s
            → called_of result ≡ CallOutcome.Ok
            → KeepsSided D.crashes D.seen D.images self.new.journal
            (sided_next self.old.rewriting core.now.hall.world (sided_with (pending self.old.journal) s)) }
        ensures whole { (j : log.Journal) (s : Sided) → IsKeptBy D.crashes D.seen D.images self.old j
            → core.now.hall.world ≡ log.whole j → KeepsSided D.crashes D.seen D.images self.old.journal s
            → called_of result ≡ CallOutcome.Ok
            → MakeWorld
            (sided_next self.old.rewriting core.now.hall.world (sided_with (pending self.old.journal) s)).batches
            core.now.hall.world }
        ensures unmoved { called_of result ≡ CallOutcome.Memory
            → IsMirrored D.crashes D.seen D.images self.old.journal self.new.journal }
        ensures rewriting { called_of result ≡ CallOutcome.Ok
            → self.new.rewriting ≡ next_rewriting core.now.hall.world self.old.rewriting }
        ensures generation { called_of result ≡ CallOutcome.Ok
            → self.new.journal.log.generation
            ≡ next_generation self.old.rewriting core.now.hall.world self.old.journal.log.generation }
        ensures memory { called_of result ≡ CallOutcome.Memory
            → (self.new.rewriting ≡ self.old.rewriting)
            × (self.new.journal.log.generation ≡ self.old.journal.log.generation) }
        ensures ended { IsEnded (called_of result) }
        ensures works { called_of result ≢ CallOutcome.LogFault → self.new.journal.failed ≡ false }
        ensures cause { called_of result ≡ CallOutcome.LogFault
            → Rose (D.faults self.old.journal.disk) (D.faults self.new.journal.disk) }
        ensures later { D.faults self.old.journal.disk ≤ D.faults self.new.journal.disk }
        ensures told { D.crashes self.new.journal.disk ≡ D.crashes self.old.journal.disk }
    {
        match self.step(alloc, core) {
            CallOutcome::Ok => {}
            CallOutcome::Memory => return PartAnswer::Memory,
            _ => return PartAnswer::LogFault,
        }
        match self.read_part(ask, into) {
            Ok(part) => PartAnswer::Given(part),
            Err(Failed) => PartAnswer::LogFault,
        }
    }
}
