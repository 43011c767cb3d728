//! The journal as the ledger of a core: what the core writes is pending in it.
//!
//! A call or tick commits first where 4,194,304 bytes or more are pending, so that a batch is bounded by that and the
//! records of one turn. Else nothing is committed before a take that gives frames, a step of rewriting, or the end: one
//! commit serves all whose takes wait with it.

ghost use Rattle.std.specs.Prelude.{◌≡◌, ◌≤◌, ◌<◌, ◌+◌, ◌^◌, ◌++◌, ℕ, Bool, true, false, [], is_some, length, OnOk, OnErr};
ghost use Rattle.byte_text.specs.Names.{Bytes};
ghost use Rattle.outside.specs.Causes.{HasCause};
ghost use Rattle.journal.specs.Journals.{SameBut, pending};
ghost use Rattle.log_record.specs.Journals as log;
ghost use Rattle.durable_core.specs.Written.{IsMirrored, KeepsSided, Sided, much, sided_with};
ghost use Rattle.durable_core.specs.Rewriting.{asked_for, is_asked, is_going, rewriting_after};

use crate::rewritings::Rewriting;
use byte_text::NoMemory;
use journal::Journal;
use outside::{Disk, Failed};
use tile_core::RecordSink;
use world_model::CallOutcome;

/// Where so many bytes are pending, the next call or tick commits them first.
pub const PENDING: u64 = 4_194_304;

// No log is rewritten from this generation on.
const END: u64 = 1 << 63;

/// The end of a log, to which a core writes.
#[derive(Drop)]
pub(crate) struct Tail<D> {
    pub(crate) journal: Journal<D>,
    /// How far the log is rewritten.
    pub(crate) rewriting: Rewriting,
    ghost tied: { journal.failed ≡ false → is_some journal.rewriter ≡ is_going rewriting },
    ghost early: { is_asked rewriting ≡ true → journal.log.generation + 1 < 2 ^ 64 },
}

impl<D: Disk> RecordSink for Tail<D> {
    ghost use Rattle.durable_core.specs.Kept.{HasPending, HasPushed};

    ghost takes = { HasPushed D.crashes D.seen D.images };

    ghost stays = { λ old new. HasPending D.crashes D.seen D.images old new (pending old.journal) };

    fn take(&mut self, records: &[u8]) -> Result<(), NoMemory> {
        // Where a side has no room, there is no memory for the call. The log is of the newest version.
        if !self.journal.has_room(records.len()) {
            return Err(NoMemory);
        }
        self.journal.push(records)
    }
}

impl<D: Disk> Tail<D> {
    ghost use Rattle.durable_core.specs.Kept.{IsKeptBy, LeadsTo};

    /// Makes all that is pending stand. With nothing pending nothing is done.
    pub(crate) fn commit(&mut self) -> Result<(), Failed>
        requires { self.old.journal.failed ≡ false }
        ensures idle { pending self.old.journal ≡ [] → SameBut self.old.journal self.new.journal }
        ensures log { (j : log.Journal) → IsKeptBy D.crashes D.seen D.images self.old j
            → LeadsTo D.crashes D.seen D.images D.moment D.left_since self.old self.new result j (log.settled j) }
        ensures written { (s : Sided) → KeepsSided D.crashes D.seen D.images self.old.journal s
            → OnOk result
            (KeepsSided D.crashes D.seen D.images self.new.journal (sided_with (pending self.old.journal) s)) }
        ensures pending { OnOk result (pending self.new.journal ≡ []) }
        ensures works { OnOk result (self.new.journal.failed ≡ false) }
        ensures failed { OnErr result (self.new.journal.failed ≡ true) }
        ensures cause { HasCause (D.faults self.old.journal.disk) (D.faults self.new.journal.disk) result }
        ensures told { D.crashes self.new.journal.disk ≡ D.crashes self.old.journal.disk }
        ensures version { self.new.journal.log.version ≡ self.old.journal.log.version }
        ensures generation { self.new.journal.log.generation ≡ self.old.journal.log.generation }
        ensures rewriting { self.new.rewriting ≡ self.old.rewriting }
    {
        match self.journal.commit() {
            Ok(()) => Ok(()),
            Err(_) => Err(Failed),
        }
    }

    /// Where this may be done, makes what is pending stand if it is long. Else nothing is done.
    pub(crate) fn commit_long(&mut self, may: bool) -> Result<(), Failed>
        requires { self.old.journal.failed ≡ false }
        ensures short { length (pending self.old.journal) < much → self.new ≡ self.old }
        ensures barred { may ≡ false → self.new ≡ self.old }
        ensures log { (j : log.Journal) → IsKeptBy D.crashes D.seen D.images self.old j
            → (k : log.Journal) × LeadsTo D.crashes D.seen D.images D.moment D.left_since self.old self.new result j k }
        ensures written { OnOk result (IsMirrored D.crashes D.seen D.images self.old.journal self.new.journal) }
        ensures long { may ≡ true → much ≤ length (pending self.old.journal)
            → OnOk result (pending self.new.journal ≡ []) }
        ensures committed { may ≡ true → much ≤ length (pending self.old.journal)
            → (s : Sided) → KeepsSided D.crashes D.seen D.images self.old.journal s
            → OnOk result
            (KeepsSided D.crashes D.seen D.images self.new.journal (sided_with (pending self.old.journal) s)) }
        ensures may { OnErr result (may ≡ true) }
        ensures works { OnOk result (self.new.journal.failed ≡ false) }
        ensures failed { OnErr result (self.new.journal.failed ≡ true) }
        ensures cause { HasCause (D.faults self.old.journal.disk) (D.faults self.new.journal.disk) result }
        ensures told { D.crashes self.new.journal.disk ≡ D.crashes self.old.journal.disk }
        ensures version { self.new.journal.log.version ≡ self.old.journal.log.version }
        ensures generation { self.new.journal.log.generation ≡ self.old.journal.log.generation }
        ensures rewriting { self.new.rewriting ≡ self.old.rewriting }
    {
        if may && self.journal.pending() >= PENDING {
            self.commit()
        } else {
            Ok(())
        }
    }

    // Asks for a rewriting, unless one is asked for or under way, or the generations are at their end.
    fn ask(&mut self)
        ensures journal { self.new.journal ≡ self.old.journal }
        ensures rewriting { self.new.rewriting ≡ asked_for self.old.journal.log.generation self.old.rewriting }
    {
        match self.rewriting {
            Rewriting::Idle => {
                if self.journal.generation() < END {
                    self.rewriting = Rewriting::Asked;
                }
            }
            Rewriting::Asked | Rewriting::Going(_) => {}
        }
    }

    /// Notes how a call ended: one that was done and asked for a rewriting begins it with the next step.
    pub(crate) fn note(&mut self, called: CallOutcome, asks: bool)
        ensures journal { self.new.journal ≡ self.old.journal }
        ensures rewriting { self.new.rewriting
            ≡ rewriting_after called asks self.old.journal.log.generation self.old.rewriting }
    {
        match called {
            CallOutcome::Ok => {
                if asks {
                    self.ask();
                }
            }
            _ => {}
        }
    }
}
