//! The core over a disk and its calls.

ghost use Rattle.std.specs.Prelude.{◌≡◌, ◌≢◌, ◌⊎◌, ◌≤◌, ◌<◌, ◌+◌, ◌*◌, true, false, not, [], if◌then◌else◌, length, Some};
ghost use Rattle.std.specs.Prelude.{Decides};
ghost use Rattle.outside.specs.Causes.{Rose};
ghost use Rattle.outside.specs.Sides.{Sides};
ghost use Rattle.world_data.specs.Limits.{max_moment, take_frames};
ghost use Rattle.world_model.specs.Histories.{Step};
ghost use Rattle.world_model.specs.Outcomes.{enter_outcome, take_outcome, given_count, is_proper};
ghost use Rattle.world_model.specs.Halls.{NamesChanged, session_of};
ghost use Rattle.world_model.specs.declared.events.Event.TheVariants as event;
ghost use Rattle.world_model.specs.declared.events.Outcome.TheVariants as outcome;
ghost use Rattle.journal.specs.Journals.{log_bytes, pending};
ghost use Rattle.journal.specs.Openings.{opened_generation};
ghost use Rattle.log_record.specs.Batches.{records_text};
ghost use Rattle.log_record.specs.EventWrites.{changes_of, writes_of};
ghost use Rattle.log_record.specs.Journals.{Journal as Log};
ghost use Rattle.log_record.specs.Recovery.{Recovers};
ghost use Rattle.durable_core.specs.Written.{IsMirrored, KeepsSided, Sided, much, sided_next, sided_with};
ghost use Rattle.durable_core.specs.Rewriting.{is_ending, is_idle, next_shown, rewriting_after};
ghost use Rattle.durable_core.specs.Words.{is_served_rewriting};
ghost use Rattle.tile_core.specs.Answered.{MayCall, IsAnswered, AreSessions, StayNamed};
ghost use Rattle.object_plans.specs.Kept.{most_kept};
ghost use Rattle.repl_stream.specs.Feeds.{IfGiven, bytes_in, called_of};
ghost use Rattle.durable_core.specs.Parts.{IsPartOfLog, IsPartOfWorld, MakeWorld};

use crate::rewritings::asks_rewriting;
use crate::tails::Tail;
use outside::{Disk, Failed};
use repl_stream::{Ask, PartAnswer, PartBytes};
use std::alloc::Global;
use tile_core::{Ample, Core, Growths};
use world_model::{Asked, CallOutcome, ChangedSessions, EnterFault, Frames, Taken};

/// A world and the sessions that are served, over a log on a disk. Where the disk fails, the hall stops: from then on
/// each call says so and does nothing.
pub struct DurableCore<D> {
    pub(crate) core: Core,
    pub(crate) tail: Tail<D>,
    pub(crate) alloc: Global,
    // Whether the disk failed, or the core was retired.
    pub(crate) stopped: bool,
    ghost goes_on: { core.hall.stopped ≡ false },
    ghost works: { stopped ≡ false → tail.journal.failed ≡ false },
}

impl<D: Drop> Drop for DurableCore<D> {
    fn drop(self) {
        let DurableCore {
            core: _,
            tail: _,
            alloc: _,
            stopped: _,
        } = self;
    }
}

impl<D: Disk> DurableCore<D> {
    ghost use Rattle.durable_core.specs.Logged.{hall_of, disk_of, generation_of, shown_of, KeepsLogOf, GoesOn};
    ghost use Rattle.durable_core.specs.Histories.{writing_of, written};

    /// The core in memory, to be read.
    pub fn core(&self) -> &Core
        ensures { result.now ≡ self.now.core }
    {
        &self.core
    }

    /// How many objects there are.
    pub fn objects(&self) -> u64
        ensures { result ≡ length (hall_of self.now).world.objects }
    {
        self.core.objects()
    }

    /// How many channels there are.
    pub fn channels(&self) -> u64
        ensures { result ≡ length (hall_of self.now).world.channels }
    {
        self.core.channels()
    }

    /// The generation of the log: how often it was begun anew, and one more.
    pub fn generation(&self) -> u64
        ensures { result ≡ self.now.tail.journal.log.generation }
    {
        self.tail.journal.generation()
    }

    /// How many bytes the log takes on the side in use, up to its last gate, and those that are pending with them.
    pub fn log_bytes(&self) -> u64
        ensures { result ≡ log_bytes self.now.tail.journal }
    {
        self.tail.journal.log_bytes()
    }

    /// Whether the steps to come rewrite the log: that was asked for, or it goes on.
    pub fn is_rewriting(&self) -> bool
        ensures { result ≡ not (is_idle self.now.tail.rewriting) }
    {
        !self.tail.is_idle()
    }

    /// Whether records are pending, which the next take that gives frames makes stand first.
    pub fn has_pending(&self) -> bool
        ensures { Decides result (0 < length (pending self.now.tail.journal)) }
    {
        self.tail.journal.pending() > 0
    }

    /// Whether the hall has stopped, since its disk failed or it was retired.
    pub fn is_stopped(&self) -> bool
        ensures { result ≡ (hall_of self.now).stopped }
    {
        self.stopped
    }

    /// Lets a session in and answers its number. It is refused where 512 sessions are present or 4,294,967,295 numbers
    /// were drawn. For want of memory the core is as before.
    pub fn enter(&mut self) -> Result<u32, EnterFault>
        ensures step { Step (hall_of self.old) event.Enter (enter_outcome result) (hall_of self.new) }
        ensures logged { (hall_of self.new).logged ≡ (hall_of self.old).logged }
        ensures tail { self.new.tail ≡ self.old.tail }
        ensures log { (j : Log) → KeepsLogOf D.crashes D.seen D.images self.old j
            → GoesOn D.crashes D.seen D.images D.moment D.left_since self.old self.new event.Enter
            (enter_outcome result) j }
    {
        if self.is_stopped() {
            return Err(EnterFault::Stopped);
        }
        self.core.enter()
    }

    /// Gives the first frames of a session, at most 64, into `into`; before it gives any, all that is pending is made
    /// to stand on the disk. A session that is not served any more is removed by the first take that finds no frame. It
    /// takes no memory.
    pub fn take(&mut self, session: u32, into: &mut Frames) -> Taken
        requires { into.old ≡ record { list = []; places = take_frames } }
        ensures step { Step (hall_of self.old) (event.Take session) (take_outcome result into.new.list)
            (hall_of self.new) }
        ensures count { given_count result ≡ length into.new.list }
        ensures places { into.new.places ≡ take_frames }
        ensures logged { (hall_of self.new).logged ≡ (hall_of self.old).logged }
        ensures cause { result ≡ Taken.LogFault → Rose (D.faults (disk_of self.old)) (D.faults (disk_of self.new)) }
        ensures later { D.faults (disk_of self.old) ≤ D.faults (disk_of self.new) }
        ensures told { D.crashes (disk_of self.new) ≡ D.crashes (disk_of self.old) }
        ensures rewriting { self.new.tail.rewriting ≡ self.old.tail.rewriting }
        ensures generation { generation_of self.new ≡ generation_of self.old }
        ensures written { (hall_of self.new).stopped ≡ false
            → IsMirrored D.crashes D.seen D.images self.old.tail.journal self.new.tail.journal }
        ensures log { (j : Log) → KeepsLogOf D.crashes D.seen D.images self.old j
            → GoesOn D.crashes D.seen D.images D.moment D.left_since self.old self.new (event.Take session)
            (take_outcome result into.new.list) j }
    {
        if self.is_stopped() {
            return Taken::Stopped;
        }
        if !self.core.may_take(session) {
            // It gives no frame.
            return self.core.take(session, into);
        }
        match self.tail.commit() {
            Ok(()) => self.core.take(session, into),
            Err(Failed) => {
                self.stopped = true;
                Taken::LogFault
            }
        }
    }

    // Whether a session asks for a rewriting that it is served: one with subscriptions is refused it.
    fn serves_rewriting(&self, session: u32, asked: &Asked) -> bool
        ensures { result ≡ is_served_rewriting (session_of (hall_of self.now) session) asked.now }
    {
        asks_rewriting(asked) && !self.core.has_subscriptions(session)
    }

    /// Makes a call of a session at a moment: the objects that are due then are deleted, what is asked is done, and its
    /// reply is put last in the session's queue; each session that listens is told of what changed. A session whose
    /// queue has no room for what comes for it is cut: it keeps the frames that it has, and is served no more. A broken
    /// protocol, as QUIT, lets the session end behind the reply. The records of what changes are pending then; where
    /// much was pending before, that is made to stand first. For want of memory the hall is as before. Each session
    /// that it changes is named in `touched`, beside those that are named there.
    pub fn call(
        &mut self,
        session: u32,
        moment: u64,
        asked: &Asked,
        touched: &mut ChangedSessions,
    ) -> CallOutcome
        requires moment { moment ≤ max_moment }
        requires proper { is_proper asked.now ≡ true }
        requires room { AreSessions touched.old (hall_of self.old) }
        ensures step { Step (hall_of self.old) (event.Call session moment asked.now) (outcome.Answered result)
            (hall_of self.new) }
        ensures named { NamesChanged touched.new (hall_of self.old) (hall_of self.new) }
        ensures kept { StayNamed touched.old touched.new }
        ensures room { AreSessions touched.new (hall_of self.new) }
        ensures logged { (hall_of self.new).logged ≤ (hall_of self.old).logged + 2 * most_kept }
        ensures done { (hall_of self.old).stopped ≡ false → MayCall (hall_of self.old) session
            → (result ≡ CallOutcome.Ok) ⊎ ((result ≡ CallOutcome.Memory) ⊎ (result ≡ CallOutcome.LogFault)) }
        ensures answered { result ≡ CallOutcome.Ok
            → IsAnswered (hall_of self.old) (hall_of self.new) moment session asked.now }
        ensures long { result ≡ CallOutcome.Ok → much ≤ length (pending self.old.tail.journal)
            → pending self.new.tail.journal
            ≡ records_text (changes_of (writes_of (hall_of self.old) (event.Call session moment asked.now))) }
        ensures cause { result ≡ CallOutcome.LogFault
            → Rose (D.faults (disk_of self.old)) (D.faults (disk_of self.new)) }
        ensures later { D.faults (disk_of self.old) ≤ D.faults (disk_of self.new) }
        ensures told { D.crashes (disk_of self.new) ≡ D.crashes (disk_of self.old) }
        ensures rewriting { self.new.tail.rewriting
            ≡ rewriting_after result (is_served_rewriting (session_of (hall_of self.old) session) asked.now)
            (generation_of self.old) self.old.tail.rewriting }
        ensures generation { generation_of self.new ≡ generation_of self.old }
        ensures written { (hall_of self.new).stopped ≡ false
            → IsMirrored D.crashes D.seen D.images self.old.tail.journal self.new.tail.journal }
        ensures log { (j : Log) → KeepsLogOf D.crashes D.seen D.images self.old j
            → GoesOn D.crashes D.seen D.images D.moment D.left_since self.old self.new
            (event.Call session moment asked.now) (outcome.Answered result) j }
    {
        self.call_with(session, moment, asked, touched, &mut Ample)
    }

    /// The same, where memory may be refused before each step that may take it, which then ends as where memory is
    /// wanted: the hall is as before. It is asked last before the records are handed to the log.
    pub fn call_with<G: Growths>(
        &mut self,
        session: u32,
        moment: u64,
        asked: &Asked,
        touched: &mut ChangedSessions,
        growths: &mut G,
    ) -> CallOutcome
        requires moment { moment ≤ max_moment }
        requires proper { is_proper asked.now ≡ true }
        requires room { AreSessions touched.old (hall_of self.old) }
        ensures step { Step (hall_of self.old) (event.Call session moment asked.now) (outcome.Answered result)
            (hall_of self.new) }
        ensures named { NamesChanged touched.new (hall_of self.old) (hall_of self.new) }
        ensures kept { StayNamed touched.old touched.new }
        ensures room { AreSessions touched.new (hall_of self.new) }
        ensures logged { (hall_of self.new).logged ≤ (hall_of self.old).logged + 2 * most_kept }
        ensures done { (hall_of self.old).stopped ≡ false → MayCall (hall_of self.old) session
            → (result ≡ CallOutcome.Ok) ⊎ ((result ≡ CallOutcome.Memory) ⊎ (result ≡ CallOutcome.LogFault)) }
        ensures answered { result ≡ CallOutcome.Ok
            → IsAnswered (hall_of self.old) (hall_of self.new) moment session asked.now }
        ensures long { result ≡ CallOutcome.Ok → much ≤ length (pending self.old.tail.journal)
            → pending self.new.tail.journal
            ≡ records_text (changes_of (writes_of (hall_of self.old) (event.Call session moment asked.now))) }
        ensures cause { result ≡ CallOutcome.LogFault
            → Rose (D.faults (disk_of self.old)) (D.faults (disk_of self.new)) }
        ensures later { D.faults (disk_of self.old) ≤ D.faults (disk_of self.new) }
        ensures told { D.crashes (disk_of self.new) ≡ D.crashes (disk_of self.old) }
        ensures rewriting { self.new.tail.rewriting
            ≡ rewriting_after result (is_served_rewriting (session_of (hall_of self.old) session) asked.now)
            (generation_of self.old) self.old.tail.rewriting }
        ensures generation { generation_of self.new ≡ generation_of self.old }
        ensures written { (hall_of self.new).stopped ≡ false
            → IsMirrored D.crashes D.seen D.images self.old.tail.journal self.new.tail.journal }
        ensures log { (j : Log) → KeepsLogOf D.crashes D.seen D.images self.old j
            → GoesOn D.crashes D.seen D.images D.moment D.left_since self.old self.new
            (event.Call session moment asked.now) (outcome.Answered result) j }
    {
        if self.is_stopped() {
            return CallOutcome::Stopped;
        }
        let rewrites = self.serves_rewriting(session, asked);
        match self.tail.commit_long(self.core.may_call(session)) {
            Ok(()) => {
                let called = self
                    .core
                    .call_with(session, moment, asked, touched, &mut self.tail, growths);
                self.tail.note(called, rewrites);
                called
            }
            Err(Failed) => {
                self.stopped = true;
                CallOutcome::LogFault
            }
        }
    }

    /// Lets the clock go on to a moment, and deletes the objects that are due then; each session that listens is told.
    /// The records of what changes are pending then; where much was pending before, that is made to stand first. For
    /// want of memory the hall is as before. Each session that it changes is named, beside those that are named there.
    pub fn tick(&mut self, moment: u64, touched: &mut ChangedSessions) -> CallOutcome
        requires moment { moment ≤ max_moment }
        requires room { AreSessions touched.old (hall_of self.old) }
        ensures step { Step (hall_of self.old) (event.Tick moment) (outcome.Answered result) (hall_of self.new) }
        ensures named { NamesChanged touched.new (hall_of self.old) (hall_of self.new) }
        ensures kept { StayNamed touched.old touched.new }
        ensures room { AreSessions touched.new (hall_of self.new) }
        ensures logged { (hall_of self.new).logged ≤ (hall_of self.old).logged + most_kept }
        ensures long { result ≡ CallOutcome.Ok → much ≤ length (pending self.old.tail.journal)
            → pending self.new.tail.journal
            ≡ records_text (changes_of (writes_of (hall_of self.old) (event.Tick moment))) }
        ensures cause { result ≡ CallOutcome.LogFault
            → Rose (D.faults (disk_of self.old)) (D.faults (disk_of self.new)) }
        ensures later { D.faults (disk_of self.old) ≤ D.faults (disk_of self.new) }
        ensures told { D.crashes (disk_of self.new) ≡ D.crashes (disk_of self.old) }
        ensures rewriting { self.new.tail.rewriting ≡ self.old.tail.rewriting }
        ensures generation { generation_of self.new ≡ generation_of self.old }
        ensures written { (hall_of self.new).stopped ≡ false
            → IsMirrored D.crashes D.seen D.images self.old.tail.journal self.new.tail.journal }
        ensures log { (j : Log) → KeepsLogOf D.crashes D.seen D.images self.old j
            → GoesOn D.crashes D.seen D.images D.moment D.left_since self.old self.new (event.Tick moment)
            (outcome.Answered result) j }
    {
        self.tick_with(moment, touched, &mut Ample)
    }

    /// The same, where memory may be refused before each step that may take it.
    pub fn tick_with<G: Growths>(
        &mut self,
        moment: u64,
        touched: &mut ChangedSessions,
        growths: &mut G,
    ) -> CallOutcome
        requires moment { moment ≤ max_moment }
        requires room { AreSessions touched.old (hall_of self.old) }
        ensures step { Step (hall_of self.old) (event.Tick moment) (outcome.Answered result) (hall_of self.new) }
        ensures named { NamesChanged touched.new (hall_of self.old) (hall_of self.new) }
        ensures kept { StayNamed touched.old touched.new }
        ensures room { AreSessions touched.new (hall_of self.new) }
        ensures logged { (hall_of self.new).logged ≤ (hall_of self.old).logged + most_kept }
        ensures long { result ≡ CallOutcome.Ok → much ≤ length (pending self.old.tail.journal)
            → pending self.new.tail.journal
            ≡ records_text (changes_of (writes_of (hall_of self.old) (event.Tick moment))) }
        ensures cause { result ≡ CallOutcome.LogFault
            → Rose (D.faults (disk_of self.old)) (D.faults (disk_of self.new)) }
        ensures later { D.faults (disk_of self.old) ≤ D.faults (disk_of self.new) }
        ensures told { D.crashes (disk_of self.new) ≡ D.crashes (disk_of self.old) }
        ensures rewriting { self.new.tail.rewriting ≡ self.old.tail.rewriting }
        ensures generation { generation_of self.new ≡ generation_of self.old }
        ensures written { (hall_of self.new).stopped ≡ false
            → IsMirrored D.crashes D.seen D.images self.old.tail.journal self.new.tail.journal }
        ensures log { (j : Log) → KeepsLogOf D.crashes D.seen D.images self.old j
            → GoesOn D.crashes D.seen D.images D.moment D.left_since self.old self.new (event.Tick moment)
            (outcome.Answered result) j }
    {
        if self.is_stopped() {
            return CallOutcome::Stopped;
        }
        match self.tail.commit_long(!self.core.is_spent()) {
            Ok(()) => self
                .core
                .tick_with(moment, touched, &mut self.tail, growths),
            Err(Failed) => {
                self.stopped = true;
                CallOutcome::LogFault
            }
        }
    }

    /// Lets a session end behind the frames that it has, unless the hall has stopped.
    pub fn close_session(&mut self, session: u32)
        ensures step { Step (hall_of self.old) (event.Close session) outcome.Done (hall_of self.new) }
        ensures logged { (hall_of self.new).logged ≡ (hall_of self.old).logged }
        ensures tail { self.new.tail ≡ self.old.tail }
        ensures log { (j : Log) → KeepsLogOf D.crashes D.seen D.images self.old j
            → GoesOn D.crashes D.seen D.images D.moment D.left_since self.old self.new
            (event.Close session) outcome.Done j }
    {
        if !self.is_stopped() {
            self.core.close_session(session);
        }
    }

    /// Takes a session away with its frames, unless the hall has stopped.
    pub fn remove_session(&mut self, session: u32)
        ensures step { Step (hall_of self.old) (event.Remove session) outcome.Done (hall_of self.new) }
        ensures logged { (hall_of self.new).logged ≡ (hall_of self.old).logged }
        ensures tail { self.new.tail ≡ self.old.tail }
        ensures log { (j : Log) → KeepsLogOf D.crashes D.seen D.images self.old j
            → GoesOn D.crashes D.seen D.images D.moment D.left_since self.old self.new
            (event.Remove session) outcome.Done j }
    {
        if !self.is_stopped() {
            self.core.remove_session(session);
        }
    }

    /// A step of rewriting: all that is pending is made to stand on the disk. Where a rewriting was asked for, a new
    /// side of the log is begun then; where one goes on, the first items that are left are copied to it, at most 256,
    /// channels by name and then objects by key and id; and where none is left, the new side takes the place of the
    /// other. For want of memory, or of room on the new side, the rewriting stays where it is.
    pub fn step_rewrite(&mut self) -> CallOutcome
        ensures step { Step (hall_of self.old) event.Rewrite (outcome.Answered result) (hall_of self.new) }
        ensures logged { (hall_of self.new).logged ≡ (hall_of self.old).logged }
        ensures shown { result ≡ CallOutcome.Ok
            → shown_of self.new ≡ next_shown (hall_of self.old).world (shown_of self.old) }
        ensures generation { result ≡ CallOutcome.Ok
            → generation_of self.new ≡ generation_of self.old + (if is_ending (shown_of self.old) then 1 else 0) }
        ensures written { (s : Sided) → KeepsSided D.crashes D.seen D.images self.old.tail.journal s
            → result ≡ CallOutcome.Ok
            → KeepsSided D.crashes D.seen D.images self.new.tail.journal
            (sided_next self.old.tail.rewriting (hall_of self.old).world
            (sided_with (pending self.old.tail.journal) s)) }
        ensures unmoved { result ≡ CallOutcome.Memory
            → IsMirrored D.crashes D.seen D.images self.old.tail.journal self.new.tail.journal }
        ensures memory { result ≡ CallOutcome.Memory
            → (shown_of self.new ≡ shown_of self.old) × (generation_of self.new ≡ generation_of self.old) }
        ensures writes { result ≢ CallOutcome.LogFault
            → writing_of self.new
            ≡ written (hall_of self.old) event.Rewrite (outcome.Answered result) (writing_of self.old) }
        ensures cause { result ≡ CallOutcome.LogFault
            → Rose (D.faults (disk_of self.old)) (D.faults (disk_of self.new)) }
        ensures later { D.faults (disk_of self.old) ≤ D.faults (disk_of self.new) }
        ensures told { D.crashes (disk_of self.new) ≡ D.crashes (disk_of self.old) }
        ensures log { (j : Log) → KeepsLogOf D.crashes D.seen D.images self.old j
            → GoesOn D.crashes D.seen D.images D.moment D.left_since self.old self.new event.Rewrite
            (outcome.Answered result) j }
    {
        if self.is_stopped() {
            return CallOutcome::Stopped;
        }
        match self.tail.step(self.alloc, &self.core) {
            CallOutcome::LogFault => {
                self.stopped = true;
                CallOutcome::LogFault
            }
            called => called,
        }
    }

    /// A step of rewriting, and behind it the answer to an ask out of the log, which has all that the hall was asked. A
    /// failed read stops the hall as a failed step does. For want of memory nothing is read.
    pub fn log_part(&mut self, ask: Ask, into: &mut PartBytes) -> PartAnswer
        ensures step { Step (hall_of self.old) event.Rewrite (outcome.Answered (called_of result)) (hall_of self.new) }
        ensures logged { (hall_of self.new).logged ≡ (hall_of self.old).logged }
        ensures part { (s : Sided) → KeepsSided D.crashes D.seen D.images self.old.tail.journal s
            → IfGiven result
            (λ part. IsPartOfLog ask (generation_of self.new)
            (sided_next self.old.tail.rewriting (hall_of self.old).world
            (sided_with (pending self.old.tail.journal) s)).batches
            part (bytes_in into.new)) }
        ensures world { (j : Log) → KeepsLogOf D.crashes D.seen D.images self.old j
            → IfGiven result
            (λ part. IsPartOfWorld ask (generation_of self.new) (hall_of self.new).world part (bytes_in into.new)) }
        ensures written { (s : Sided) → KeepsSided D.crashes D.seen D.images self.old.tail.journal s
            → called_of result ≡ CallOutcome.Ok
            → KeepsSided D.crashes D.seen D.images self.new.tail.journal
            (sided_next self.old.tail.rewriting (hall_of self.old).world
            (sided_with (pending self.old.tail.journal) s)) }
        ensures whole { (j : Log) (s : Sided) → KeepsLogOf D.crashes D.seen D.images self.old j
            → KeepsSided D.crashes D.seen D.images self.old.tail.journal s → called_of result ≡ CallOutcome.Ok
            → MakeWorld
            (sided_next self.old.tail.rewriting (hall_of self.old).world
            (sided_with (pending self.old.tail.journal) s)).batches
            (hall_of self.new).world }
        ensures unmoved { called_of result ≡ CallOutcome.Memory
            → IsMirrored D.crashes D.seen D.images self.old.tail.journal self.new.tail.journal }
        ensures writes { called_of result ≢ CallOutcome.LogFault
            → writing_of self.new
            ≡ written (hall_of self.old) event.Rewrite (outcome.Answered (called_of result)) (writing_of self.old) }
        ensures cause { called_of result ≡ CallOutcome.LogFault
            → Rose (D.faults (disk_of self.old)) (D.faults (disk_of self.new)) }
        ensures later { D.faults (disk_of self.old) ≤ D.faults (disk_of self.new) }
        ensures told { D.crashes (disk_of self.new) ≡ D.crashes (disk_of self.old) }
        ensures log { (j : Log) → KeepsLogOf D.crashes D.seen D.images self.old j
            → GoesOn D.crashes D.seen D.images D.moment D.left_since self.old self.new event.Rewrite
            (outcome.Answered (called_of result)) j }
    {
        if self.is_stopped() {
            return PartAnswer::Stopped;
        }
        // Followers read the newest version alone. No core is opened over a log of another one.
        if !self.tail.is_latest() {
            return PartAnswer::Memory;
        }
        match self.tail.part(self.alloc, &self.core, ask, into) {
            PartAnswer::LogFault => {
                self.stopped = true;
                PartAnswer::LogFault
            }
            answer => answer,
        }
    }

    /// Makes all that is pending stand on the disk, and stops the hall. It is Stopped where the hall had stopped.
    pub fn retire(&mut self) -> CallOutcome
        ensures step { Step (hall_of self.old) event.Retire (outcome.Answered result) (hall_of self.new) }
        ensures stopped { (hall_of self.new).stopped ≡ true }
        ensures world { (hall_of self.new).world ≡ (hall_of self.old).world }
        ensures cause { result ≡ CallOutcome.LogFault
            → Rose (D.faults (disk_of self.old)) (D.faults (disk_of self.new)) }
        ensures later { D.faults (disk_of self.old) ≤ D.faults (disk_of self.new) }
        ensures told { D.crashes (disk_of self.new) ≡ D.crashes (disk_of self.old) }
        ensures rewriting { self.new.tail.rewriting ≡ self.old.tail.rewriting }
        ensures generation { generation_of self.new ≡ generation_of self.old }
        ensures written { result ≡ CallOutcome.Ok
            → IsMirrored D.crashes D.seen D.images self.old.tail.journal self.new.tail.journal }
        ensures log { (j : Log) → KeepsLogOf D.crashes D.seen D.images self.old j
            → GoesOn D.crashes D.seen D.images D.moment D.left_since self.old self.new event.Retire
            (outcome.Answered result) j }
        ensures left { (j : Log) → KeepsLogOf D.crashes D.seen D.images self.old j → result ≡ CallOutcome.Ok
            → (s : Sides) × (D.seen (disk_of self.new) ≡ Some s) × Recovers s (hall_of self.new).world }
        ensures found { (j : Log) → KeepsLogOf D.crashes D.seen D.images self.old j → result ≡ CallOutcome.Ok
            → (s : Sides) → D.seen (disk_of self.new) ≡ Some s → opened_generation s ≡ generation_of self.new }
    {
        if self.is_stopped() {
            return CallOutcome::Stopped;
        }
        // Whether the disk fails or not, no call is made behind this one.
        self.stopped = true;
        match self.tail.commit() {
            Ok(()) => CallOutcome::Ok,
            Err(Failed) => CallOutcome::LogFault,
        }
    }

    /// Gives the disk back. What is pending is forgotten, of which there is nothing behind a retirement that was
    /// answered Ok.
    pub fn into_disk(self) -> D
        ensures { result ≡ disk_of self }
    {
        let DurableCore {
            core: _,
            tail,
            alloc: _,
            stopped: _,
        } = self;
        tail.journal.retire()
    }
}
