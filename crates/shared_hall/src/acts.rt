//! What is done with the core, one act at a time. A core whose disk was given out answers Stopped, as one that has
//! stopped does.

ghost use Rattle.std.specs.Prelude.{◌≡◌, ◌≤◌, List, [], true, false, length};
ghost use Rattle.byte_text.specs.Names.{Bytes};
ghost use Rattle.world_data.specs.Limits.{max_moment, take_frames};
ghost use Rattle.world_model.specs.Halls.{NamesChanged};
ghost use Rattle.world_model.specs.Outcomes.{enter_outcome, take_outcome, given_count, is_proper};
ghost use Rattle.world_model.specs.declared.events.Event.TheVariants as event;
ghost use Rattle.world_model.specs.declared.events.Outcome.TheVariants as outcome;
ghost use Rattle.tile_core.specs.Answered.{AreSessions, StayNamed};
ghost use Rattle.log_record.specs.Journals.{Journal};
ghost use Rattle.repl_stream.specs.Feeds.{IfGiven, bytes_in, called_of};
ghost use Rattle.repl_stream.specs.Texts.{IsAsk};
ghost use Rattle.shared_hall.specs.Fed.{IsGiven, note_in};
ghost use Rattle.shared_hall.specs.Cores.{Acts, ActsNoted, KeepsIn, hall_in, log_state_in, writing_in};
ghost use Rattle.shared_hall.specs.Turns.{GivesOut, retire_outcome};

use crate::places::{HallCore, Place};
use outside::Disk;
use repl_stream::{Ask, PartAnswer, PartBytes};
use std::mem;
use std::snapshot::Snapshot;
use world_model::{Asked, CallOutcome, ChangedSessions, EnterFault, Frames, LogState, Taken};

// The numbers of an ask are of 64 bits. It is the contract of a function that does nothing.
fn ask_fits(_ask: Ask)
    ensures { IsAsk _ask }
{}

impl<D: Disk + Drop> HallCore<D> {
    // Notes where the core is before its next act.
    fn begin(&mut self)
        ensures place { self.new.place ≡ self.old.place }
        ensures before { self.new.before.value ≡ self.old.place }
        ensures handed { self.new.handed ≡ self.old.handed }
    {
        self.before = Snapshot::of(&self.place);
    }

    pub(crate) fn enter(&mut self) -> Result<u32, EnterFault>
        ensures act { Acts D.crashes D.seen D.images D.moment D.left_since D.faults self.old.place self.new.place
            (event.Enter, enter_outcome result) }
        ensures before { self.new.before.value ≡ self.old.place }
        ensures handed { self.new.handed ≡ self.old.handed }
    {
        self.begin();
        match &mut self.place {
            Place::Inside(core) => core.enter(),
            Place::Out(_) => Err(EnterFault::Stopped),
        }
    }

    pub(crate) fn call(
        &mut self,
        session: u32,
        moment: u64,
        asked: &Asked,
        touched: &mut ChangedSessions,
    ) -> CallOutcome
        requires moment { moment ≤ max_moment }
        requires proper { is_proper asked.now ≡ true }
        requires room { AreSessions touched.old (hall_in self.old.place) }
        ensures act { Acts D.crashes D.seen D.images D.moment D.left_since D.faults self.old.place self.new.place
            (event.Call session moment asked.now, outcome.Answered result) }
        ensures before { self.new.before.value ≡ self.old.place }
        ensures handed { self.new.handed ≡ self.old.handed }
        ensures named { NamesChanged touched.new (hall_in self.old.place) (hall_in self.new.place) }
        ensures kept { StayNamed touched.old touched.new }
        ensures room { AreSessions touched.new (hall_in self.new.place) }
    {
        self.begin();
        match &mut self.place {
            Place::Inside(core) => core.call(session, moment, asked, touched),
            Place::Out(_) => CallOutcome::Stopped,
        }
    }

    pub(crate) fn take(&mut self, session: u32, into: &mut Frames) -> Taken
        requires { into.old ≡ record { list = []; places = take_frames } }
        ensures act { Acts D.crashes D.seen D.images D.moment D.left_since D.faults self.old.place self.new.place
            (event.Take session, take_outcome result into.new.list) }
        ensures before { self.new.before.value ≡ self.old.place }
        ensures handed { self.new.handed ≡ self.old.handed }
        ensures count { given_count result ≡ length into.new.list }
        ensures places { into.new.places ≡ take_frames }
    {
        self.begin();
        match &mut self.place {
            Place::Inside(core) => core.take(session, into),
            Place::Out(_) => Taken::Stopped,
        }
    }

    pub(crate) fn tick(&mut self, moment: u64, touched: &mut ChangedSessions) -> CallOutcome
        requires moment { moment ≤ max_moment }
        requires room { AreSessions touched.old (hall_in self.old.place) }
        ensures act { Acts D.crashes D.seen D.images D.moment D.left_since D.faults self.old.place self.new.place
            (event.Tick moment, outcome.Answered result) }
        ensures before { self.new.before.value ≡ self.old.place }
        ensures handed { self.new.handed ≡ self.old.handed }
        ensures named { NamesChanged touched.new (hall_in self.old.place) (hall_in self.new.place) }
    {
        self.begin();
        match &mut self.place {
            Place::Inside(core) => core.tick(moment, touched),
            Place::Out(_) => CallOutcome::Stopped,
        }
    }

    pub(crate) fn close(&mut self, session: u32)
        ensures act { Acts D.crashes D.seen D.images D.moment D.left_since D.faults self.old.place self.new.place
            (event.Close session, outcome.Done) }
        ensures before { self.new.before.value ≡ self.old.place }
        ensures handed { self.new.handed ≡ self.old.handed }
    {
        self.begin();
        match &mut self.place {
            Place::Inside(core) => core.close_session(session),
            Place::Out(_) => {}
        }
    }

    pub(crate) fn remove(&mut self, session: u32)
        ensures act { Acts D.crashes D.seen D.images D.moment D.left_since D.faults self.old.place self.new.place
            (event.Remove session, outcome.Done) }
        ensures before { self.new.before.value ≡ self.old.place }
        ensures handed { self.new.handed ≡ self.old.handed }
    {
        self.begin();
        match &mut self.place {
            Place::Inside(core) => core.remove_session(session),
            Place::Out(_) => {}
        }
    }

    /// A step of rewriting, and what the log is behind it. A log that was given out has no bytes.
    pub(crate) fn step_rewrite(&mut self) -> (CallOutcome, LogState)
        ensures act { Acts D.crashes D.seen D.images D.moment D.left_since D.faults self.old.place self.new.place
            (event.Rewrite, outcome.Answered result.0) }
        ensures state { result.1 ≡ log_state_in self.new.place }
        ensures before { self.new.before.value ≡ self.old.place }
        ensures handed { self.new.handed ≡ self.old.handed }
    {
        self.begin();
        match &mut self.place {
            Place::Inside(core) => {
                let called = core.step_rewrite();
                let log = LogState {
                    bytes: core.log_bytes(),
                    is_rewriting: core.is_rewriting(),
                };
                (called, log)
            }
            Place::Out(_) => (
                CallOutcome::Stopped,
                LogState {
                    bytes: 0,
                    is_rewriting: false,
                },
            ),
        }
    }

    /// The answer to an ask out of the log, behind a step of rewriting.
    pub(crate) fn log_part(&mut self, ask: Ask, into: &mut PartBytes) -> PartAnswer
        ensures act { ActsNoted D.crashes D.seen D.images D.moment D.left_since D.faults self.old.place self.new.place
            (event.Rewrite, outcome.Answered (called_of result)) (note_in ask result into.new) }
        ensures part { (j : Journal) → KeepsIn D.crashes D.seen D.images self.old.place j
            → IfGiven result
            (λ part. (batches : List Bytes) × IsGiven (writing_in self.new.place).generation
            (hall_in self.new.place).world batches ask part (bytes_in into.new)) }
        ensures before { self.new.before.value ≡ self.old.place }
        ensures handed { self.new.handed ≡ self.old.handed }
    {
        self.begin();
        ask_fits(ask);
        match &mut self.place {
            Place::Inside(core) => core.log_part(ask, into),
            Place::Out(_) => PartAnswer::Stopped,
        }
    }

    /// The core's last act. The disk comes out, with how that ended; there is none where it came out before.
    pub(crate) fn retire(&mut self) -> Option<(D, CallOutcome)>
        ensures act { Acts D.crashes D.seen D.images D.moment D.left_since D.faults self.old.place self.new.place
            (event.Retire, retire_outcome result) }
        ensures before { self.new.before.value ≡ self.old.place }
        ensures handed { self.new.handed ≡ self.old.handed }
        ensures gives { GivesOut D.crashes D.seen D.images D.moment D.left_since D.faults self.old.place result
            self.new.place }
    {
        self.begin();
        let (called, left) = match &mut self.place {
            Place::Inside(core) => {
                let called = core.retire();
                (called, Snapshot::of(&*core))
            }
            Place::Out(_) => return None,
        };
        match mem::replace(&mut self.place, Place::Out(left)) {
            Place::Inside(core) => Some((core.into_disk(), called)),
            Place::Out(_) => unreachable!(),
        }
    }
}
