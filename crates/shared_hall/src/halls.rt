//! The hall that many threads share, and its calls.
//!
//! A hall retires by its first seat alone, as the one entry that is kept for it.

ghost use Rattle.std.specs.Prelude.{◌≡◌, ◌≤◌, ◌⊎◌, ◌^◌, ◌-◌, true, false, is_some, not, min, Some, IfOk, IfErr, IfSome};
ghost use Rattle.std.specs.List.{list_any};
ghost use Rattle.outside.specs.Causes.{most_count};
ghost use Rattle.outside.specs.Crashes.{EachImage};
ghost use Rattle.outside.specs.Sides.{Sides};
ghost use Rattle.world_model.specs.Halls.{Hall};
ghost use Rattle.world_model.specs.Histories.{Reaches};
ghost use Rattle.world_model.specs.Seats.{Adds};
ghost use Rattle.world_model.specs.declared.events.Event.TheVariants as event;
ghost use Rattle.journal.specs.Openings.{opened_generation};
ghost use Rattle.log_record.specs.Recovery.{Recovers};
ghost use Rattle.log_record.specs.Safety.{Safe, count_after};
ghost use Rattle.durable_core.specs.Histories.{LeavesGeneration};
ghost use Rattle.shared_hall.specs.Cores.{tells, IsOpenedOn};
ghost use Rattle.shared_hall.specs.Fed.{FeedsLogs, GrewFrom, IsFound, LastsOn, any_grown, any_lasting};
ghost use Rattle.shared_hall.specs.Restarts.{Carries};
ghost use Rattle.shared_hall.specs.Seats.{IsOf, IsDone, knows_of, first_knows, first_writing, handed_of, opened_of};
ghost use Rattle.shared_hall.specs.Times.{is_retirement};
ghost use Rattle.shared_hall.specs.Turns.{retire_outcome, retires};

use crate::places::{HallCore, Place};
use crate::works::{Asking, AskingPart, HallAnswer, HallWork, Taking, Ticking};
use durable_core::DurableCore;
use outside::Disk;
use repl_stream::{Ask, FeedApi, PartAnswer, PartBytes};
use std::alloc::Global;
use std::snapshot::Snapshot;
use std::sync::Wait;
use turn_lock::{Seat, TurnLock};
use world_model::{
    Answers, AskedList, CallOutcome, ChangedSessions, EnterFault, Frames, HallApi, HallSplit,
    LogState, Taken, step_laws,
};

/// What a caller has seen of the hall's history.
pub type HallSeat<D> = Seat<HallCore<D>>;

/// A hall that many threads share.
pub struct SharedHall<D: Disk + Drop> {
    pub(crate) lock: TurnLock<HallCore<D>>,
}

impl<D: Disk + Drop> Drop for SharedHall<D> {
    fn drop(self) {
        let SharedHall { lock: _ } = self;
    }
}

impl<D: Disk + Drop> SharedHall<D> {
    /// A hall round a core that was opened over a disk and has not been used, and its first seat, which has seen
    /// nothing. The history opens with the core as it is now. `handed` is the disk as it was before it was opened:
    /// where it told its contents and what a crash may leave, the disk is safe for the hall's history from then on. The
    /// core comes back for want of memory alone.
    pub fn new(
        alloc: Global,
        core: DurableCore<D>,
        handed: Snapshot<D>,
    ) -> Result<(SharedHall<D>, HallSeat<D>), DurableCore<D>>
        requires { IsOpenedOn D.crashes D.seen D.images D.moment D.left_since D.faults core handed.value }
        ensures seat { IfOk result (λ r. IsOf D.crashes D.seen D.images D.moment D.left_since D.faults r.0 r.1) }
        ensures knows { IfOk result
            (λ r. knows_of r.1
            ≡ first_knows D.crashes D.seen D.images D.moment D.left_since D.faults core handed.value) }
        ensures handed { IfOk result (λ r. handed_of r.0 ≡ handed.value) }
        ensures opened { IfOk result (λ r. opened_of r.0 ≡ core) }
        ensures back { IfErr result (λ c. c ≡ core) }
    {
        let place = Place::Inside(core);
        let before = Snapshot::of(&place);
        let value = HallCore {
            place,
            before,
            handed,
        };
        match TurnLock::new(alloc, value) {
            Ok((lock, seat)) => Ok((SharedHall { lock }, seat)),
            Err(value) => {
                let HallCore {
                    place,
                    before: _,
                    handed: _,
                } = value;
                match place {
                    Place::Inside(core) => Err(core),
                    Place::Out(_) => unreachable!(),
                }
            }
        }
    }

    // Takes a turn: the work is done once, and its acts are entries of the seat's own.
    fn turn<R: Wait>(&self, rt: &R, seat: &mut HallSeat<D>, work: HallWork) -> HallAnswer<D>
        requires seat { IsOf D.crashes D.seen D.images D.moment D.left_since D.faults self.now seat.old }
        requires may { (knows_of seat.old).first ≡ false → retires work ≡ false }
        ensures seat { IsOf D.crashes D.seen D.images D.moment D.left_since D.faults self.now seat.new }
        ensures done { IsDone D.crashes D.seen D.images D.moment D.left_since D.faults (handed_of self.now)
            (first_writing self.now) work result (knows_of seat.old) (knows_of seat.new) }
    {
        // An entry leads to one hall, so that the history alone tells who was changed.
        step_laws();
        self.lock.turn(rt, seat, work)
    }

    /// Makes all that is pending stand, and gives the disk out; from then on each call is answered Stopped. None where
    /// it was given out before. Where the disk told its contents and what a crash may leave, it is safe for all that
    /// the seat has seen then; and where all was made to stand, whatever a crash may leave is the world of that
    /// history, and the log there is of the generation that its rewritings lead to. All parts that followers were given
    /// are then of logs that only grew, as the notes of their entries tell; and so is whatever a crash left since.
    pub fn retire<R: Wait>(&self, rt: &R, seat: &mut HallSeat<D>) -> Option<(D, CallOutcome)>
        requires seat { IsOf D.crashes D.seen D.images D.moment D.left_since D.faults self.now seat.old }
        requires first { (knows_of seat.old).first ≡ true }
        ensures seat { IsOf D.crashes D.seen D.images D.moment D.left_since D.faults self.now seat.new }
        ensures entry { Adds event.Retire (retire_outcome result) (knows_of seat.old) (knows_of seat.new) }
        ensures once { is_some result ≡ not (list_any is_retirement (knows_of seat.old).seen) }
        ensures counted { IfSome result
            (λ given. count_after (knows_of seat.new).opening.count (knows_of seat.new).seen
            ≡ min (D.faults given.0) most_count) }
        ensures safe { tells D.crashes D.seen (handed_of self.now) ≡ true
            → IfSome result (λ given. Safe D.left_since given.0 (knows_of seat.new).opening (knows_of seat.new).seen) }
        ensures stands { tells D.crashes D.seen (handed_of self.now) ≡ true
            → IfSome result
            (λ given. given.1 ≡ CallOutcome.Ok → (h : Hall)
            → Reaches (knows_of seat.new).opening (knows_of seat.new).seen h
            → EachImage (D.images given.0) (λ image. Recovers image h.world)) }
        ensures generation { tells D.crashes D.seen (handed_of self.now) ≡ true
            → IfSome result
            (λ given. given.1 ≡ CallOutcome.Ok → (s : Sides) → D.seen given.0 ≡ Some s
            → LeavesGeneration (knows_of seat.new).opening (first_writing self.now) (knows_of seat.new).seen
            (opened_generation s)) }
        ensures feeds { tells D.crashes D.seen (handed_of self.now) ≡ true
            → FeedsLogs any_lasting any_grown (first_writing self.now) (knows_of seat.new) }
        ensures lasts { tells D.crashes D.seen (handed_of self.now) ≡ true
            → IfSome result
            (λ given. FeedsLogs (LastsOn (D.left_since given.0))
            (GrewFrom (IsFound (D.seen (handed_of self.now)) (D.images (handed_of self.now))))
            (first_writing self.now) (knows_of seat.new)) }
        ensures carries { tells D.crashes D.seen (handed_of self.now) ≡ true
            → IfSome result
            (λ given. Carries (IsFound (D.seen (handed_of self.now)) (D.images (handed_of self.now)))
            (D.left_since given.0) (D.moment (handed_of self.now))) }
    {
        match self.turn(rt, seat, HallWork::Retire) {
            HallAnswer::Retired(given) => given,
            _ => unreachable!(),
        }
    }
}

impl<D: Disk + Drop> HallApi for SharedHall<D> {
    type Seat = HallSeat<D>;

    ghost use Rattle.shared_hall.specs.Seats.{IsOf, knows_of};

    ghost is_of = { λ hall seat. IsOf D.crashes D.seen D.images D.moment D.left_since D.faults hall seat };

    ghost knows = { λ seat. knows_of seat };

    fn enter<R: Wait>(&self, rt: &R, seat: &mut HallSeat<D>) -> Result<u32, EnterFault> {
        match self.turn(rt, seat, HallWork::Enter) {
            HallAnswer::Entered(entered) => entered,
            _ => unreachable!(),
        }
    }

    fn calls<R: Wait>(
        &self,
        rt: &R,
        seat: &mut HallSeat<D>,
        session: u32,
        moment: u64,
        asked: AskedList,
        touched: ChangedSessions,
    ) -> (Answers, AskedList, ChangedSessions) {
        let asking = Asking {
            session,
            moment,
            asked,
            touched,
        };
        match self.turn(rt, seat, HallWork::Call(asking)) {
            HallAnswer::Called(answers, asked, touched) => (answers, asked, touched),
            _ => unreachable!(),
        }
    }

    fn take<R: Wait>(
        &self,
        rt: &R,
        seat: &mut HallSeat<D>,
        session: u32,
        into: &mut Frames,
    ) -> Taken {
        let taking = Taking {
            session,
            into: into.move_out(),
        };
        match self.turn(rt, seat, HallWork::Take(taking)) {
            HallAnswer::Taken(taken, frames) => {
                *into = frames;
                taken
            }
            _ => unreachable!(),
        }
    }

    fn tick<R: Wait>(
        &self,
        rt: &R,
        seat: &mut HallSeat<D>,
        moment: u64,
        touched: ChangedSessions,
    ) -> (CallOutcome, ChangedSessions) {
        match self.turn(rt, seat, HallWork::Tick(Ticking { moment, touched })) {
            HallAnswer::Ticked(called, touched) => (called, touched),
            _ => unreachable!(),
        }
    }

    fn close<R: Wait>(&self, rt: &R, seat: &mut HallSeat<D>, session: u32) {
        self.turn(rt, seat, HallWork::Close(session));
    }

    fn remove<R: Wait>(&self, rt: &R, seat: &mut HallSeat<D>, session: u32) {
        self.turn(rt, seat, HallWork::Remove(session));
    }

    fn step_rewrite<R: Wait>(&self, rt: &R, seat: &mut HallSeat<D>) -> (CallOutcome, LogState) {
        match self.turn(rt, seat, HallWork::StepRewrite) {
            HallAnswer::Rewrote(called, log) => (called, log),
            _ => unreachable!(),
        }
    }
}

impl<D: Disk + Drop> FeedApi for SharedHall<D> {
    ghost use Rattle.shared_hall.specs.Seats.{AnswersAsk, first_writing, handed_of};
    ghost use Rattle.shared_hall.specs.Cores.{tells};

    ghost answers = { λ hall k ask part bytes. AnswersAsk (tells D.crashes D.seen (handed_of hall)) (first_writing hall)
        k ask part bytes };

    fn log_part<R: Wait>(
        &self,
        rt: &R,
        seat: &mut HallSeat<D>,
        ask: Ask,
        into: PartBytes,
    ) -> (PartAnswer, PartBytes) {
        match self.turn(rt, seat, HallWork::Part(AskingPart { ask, into })) {
            HallAnswer::Parted(given, into) => (given, into),
            _ => unreachable!(),
        }
    }
}

impl<D: Disk + Drop> HallSplit for SharedHall<D> {
    fn split(&self, seat: &mut HallSeat<D>) -> HallSeat<D> {
        self.lock.split(seat)
    }

    fn seen(&self, _seat: &HallSeat<D>) {}

    fn join(&self, seat: &mut HallSeat<D>, other: HallSeat<D>) {
        self.lock.join(seat, other);
    }
}
