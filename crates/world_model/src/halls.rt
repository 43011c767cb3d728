//! What the sessions and the server ask of a shared hall.
//!
//! What a turn carries is handed over and comes back, since whoever holds the lock does the work: it can't be lent.

use crate::asked_lists::AskedList;
use crate::events::{Answers, CallOutcome, EnterFault, LogState, Taken};
use crate::touched::ChangedSessions;
use std::sync::Wait;
use world_data::Frames;

/// A hall that many callers share. Each call but `calls` makes one entry in the hall's history by the seat that it is
/// lent, and leaves the seat the first exactly where it was. A call may wait for its turn.
pub trait HallApi {
    /// What a caller has seen of the history.
    type Seat;

    ghost use Rattle.std.specs.Prelude.{◌≡◌, ◌<◌, ◌≤◌, ◌∷◌, [], length, true};
    ghost use Rattle.std.specs.List.{list_all};
    ghost use Rattle.world_data.specs.Limits.{max_moment, take_frames};
    ghost use Rattle.world_model.specs.Seats.{Knows, Adds, AddsNamed};
    ghost use Rattle.world_model.specs.Outcomes.{is_proper, enter_outcome, take_outcome, given_count, call_acts};
    ghost use Rattle.world_model.specs.Outcomes.{IsCount};
    ghost use Rattle.world_model.specs.declared.events.Event.TheVariants as event;
    ghost use Rattle.world_model.specs.declared.events.Outcome.TheVariants as outcome;

    /// The seat is one of this hall.
    ghost is_of: { Self → Self.Seat → Type 0 };

    /// What the seat shows.
    ghost knows: { Self.Seat → Knows };

    /// Enters a session, and answers its number.
    fn enter<R: Wait>(&self, rt: &R, seat: &mut Self::Seat) -> Result<u32, EnterFault>
        requires { is_of self.now seat.old }
        ensures seat { is_of self.now seat.new }
        ensures entry { Adds event.Enter (enter_outcome result) (knows seat.old) (knows seat.new) };

    /// Does what a session asks for at a moment: a call for each request, in order and in one turn, up to the first
    /// that is not answered Ok. The requests come back as they were, and the list of names with the sessions that the
    /// calls changed in place of what it held. Both go to whoever does the work, so they are handed over.
    fn calls<R: Wait>(
        &self,
        rt: &R,
        seat: &mut Self::Seat,
        session: u32,
        moment: u64,
        asked: AskedList,
        touched: ChangedSessions,
    ) -> (Answers, AskedList, ChangedSessions)
        requires seat { is_of self.now seat.old }
        requires moment { moment ≤ max_moment }
        requires some { 0 < length asked }
        requires few { length asked ≤ 64 }
        requires proper { list_all is_proper asked ≡ true }
        ensures seat { is_of self.now seat.new }
        ensures count { IsCount result.0.served result.0.end (length asked) }
        ensures back { result.1 ≡ asked }
        ensures entries { AddsNamed (call_acts session moment asked result.0.served result.0.end) result.2
            (knows seat.old) (knows seat.new) };

    /// Takes the first frames of a session, as many as there are places.
    fn take<R: Wait>(&self, rt: &R, seat: &mut Self::Seat, session: u32, into: &mut Frames) -> Taken
        requires seat { is_of self.now seat.old }
        requires bare { into.old.list ≡ [] }
        requires places { into.old.places ≡ take_frames }
        ensures seat { is_of self.now seat.new }
        ensures places { into.new.places ≡ take_frames }
        ensures count { length into.new.list ≡ given_count result }
        ensures entry { Adds (event.Take session) (take_outcome result into.new.list) (knows seat.old)
            (knows seat.new) };

    /// Moves the clock to a moment; what is due then expires. The list of names comes back with the sessions that this
    /// changed in place of what it held.
    fn tick<R: Wait>(
        &self,
        rt: &R,
        seat: &mut Self::Seat,
        moment: u64,
        touched: ChangedSessions,
    ) -> (CallOutcome, ChangedSessions)
        requires seat { is_of self.now seat.old }
        requires moment { moment ≤ max_moment }
        ensures seat { is_of self.now seat.new }
        ensures entry { AddsNamed ((event.Tick moment, outcome.Answered result.0) ∷ []) result.1 (knows seat.old)
            (knows seat.new) };

    /// Closes a session: it is given its frames, and served no more.
    fn close<R: Wait>(&self, rt: &R, seat: &mut Self::Seat, session: u32)
        requires { is_of self.now seat.old }
        ensures seat { is_of self.now seat.new }
        ensures entry { Adds (event.Close session) outcome.Done (knows seat.old) (knows seat.new) };

    /// Removes a session with its frames.
    fn remove<R: Wait>(&self, rt: &R, seat: &mut Self::Seat, session: u32)
        requires { is_of self.now seat.old }
        ensures seat { is_of self.now seat.new }
        ensures entry { Adds (event.Remove session) outcome.Done (knows seat.old) (knows seat.new) };

    /// Makes one step of rewriting the log, where that was asked for, and tells how large the log is.
    fn step_rewrite<R: Wait>(&self, rt: &R, seat: &mut Self::Seat) -> (CallOutcome, LogState)
        requires { is_of self.now seat.old }
        ensures seat { is_of self.now seat.new }
        ensures entry { Adds event.Rewrite (outcome.Answered result.0) (knows seat.old) (knows seat.new) };
}

/// A hall that gives out further seats, tells what they have seen and puts them together. It is a trait of its own, so
/// that code over `HallApi` makes entries by the seat that it was lent and by no other.
pub trait HallSplit: HallApi {
    ghost use Rattle.std.specs.Prelude.{◌≡◌, true};
    ghost use Rattle.world_model.specs.Histories.{IsLegal};
    ghost use Rattle.world_model.specs.Seats.{AreOfOne, IsJoined, IsSplit, are_ascending, are_seen};

    /// A further seat, which has seen what this one has.
    fn split(&self, seat: &mut Self::Seat) -> Self::Seat
        requires { Self.is_of self.now seat.old }
        ensures lent { Self.is_of self.now seat.new }
        ensures same { Self.knows seat.new ≡ Self.knows seat.old }
        ensures made { Self.is_of self.now result }
        ensures split { IsSplit (Self.knows seat.old) (Self.knows result) };

    /// A law, which does nothing: what a seat of the hall has seen is a legal history from its opening on, and the
    /// seat's own entries stand in it, in order.
    fn seen(&self, seat: &Self::Seat)
        requires { Self.is_of self.now seat.now }
        ensures legal { IsLegal (Self.knows seat.now).opening (Self.knows seat.now).seen }
        ensures own { are_ascending (Self.knows seat.now).mine ≡ true }
        ensures stand { are_seen (Self.knows seat.now) ≡ true };

    /// Puts two seats of the hall together: the first has then seen what either had, and the entries of both are its
    /// own. The two had seen beginnings of one history, and no entry was an own one of both.
    fn join(&self, seat: &mut Self::Seat, other: Self::Seat)
        requires seat { Self.is_of self.now seat.old }
        requires other { Self.is_of self.now other }
        ensures lent { Self.is_of self.now seat.new }
        ensures one { AreOfOne (Self.knows seat.old) (Self.knows other) }
        ensures joined { IsJoined (Self.knows seat.old) (Self.knows other) (Self.knows seat.new) };
}
