//! The atomic steps of a turn, each on one word of the table or on the slot that is out with the seat.

ghost use Rattle.std.specs.Prelude.{◌≡◌, ◌≢◌, ◌++◌, ◌∷◌, ◌+◌, ◌<◌, ◌≤◌, ◌^◌, [], List, Bool, true, false, length};
ghost use Rattle.std.specs.Prelude.{IsTrue, Some, None};
ghost use mathlib.Core.List.{IsPrefix};
ghost use Rattle.turn_lock.specs.declared.seat.Stage.TheVariants.{Opens, Idle, Works};
ghost use Rattle.turn_lock.specs.declared.seat.Hand.TheVariants.{Empty, Holds};
ghost use Rattle.turn_lock.specs.declared.seat.Post.TheVariants.{Nowhere, Claims, Posts};
ghost use Rattle.turn_lock.specs.declared.seat.Held.TheVariants.{Value, Asked, Answered};
ghost use Rattle.turn_lock.specs.Seats.{OwnsKept, OwnPlaces, Turn, Keeps, known_of, at_stage, at_post, with_hand};
ghost use Rattle.turn_lock.specs.Seats.{served, worked, answered};
ghost use Rattle.turn_lock.specs.Rule.{IsPosted};
ghost use Rattle.turn_lock.specs.Turned.{NoneKept, NeverKept};
ghost use Rattle.turn_lock.specs.Lock.{opening_of};

use crate::lock::TurnLock;
use crate::seat::{Held, Seat};
use crate::tells::{Add, Claim, Collect, Fetch, Finish, Free, Leave, Lock, Named, Open, Put, Same};
use crate::turned::{Out, Turned, Work};
use std::snapshot::Snapshot;

/// The word that says whether the lock is free, and the slot of the value.
pub(crate) const LOCK: usize = 0;

/// So many words and slots there are: the lock's, and the places'. No place is looked at that was never in use.
pub(crate) const SIZE: usize = 256;

pub(crate) const HELD: u64 = 0;

pub(crate) const FREE: u64 = 1;

pub(crate) const EMPTY: u64 = 0;

pub(crate) const CLAIMED: u64 = 1;

pub(crate) const POSTED: u64 = 2;

pub(crate) const POSTED_LATE: u64 = 4;

pub(crate) const DONE: u64 = 6;

impl<T: Turned> TurnLock<T> {
    // The slot of the value goes out to the first seat, when the lock is made.
    pub(crate) fn open(&self, seat: &mut Seat<T>)
        requires { (seat.old.table_id ≡ self.now.table.shared.table_id) × (seat.old.me.0.stage ≡ Opens)
            × (seat.old.me.0.hand ≡ Empty)
            × (seat.old.me.0.post ≡ Nowhere) }
        ensures table { seat.new.table_id ≡ seat.old.table_id }
        ensures me { seat.new.me ≡ (at_stage seat.old.me.0 (Works []), (0, None) ∷ seat.old.me.1) }
    {
        self.table.shared.load::<Open>(seat, LOCK);
    }

    // Takes the lock if it is free. The slot of the value then goes out to the seat.
    pub(crate) fn try_lock(&self, seat: &mut Seat<T>) -> bool
        requires table { (seat.old.table_id ≡ self.now.table.shared.table_id) × (seat.old.me.1 ≡ []) }
        requires aside { (seat.old.me.0.stage ≡ Idle) × (seat.old.me.0.hand ≡ Empty)
            × ((known_of seat.old).opening ≡ Some (opening_of T.opening self.now)) }
        ensures table { seat.new.table_id ≡ seat.old.table_id }
        ensures missed { result ≡ false → seat.new.me ≡ seat.old.me }
        ensures locked { IsTrue result → (value : T) × (log : List T.Entry)
            × (seat.new.me ≡ (at_stage seat.old.me.0 (Works log), (0, Some (Value value)) ∷ []))
            × T.stands value (opening_of T.opening self.now) log }
    {
        self.table
            .shared
            .compare_exchange::<Lock>(seat, LOCK, FREE, HELD)
            == FREE
    }

    // The history has the entry of the seat's own work.
    pub(crate) fn commit<J: Named<T::Entry>>(
        &self,
        seat: &mut Seat<T>,
        work: &Snapshot<T::Work>,
        out: &Out<T>,
        after: &Snapshot<T>,
    )
        requires entries { J.entries ≡ T.Work.entries work.now.value out.now after.now.value }
        requires table { seat.old.table_id ≡ self.now.table.shared.table_id }
        requires works { (log : List T.Entry) × (seat.old.me.0.stage ≡ Works log) }
        requires aside { (seat.old.me.0.hand ≡ Empty) × (seat.old.me.0.post ≡ Nowhere) }
        requires may { (known_of seat.old).first ≡ false
            → NoneKept T.kept (T.Work.entries work.now.value out.now after.now.value) }
        ensures table { seat.new.table_id ≡ seat.old.table_id }
        ensures turn { (log : List T.Entry) → seat.old.me.0.stage ≡ Works log
            → (seat.new.me ≡ (
              worked seat.old.me.0 log
                  (T.Work.entries work.now.value out.now after.now.value),
              seat.old.me.1,
            ))
            × IsPrefix (known_of seat.old).seen log }
        ensures kept { OwnsKept T.kept (known_of seat.new) }
        ensures own { OwnPlaces (known_of seat.new) }
    {
        self.table.shared.load::<Add<J>>(seat, LOCK);
    }

    // Gives the slot of the value back and frees the lock.
    pub(crate) fn free(&self, seat: &mut Seat<T>)
        requires table { seat.old.table_id ≡ self.now.table.shared.table_id }
        requires works { (value : T) × (log : List T.Entry) × (seat.old.me.0.stage ≡ Works log)
            × (seat.old.me.1 ≡ (0, Some (Value value)) ∷ [])
            × T.stands value (opening_of T.opening self.now) log }
        requires hand { seat.old.me.0.hand ≡ Empty }
        ensures table { seat.new.table_id ≡ seat.old.table_id }
        ensures me { seat.new.me ≡ (at_stage seat.old.me.0 Idle, []) }
    {
        self.table.shared.store::<Free>(seat, LOCK, FREE);
    }

    // Claims the place if it is empty. Its slot then goes out to the seat.
    pub(crate) fn claim(&self, seat: &mut Seat<T>, place: usize) -> bool
        requires place { (0 < place) × (place < 256) }
        requires table { seat.old.table_id ≡ self.now.table.shared.table_id }
        requires aside { (seat.old.me.0.stage ≡ Idle) × (seat.old.me.0.hand ≡ Empty) × (seat.old.me.0.post ≡ Nowhere) }
        ensures table { seat.new.table_id ≡ seat.old.table_id }
        ensures missed { result ≡ false → seat.new.me ≡ seat.old.me }
        ensures claimed { IsTrue result
            → seat.new.me ≡ (at_post seat.old.me.0 (Claims place), (place, None) ∷ seat.old.me.1) }
    {
        self.table
            .shared
            .compare_exchange::<Claim>(seat, place, EMPTY, CLAIMED)
            == EMPTY
    }

    // Gives the slot of the place back, with the work in it.
    pub(crate) fn post(&self, seat: &mut Seat<T>, place: usize, work: &Snapshot<T::Work>, word: u64)
        requires place { (0 < place) × (place < 256) }
        requires word { IsPosted word }
        requires table { seat.old.table_id ≡ self.now.table.shared.table_id }
        requires claims { (seat.old.me.0.stage ≡ Idle) × (seat.old.me.0.hand ≡ Empty)
            × (seat.old.me.0.post ≡ Claims place)
            × (seat.old.me.1 ≡ (place, Some (Asked work.now.value)) ∷ []) }
        requires may { (known_of seat.old).first ≡ false → NeverKept T.kept T.Work.entries T.Work.gives work.now.value }
        ensures table { seat.new.table_id ≡ seat.old.table_id }
        ensures me { seat.new.me ≡ (at_post seat.old.me.0 (Posts place work.now.value), []) }
    {
        self.table.shared.store::<Put>(seat, place, word);
    }

    // Says of a place where a work lies that its seat sleeps, or that it is awake.
    pub(crate) fn restyle(&self, seat: &mut Seat<T>, place: usize, old: u64, new: u64) -> bool
        requires place { (0 < place) × (place < 256) }
        requires words { IsPosted old × IsPosted new }
        requires table { seat.old.table_id ≡ self.now.table.shared.table_id }
        requires aside { seat.old.me.0.hand ≡ Empty }
        ensures table { seat.new.table_id ≡ seat.old.table_id }
        ensures me { seat.new.me ≡ seat.old.me }
    {
        self.table
            .shared
            .compare_exchange::<Same>(seat, place, old, new)
            == old
    }

    // Takes the work of the place, if one lies there. Its slot then goes out to the seat.
    pub(crate) fn fetch(&self, seat: &mut Seat<T>, place: usize) -> bool
        requires place { (0 < place) × (place < 256) }
        requires table { seat.old.table_id ≡ self.now.table.shared.table_id }
        requires works { (seat.old.me.0.hand ≡ Empty) × ((log : List T.Entry) × (seat.old.me.0.stage ≡ Works log)) }
        ensures table { seat.new.table_id ≡ seat.old.table_id }
        ensures none { result ≡ false → seat.new.me ≡ seat.old.me }
        ensures work { IsTrue result → (w : T.Work)
            × (seat.new.me ≡ (with_hand seat.old.me.0 (Holds place w), (place, Some (Asked w)) ∷ seat.old.me.1)) }
    {
        let found = self.table.shared.load::<Fetch>(seat, place);
        POSTED <= found && found < DONE
    }

    // Gives the slot of the place back, with the answer in it. The history has then the entry of the work.
    pub(crate) fn finish<J: Named<T::Entry>>(
        &self,
        seat: &mut Seat<T>,
        place: usize,
        work: &Snapshot<T::Work>,
        out: &Snapshot<Out<T>>,
        after: &Snapshot<T>,
    ) -> u64
        requires place { (0 < place) × (place < 256) }
        requires entries { J.entries ≡ T.Work.entries work.now.value out.now.value after.now.value }
        requires table { seat.old.table_id ≡ self.now.table.shared.table_id }
        requires slots { seat.old.me.1 ≡ (place, Some (Answered out.now.value)) ∷ (0, None) ∷ [] }
        requires hand { seat.old.me.0.hand ≡ Holds place work.now.value }
        requires ran { (old : T) × (log : List T.Entry) × (seat.old.me.0.stage ≡ Works log)
            × T.stands old (opening_of T.opening self.now) log
            × T.Work.gives work.now.value old out.now.value after.now.value
            × T.stands after.now.value (opening_of T.opening self.now)
            (log ++ T.Work.entries work.now.value out.now.value after.now.value) }
        ensures table { seat.new.table_id ≡ seat.old.table_id }
        ensures me { (log : List T.Entry) → seat.old.me.0.stage ≡ Works log
            → seat.new.me ≡ (
              served seat.old.me.0 log (T.Work.entries work.now.value out.now.value after.now.value),
              (0, None) ∷ [],
            ) }
    {
        self.table.shared.swap::<Finish<J>>(seat, place, DONE)
    }

    // Takes the answer, if the work is done. The slot of the place then goes out to the seat.
    pub(crate) fn collect(&self, seat: &mut Seat<T>, place: usize, work: &Snapshot<T::Work>) -> bool
        requires place { (0 < place) × (place < 256) }
        requires table { (seat.old.table_id ≡ self.now.table.shared.table_id)
            × ((known_of seat.old).opening ≡ Some (opening_of T.opening self.now)) }
        requires posts { (seat.old.me.0.stage ≡ Idle) × (seat.old.me.0.hand ≡ Empty)
            × (seat.old.me.0.post ≡ Posts place work.now.value) }
        ensures table { seat.new.table_id ≡ seat.old.table_id }
        ensures early { result ≡ false → seat.new.me ≡ seat.old.me }
        ensures turn { IsTrue result → (out : T.Work.Out) × (old : T) × (new : T) × (log : List T.Entry)
            × (seat.new.me ≡ (
              answered seat.old.me.0 place log (T.Work.entries work.now.value out new),
              (place, Some (Answered out)) ∷ seat.old.me.1,
            ))
            × IsPrefix (known_of seat.old).seen log × T.stands old (opening_of T.opening self.now) log
            × T.Work.gives work.now.value old out new
            × T.stands new (opening_of T.opening self.now) (log ++ T.Work.entries work.now.value out new)
            × OwnsKept T.kept (known_of seat.new) × OwnPlaces (known_of seat.new) }
    {
        self.table
            .shared
            .compare_exchange::<Collect>(seat, place, DONE, CLAIMED)
            == DONE
    }

    // Gives the slot of the place back, with nothing in it.
    pub(crate) fn leave(&self, seat: &mut Seat<T>, place: usize)
        requires place { (0 < place) × (place < 256) }
        requires table { seat.old.table_id ≡ self.now.table.shared.table_id }
        requires claims { (seat.old.me.0.stage ≡ Idle) × (seat.old.me.0.hand ≡ Empty)
            × (seat.old.me.0.post ≡ Claims place)
            × (seat.old.me.1 ≡ (place, None) ∷ []) }
        ensures table { seat.new.table_id ≡ seat.old.table_id }
        ensures me { seat.new.me ≡ (at_post seat.old.me.0 Nowhere, []) }
    {
        self.table.shared.store::<Leave>(seat, place, EMPTY);
    }
}
