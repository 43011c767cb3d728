//! What a seat does while it has the lock: its own work, and what others have posted.

ghost use Rattle.std.specs.Prelude.{◌≡◌, ◌⊎◌, ◌++◌, ◌∷◌, ◌<◌, ◌≤◌, [], List, true, false, length, IfSome, IfNone, Some};
ghost use Rattle.std.specs.Prelude.{None};
ghost use mathlib.Core.List.{IsPrefix};
ghost use Rattle.turn_lock.specs.declared.seat.Stage.TheVariants.{Works};
ghost use Rattle.turn_lock.specs.declared.seat.Hand.TheVariants.{Empty, Holds};
ghost use Rattle.turn_lock.specs.declared.seat.Post.TheVariants.{Nowhere, Claims};
ghost use Rattle.turn_lock.specs.declared.seat.Held.TheVariants.{Value, Asked, Answered};
ghost use Rattle.turn_lock.specs.Rule.{IsPosted};
ghost use Rattle.turn_lock.specs.Turned.{NeverKept};
ghost use Rattle.turn_lock.specs.Seats.{OwnsKept, OwnPlaces, Turn, Keeps, known_of, at_post};
ghost use Rattle.turn_lock.specs.Lock.{IsSeatOf, IsAtWork, IsLocked, IsAside, opening_of};

use crate::lock::TurnLock;
use crate::seat::{Held, Seat};
use crate::sleepers::Sleepers;
use crate::steps::{EMPTY, FREE, LOCK, POSTED, POSTED_LATE, SIZE};
use crate::turned::{Out, Turned, Work};
use std::marker::Brand;
use std::snapshot::Snapshot;
use std::sync::atomic::Ordering;

/// So often whoever has the lock looks at all places before it frees it.
const PASSES: u32 = 4;

/// So often it takes the lock again for what was posted meanwhile.
const ROUNDS: u32 = 4;

impl<T: Turned> TurnLock<T> {
    // Takes the value out of its slot.
    pub(crate) fn take_out(&self, seat: &mut Seat<T>) -> T
        requires { IsLocked T.opening T.stands self.now seat.old }
        ensures work { IsAtWork T.opening T.stands self.now seat.new result }
        ensures view { seat.new.me.0 ≡ seat.old.me.0 }
    {
        let held = self.table.shared.exchange(seat, LOCK, None);
        let Some(Held::Value(value)) = held else {
            unreachable!()
        };
        value
    }

    // Puts the value back and frees the lock.
    pub(crate) fn give_back(&self, seat: &mut Seat<T>, value: T)
        requires { IsAtWork T.opening T.stands self.now seat.old value }
        ensures aside { IsAside self.now seat.new }
        ensures keeps { Keeps seat.old.me.0 seat.new.me.0 }
    {
        let empty = self
            .table
            .shared
            .exchange(seat, LOCK, Some(Held::Value(value)));
        let None = empty else { unreachable!() };
        self.free(seat);
        if self.queued.load(Ordering::SeqCst) > 0 {
            self.table.shared.wake_one(LOCK);
        }
    }

    // Does the seat's own work.
    fn run_own(&self, seat: &mut Seat<T>, value: &mut T, work: T::Work) -> Out<T>
        requires work { IsAtWork T.opening T.stands self.now seat.old value.old }
        requires post { seat.old.me.0.post ≡ Nowhere }
        requires may { (known_of seat.old).first ≡ false → NeverKept T.kept T.Work.entries T.Work.gives work }
        ensures work { IsAtWork T.opening T.stands self.now seat.new value.new }
        ensures view { (seat.new.me.0.post ≡ seat.old.me.0.post) × (seat.new.me.0.merged ≡ seat.old.me.0.merged) }
        ensures turn { (old : T) × (log : List T.Entry) × T.stands old (opening_of T.opening self.now) log
            × T.Work.gives work old result value.new
            × T.stands value.new (opening_of T.opening self.now) (log ++ T.Work.entries work result value.new)
            × Turn (known_of seat.old) (known_of seat.new) log (T.Work.entries work result value.new) }
        ensures kept { OwnsKept T.kept (known_of seat.new) }
        ensures own { OwnPlaces (known_of seat.new) }
    {
        let own = Snapshot::of(&work);
        let out = work.run(value);
        let left = Snapshot::of(&*value);
        self.commit::<Brand>(seat, &own, &out, &left);
        out
    }

    // Takes the work of the place out of the slot that is out with the seat.
    fn take_work(&self, seat: &mut Seat<T>, place: usize) -> T::Work
        requires { (seat.old.table_id ≡ self.now.table.shared.table_id)
            × ((w : T.Work) × (seat.old.me.1 ≡ (place, Some (Asked w)) ∷ (0, None) ∷ [])) }
        ensures table { seat.new.table_id ≡ seat.old.table_id }
        ensures work { seat.old.me.1 ≡ (place, Some (Asked result)) ∷ (0, None) ∷ [] }
        ensures slot { seat.new.me ≡ (seat.old.me.0, (place, None) ∷ (0, None) ∷ []) }
    {
        let held = self.table.shared.exchange(seat, place, None);
        let Some(Held::Asked(work)) = held else {
            unreachable!()
        };
        work
    }

    // Puts an answer into the slot that is out with the seat.
    fn put_answer(&self, seat: &mut Seat<T>, place: usize, out: Out<T>)
        requires { (seat.old.table_id ≡ self.now.table.shared.table_id)
            × (seat.old.me.1 ≡ (place, None) ∷ (0, None) ∷ []) }
        ensures table { seat.new.table_id ≡ seat.old.table_id }
        ensures slot { seat.new.me ≡ (seat.old.me.0, (place, Some (Answered out)) ∷ (0, None) ∷ []) }
    {
        let empty = self
            .table
            .shared
            .exchange(seat, place, Some(Held::Answered(out)));
        let None = empty else { unreachable!() };
    }

    // Puts the seat's own work into the slot of the place that it has claimed.
    pub(crate) fn put(&self, seat: &mut Seat<T>, place: usize, work: T::Work)
        requires { (seat.old.table_id ≡ self.now.table.shared.table_id) × (seat.old.me.1 ≡ (place, None) ∷ []) }
        ensures table { seat.new.table_id ≡ seat.old.table_id }
        ensures slot { seat.new.me ≡ (seat.old.me.0, (place, Some (Asked work)) ∷ []) }
    {
        let empty = self
            .table
            .shared
            .exchange(seat, place, Some(Held::Asked(work)));
        let None = empty else { unreachable!() };
    }

    // Takes the answer out of the slot that is out with the seat.
    pub(crate) fn take_answer(&self, seat: &mut Seat<T>, place: usize) -> Out<T>
        requires { (seat.old.table_id ≡ self.now.table.shared.table_id)
            × ((a : T.Work.Out) × (seat.old.me.1 ≡ (place, Some (Answered a)) ∷ [])) }
        ensures table { seat.new.table_id ≡ seat.old.table_id }
        ensures answer { seat.old.me.1 ≡ (place, Some (Answered result)) ∷ [] }
        ensures slot { seat.new.me ≡ (seat.old.me.0, (place, None) ∷ []) }
    {
        let held = self.table.shared.exchange(seat, place, None);
        let Some(Held::Answered(out)) = held else {
            unreachable!()
        };
        out
    }

    // Does the work of the place, if one lies there. It says what the word of the place was when it was done.
    fn serve(&self, seat: &mut Seat<T>, value: &mut T, place: usize) -> Option<u64>
        requires place { (0 < place) × (place < 256) }
        requires work { IsAtWork T.opening T.stands self.now seat.old value.old }
        ensures work { IsAtWork T.opening T.stands self.now seat.new value.new }
        ensures keeps { Keeps seat.old.me.0 seat.new.me.0 }
    {
        if !self.fetch(seat, place) {
            return None;
        }
        self.posted.fetch_sub(1, Ordering::SeqCst);
        let work = self.take_work(seat, place);
        let about = Snapshot::of(&work);
        let out = work.run(value);
        let answer = Snapshot::of(&out);
        let after = Snapshot::of(&*value);
        self.put_answer(seat, place, out);
        Some(self.finish::<Brand>(seat, place, &about, &answer, &after))
    }

    // Does all works that are posted and are as late as this, and adds to `asleep` the places whose seats sleep.
    // It says whether it saw late works and left them.
    fn pass(&self, seat: &mut Seat<T>, value: &mut T, late: bool, asleep: &mut Sleepers) -> bool
        requires { IsAtWork T.opening T.stands self.now seat.old value.old }
        ensures work { IsAtWork T.opening T.stands self.now seat.new value.new }
        ensures keeps { Keeps seat.old.me.0 seat.new.me.0 }
    {
        let mut leaves_late = false;
        for place in 1..self.reach() {
            let word = self.table.shared.peek(place);
            if is_posted(word, late) {
                if let Some(found) = self.serve(seat, value, place) {
                    if sleeps(found) {
                        asleep.add(place);
                    }
                }
            } else if is_posted(word, true) {
                leaves_late = true;
            }
        }
        leaves_late
    }

    // Does what was posted, in a few passes, in each the late works last. Nobody sleeps on while they are done.
    fn combine(&self, seat: &mut Seat<T>, value: &mut T, asleep: &mut Sleepers)
        requires { IsAtWork T.opening T.stands self.now seat.old value.old }
        ensures work { IsAtWork T.opening T.stands self.now seat.new value.new }
        ensures keeps { Keeps seat.old.me.0 seat.new.me.0 }
    {
        for _ in 0..PASSES {
            if !self.any_posted() {
                return;
            }
            if self.pass(seat, value, false, asleep) {
                self.wake(asleep);
                self.pass(seat, value, true, asleep);
            }
        }
    }

    // Wakes those of these places, and forgets them.
    fn wake(&self, asleep: &mut Sleepers) {
        if asleep.are_none() {
            return;
        }
        for place in 1..self.reach() {
            if asleep.has(place) {
                self.table.shared.wake_all(place);
            }
        }
        *asleep = Sleepers::none();
    }

    // Does the seat's own work and what was posted, and frees the lock.
    pub(crate) fn lead(&self, seat: &mut Seat<T>, work: T::Work) -> Out<T>
        requires locked { IsLocked T.opening T.stands self.now seat.old }
        requires rest { (seat.old.me.0.merged ≡ []) × (seat.old.me.0.post ≡ Nowhere)
            × ((known_of seat.old).opening ≡ Some (opening_of T.opening self.now)) }
        requires may { (known_of seat.old).first ≡ false → NeverKept T.kept T.Work.entries T.Work.gives work }
        ensures seat { IsSeatOf T.opening self.now seat.new }
        ensures turn { (old : T) × (new : T) × (log : List T.Entry) × T.stands old (opening_of T.opening self.now) log
            × T.Work.gives work old result new
            × T.stands new (opening_of T.opening self.now) (log ++ T.Work.entries work result new)
            × Turn (known_of seat.old) (known_of seat.new) log (T.Work.entries work result new) }
        ensures kept { OwnsKept T.kept (known_of seat.new) }
        ensures own { OwnPlaces (known_of seat.new) }
    {
        let mut value = self.take_out(seat);
        let mut asleep = Sleepers::none();
        if work.is_late() && self.any_posted() {
            self.pass(seat, &mut value, false, &mut asleep);
            self.wake(&mut asleep);
        }
        let out = self.run_own(seat, &mut value, work);
        self.combine(seat, &mut value, &mut asleep);
        self.give_back(seat, value);
        self.wake(&mut asleep);
        self.look_again(seat);
        out
    }

    // Does what was posted, and frees the lock.
    pub(crate) fn serve_all(&self, seat: &mut Seat<T>)
        requires { IsLocked T.opening T.stands self.now seat.old }
        ensures aside { IsAside self.now seat.new }
        ensures keeps { Keeps seat.old.me.0 seat.new.me.0 }
    {
        let mut value = self.take_out(seat);
        let mut asleep = Sleepers::none();
        self.combine(seat, &mut value, &mut asleep);
        self.give_back(seat, value);
        self.wake(&mut asleep);
    }

    // Whether a work lies at some place, or is about to.
    fn any_posted(&self) -> bool {
        self.posted.load(Ordering::SeqCst) > 0
    }

    // The end of the places that were ever in use.
    fn reach(&self) -> usize
        ensures { result ≤ 256 }
    {
        (self.reach.load(Ordering::SeqCst) as usize).min(SIZE)
    }

    // Looks whether something was posted while the lock was given back, and does it where the lock is free.
    // Who sleeps with its work undone in the end is woken, to take the lock itself.
    pub(crate) fn look_again(&self, seat: &mut Seat<T>)
        requires aside { IsAside self.now seat.old }
        requires opening { (known_of seat.old).opening ≡ Some (opening_of T.opening self.now) }
        ensures aside { IsAside self.now seat.new }
        ensures keeps { Keeps seat.old.me.0 seat.new.me.0 }
    {
        for _ in 0..ROUNDS {
            if !self.any_posted() || self.table.shared.peek(LOCK) != FREE || !self.try_lock(seat) {
                return;
            }
            self.serve_all(seat);
        }
        self.rouse(seat);
    }

    // Wakes those who sleep with their work undone.
    fn rouse(&self, seat: &mut Seat<T>)
        requires { IsAside self.now seat.old }
        ensures aside { IsAside self.now seat.new }
        ensures keeps { Keeps seat.old.me.0 seat.new.me.0 }
    {
        for place in 1..self.reach() {
            let found = self.table.shared.peek(place);
            if sleeps(found) && self.restyle(seat, place, found, found - 1) {
                self.table.shared.wake_all(place);
            }
        }
    }

    // Claims an empty place, if there is one.
    pub(crate) fn claim_any(&self, seat: &mut Seat<T>) -> Option<usize>
        requires { IsSeatOf T.opening self.now seat.old }
        ensures table { seat.new.table_id ≡ seat.old.table_id }
        ensures claimed { IfSome result (λ p. (0 < p) × (p < 256)
            × (seat.new.me ≡ (at_post seat.old.me.0 (Claims p), (p, None) ∷ []))) }
        ensures full { IfNone result (seat.new.me ≡ seat.old.me) }
    {
        for place in 1..SIZE {
            if self.table.shared.peek(place) == EMPTY && self.claim(seat, place) {
                if self.reach() <= place {
                    self.reach.fetch_max(place as u64 + 1, Ordering::SeqCst);
                }
                return Some(place);
            }
        }
        None
    }
}

// Whether the word is that of a place where a work lies that is as late as this.
fn is_posted(word: u64, late: bool) -> bool
    ensures { result ≡ true → IsPosted word }
{
    let first = if late { POSTED_LATE } else { POSTED };
    word == first || word == first + 1
}

// Whether the word is that of a place where a work lies whose seat sleeps.
fn sleeps(word: u64) -> bool
    ensures { result ≡ true → (word ≡ 3) ⊎ (word ≡ 5) }
{
    word == POSTED + 1 || word == POSTED_LATE + 1
}
