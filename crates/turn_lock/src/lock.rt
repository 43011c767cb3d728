//! The lock, and what its callers do with it.

ghost use Rattle.std.specs.Prelude.{◌≡◌, ◌++◌, ◌∷◌, ◌<◌, ◌^◌, [], List, true, false, length, IfOk, IfErr, IfSome};
ghost use Rattle.std.specs.Prelude.{IfNone, Some, None};
ghost use mathlib.Core.List.{IsPrefix};
ghost use Rattle.turn_lock.specs.Turned.{NeverKept};
ghost use Rattle.turn_lock.specs.Seats.{OwnsKept, OwnPlaces, AreApart, Turn, Keeps, known_of, first_known, split_known};
ghost use Rattle.turn_lock.specs.Seats.{joined_known, at_post};
ghost use Rattle.turn_lock.specs.declared.seat.Post.TheVariants.{Posts};

use crate::seat::{Held, Seat, View};
use crate::steps::{DONE, FREE, HELD, LOCK, POSTED, POSTED_LATE};
use crate::tells::{Compare, Parts};
use crate::turned::{Out, Turned, Work};
use atomic_table::{Table, TableRule};
use std::alloc::Global;
use std::hint::spin_loop;
use std::marker::PhantomData;
use std::snapshot::Snapshot;
use std::sync::Wait;
use std::sync::atomic::{AtomicU64, Ordering};

/// So often a waiting turn looks again before it sleeps.
const SPINS: u32 = 100;

/// The rule of the table under a lock: its turns form one history.
pub struct Turns<T> {
    of: PhantomData<T>,
}

impl<T: Turned> TableRule<
    Option<Held<T, T::Work, Out<T>>>,
    View<T::Opening, T::Entry, T::Work>,
    Snapshot<T>,
> for Turns<T> {
    ghost use Rattle.turn_lock.specs.Rule.{OneHistory};
    ghost use Rattle.turn_lock.specs.Seats.{at_first};

    ghost holds = { λ k. OneHistory (λ x log. T.stands x (T.opening k.value) log) T.kept T.Work.entries T.Work.gives };

    ghost first = { λ k. at_first (T.opening k.value) };
}

/// A value that several threads use in turns.
#[derive(Drop)]
pub struct TurnLock<T: Turned> {
    pub(crate) table: Table<
        Option<Held<T, T::Work, Out<T>>>,
        View<T::Opening, T::Entry, T::Work>,
        Snapshot<T>,
        Turns<T>,
        Global,
    >,
    // How many works are posted or about to be, so that nobody looks for works where there are none.
    pub(crate) posted: AtomicU64,
    // The end of the places that were ever in use, so that nobody looks at others.
    pub(crate) reach: AtomicU64,
    // How many turns wait for the lock without a place. They sleep on the lock's word.
    pub(crate) queued: AtomicU64,
    ghost sized: { (table.shared.table_id.words ≡ 256) × (table.shared.table_id.slots ≡ 256) },
}

impl<T: Turned> TurnLock<T> {
    ghost use Rattle.turn_lock.specs.Lock.{IsSeatOf, IsLocked, ClaimsPlace, WaitsAt, opening_of};

    /// A lock round `value`, and its first seat, which has seen nothing.
    /// The value comes back for want of memory alone.
    pub fn new(alloc: Global, value: T) -> Result<(TurnLock<T>, Seat<T>), T>
        requires { T.stands value (T.opening value) [] }
        ensures lock { IfOk result (λ r. opening_of T.opening r.0 ≡ T.opening value) }
        ensures seat { IfOk result (λ r. IsSeatOf T.opening r.0 r.1 × (known_of r.1 ≡ first_known (T.opening value))) }
        ensures own { IfOk result (λ r. OwnPlaces (known_of r.1)) }
        ensures back { IfErr result (λ v. v ≡ value) }
    {
        let about = Snapshot::of(&value);
        let Ok((table, mut seat)) = Table::vacant(alloc, &[0; 256], 256, &about) else {
            return Err(value);
        };
        let lock = TurnLock {
            table,
            posted: AtomicU64::new(0),
            reach: AtomicU64::new(1),
            queued: AtomicU64::new(0),
        };
        lock.open(&mut seat);
        lock.give_back(&mut seat, value);
        Ok((lock, seat))
    }

    /// A further seat, which has seen what `seat` has seen. It takes no memory.
    pub fn split(&self, seat: &mut Seat<T>) -> Seat<T>
        requires { IsSeatOf T.opening self.now seat.old }
        ensures same { IsSeatOf T.opening self.now seat.new × (known_of seat.new ≡ known_of seat.old) }
        ensures new { IsSeatOf T.opening self.now result × (known_of result ≡ split_known (known_of seat.old)) }
        ensures own { OwnPlaces (known_of result) }
    {
        self.table.shared.split_seat::<Parts>(seat)
    }

    /// Puts two seats of the lock together: `seat` has then seen what either had seen. It takes no memory.
    pub fn join(&self, seat: &mut Seat<T>, other: Seat<T>)
        requires seat { IsSeatOf T.opening self.now seat.old }
        requires other { IsSeatOf T.opening self.now other }
        ensures seat { IsSeatOf T.opening self.now seat.new
            × (known_of seat.new ≡ joined_known (known_of seat.old) (known_of other)) }
        ensures seen { IsPrefix (known_of seat.old).seen (known_of seat.new).seen
            × IsPrefix (known_of other).seen (known_of seat.new).seen }
        ensures kept { OwnsKept T.kept (known_of seat.new) }
        ensures own { OwnPlaces (known_of seat.new) }
        ensures apart { AreApart (known_of seat.old) (known_of other) }
    {
        self.table.shared.join_seat::<Parts>(seat, other);
        // A join tells nothing of the history, so one look compares the two beginnings.
        self.table.shared.load::<Compare>(seat, LOCK);
    }

    /// Has the work done on the value, once, by this thread or another, and gives its answer.
    pub fn turn<R: Wait>(&self, rt: &R, seat: &mut Seat<T>, work: T::Work) -> Out<T>
        requires seat { IsSeatOf T.opening self.now seat.old }
        requires may { (known_of seat.old).first ≡ false → NeverKept T.kept T.Work.entries T.Work.gives work }
        ensures seat { IsSeatOf T.opening self.now seat.new }
        ensures turn { (old : T) × (new : T) × (log : List T.Entry) × T.stands old (opening_of T.opening self.now) log
            × T.Work.gives work old result new
            × T.stands new (opening_of T.opening self.now) (log ++ T.Work.entries work result new)
            × Turn (known_of seat.old) (known_of seat.new) log (T.Work.entries work result new) }
        ensures kept { OwnsKept T.kept (known_of seat.new) }
        ensures own { OwnPlaces (known_of seat.new) }
    {
        if self.try_lock(seat) {
            return self.lead(seat, work);
        }
        match self.claim_any(seat) {
            Some(place) => {
                let about = Snapshot::of(&work);
                self.hand_in(seat, place, work);
                self.wait(rt, seat, place, &about)
            }
            None => {
                self.wait_for_lock(rt, seat);
                self.lead(seat, work)
            }
        }
    }

    // Posts the work at the place that the seat has claimed. Whoever frees the lock then sees that there is one.
    pub(crate) fn hand_in(&self, seat: &mut Seat<T>, place: usize, work: T::Work)
        requires place { (0 < place) × (place < 256) }
        requires claims { ClaimsPlace T.opening self.now seat.old place }
        requires may { (known_of seat.old).first ≡ false → NeverKept T.kept T.Work.entries T.Work.gives work }
        ensures waits { WaitsAt T.opening self.now seat.new place work }
        ensures known { known_of seat.new ≡ known_of seat.old }
    {
        let about = Snapshot::of(&work);
        let word = if work.is_late() { POSTED_LATE } else { POSTED };
        self.put(seat, place, work);
        self.posted.fetch_add(1, Ordering::SeqCst);
        self.post(seat, place, &about, word);
    }

    // Waits until the work at the place is done, and has the answer. Where the lock is free it does what was posted
    // itself.
    pub(crate) fn wait<R: Wait>(
        &self,
        rt: &R,
        seat: &mut Seat<T>,
        place: usize,
        work: &Snapshot<T::Work>,
    ) -> Out<T>
        requires place { (0 < place) × (place < 256) }
        requires waits { WaitsAt T.opening self.now seat.old place work.now.value }
        ensures seat { IsSeatOf T.opening self.now seat.new }
        ensures turn { (old : T) × (new : T) × (log : List T.Entry) × T.stands old (opening_of T.opening self.now) log
            × T.Work.gives work.now.value old result new
            × T.stands new (opening_of T.opening self.now) (log ++ T.Work.entries work.now.value result new)
            × Turn (known_of seat.old) (known_of seat.new) log (T.Work.entries work.now.value result new) }
        ensures kept { OwnsKept T.kept (known_of seat.new) }
        ensures own { OwnPlaces (known_of seat.new) }
    {
        let mut spins = 0;
        for _ in rt.forever() {
            let found = self.table.shared.peek(place);
            if found == DONE {
                if self.collect(seat, place, work) {
                    let out = self.take_answer(seat, place);
                    self.leave(seat, place);
                    return out;
                }
            } else if self.table.shared.peek(LOCK) == FREE && self.try_lock(seat) {
                self.serve_all(seat);
                self.look_again(seat);
            } else if spins < SPINS {
                spins += 1;
                spin_loop();
            } else if found == POSTED || found == POSTED_LATE {
                // Whoever does the work wakes those alone who say that they sleep. It looks once more before it does.
                self.restyle(seat, place, found, found + 1);
            } else {
                self.table
                    .shared
                    .park(rt, place, (found & 0xffff_ffff) as u32);
            }
        }
        unreachable!()
    }

    // Waits until the lock is free, and takes it. Whoever frees the lock wakes one of those who wait so.
    fn wait_for_lock<R: Wait>(&self, rt: &R, seat: &mut Seat<T>)
        requires { IsSeatOf T.opening self.now seat.old }
        ensures locked { IsLocked T.opening T.stands self.now seat.new }
        ensures keeps { Keeps seat.old.me.0 seat.new.me.0 }
    {
        self.queued.fetch_add(1, Ordering::SeqCst);
        for _ in rt.forever() {
            if self.table.shared.peek(LOCK) == FREE && self.try_lock(seat) {
                self.queued.fetch_sub(1, Ordering::SeqCst);
                return;
            }
            self.table.shared.park(rt, LOCK, HELD as u32);
        }
        unreachable!()
    }
}
