//! A work that is late is done behind one that is not, although it was posted before that.

ghost use Rattle.std.specs.Prelude.{◌≡◌, IfOk};
ghost use Rattle.std.specs.Arc.{arc_value};
ghost use Rattle.turn_lock.specs.Lock.{IsSeatOf};

use std::alloc::{AllocError, Global};
use std::hint::spin_loop;
use std::sync::atomic::{AtomicU64, Ordering};
use std::sync::{Arc, Wait};
use std::test::Fail;
use std::thread;
use std::thread::{JoinHandle, Threads};
use turn_lock::{Seat, TurnLock, Turned, Work};

// How many of three works have come so far: the first, which has the lock until the others are posted, the late one,
// and the early one.
#[derive(Drop)]
struct Meeting {
    come: AtomicU64,
}

// Waits until so many have come. It gives up at last, so that it ends.
fn await_come(meeting: &Meeting, count: u64) {
    for _ in 0..1_000_000_000u64 {
        if meeting.come.load(Ordering::SeqCst) >= count {
            return;
        }
        spin_loop();
    }
}

// What was done, in order.
#[derive(Drop)]
struct Deeds {
    done: Vec<u64>,
}

impl Turned for Deeds {
    type Opening = ();

    type Entry = ();

    type Work = Deed;

    ghost use Rattle.std.specs.Prelude.{false};

    ghost opening = { λ _. tt };

    ghost stands = { λ _ _ _. Unit {0} };

    ghost kept = { λ _. false };
}

// Notes its number. The one of number 1 has the lock until all three have come, and some time longer, so that the
// others are posted.
#[derive(Drop)]
struct Deed {
    number: u64,
    meeting: Arc<Meeting, Global>,
}

impl Work<Deeds> for Deed {
    // All that was done so far, as digits.
    type Out = u64;

    ghost use Rattle.std.specs.Prelude.{[]};

    ghost entries = { λ _ _ _. [] };

    ghost gives = { λ _ _ _ _. Unit {0} };

    fn is_late(&self) -> bool {
        // Whoever is asked this is about to be posted.
        self.meeting.come.fetch_add(1, Ordering::SeqCst);
        self.number == 2
    }

    fn run(self, value: &mut Deeds) -> u64 {
        if self.number == 1 {
            self.meeting.come.fetch_add(1, Ordering::SeqCst);
            await_come(&self.meeting, 3);
            for _ in 0..1_000_000 {
                spin_loop();
            }
        }
        let _pushed = value.done.push(self.number);
        digits(&value.done)
    }
}

fn digits(numbers: &[u64]) -> u64 {
    let mut all: u64 = 0;
    for number in numbers {
        all = all.saturating_mul(10).saturating_add(*number);
    }
    all
}

fn lock_at(alloc: Global) -> Result<(TurnLock<Deeds>, Seat<Deeds>), Fail>
    ensures { IfOk result (λ r. IsSeatOf (λ _. tt) r.0 r.1) }
{
    match TurnLock::new(
        alloc,
        Deeds {
            done: Vec::new(alloc),
        },
    ) {
        Ok(made) => Ok(made),
        Err(_) => Err(Fail::from(AllocError)),
    }
}

fn turn<R: Wait>(
    rt: &R,
    lock: &TurnLock<Deeds>,
    seat: &mut Seat<Deeds>,
    meeting: Arc<Meeting, Global>,
    number: u64,
) -> u64
    requires { IsSeatOf (λ _. tt) lock.now seat.old }
    ensures { IsSeatOf (λ _. tt) lock.now seat.new }
{
    // Each comes behind the one before it.
    await_come(&meeting, number.saturating_sub(1));
    lock.turn(rt, seat, Deed { number, meeting })
}

// A thread that does the deed of a number by a seat of its own.
fn start<R: Wait + Threads + Copy + Send + 'static>(
    rt: R,
    lock: &Arc<TurnLock<Deeds>>,
    seat: &mut Seat<Deeds>,
    meeting: &Arc<Meeting, Global>,
    number: u64,
) -> Result<JoinHandle<u64>, Fail>
    requires { IsSeatOf (λ _. tt) (arc_value lock.now) seat.old }
    ensures { IsSeatOf (λ _. tt) (arc_value lock.now) seat.new }
{
    let mut own = lock.split(seat);
    let theirs = Arc::try_clone(lock)?;
    let meeting = Arc::try_clone(meeting)?;
    let child = thread::spawn(
        &rt,
        move || -> u64
            requires { IsSeatOf (λ _. tt) (arc_value theirs) own }
        { turn(&rt, &theirs, &mut own, meeting, number) },
    )?;
    Ok(child)
}

// All that was done when the early work and the late one were done, each as digits.
fn meet<R: Wait + Threads + Copy + Send + 'static>(
    rt: R,
    alloc: Global,
) -> Result<(u64, u64), Fail> {
    let (lock, mut seat) = lock_at(alloc)?;
    let lock = Arc::new(alloc, lock)?;
    let meeting = Arc::new(
        alloc,
        Meeting {
            come: AtomicU64::new(0),
        },
    )?;
    let late = start(rt, &lock, &mut seat, &meeting, 2)?;
    let early = start(rt, &lock, &mut seat, &meeting, 3)?;
    turn(&rt, &lock, &mut seat, meeting, 1);
    Ok((early.join(&rt), late.join(&rt)))
}

// A thread may be held up between its coming and its posting, so this is tried often, and has to be seen once. Where
// the late one went first each time, it would be the other way round.
#[test]
fn late_works_run_behind_the_others(rt: HostRuntime) -> Result<(), Fail> {
    let alloc = rt.alloc();
    let mut seen = false;
    for _ in 0..50 {
        if seen {
            break;
        }
        seen = meet(rt, alloc)? == (13, 132);
    }
    assert!(rt; seen);
    Ok(())
}
