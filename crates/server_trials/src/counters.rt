//! A counter that seats add to, and that its first seat closes.

ghost use Rattle.std.specs.Prelude.{◌≡◌, ℕ, true, false, slice_get, Some, None, IfOk};
ghost use Rattle.turn_lock.specs.Lock.{IsSeatOf};
ghost use Rattle.turn_lock.specs.Seats.{known_of};
ghost use Rattle.turn_lock.specs.Places.{IsAmong};

use std::alloc::{AllocError, Global};
use std::process::Abort;
use std::sync::Wait;
use std::test::Fail;
use turn_lock::{Seat, TurnLock, Turned, Work};

#[derive(Drop)]
struct Counter {
    count: u64,
    closed: bool,
}

// What is done with the counter: something is added, or it is closed.
#[derive(Drop)]
struct Deed {
    amount: u64,
    closes: bool,
}

// An entry is the number that was added, or none where the counter was closed. Only the first seat closes it.
impl Turned for Counter {
    type Opening = u64;

    type Entry = Option<u64>;

    type Work = Deed;

    ghost use Rattle.std.specs.Prelude.{◌≡◌, ◌+◌, sum_by, unwrap_or, is_none};
    ghost use Rattle.std.specs.List.{list_any};

    ghost opening = { λ c. c.count };

    ghost stands = { λ c opening log. (c.count ≡ opening + sum_by (λ e. unwrap_or e 0) log)
        × (c.closed ≡ list_any is_none log) };

    ghost kept = { is_none };
}

// A work answers the count, or none where it could not be done.
impl Work<Counter> for Deed {
    type Out = Option<u64>;

    ghost use Rattle.std.specs.Prelude.{◌≡◌, ◌+◌, [], ◌∷◌, is_some, Some, None, if◌then◌else◌, MatchOption, MatchBool};

    ghost entries = { λ work out c. (if work.closes then None
        else Some (if is_some out then work.amount else 0)) ∷ [] };

    ghost gives = { λ work c out d. MatchBool work.closes (out ≡ (if c.closed then None else Some c.count))
        (MatchOption out (d.count ≡ c.count) (λ n. (n ≡ c.count + work.amount) × (d.count ≡ n))) };

    fn is_late(&self) -> bool {
        self.closes
    }

    fn run(self, value: &mut Counter) -> Option<u64> {
        let was_open = !value.closed;
        if self.closes {
            value.closed = true;
            return if was_open { Some(value.count) } else { None };
        }
        if value.closed {
            return None;
        }
        let sum = value.count.checked_add(self.amount)?;
        value.count = sum;
        Some(sum)
    }
}

fn add(amount: u64) -> Deed
    ensures { (result.amount ≡ amount) × (result.closes ≡ false) }
{
    Deed {
        amount,
        closes: false,
    }
}

// Closes the counter. Each closing that the seat has seen is then its own.
fn close_for_good<R: Wait>(
    rt: &R,
    lock: &TurnLock<Counter>,
    seat: &mut Seat<Counter>,
) -> Option<u64>
    requires seat { IsSeatOf (λ c. c.count) lock.now seat.old }
    requires first { (known_of seat.old).first ≡ true }
    ensures same { IsSeatOf (λ c. c.count) lock.now seat.new }
    ensures first { (known_of seat.new).first ≡ true }
    ensures own { (place : ℕ) → slice_get (known_of seat.new).seen place ≡ Some None
        → IsAmong place (known_of seat.new).mine }
{
    lock.turn(
        rt,
        seat,
        Deed {
            amount: 0,
            closes: true,
        },
    )
}

// An open counter under a lock. Where there is no memory for the lock, the counter comes back as it was.
fn lock_at<R: Abort>(
    rt: &R,
    alloc: Global,
    count: u64,
) -> Result<(TurnLock<Counter>, Seat<Counter>), Fail>
    ensures { IfOk result (λ r. IsSeatOf (λ c. c.count) r.0 r.1 × ((known_of r.1).first ≡ true)) }
{
    let counter = Counter {
        count,
        closed: false,
    };
    match TurnLock::new(alloc, counter) {
        Ok(made) => Ok(made),
        Err(back) => {
            assert_eq!(rt; (back.count, back.closed), (count, false));
            Err(Fail::from(AllocError))
        }
    }
}

#[test]
fn seats_are_split_and_joined(rt: HostRuntime) -> Result<(), Fail> {
    let (lock, mut first) = lock_at(&rt, rt.alloc(), 5)?;
    let mut other = lock.split(&mut first);
    let sums = (
        lock.turn(&rt, &mut other, add(2)),
        lock.turn(&rt, &mut first, add(3)),
        lock.turn(&rt, &mut other, add(u64::MAX)),
    );
    assert_eq!(rt; sums, (Some(7), Some(10), None));
    lock.join(&mut first, other);
    assert_eq!(rt; close_for_good(&rt, &lock, &mut first), Some(10));
    assert_eq!(rt; close_for_good(&rt, &lock, &mut first), None);
    let after = lock.turn(&rt, &mut first, add(1));
    assert_eq!(rt; after, None);
    Ok(())
}
