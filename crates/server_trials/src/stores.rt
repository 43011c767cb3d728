//! The lock and its seats go from thread to thread.

ghost use Rattle.std.specs.Prelude.{IfOk};
ghost use Rattle.turn_lock.specs.Lock.{IsSeatOf};

use std::alloc::{AllocError, Global};
use std::collections::{BTreeMap, VecDeque};
use std::test::Fail;
use turn_lock::{Out, Seat, TurnLock, Turned, Work};

// Rings, vectors and a tree.
#[derive(Drop)]
struct Store {
    rings: Vec<VecDeque<Vec<u8>>>,
    rows: Vec<Vec<u64>>,
    tree: BTreeMap<u64, Vec<u8>>,
}

impl Turned for Store {
    type Opening = ();

    type Entry = ();

    type Work = Count;

    ghost use Rattle.std.specs.Prelude.{false};

    ghost opening = { λ _. tt };

    ghost stands = { λ _ _ _. Unit {0} };

    ghost kept = { λ _. false };
}

// Asks how many rings, rows and leaves there are.
#[derive(Drop)]
struct Count;

impl Work<Store> for Count {
    type Out = (usize, usize, usize);

    ghost use Rattle.std.specs.Prelude.{[]};

    ghost entries = { λ _ _ _. [] };

    ghost gives = { λ _ _ _ _. Unit {0} };

    fn is_late(&self) -> bool {
        false
    }

    fn run(self, value: &mut Store) -> (usize, usize, usize) {
        (value.rings.len(), value.rows.len(), value.tree.len())
    }
}

fn is_sent<X: Send>(_: &X) {}

fn is_shared<X: Sync>(_: &X) {}

// At every type that may cross threads, with its works and their answers, the lock and its seats may, too.
fn crosses<T: Turned + Send>(lock: &TurnLock<T>, seat: &Seat<T>)
where
    T::Work: Send,
    Out<T>: Send,
{
    is_sent(lock);
    is_shared(lock);
    is_sent(seat);
}

fn lock_over(alloc: Global, store: Store) -> Result<(TurnLock<Store>, Seat<Store>), Fail>
    ensures { IfOk result (λ r. IsSeatOf (λ _. tt) r.0 r.1) }
{
    match TurnLock::new(alloc, store) {
        Ok(made) => Ok(made),
        Err(_store) => Err(Fail::from(AllocError)),
    }
}

#[test]
fn a_store_crosses_threads(rt: HostRuntime) -> Result<(), Fail> {
    let alloc = rt.alloc();
    let store = Store {
        rings: Vec::new(alloc),
        rows: Vec::new(alloc),
        tree: BTreeMap::new(alloc),
    };
    let (lock, mut seat) = lock_over(alloc, store)?;
    crosses(&lock, &seat);
    assert_eq!(rt; lock.turn(&rt, &mut seat, Count), (0, 0, 0));
    Ok(())
}
