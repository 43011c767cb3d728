//! A journal that several threads append lines to.

ghost use Rattle.std.specs.Prelude.{◌≡◌, ◌<◌, IfOk};
ghost use Rattle.std.specs.Arc.{arc_value};
ghost use Rattle.turn_lock.specs.Lock.{IsSeatOf};

use std::alloc::{AllocError, Global};
use std::sync::{Arc, Wait};
use std::test::Fail;
use std::thread;
use std::thread::{JoinHandle, Threads};
use turn_lock::{Seat, TurnLock, Turned, Work};

const CALLERS: usize = 8;

#[derive(Clone, Copy)]
struct Line {
    caller: usize,
    number: u32,
}

#[derive(Drop)]
struct Journal {
    lines: Vec<Line>,
}

// An entry is a line.
impl Turned for Journal {
    type Opening = ();

    type Entry = Line;

    type Work = Task;

    ghost use Rattle.std.specs.Prelude.{◌≡◌, false};

    ghost opening = { λ _. tt };

    ghost stands = { λ j _ log. j.lines.items ≡ log };

    ghost kept = { λ _. false };
}

// Appends lines, or asks whether there are so many lines in all, each caller's in order.
#[derive(Drop)]
struct Task {
    lines: Vec<Line>,
    late: bool,
    total: usize,
}

impl Work<Journal> for Task {
    type Out = bool;

    ghost use Rattle.std.specs.Prelude.{◌≡◌, ◌==◌, ◌&&◌, ◌++◌, [], if◌then◌else◌};

    ghost entries = { λ w out j. if (w.total == 0) && out then w.lines.items else [] };

    ghost gives = { λ w j out k. k.lines.items ≡ j.lines.items ++ (if (w.total == 0)
        && out then w.lines.items else []) };

    fn is_late(&self) -> bool {
        self.late
    }

    fn run(self, value: &mut Journal) -> bool {
        if self.total > 0 {
            return value.lines.len() == self.total && are_in_order(&value.lines);
        }
        let mut lines = self.lines;
        value.lines.append(&mut lines).is_ok()
    }
}

// Each caller's lines have the numbers from 0 on, and the lines of one turn, two by two, are neighbours.
fn are_in_order(lines: &[Line]) -> bool {
    let mut next = [0u32; CALLERS];
    for line in lines {
        let caller = line.caller % CALLERS;
        if next[caller] != line.number {
            return false;
        }
        next[caller] = next[caller].saturating_add(1);
    }
    lines
        .chunks_exact(2)
        .all(|pair| pair[0].caller == pair[1].caller)
}

fn append(lines: Vec<Line>, late: bool) -> Task {
    Task {
        lines,
        late,
        total: 0,
    }
}

// An empty journal under a lock.
fn lock_at(alloc: Global) -> Result<(TurnLock<Journal>, Seat<Journal>), Fail>
    ensures { IfOk result (λ r. IsSeatOf (λ _. tt) r.0 r.1) }
{
    match TurnLock::new(
        alloc,
        Journal {
            lines: Vec::new(alloc),
        },
    ) {
        Ok(made) => Ok(made),
        Err(_) => Err(Fail::from(AllocError)),
    }
}

// Appends two lines a turn, and answers how many turns did.
fn write_lines<R: Wait>(
    rt: &R,
    alloc: Global,
    lock: &TurnLock<Journal>,
    seat: &mut Seat<Journal>,
    caller: usize,
    turns: u32,
) -> u32
    requires { IsSeatOf (λ _. tt) lock.now seat.old }
    ensures { IsSeatOf (λ _. tt) lock.now seat.new }
{
    let mut done = 0u32;
    for turn in 0..turns {
        let number = turn.saturating_mul(2);
        let lines = [
            Line { caller, number },
            Line {
                caller,
                number: number.saturating_add(1),
            },
        ];
        if let Ok(lines) = Vec::from_array(alloc, lines) {
            if lock.turn(rt, seat, append(lines, turn % 5 == 0)) {
                done = done.saturating_add(1);
            }
        }
    }
    done
}

// A thread that writes lines by a seat of its own.
fn start<R: Wait + Threads + Copy + Send + 'static>(
    rt: R,
    alloc: Global,
    lock: &Arc<TurnLock<Journal>>,
    seat: &mut Seat<Journal>,
    caller: usize,
    turns: u32,
) -> Result<JoinHandle<u32>, Fail>
    requires { IsSeatOf (λ _. tt) (arc_value lock.now) seat.old }
    ensures { IsSeatOf (λ _. tt) (arc_value lock.now) seat.new }
{
    let mut own = lock.split(seat);
    let theirs = Arc::try_clone(lock)?;
    let child = thread::spawn(
        &rt,
        move || -> u32
            requires { IsSeatOf (λ _. tt) (arc_value theirs) own }
        { write_lines(&rt, alloc, &theirs, &mut own, caller, turns) },
    )?;
    Ok(child)
}

// So many threads for each caller number, which make so many turns each, and the turns that did in all.
fn run_threads<R: Wait + Threads + Copy + Send + 'static>(
    rt: R,
    alloc: Global,
    lock: &Arc<TurnLock<Journal>>,
    seat: &mut Seat<Journal>,
    threads: usize,
    turns: u32,
) -> Result<u32, Fail>
    requires { IsSeatOf (λ _. tt) (arc_value lock.now) seat.old }
    ensures { IsSeatOf (λ _. tt) (arc_value lock.now) seat.new }
{
    let mut children = Vec::new(alloc);
    for caller in 0..threads {
        children.push(start(rt, alloc, lock, seat, caller, turns)?)?;
    }
    let mut done = 0u32;
    while let Some(child) = children.pop() {
        done = done.saturating_add(child.join(&rt));
    }
    Ok(done)
}

#[test]
fn each_entry_is_there_once_and_in_its_callers_order(rt: HostRuntime) -> Result<(), Fail> {
    let alloc = rt.alloc();
    let (lock, mut seat) = lock_at(alloc)?;
    let lock = Arc::new(alloc, lock)?;
    assert_eq!(rt;
        run_threads(rt, alloc, &lock, &mut seat, CALLERS, 1_000)?,
        8_000
    );
    let asks = Task {
        lines: Vec::new(alloc),
        late: false,
        total: 16_000,
    };
    assert!(rt; lock.turn(&rt, &mut seat, asks));
    Ok(())
}

// More threads than the lock has places.
#[test]
fn who_finds_no_place_waits_for_the_lock(rt: HostRuntime) -> Result<(), Fail> {
    let alloc = rt.alloc();
    let (lock, mut seat) = lock_at(alloc)?;
    let lock = Arc::new(alloc, lock)?;
    assert_eq!(rt; run_threads(rt, alloc, &lock, &mut seat, 300, 100)?, 30_000);
    Ok(())
}
