//! Serving on a shared hall of a disk's world.

ghost use Rattle.std.specs.Prelude.{◌≡◌, ◌≤◌, ◌⊎◌, ℕ, true, min, Option, Some, is_some, option_map};
ghost use Rattle.std.specs.Prelude.{IfOk, IfErr, IfSome};
ghost use Rattle.outside.specs.Causes.{Rose, most_count};
ghost use Rattle.outside.specs.Sides.{Sides};
ghost use Rattle.outside.specs.declared.sides.Side.{Side};
ghost use Rattle.world_model.specs.declared.events.Outcome.TheVariants as outcome;
ghost use Rattle.journal.specs.declared.openings.OpenFault.TheVariants as fault_of;
ghost use Rattle.log_record.specs.Readings.{Damaged};
ghost use Rattle.replay_run.specs.HandedBack.{IsBackAt, IsBackUnopened};
ghost use Rattle.shared_hall.specs.Cores.{tells};
ghost use Rattle.shared_hall.specs.Fed.{FeedsLogs, any_grown, any_lasting};
ghost use Rattle.shared_hall.specs.Seats.{IsOf, first_writing, handed_of, knows_of};
ghost use Rattle.serve_run.specs.Words.{asked_of};
ghost use Rattle.tile_top.specs.Fronts.{EndsBehind, Fronts, IsCounted, IsDue, IsFirst, IsLeft, IsRetired, IsRewritten, IsWrittenFrom};
ghost use Rattle.tile_top.specs.Fronts.{ServesFront, opened_writing};

use crate::halt_ends::end_halt;
use crate::tops::Ended;
use durable_core::DurableCore;
use journal::{OpenFault, Unopened};
use outside::{Clock, Disk, ReadyDoor, Sink, WaitForLinks};
use replay_run::halt_of;
use serve_run::{DISK_FAULT, ServeWords, end, serve_ready};
use shared_hall::{HallSeat, SharedHall};
use std::alloc::Global;
use std::snapshot::Snapshot;
use std::sync::Wait;
use world_model::CallOutcome;

// A shared hall of a disk's world, and its first seat; or why there is none, and the disk.
fn open_hall<D: Disk + Drop>(
    alloc: Global,
    disk: D,
) -> Result<(SharedHall<D>, HallSeat<D>), Unopened<D>>
    ensures seat { IfOk result (λ r. IsOf D.crashes D.seen D.images D.moment D.left_since D.faults r.0 r.1) }
    ensures first { IfOk result (λ r. IsFirst (D.seen disk) (knows_of r.1)) }
    ensures handed { IfOk result (λ r. handed_of r.0 ≡ disk) }
    ensures writing { (s : Sides) → D.seen disk ≡ Some s → IfOk result (λ r. first_writing r.0 ≡ opened_writing s) }
    ensures damaged { (s : Sides) → D.seen disk ≡ Some s
        → IfErr result (λ u. (side : Side) (place : ℕ) → u.why ≡ fault_of.Damaged side place → Damaged s side place) }
    ensures back { IfErr result
        (λ u. IsBackUnopened D.crashes D.seen D.images D.moment D.left_since disk u.disk u.why) }
    ensures begun { IfOk result (λ r. min (D.faults disk) most_count ≤ (knows_of r.1).opening.count) }
    ensures left { IfErr result (λ u. D.faults disk ≤ D.faults u.disk) }
    ensures cause { IfErr result (λ u. u.why ≡ fault_of.Disk → Rose (D.faults disk) (D.faults u.disk)) }
{
    let handed = Snapshot::of(&disk);
    match DurableCore::open(alloc, disk) {
        Ok(core) => match SharedHall::new(alloc, core, handed) {
            Ok(made) => Ok(made),
            Err(core) => Err(Unopened {
                disk: core.into_disk(),
                why: OpenFault::Memory,
            }),
        },
        Err(unopened) => Err(unopened),
    }
}

// The status behind a retirement that was answered so: what was served well is not done where the log failed then.
fn end_behind<K: Sink>(sink: &mut K, before: u8, answer: CallOutcome) -> u8
    requires unread { before ≡ 3 → ⊥ }
    ensures ended { EndsBehind (outcome.Answered answer) before result (K.held sink.old) (K.held sink.new) }
    ensures sink { K.faults sink.old ≤ K.faults sink.new }
    ensures write { result ≡ 4 → (before ≡ 4) ⊎ Rose (K.faults sink.old) (K.faults sink.new) }
    ensures accept { result ≡ 8 → before ≡ 8 }
    ensures unread { result ≡ 3 → ⊥ }
{
    match answer {
        CallOutcome::Ok => before,
        _ if before == 0 => end(sink, 5, DISK_FAULT),
        _ => before,
    }
}

// Retires a hall behind what was served, and ends.
fn retire_hall<K: Sink, D: Disk + Drop, R: Wait>(
    rt: &R,
    hall: &SharedHall<D>,
    seat: HallSeat<D>,
    sink: &mut K,
    before: u8,
) -> Ended<D>
    requires seat { IsOf D.crashes D.seen D.images D.moment D.left_since D.faults hall.now seat }
    requires first { (knows_of seat).first ≡ true }
    requires unread { before ≡ 3 → ⊥ }
    ensures front { IfSome (option_map knows_of result.front)
        (λ k. IsRetired (knows_of seat) k (K.held sink.old) (K.held sink.new) before result.status) }
    ensures some { is_some result.front ≡ true }
    ensures fed { tells D.crashes D.seen (handed_of hall.now) ≡ true
        → IfSome (option_map knows_of result.front) (FeedsLogs any_lasting any_grown (first_writing hall.now)) }
    ensures safe { tells D.crashes D.seen (handed_of hall.now) ≡ true
        → IfSome result.front (λ last. IfSome result.disk (λ d. IsLeft D.seen D.images D.moment D.left_since (handed_of hall.now) d
        (knows_of last))) }
    ensures rewritten { tells D.crashes D.seen (handed_of hall.now) ≡ true
        → IfSome result.front
        (λ last. IfSome result.disk (λ d. IsWrittenFrom D.seen (first_writing hall.now) d (knows_of last))) }
    ensures given { IfSome result.front (λ last. IsDue (knows_of last).seen → is_some result.disk ≡ true) }
    ensures counted { (handed : ℕ) → min handed most_count ≤ (knows_of seat).opening.count
        → IfSome result.front (λ last. IfSome result.disk (λ d. IsCounted handed (D.faults d) (knows_of last))) }
    ensures sink { K.faults sink.old ≤ K.faults sink.new }
    ensures write { result.status ≡ 4 → (before ≡ 4) ⊎ Rose (K.faults sink.old) (K.faults sink.new) }
    ensures accept { result.status ≡ 8 → before ≡ 8 }
    ensures unread { result.status ≡ 3 → ⊥ }
{
    let mut seat = seat;
    let given = hall.retire(rt, &mut seat);
    match given {
        Some((disk, answer)) => Ended {
            status: end_behind(sink, before, answer),
            disk: Some(disk),
            front: Some(seat),
        },
        // No other seat gives the disk out.
        None => Ended {
            status: end_behind(sink, before, CallOutcome::Stopped),
            disk: None,
            front: Some(seat),
        },
    }
}

// Serves callers on a hall, and retires it.
fn serve_on<K: Sink, D: Disk + Drop, L: ReadyDoor, C: Clock, W: WaitForLinks<L>, R: Wait>(
    rt: &R,
    alloc: Global,
    hall: &SharedHall<D>,
    seat: HallSeat<D>,
    asked: ServeWords<'_>,
    sink: &mut K,
    door: &mut L,
    clock: &C,
    wait: &mut W,
) -> Ended<D>
where
    L::Link: Drop,
    requires seat { IsOf D.crashes D.seen D.images D.moment D.left_since D.faults hall.now seat }
    requires first { (knows_of seat).first ≡ true }
    ensures serves { (seen : Option Sides) → IsFirst seen (knows_of seat)
        → ((s : Sides) → seen ≡ Some s → first_writing hall.now ≡ opened_writing s)
        → IfSome (option_map knows_of result.front)
        (ServesFront (tells D.crashes D.seen (handed_of hall.now)) seen (C.told clock.now)
        (asked_of asked.entry)
        (L.shows door.old) (L.shows door.new) (W.shows wait.old) (W.shows wait.new)
        (K.held sink.old) (K.held sink.new) result.status) }
    ensures safe { tells D.crashes D.seen (handed_of hall.now) ≡ true
        → IfSome result.front (λ last. IfSome result.disk (λ d. IsLeft D.seen D.images D.moment D.left_since (handed_of hall.now) d
        (knows_of last))) }
    ensures rewritten { tells D.crashes D.seen (handed_of hall.now) ≡ true
        → IfSome result.front
        (λ last. IfSome result.disk (λ d. IsWrittenFrom D.seen (first_writing hall.now) d (knows_of last))) }
    ensures some { is_some result.front ≡ true }
    ensures given { IfSome result.front (λ last. IsDue (knows_of last).seen → is_some result.disk ≡ true) }
    ensures counted { (handed : ℕ) → min handed most_count ≤ (knows_of seat).opening.count
        → IfSome result.front (λ last. IfSome result.disk (λ d. IsCounted handed (D.faults d) (knows_of last))) }
    ensures sink { K.faults sink.old ≤ K.faults sink.new }
    ensures door { (L.shows door.old).faults ≤ (L.shows door.new).faults }
    ensures wait { (W.shows wait.old).faults ≤ (W.shows wait.new).faults }
    ensures write { result.status ≡ 4 → Rose (K.faults sink.old) (K.faults sink.new) }
    ensures accept { result.status ≡ 8 → Rose (L.shows door.old).faults (L.shows door.new).faults
        ⊎ Rose (W.shows wait.old).faults (W.shows wait.new).faults }
    ensures unread { result.status ≡ 3 → ⊥ }
{
    let mut seat = seat;
    let status = serve_ready(rt, alloc, hall, &mut seat, asked, sink, door, clock, wait);
    retire_hall(rt, hall, seat, sink, status)
}

/// Makes a shared hall of a disk's world, serves callers on it, as the words ask for, and retires it.
pub(crate) fn serve_hall<
    K: Sink,
    D: Disk + Drop,
    L: ReadyDoor,
    C: Clock,
    W: WaitForLinks<L>,
    R: Wait,
>(
    rt: &R,
    alloc: Global,
    asked: ServeWords<'_>,
    sink: &mut K,
    disk: D,
    door: &mut L,
    clock: &C,
    wait: &mut W,
) -> Ended<D>
where
    L::Link: Drop,
    ensures serves { Fronts (tells D.crashes D.seen disk) (D.seen disk)
        (λ halt. IfSome result.disk (λ d. IsBackAt D.crashes D.seen D.images D.moment D.left_since disk d halt))
        (C.told clock.now)
        (asked_of asked.entry)
        (L.shows door.old) (L.shows door.new) (W.shows wait.old) (W.shows wait.new)
        (K.held sink.old) (K.held sink.new) result.status (option_map knows_of result.front) }
    ensures safe { tells D.crashes D.seen disk ≡ true
        → IfSome result.front (λ last. IfSome result.disk (λ d. IsLeft D.seen D.images D.moment D.left_since disk d
        (knows_of last))) }
    ensures rewritten { tells D.crashes D.seen disk ≡ true
        → IfSome result.front (λ last. IfSome result.disk (λ d. IsRewritten D.seen disk d (knows_of last))) }
    ensures handed { result.front ≡ None → is_some result.disk ≡ true }
    ensures later { result.front ≡ None → IfSome result.disk (λ d. D.faults disk ≤ D.faults d) }
    ensures disk { result.front ≡ None → result.status ≡ 5
        → IfSome result.disk (λ d. Rose (D.faults disk) (D.faults d)) }
    ensures given { IfSome result.front (λ last. IsDue (knows_of last).seen → is_some result.disk ≡ true) }
    ensures counted { IfSome result.front
        (λ last. IfSome result.disk (λ d. IsCounted (D.faults disk) (D.faults d) (knows_of last))) }
    ensures sink { K.faults sink.old ≤ K.faults sink.new }
    ensures door { (L.shows door.old).faults ≤ (L.shows door.new).faults }
    ensures wait { (W.shows wait.old).faults ≤ (W.shows wait.new).faults }
    ensures write { result.status ≡ 4 → Rose (K.faults sink.old) (K.faults sink.new) }
    ensures accept { result.status ≡ 8 → Rose (L.shows door.old).faults (L.shows door.new).faults
        ⊎ Rose (W.shows wait.old).faults (W.shows wait.new).faults }
    ensures unread { result.status ≡ 3 → ⊥ }
{
    match open_hall(alloc, disk) {
        Ok((hall, seat)) => serve_on(rt, alloc, &hall, seat, asked, sink, door, clock, wait),
        Err(unopened) => Ended {
            status: end_halt(alloc, sink, halt_of(unopened.why)),
            disk: Some(unopened.disk),
            front: None,
        },
    }
}
