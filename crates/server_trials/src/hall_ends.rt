//! Sessions of a hall end, and the hall does.

ghost use Rattle.std.specs.Prelude.{◌≡◌};
ghost use Rattle.shared_hall.specs.Seats.{knows_of};

use crate::halls::{hall_over, taken};
use outside::{Disk, MemoryDisk, PlainDisk};
use shared_hall::{HallSeat, SharedHall};
use std::alloc::Global;
use std::process::Abort;
use std::sync::Wait;
use std::test::Fail;
use world_model::{CallOutcome, ChangedSessions, EnterFault, Frames, HallApi, LogState, Taken};

// Sessions are entered, closed and removed.
fn end_sessions<D: Disk + Drop, R: Wait + Abort>(
    rt: &R,
    alloc: Global,
    hall: &SharedHall<D>,
    seat: &mut HallSeat<D>,
) -> Result<(), Fail>
    requires { ⟦<SharedHall<D> as HallApi>⟧.is_of hall.now seat.old }
    ensures of { ⟦<SharedHall<D> as HallApi>⟧.is_of hall.now seat.new }
    ensures first { (knows_of seat.new).first ≡ (knows_of seat.old).first }
{
    assert_eq!(rt; hall.enter(rt, seat), Ok(1));
    assert_eq!(rt; hall.enter(rt, seat), Ok(2));
    hall.close(rt, seat, 1);
    hall.remove(rt, seat, 2);
    assert_eq!(rt;
        hall.tick(rt, seat, 5, ChangedSessions::new(alloc)?).0,
        CallOutcome::Ok
    );
    assert_eq!(rt; hall.step_rewrite(rt, seat).0, CallOutcome::Ok);
    let closed = taken(rt, alloc, hall, seat, 1);
    assert!(rt; closed.is_some_and(|text| text.bytes().is_empty()));
    let removed = taken(rt, alloc, hall, seat, 2);
    assert!(rt; removed.is_some_and(|text| text.bytes().is_empty()));
    Ok(())
}

#[test]
fn sessions_end(rt: HostRuntime) -> Result<(), Fail> {
    let alloc = rt.alloc();
    let (hall, mut seat) = hall_over(alloc, PlainDisk::new(alloc))?;
    end_sessions(&rt, alloc, &hall, &mut seat)
}

// A disk of two empty sides, at which these calls fail.
fn disk_failing(alloc: Global, failing: &[u64]) -> Result<MemoryDisk, Fail> {
    Ok(MemoryDisk::new(
        alloc,
        Vec::new(alloc),
        Vec::new(alloc),
        failing.to_vec(alloc)?,
    ))
}

#[test]
fn a_hall_gives_its_disk_out_once(rt: HostRuntime) -> Result<(), Fail> {
    let alloc = rt.alloc();
    let (hall, mut seat) = hall_over(alloc, disk_failing(alloc, &[])?)?;
    end_sessions(&rt, alloc, &hall, &mut seat)?;
    let Some((disk, end)) = hall.retire(&rt, &mut seat) else {
        return Err(Fail::from("the disk is in"));
    };
    assert_eq!(rt; end, CallOutcome::Ok);
    assert!(rt; hall.retire(&rt, &mut seat).is_none());
    assert_eq!(rt; hall.enter(&rt, &mut seat), Err(EnterFault::Stopped));
    let gone = LogState {
        bytes: 0,
        is_rewriting: false,
    };
    assert_eq!(rt;
        hall.step_rewrite(&rt, &mut seat),
        (CallOutcome::Stopped, gone)
    );
    let mut frames = Frames::new(alloc)?;
    assert_eq!(rt; hall.take(&rt, &mut seat, 1, &mut frames), Taken::Stopped);
    hall.close(&rt, &mut seat, 1);
    let (again, mut other) = hall_over(alloc, disk)?;
    assert_eq!(rt; again.enter(&rt, &mut other), Ok(1));
    Ok(())
}
