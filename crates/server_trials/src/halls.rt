//! Halls over disks.

ghost use Rattle.std.specs.Prelude.{◌≡◌, true, IfOk};
ghost use Rattle.shared_hall.specs.Seats.{knows_of};

use byte_text::Text;
use durable_core::DurableCore;
use outside::Disk;
use shared_hall::{HallSeat, SharedHall};
use std::alloc::{AllocError, Global};
use std::snapshot::Snapshot;
use std::sync::Wait;
use std::test::Fail;
use world_model::{Frames, HallApi};

/// A hall over a disk, and its first seat.
pub(crate) fn hall_over<D: Disk + Drop>(
    alloc: Global,
    disk: D,
) -> Result<(SharedHall<D>, HallSeat<D>), Fail>
    ensures of { IfOk result (λ r. ⟦<SharedHall<D> as HallApi>⟧.is_of r.0 r.1) }
    ensures first { IfOk result (λ r. (knows_of r.1).first ≡ true) }
{
    let handed = Snapshot::of(&disk);
    let Ok(core) = DurableCore::open(alloc, disk) else {
        return Err(Fail::from("the disk is opened"));
    };
    match SharedHall::new(alloc, core, handed) {
        Ok(made) => Ok(made),
        Err(_core) => Err(Fail::from(AllocError)),
    }
}

/// The first of the frames that a take of a session gives, or nothing.
pub(crate) fn taken<D: Disk + Drop, R: Wait>(
    rt: &R,
    alloc: Global,
    hall: &SharedHall<D>,
    seat: &mut HallSeat<D>,
    session: u32,
) -> Option<Text>
    requires { ⟦<SharedHall<D> as HallApi>⟧.is_of hall.now seat.old }
    ensures of { ⟦<SharedHall<D> as HallApi>⟧.is_of hall.now seat.new }
    ensures first { (knows_of seat.new).first ≡ (knows_of seat.old).first }
{
    let mut frames = Frames::new(alloc).ok()?;
    hall.take(rt, seat, session, &mut frames);
    let mut text = Text::new(alloc);
    if !frames.is_empty() {
        text.push(frames.at(0)).ok()?;
    }
    Some(text)
}
