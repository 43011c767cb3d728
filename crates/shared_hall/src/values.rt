//! The core as the value of a lock: the histories that it stands for.
//!
//! All entries of a turn have the moment and the count of faults that the disk has at its end. What is acknowledged is
//! given out behind the turn, so a later moment says no less.

use crate::places::{Begun, HallCore};
use crate::works::HallWork;
use outside::Disk;
use turn_lock::Turned;
use world_model::Entry;

impl<D: Disk + Drop> Turned for HallCore<D> {
    type Opening = Begun<D>;

    type Entry = Entry;

    type Work = HallWork;

    ghost use Rattle.shared_hall.specs.Cores.{begun, StandsFor};
    ghost use Rattle.shared_hall.specs.Times.{is_retirement};

    ghost opening = { λ h. begun D.crashes D.seen D.images D.moment D.left_since D.faults h };

    ghost stands = { λ h b log. StandsFor D.crashes D.seen D.images D.moment D.left_since D.faults h b log };

    // The first seat alone has the disk given out.
    ghost kept = { λ entry. is_retirement entry };
}
