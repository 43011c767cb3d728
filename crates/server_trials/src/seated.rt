//! A seat beside its hall.

ghost use Rattle.std.specs.Prelude.{◌≡◌};
ghost use Rattle.server_trials.specs.Halls.{IsSeatOf};

use outside::{BytesSink, HandClock, Kinds, PlainDisk, Port, ScriptedDoor, WaitForLinks};
use serve_run::{ServeWords, serve_ready};
use shared_hall::{HallSeat, SharedHall};
use std::alloc::Global;
use std::marker::Model;
use std::sync::Wait;
use world_model::{EnterFault, HallApi};

/// A seat beside the hall that it is one of.
#[derive(Drop)]
pub(crate) struct Seated<'a> {
    hall: &'a SharedHall<PlainDisk>,
    seat: HallSeat<PlainDisk>,
}

impl<'a> Model for Seated<'a> {
    ghost use Rattle.world_model.specs.Seats.{Knows};
    ghost use Rattle.shared_hall.specs.Seats.{knows_of};
    ghost use Rattle.server_trials.specs.Halls.{IsSeatOf};

    ghost Value = { Knows };

    ghost view = { λ s. knows_of s.seat };

    ghost invariant = { λ s. IsSeatOf s.hall.now s.seat };
}

impl<'a> Seated<'a> {
    pub(crate) fn new(hall: &'a SharedHall<PlainDisk>, seat: HallSeat<PlainDisk>) -> Seated<'a>
        requires { IsSeatOf hall.now seat }
    {
        Seated { hall, seat }
    }

    /// Serves all who come to a door, in a loop in which no time goes by, and answers the status.
    pub(crate) fn serve<W: WaitForLinks<ScriptedDoor>, R: Wait>(
        &mut self,
        rt: &R,
        alloc: Global,
        sink: &mut BytesSink,
        door: &mut ScriptedDoor,
        wait: &mut W,
    ) -> u8 {
        let words = ServeWords {
            port: Port {
                addr: "door",
                kinds: Kinds::Plain,
                origins: "",
            },
            limit: 1_000,
            idle: 0,
            shrink_at: 0,
            followers: 0,
            until_end: false,
        };
        let clock = HandClock::at(7);
        let hall = self.hall;
        let seat = &mut self.seat;
        serve_ready(rt, alloc, hall, seat, words, sink, door, &clock, wait)
    }

    /// The number of a session that enters.
    pub(crate) fn enter<R: Wait>(&mut self, rt: &R) -> Result<u32, EnterFault> {
        self.hall.enter(rt, &mut self.seat)
    }
}
