//! The system's clock.

ghost use Rattle.std.specs.Prelude.{None};

use outside::{Clock, MAX_MOMENT};
use std::rt;
use std::time::{SystemTime, UNIX_EPOCH};

/// The milliseconds of the system's clock since 1970, cut at the latest moment; 0 where that clock can't be read.
#[derive(Clone, Copy)]
pub struct WallClock<R: rt::Clock + Copy> {
    rt: R,
}

impl<R: rt::Clock + Copy> WallClock<R> {
    /// The clock of this runtime.
    pub fn new(rt: R) -> WallClock<R> {
        WallClock { rt }
    }
}

impl<R: rt::Clock + Copy> Clock for WallClock<R> {
    ghost told = { λ clock. None };

    fn now(&self) -> u64 {
        let Ok(now) = SystemTime::now(&self.rt) else {
            return 0;
        };
        match now.duration_since(UNIX_EPOCH) {
            Ok(since) => match u64::try_from(since.as_millis()) {
                Ok(moment) => moment.min(MAX_MOMENT),
                Err(_) => MAX_MOMENT,
            },
            Err(_) => 0,
        }
    }

    fn twin(&self) -> WallClock<R> {
        *self
    }
}
