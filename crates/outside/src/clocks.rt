//! Moments, and where they come from.

ghost use Rattle.std.specs.Prelude.{◌≡◌, ◌≤◌, ℕ, Option, Some, MatchOption};
ghost use Rattle.outside.specs.Clocks.{max_moment};

use std::marker::Model;

/// The latest moment, in milliseconds.
pub const MAX_MOMENT: u64 = (1 << 53) - 1;

/// Where moments come from, in milliseconds.
pub trait Clock {
    /// The moment that it answers, where the clock tells it.
    ghost told: { Self → Option ℕ };

    /// The moment now.
    fn now(&self) -> u64
        ensures most { result ≤ max_moment }
        ensures told { MatchOption (told self.now) (Unit {0}) (λ moment. result ≡ moment) };

    /// Another clock that goes as this one does.
    fn twin(&self) -> Self
        ensures { told result ≡ told self.now };
}

/// A clock that stands at one moment.
#[derive(Clone, Copy, Debug, PartialEq, Eq)]
pub struct HandClock {
    moment: u64,
}

impl Model for HandClock {
    ghost Value = { ℕ };

    ghost view = { λ clock. clock.moment };

    ghost invariant = { λ clock. clock.moment ≤ max_moment };

    ghost inverse = { λ moment. record { moment = moment } };
}

impl HandClock {
    /// A clock that answers `moment`.
    pub fn at(moment: u64) -> HandClock
        requires { moment ≤ max_moment }
        ensures { result ≡ moment }
    {
        HandClock { moment }
    }
}

impl Clock for HandClock {
    ghost told = { λ clock. Some clock };

    fn now(&self) -> u64 {
        self.moment
    }

    fn twin(&self) -> HandClock {
        *self
    }
}
