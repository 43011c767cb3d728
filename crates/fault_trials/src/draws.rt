//! Numbers that a seed determines.

/// A generator of numbers, a linear congruence.
#[derive(Clone, Copy)]
pub(crate) struct Draws {
    state: u64,
}

impl Draws {
    /// The numbers of a seed.
    pub(crate) fn new(seed: u64) -> Draws {
        Draws { state: seed }
    }

    /// The next number under a bound; 0 where the bound is 0.
    pub(crate) fn below(&mut self, bound: u64) -> u64 {
        self.state = self
            .state
            .wrapping_mul(6364136223846793005)
            .wrapping_add(1442695040888963407);
        (self.state >> 33) % bound.max(1)
    }

    /// Whether the next number under a bound is 0, so once in so many times.
    pub(crate) fn is_once_in(&mut self, bound: u64) -> bool {
        self.below(bound) == 0
    }
}
