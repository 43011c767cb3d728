//! The places whose seats sleep although their works are done.

ghost use Rattle.std.specs.Prelude.{◌<◌};

use crate::steps::SIZE;

const WORDS: usize = SIZE / 64;

/// A set of places.
#[derive(Clone, Copy)]
pub(crate) struct Sleepers {
    bits: [u64; WORDS],
}

impl Sleepers {
    pub(crate) fn none() -> Sleepers {
        Sleepers { bits: [0; WORDS] }
    }

    pub(crate) fn are_none(&self) -> bool {
        self.bits == [0; WORDS]
    }

    pub(crate) fn add(&mut self, place: usize)
        requires { place < 256 }
    {
        self.bits[place / 64] |= 1 << (place % 64);
    }

    pub(crate) fn has(&self, place: usize) -> bool
        requires { place < 256 }
    {
        self.bits[place / 64] >> (place % 64) & 1 == 1
    }
}
