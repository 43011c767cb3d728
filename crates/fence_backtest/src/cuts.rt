//! How changes are cut into stretches, which are looked at side by side.

ghost use Rattle.fence_backtest.specs.Cuts.{IsCut};

use rayon::current_num_threads;
use std::thread::Threads;

/// Stretches of one length, of which the last may be shorter.
#[derive(Clone, Copy, Debug, PartialEq, Eq)]
pub(crate) struct Cuts {
    pub(crate) count: usize,
    pub(crate) size: usize,
}

/// How few changes are worth a thread of their own.
const LEAST: usize = 1024;

/// For no more processors work is cut.
const MOST_THREADS: usize = 32;

/// The cuts of so many changes: two stretches for each processor, since some take longer, and none too short.
pub(crate) fn cuts_of<R: Threads>(rt: &R, len: usize) -> Cuts
    ensures { IsCut len result.count result.size }
{
    let most = current_num_threads(rt).min(MOST_THREADS) * 2;
    let size = len.div_ceil(most).max(LEAST);
    Cuts {
        count: len.div_ceil(size),
        size,
    }
}
