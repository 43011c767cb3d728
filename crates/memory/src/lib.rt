//! The one failure that every crate may have: memory was refused.
#![tactic(auto)]

use std::alloc::{AllocError, AllocFailed};

/// Memory was refused. A call that answers so leaves its receiver as it was, where its contract says so.
#[derive(Clone, Copy, Debug, PartialEq, Eq, Drop)]
pub struct NoMemory;

impl From<AllocError> for NoMemory {
    fn from(_refused: AllocError) -> NoMemory {
        NoMemory
    }
}

// The value that had no room is dropped.
impl<T: Drop> From<AllocFailed<T>> for NoMemory {
    fn from(_refused: AllocFailed<T>) -> NoMemory {
        NoMemory
    }
}
