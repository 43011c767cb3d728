//! Why a case can't be played.

use byte_text::NoMemory;
use std::alloc::{AllocError, AllocFailed};

/// Why a case can't be played.
#[derive(Clone, Copy, PartialEq, Eq)]
pub(crate) enum Fault {
    /// No memory is left.
    Memory,
    /// A line of the input is none.
    Line,
    /// A step that has to be done was not.
    Step,
}

impl From<NoMemory> for Fault {
    fn from(_fault: NoMemory) -> Fault {
        Fault::Memory
    }
}

impl From<AllocError> for Fault {
    fn from(_fault: AllocError) -> Fault {
        Fault::Memory
    }
}

impl<T: Drop> From<AllocFailed<T>> for Fault {
    fn from(_fault: AllocFailed<T>) -> Fault {
        Fault::Memory
    }
}
