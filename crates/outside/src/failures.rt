//! Why a call of something outside fails.

/// A call of something outside has failed. The object's count of faults tells of it.
#[derive(Clone, Copy, Debug, PartialEq, Eq)]
pub struct Failed;
