//! The versions of a log.
//!
//! A version says which records a side may hold. One that is older is read, and no new side has it.

/// The newest version, which a new side has.
pub const NEWEST: u8 = 3;
