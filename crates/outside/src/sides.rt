//! The two sides of a disk.

/// One of the two sides of a disk.
#[derive(Clone, Copy, Debug, PartialEq, Eq)]
pub enum Side {
    A,
    B,
}
