//! How far a follower is.

/// How a follower's link ended for it.
#[derive(Clone, Copy, Debug, PartialEq, Eq)]
pub enum FollowEnd {
    /// The link ended before a whole answer came.
    Over,
    /// What came is no part, or one that the node does not take.
    BadPart,
    /// A read of the link failed.
    ReadFault,
    /// A write to the link failed.
    WriteFault,
    Memory,
}

/// How far a follower is.
#[derive(Clone, Copy, Debug, PartialEq, Eq)]
pub enum Phase {
    /// An ask is written, or its answer awaited.
    Asking,
    /// The last part reached the end of the log, whose world is published. Nothing is asked.
    Published,
    /// Nothing more is read or written.
    Ended(FollowEnd),
}
