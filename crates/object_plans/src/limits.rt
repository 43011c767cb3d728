//! The limit of what is kept.

/// The most that the records of a world may weigh, so that lengths and counts of them stay small numbers. No command
/// makes a world of more than `MAX_WEIGHT`; one that is heavier, which a log may hold, is kept as it stands, and there
/// is no memory for one of more than this.
pub const MOST_KEPT: u64 = 68_719_476_736;
