//! What a loop keeps to.

/// What a loop keeps to.
#[derive(Clone, Copy, Debug, PartialEq, Eq)]
pub struct Terms {
    /// How many callers are served.
    pub limit: u32,
    /// So many seconds after anything was read of a link or given to it, it is dismissed; 0 for never.
    pub idle: u32,
    /// By so many per cent the log grows until it is rewritten; 0 for never.
    pub shrink_at: u32,
    /// So many sessions at a time are followers, whose asks are answered out of the log.
    pub followers: u32,
    /// The loop comes to its end once whoever runs the program has asked for that.
    pub until_end: bool,
}
