//! How the asking of a session may end.

/// How the serving of a session's requests ended.
#[derive(Clone, Copy, Debug, PartialEq, Eq)]
pub enum InEnd {
    /// The source is at its end.
    Over,
    /// The bytes went on as no request.
    Broken,
    /// The hall serves the session no more.
    ClosedByHall,
    /// The source failed.
    ReadFault,
    /// The log could not be written; the hall has stopped.
    LogFault,
    /// The hall had stopped before.
    Stopped,
    /// The log has come to its greatest length.
    Spent,
    /// Memory ran out, here or in the hall.
    Memory,
    /// The server ended it, behind the answer to all that was asked before.
    Dismissed,
}
