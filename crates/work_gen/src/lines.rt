//! What the two sessions of the workload ask for.

use byte_text::Request;

/// One of the two sessions.
#[derive(Clone, Copy, Debug, PartialEq, Eq)]
pub enum Role {
    /// The one that is told of all channels.
    Listener,
    /// The one that sends the commands.
    Sender,
}

/// A line of the workload: a request of one of the sessions.
#[derive(Drop)]
pub struct Line {
    /// Who asks.
    pub role: Role,
    /// For what.
    pub words: Request,
}
