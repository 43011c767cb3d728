//! Why the following of a leader stops.

ghost use Rattle.std.specs.Prelude.{◌≡◌};
ghost use Rattle.tile_top.specs.Follows.{stop_of};

use repl_node::FollowEnd;

/// Why the following of a link stops, or that of all.
#[derive(Clone, Copy, Debug, PartialEq, Eq)]
pub enum Stop {
    /// The link was lost, and the leader is called again.
    Lost,
    /// The world was told, or an end was asked for.
    Done,
    /// What came is no part of a log that is followed, or nothing comes.
    BadPart,
    /// A read of the link failed.
    ReadFault,
    /// A write to the link failed.
    WriteFault,
    /// A write of a line failed.
    OutputFault,
    /// Nobody answers, or waiting failed.
    DoorFault,
    OutOfMemory,
}
