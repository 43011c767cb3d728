//! The two sessions of the workload.

ghost use Rattle.std.specs.Prelude.{◌≡◌};
ghost use Rattle.work_gen.specs.Rounds.{asker};

use crate::lines::Role;

/// The numbers of the two sessions.
#[derive(Clone, Copy, Debug, PartialEq, Eq)]
pub(crate) struct Pair {
    /// The one that is told of all channels.
    pub(crate) listener: u32,
    /// The one that sends the commands.
    pub(crate) sender: u32,
}

/// Who asks.
pub(crate) fn asker(pair: &Pair, role: Role) -> u32
    ensures { result ≡ asker pair.now role }
{
    match role {
        Role::Listener => pair.listener,
        Role::Sender => pair.sender,
    }
}
