//! Commands, in families.

use crate::channel_commands::ChannelCommand;
use crate::object_commands::ObjectCommand;
use crate::search_commands::SearchCommand;
use crate::session_commands::SessionCommand;

/// A command, by the family that it is of.
#[derive(Drop)]
pub enum Command {
    Object(ObjectCommand),
    Search(SearchCommand),
    Channel(ChannelCommand),
    Session(SessionCommand),
}
