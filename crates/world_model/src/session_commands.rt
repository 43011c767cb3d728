//! Commands on the session itself: those that a session with subscriptions is served.

use world_data::NameList;

/// A command on the session that sends it.
#[derive(Drop)]
pub enum SessionCommand {
    Subscribe { names: NameList },
    Psubscribe { globs: NameList },
    Ping,
    Quit,
}
