//! Live fences: a search with FENCE becomes a channel of the session that asks for it, and the messages of that channel
//! are shown on the session's own connection as their payloads alone.
#![tactic(auto)]

mod channels;
mod laws;
mod pairs;
mod parts;

pub use channels::sets_live;
pub use laws::{message_laws, pair_laws, shown_laws};
pub use pairs::{LivePair, live_end, live_pair};
pub use parts::live_part;
