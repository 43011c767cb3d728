//! What a follower asks of a leader and what it is answered, as texts: an ask is the request `FEED generation from`, a
//! part the request `PART generation from end bytes`. Their numbers are canonical, and the names stand as they are
//! written here, so each ask and each part has one text. A hall that answers asks out of its log is a [`FeedApi`].
#![tactic(auto)]

mod asks;
mod feeds;
mod laws;
mod part_bytes;
mod parts;
mod words;

pub use asks::{Ask, ask_of, push_ask};
pub use feeds::{FeedApi, PartAnswer};
pub use laws::stream_laws;
pub use part_bytes::PartBytes;
pub use parts::{MAX_PART, Part, part_of, push_part};
