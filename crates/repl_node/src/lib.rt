//! The node of a follower: it hears parts of a leader's log, whatever of them is lost, repeated or out of order, and
//! shows the world after a beginning of the leader's history. A follower is such a node with its link to the leader.
#![tactic(auto)]

mod followers;
mod laws;
mod links;
mod log_worlds;
mod nodes;
mod part_answers;
mod phases;
#[cfg(test)]
mod tests;
mod unsent_asks;

pub use followers::Follower;
pub use laws::followers_show_beginnings;
pub use links::{follow_link, watch_link};
pub use log_worlds::HearFault;
pub use nodes::{Heard, LogPlace, Node};
pub use phases::{FollowEnd, Phase};
