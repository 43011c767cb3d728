//! What a channel that roams raises: the objects to which one that was put came near, and those from which it went
//! away.
#![tactic(auto)]

mod lists;
mod pairs;

pub use lists::RoamList;
pub use pairs::near_pairs;
