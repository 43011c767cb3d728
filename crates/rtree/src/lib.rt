//! A tree of boxes for searches by box and by distance, each node visited counted.
#![tactic(auto)]

mod entries;
mod ids;
mod moves;
mod near;
mod nodes;
mod pool;
mod steps;
mod tree;
mod waiting;

pub use ids::Ids;
pub use near::NearWalk;
pub use steps::{Ledger, NoLedger, Steps, Visits};
pub use tree::Tree;
