//! What a change of an object raises on a channel that watches an area: the table of detections.
#![tactic(auto)]

mod detections;
mod raises;

pub use raises::{Pair, raised};
