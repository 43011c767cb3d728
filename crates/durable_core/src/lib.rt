//! A core over a disk: what its calls change is written to a log, and stands on the disk before it is acknowledged.
#![tactic(auto)]

mod cores;
mod openings;
mod parts;
mod pieces;
mod rewritings;
mod steps;
mod tails;
mod upgrades;

pub use cores::DurableCore;
pub use tails::PENDING;
