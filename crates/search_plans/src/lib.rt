//! Plans of the searches: what they will answer in a world. They change nothing.
#![tactic(auto)]

mod commands;
mod scans;
mod searches;

pub use commands::plan_search;
