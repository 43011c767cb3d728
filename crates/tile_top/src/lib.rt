//! The program, as one call over the things outside.
#![tactic(auto)]

mod asides;
mod backtests;
mod checks;
mod follow_words;
mod follows;
mod halt_ends;
mod loads;
mod machines;
mod replays;
mod serves;
mod stops;
mod tops;
mod workloads;

pub use machines::CoreMachine;
pub use tops::{Ended, out_of_memory, top};
