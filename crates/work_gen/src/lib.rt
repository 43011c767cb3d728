//! The generated workload of the server: commands that a number and a seed determine, and a caller that drives a
//! machine with them.
#![tactic(auto)]

mod asking;
mod commands;
mod draws;
mod drives;
mod laws;
mod lines;
mod machines;
mod pairs;
mod summaries;
mod tallies;
mod words;
mod workloads;

pub use drives::drive;
pub use laws::load_laws;
pub use lines::{Line, Role};
pub use machines::Machine;
pub use summaries::{Summary, push_summary};
pub use workloads::Workload;
