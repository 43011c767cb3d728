//! Scripts: each line some calls of a core over a disk, and what is printed of them.
#![tactic(auto)]

mod acts;
mod calls;
mod checks;
mod ends;
mod feeds;
mod halts;
mod laws;
mod outputs;
mod plays;
mod readers;
mod reopens;
mod streams;
mod turns;

pub use checks::{Checked, check};
pub use ends::{ReplayEnd, Replayed};
pub use halts::{Halt, halt_of};
pub use laws::{feeds_are_one_stream, scripts_have_one_output};
pub use plays::replay;
