//! Messages of a write: what it raises on the channels that it may concern, in order of their names, staged for each
//! session that hears it.
#![tactic(auto)]

mod laws;
mod raises;
mod writes;

pub use laws::turn_laws;
pub use writes::{stage_del, stage_drop, stage_put};
