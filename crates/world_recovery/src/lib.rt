//! The opening of a world from its journal: the records of its batches are read back, and their changes folded one by
//! one.
//!
//! That what a journal holds is recovered as the world of its changes is a law here (`held_batches_are_recovered`).
#![tactic(auto)]

mod laws;
mod openings;
mod world_replays;

pub use laws::{
    commits_make_changes, damage_is_damage, held_batches_are_recovered, logs_are_their_records,
};
pub use openings::{OpenedWorld, open_world};
pub use world_replays::WorldReplay;
