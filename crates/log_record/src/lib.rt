//! The log: the record of a change read back, batches, sides, what is recovered of them, and when a disk is safe.
//!
//! The crate holds definitions (specs/) and laws.
#![tactic(auto)]

mod laws;

pub use laws::{
    older_records_are_newer, one_recovery, openings_stand, parts_grow, records_are_read_back,
    records_are_sound, runs_stay_safe, sides_stand, steps_make_their_writes, turns_keep_safe,
};
