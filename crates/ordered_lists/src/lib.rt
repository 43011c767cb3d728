//! Byte order of names and lists that ascend in an order: definitions, laws, and the lemmas that proofs above cite.
#![tactic(auto)]

mod insertions;
mod orders;

pub use insertions::insert_at;
pub use orders::{is_before, is_same};
