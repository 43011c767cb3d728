//! The objects of a world, key by key.
#![tactic(auto)]

mod deadlines;
mod key_order;
mod keyed_collections;
mod keyspaces;

pub use keyspaces::Keyspace;
