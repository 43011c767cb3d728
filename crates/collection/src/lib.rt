//! The objects of one key, by id.
#![tactic(auto)]

mod bounds;
mod box_lists;
mod collections;
mod due_lists;
mod found_objects;
mod hints;
mod id_order;
mod id_tests;
mod near_objects;
mod object_lists;

pub use collections::Collection;
pub use found_objects::FoundObjects;
pub use hints::Hint;
pub use near_objects::NearObjects;
