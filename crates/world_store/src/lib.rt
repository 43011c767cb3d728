//! A world as it is kept: objects and channels with their indexes and their weights, which takes one change after
//! another.
#![tactic(auto)]

mod copies;
mod stored_channels;
mod stored_objects;
mod stored_worlds;
mod weights;

pub use copies::{next_channel, next_object};
pub use stored_worlds::{StoreParts, StoredWorld};
pub use weights::weight_less;
