//! The channels of a world by name, with an index of their fences beside them.
#![tactic(auto)]

mod candidates;
mod channel_slots;
mod due_places;
mod due_slots;
mod dues;
mod hubs;
mod indexed_channels;
mod slots_by_name;

pub use candidates::Candidates;
pub use hubs::Hub;
