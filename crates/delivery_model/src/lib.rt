//! Laws of deliveries: what writes bring to sessions can be staged before any of it is placed, and a call be made ready
//! whole before anything is changed.
#![tactic(auto)]

mod laws;

pub use laws::{call_laws, effect_laws, own_laws, room_laws, silent_laws, staging_laws};
