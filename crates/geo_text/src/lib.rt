//! Which texts are accepted as GeoJSON (RFC 7946), and the texts that are stored for points and boxes.
//!
//! The crate holds definitions (specs/), the types that they name, and laws.
//!
//! Of members of one name the last counts. A text that is not UTF-8 is not JSON. A coordinate is a number that JSON
//! writes without fraction and exponent. Whether a ring is closed is seen ring by ring, so that the first fault met is
//! the one reported.
#![tactic(auto)]

mod faults;
mod laws;
mod types;

pub use faults::GeoFault;
pub use laws::{stored_texts, texts_have_one_answer};
pub use types::{Base, GeoType};
