//! Shapes of GeoJSON texts (RFC 7946), and the texts that are stored for points and boxes.
//!
//! Which texts are accepted, with which shape, and why the others are refused stands in `geo_text`.
#![tactic(auto)]

mod faults;
mod geometries;
mod members;
mod parts;
mod positions;
mod shapes;
mod stored;
mod texts;

pub use faults::ShapeFault;
pub use geo_text::GeoFault;
pub use shapes::shape_of;
pub use texts::{push_bounds, push_point};
