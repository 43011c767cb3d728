//! Whether an object meets a query or is in a fence: the pattern of ids, the tests of fields, and the area; and the value
//! that a field has.
//!
//! Searches and fences share this crate, so that an object meets both by the same words.
#![tactic(auto)]

mod areas;
mod fences;
mod fields;
mod patterns;
mod queries;

pub use areas::meets_area;
pub use fences::{is_in_fence, meets_fence};
pub use fields::{has_value, passes, show_value};
pub use patterns::meets_glob;
pub use queries::meets_query;
