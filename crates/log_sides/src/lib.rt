//! The sides of a log: the text of a side, what holds of it at whatever a crash may leave, and how a new side is made.
//!
//! What the bytes of a batch say is left open here.
#![tactic(auto)]

mod batches;
mod side_making;
mod versions;

pub use batches::Batch;
pub use side_making::{FIRST_GATE, head_of, make_side, shut_side};
pub use versions::NEWEST;
