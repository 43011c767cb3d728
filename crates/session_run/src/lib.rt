//! Sessions that are stepped: values that read, ask and write as their links let them, and never wait. Who steps them
//! makes their calls and takes their frames. And what serving a session means, whoever serves it: the calls of what it
//! asks, the takes of what it is given, the entries that a seat gains, and how the asking ends.
#![tactic(auto)]

mod ends;
mod filling;
mod live;
mod parts;
mod phases;
mod sessions;
#[cfg(test)]
mod tests;
mod waiting_bytes;

pub use ends::InEnd;
pub use phases::{Asking, TakeEnd};
pub use sessions::Session;
