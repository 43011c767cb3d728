//! The core: a world of objects and the sessions that are served, each of whose calls is one step of the defined
//! machine.
#![tactic(auto)]

mod channel_dues;
mod cores;
mod dues;
mod finish;
mod growths;
mod moves;
mod ready;
mod record_sinks;
mod records;
mod sessions;
mod spares;
mod staging;
mod stores;
mod touching;

pub use cores::Core;
pub use growths::{Ample, Growths};
pub use record_sinks::{NoRecords, RecordSink};
pub use records::{push_channel, push_object};
