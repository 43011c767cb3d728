//! The records of the log read back: the change that the words of a record stand for.
//!
//! Which words are the record of which change stands in `log_record`.
#![tactic(auto)]

mod changes;
mod channels;
mod faults;
mod laws;
mod limits;
mod puts;
mod record_reader;
mod versions;

pub use changes::change_of;
pub use faults::RecordFault;
pub use laws::changes_are_recorded;
pub use limits::MOST_FIELDS;
