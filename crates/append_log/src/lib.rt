//! A log on the two sides of a disk, to which batches of records are appended.
#![tactic(auto)]

mod append_logs;
mod commits;
mod laws;
mod side_ends;
mod side_heads;
mod side_readers;

pub use append_logs::{AppendLog, LogFault};
pub use laws::{logs_read_once, used_sides_stay};
pub use side_ends::End;
pub use side_heads::{Head, Start, start_log};
pub use side_readers::{Gate, Reader};
