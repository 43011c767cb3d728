//! What a fence would have told: the report of a log's changes on a channel.
//!
//! The log's batches are read side by side, by as many threads as there are processors, and then its changes, cut into
//! stretches: where the objects stand, and what each change raises. The report is that of one thread, for every cutting.
#![tactic(auto)]

mod asked;
mod changes;
mod cuts;
mod grids;
mod in_order;
mod lines;
mod log_batches;
mod log_changes;
mod log_reports;
mod outcomes;
mod parts;
mod records;
mod reports;
mod requests;
mod standing;
mod sums;
mod telling;

pub use asked::{AskFault, read_fence};
pub use changes::Changes;
pub use log_changes::LogChanges;
pub use log_reports::backtest_log;
pub use reports::backtest;
pub use requests::fence_of;
