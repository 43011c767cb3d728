//! A journal: the log and its rewriting behind one contract. It owns its disk, and shows what is committed and what is
//! pending.
#![tactic(auto)]

mod disk_steps;
mod journals;
mod laws;
mod log_reads;
mod openings;
mod pieces;
mod replays;
mod side_replays;

pub use journals::{Journal, JournalFault, Opened};
pub use laws::{kept_logs_hold, logs_hold_once};
pub use log_reads::replay_log;
pub use openings::{OpenFault, Unopened};
pub use pieces::{PIECE, Piece};
pub use replays::{Refusal, Replay};
