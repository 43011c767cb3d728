//! The records of changes, as the log keeps them: their lengths, and how they are written.
//!
//! Which words are the record of which change stands in `world_data` and `log_record`.
#![tactic(auto)]

mod lengths;
mod parts;
mod writing;

pub use lengths::{channel_len, del_len, delchan_len, drop_len, flush_len, put_len};
pub use writing::{
    push_del, push_delchan, push_drop, push_flush, push_put, push_record, push_setchan,
};
