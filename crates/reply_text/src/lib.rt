//! Replies, and the text of their frames.
#![tactic(auto)]

mod channels;
mod drafts;
mod frames;
mod items;
mod lists;
mod objects;
mod ready_frames;
mod refusals;
mod replies;

pub use channels::confirmation_reply;
pub use frames::{ReplyFault, push_reply};
pub use items::ItemFrames;
pub use lists::ReplyList;
pub use objects::{bounds_reply, get_frame, stats_reply};
pub use ready_frames::{count_frame, fine_frame, null_frame, pong_frame, text_frame};
pub use refusals::{broken_reply, error_reply, fault_reply, refusal_reply};
pub use replies::number_reply;
