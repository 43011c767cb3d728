//! Names, texts, canonical numbers, JSON strings, requests and replies: the bytes that the other crates speak of.
#![tactic(auto)]

mod faults;
mod json;
mod limits;
mod names;
mod numbers;
mod replies;
mod requests;
mod streams;
mod texts;

pub use faults::RespFault;
pub use json::push_json;
pub use limits::{MAX_NAME, MAX_REQUEST, MAX_WORD, MAX_WORDS};
pub use memory::NoMemory;
pub use names::Name;
pub use numbers::{push_i64, push_u64, read_i64, read_u64};
pub use replies::{Piece, Reply, frame_texts_differ, lists_are_whole, push_frame};
pub use requests::{
    Request, push_array_head, push_bulk, push_request, push_words, request_texts_differ,
};
pub use streams::{requests_are_read, streams_read_once};
pub use texts::{NameFault, Text, TextFault};
