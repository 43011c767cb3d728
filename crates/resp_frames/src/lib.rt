//! The requests of a stream of bytes (RESP2), read from pieces in any cutting. Requests, replies and their writers
//! stand in `byte_text`, and are handed on here.
#![tactic(auto)]

mod faults;
mod pieces;
mod request_places;
mod request_reader;
mod request_words;
mod short_requests;

pub use byte_text::{Piece, Reply, Request, RespFault, push_frame, push_request};
pub use faults::FeedFault;
pub use request_reader::{Fed, Requests};
