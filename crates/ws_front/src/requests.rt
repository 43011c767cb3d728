//! Whether bytes are the text of one request.

ghost use Rattle.std.specs.Prelude.{◌≡◌, IfOk, Decides};
ghost use Rattle.byte_text.specs.Requests.{IsRequestText};
ghost use Rattle.ws_front.specs.Requests.{is_one_request};

use byte_text::{NoMemory, requests_are_read};
use resp_frames::{FeedFault, Requests};
use std::alloc::Global;

// Whether one request is read of the bytes, and nothing stands behind it.
fn is_read(alloc: Global, bytes: &[u8]) -> Result<bool, NoMemory>
    ensures { IfOk result (λ is. is ≡ is_one_request bytes.now) }
{
    requests_are_read();
    match Requests::new(alloc).feed(bytes) {
        Ok(fed) => Ok(fed.request.is_some() && fed.taken == bytes.len()),
        Err(FeedFault::Memory) => Err(NoMemory),
        Err(FeedFault::Broken(_)) => Ok(false),
        Err(FeedFault::Dead) => Ok(false),
    }
}

/// Whether the bytes are the text of exactly one request.
pub fn is_one_request(alloc: Global, bytes: &[u8]) -> Result<bool, NoMemory>
    ensures read { IfOk result (λ is. is ≡ is_one_request bytes.now) }
    ensures text { IfOk result (λ is. Decides is (IsRequestText bytes.now)) }
{
    // The laws that this function's proof stands on.
    requests_are_read();
    is_read(alloc, bytes)
}
