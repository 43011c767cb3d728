//! What comes of the bytes that a leader answers.

ghost use Rattle.std.specs.Prelude.{◌≡◌, ◌++◌, []};
ghost use Rattle.byte_text.specs.Requests.{IsRequest, request_text};
ghost use Rattle.repl_node.specs.Followers.{Asks, Comes, IsFit, IsReading, bytes_held};

use crate::log_worlds::HearFault;
use crate::nodes::{Heard, Node};
use crate::phases::{FollowEnd, Phase};
use crate::unsent_asks::UnsentAsk;
use byte_text::{Request, requests_are_read};
use repl_stream::{part_of, stream_laws};
use resp_frames::{Fed, FeedFault, Requests};

// The place of the bytes among the words of a part.
const BYTES: usize = 4;

/// The node's next ask is to be written; for want of memory none is.
pub(crate) fn ask(node: &Node, out: &mut UnsentAsk) -> Phase
    ensures { Asks node.now out.new result }
{
    match out.put(node.ask()) {
        Ok(()) => Phase::Asking,
        Err(_) => Phase::Ended(FollowEnd::Memory),
    }
}

// Hears a request that is a part. Where the log goes on behind it, the next ask is to be written.
fn hear_request(node: &mut Node, request: &Request, out: &mut UnsentAsk) -> Phase
    requires request { IsRequest request.now }
    requires written { out.old ≡ [] }
    ensures { Comes (request_text request.now) node.old node.new [] out.new result }
{
    // The laws that this function's proof stands on: each part with its bytes has one text, and is read of it.
    requests_are_read();
    stream_laws();
    let Some(part) = part_of(request) else {
        return Phase::Ended(FollowEnd::BadPart);
    };
    match node.hear(&part, request.word(BYTES)) {
        Ok(Heard::Old) => Phase::Ended(FollowEnd::BadPart),
        Ok(Heard::More) => ask(node, out),
        Ok(Heard::Published) => Phase::Published,
        Err(HearFault::NotRecords) => Phase::Ended(FollowEnd::BadPart),
        Err(HearFault::Memory) => Phase::Ended(FollowEnd::Memory),
    }
}

/// Goes on reading an answer, and hears it where it is whole. Nothing may stand behind it, as one part answers an ask.
pub(crate) fn hear_bytes(
    reader: &mut Requests,
    bytes: &[u8],
    node: &mut Node,
    out: &mut UnsentAsk,
) -> Phase
    requires reads { IsReading reader.old }
    requires written { out.old ≡ [] }
    ensures comes { Comes (bytes_held reader.old ++ bytes.now) node.old node.new (bytes_held reader.new) out.new
        result }
    ensures fit { IsFit reader.new out.new result }
{
    requests_are_read();
    stream_laws();
    match reader.feed(bytes) {
        Ok(fed) => {
            let Fed { taken, request } = fed;
            match request {
                Some(request) if taken == bytes.len() => hear_request(node, &request, out),
                Some(_) => Phase::Ended(FollowEnd::BadPart),
                None => Phase::Asking,
            }
        }
        Err(FeedFault::Broken(_fault)) => Phase::Ended(FollowEnd::BadPart),
        // Nothing is fed behind a fault, so a reader that is fed is not dead.
        Err(FeedFault::Dead | FeedFault::Memory) => Phase::Ended(FollowEnd::Memory),
    }
}
