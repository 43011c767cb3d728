//! What a follower asks for.

ghost use Rattle.std.specs.Prelude.{◌≡◌, ◌++◌, length, take, Some, IfSome, OnOk, OnErr};
ghost use Rattle.repl_stream.specs.Texts.{IsAskOf, ask_text};

use crate::words::{is_named, number_at, push_number};
use byte_text::{NoMemory, Request, Text, push_array_head, push_bulk};

// The name of an ask.
const FEED: &[u8] = b"FEED";

// How many words an ask has, its name among them.
const WORDS: usize = 3;

/// What a follower asks for: what the log has of this generation from this place on.
#[derive(Clone, Copy, Debug, PartialEq, Eq)]
pub struct Ask {
    pub generation: u64,
    pub from: u64,
}

/// The ask that a request is. None for every other request.
pub fn ask_of(request: &Request) -> Option<Ask>
    ensures made { IfSome result (λ ask. IsAskOf ask request.now) }
    ensures only { (ask : Ask) → IsAskOf ask request.now → result ≡ Some ask }
{
    if !is_named(request, WORDS, FEED) {
        return None;
    }
    let generation = number_at(request, 1)?;
    let from = number_at(request, 2)?;
    Some(Ask { generation, from })
}

#[tactic(auto, using(byte_text::specs::TextLaws::kept))]
fn push_words(into: &mut Text, ask: Ask) -> Result<(), NoMemory>
    ensures ok { OnOk result (into.new ≡ into.old ++ ask_text ask) }
    ensures kept { take (length into.old) into.new ≡ into.old }
{
    push_array_head(into, WORDS)?;
    push_bulk(into, FEED)?;
    push_number(into, ask.generation)?;
    push_number(into, ask.from)
}

/// Appends the text of an ask. At want of memory the text is as before.
pub fn push_ask(into: &mut Text, ask: Ask) -> Result<(), NoMemory>
    ensures ok { OnOk result (into.new ≡ into.old ++ ask_text ask) }
    ensures err { OnErr result (into.new ≡ into.old) }
{
    let before = into.len();
    let pushed = push_words(into, ask);
    into.keep_if(pushed, before)
}
