//! What a leader answers.

ghost use Rattle.std.specs.Prelude.{◌≡◌, ◌≤◌, ◌++◌, length, take, Some, IfSome, OnOk, OnErr};
ghost use Rattle.repl_stream.specs.Texts.{IsPartOf, max_part, part_text};

use crate::words::{is_named, number_at, push_number};
use byte_text::{NoMemory, Request, Text, push_array_head, push_bulk};

/// The most bytes of the log in a part.
pub const MAX_PART: usize = 65_536;

// The name of a part.
const PART: &[u8] = b"PART";

// How many words a part has, its name among them.
const WORDS: usize = 5;

// The place of the bytes among its words.
const BYTES: usize = 4;

/// What a leader answers beside the bytes: of which generation of the log they are, the place of the first of them, and
/// the place where the log then ends, which may be behind the last of them.
#[derive(Clone, Copy, Debug, PartialEq, Eq)]
pub struct Part {
    pub generation: u64,
    pub from: u64,
    pub end: u64,
}

/// The part that a request is, of which the word at place 4 is the bytes. None for every other request, so also for one
/// with more bytes than a part has.
pub fn part_of(request: &Request) -> Option<Part>
    ensures made { IfSome result (λ part. IsPartOf part request.now) }
    ensures only { (part : Part) → IsPartOf part request.now → result ≡ Some part }
{
    if !is_named(request, WORDS, PART) || request.word(BYTES).len() > MAX_PART {
        return None;
    }
    let generation = number_at(request, 1)?;
    let from = number_at(request, 2)?;
    let end = number_at(request, 3)?;
    Some(Part {
        generation,
        from,
        end,
    })
}

#[tactic(auto, using(byte_text::specs::TextLaws::kept))]
fn push_words(into: &mut Text, part: &Part, bytes: &[u8]) -> Result<(), NoMemory>
    ensures ok { OnOk result (into.new ≡ into.old ++ part_text part.now bytes.now) }
    ensures kept { take (length into.old) into.new ≡ into.old }
{
    push_array_head(into, WORDS)?;
    push_bulk(into, PART)?;
    push_number(into, part.generation)?;
    push_number(into, part.from)?;
    push_number(into, part.end)?;
    push_bulk(into, bytes)
}

/// Appends the text of a part with these bytes. At want of memory the text is as before.
pub fn push_part(into: &mut Text, part: &Part, bytes: &[u8]) -> Result<(), NoMemory>
    requires { length bytes.now ≤ max_part }
    ensures ok { OnOk result (into.new ≡ into.old ++ part_text part.now bytes.now) }
    ensures err { OnErr result (into.new ≡ into.old) }
{
    let before = into.len();
    let pushed = push_words(into, part, bytes);
    into.keep_if(pushed, before)
}
