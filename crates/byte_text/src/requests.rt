//! Requests (RESP2): words within limits, and their texts.

ghost use Rattle.byte_text.specs.Names.{Bytes};
ghost use Rattle.std.specs.Prelude.{◌≡◌, ℕ, List, ◌++◌, ◌∷◌, [], ◌<◌, ◌≤◌, ◌-◌, length, take, drop, slice_get, Some};
ghost use Rattle.std.specs.Prelude.{OnOk, OnErr, IfOk, flat_map};
ghost use Rattle.byte_text.specs.Lines.{line, bulk_text};
ghost use Rattle.byte_text.specs.Requests.{FitsRequest, IsRequest, request_text, start_of};

use crate::numbers::push_number;
use crate::texts::Text;
use itoa::Integer;
use memory::NoMemory;
use smallvec::SmallVec;
use std::alloc::Global;
use std::marker::Model;

// So many words take no allocation but that of their bytes: those of most requests.
const INLINE_WORDS: usize = 12;

/// A list of words, each a list of bytes: at most 4,096 words, each of at most 1,048,576 bytes, together of at most
/// 2,097,152. The words lie in one buffer, one behind another.
#[derive(Drop)]
pub struct Request {
    bytes: Vec<u8>,
    // Where each word ends.
    ends: SmallVec<u32, INLINE_WORDS>,
}

impl Model for Request {
    ghost use Rattle.std.specs.Prelude.{List, ℕ, length};
    ghost use Rattle.byte_text.specs.Requests.{FitsRequest, Ascend, cut};

    ghost Value = { List (List ℕ) };

    ghost view = { λ r. cut 0 r.ends.items r.bytes.items };

    ghost invariant = { λ r. FitsRequest (cut 0 r.ends.items r.bytes.items)
        × Ascend 0 r.ends.items (length r.bytes.items) };
}

impl Request {
    /// No word.
    pub fn new(alloc: Global) -> Request
        ensures { result ≡ [] }
    {
        Request {
            bytes: Vec::new(alloc),
            ends: SmallVec::new(alloc),
        }
    }

    /// No word, with room for so many words of so many bytes together.
    pub fn with_room(alloc: Global, words: usize, bytes: usize) -> Result<Request, NoMemory>
        ensures { IfOk result (λ r. r ≡ []) }
    {
        let bytes = Vec::with_capacity(alloc, bytes)?;
        let mut ends = SmallVec::new(alloc);
        ends.reserve(words)?;
        Ok(Request { bytes, ends })
    }

    /// Puts a word last. At want of memory the words are as before.
    pub fn push(&mut self, word: &[u8]) -> Result<(), NoMemory>
        requires { FitsRequest (self.old ++ word.now ∷ []) }
        ensures ok { OnOk result (self.new ≡ self.old ++ word.now ∷ []) }
        ensures err { OnErr result (self.new ≡ self.old) }
    {
        let before = self.bytes.len();
        self.bytes.extend_from_slice(word)?;
        match self.ends.push(self.bytes.len() as u32) {
            Ok(()) => Ok(()),
            Err(_) => {
                self.bytes.truncate(before);
                Err(NoMemory)
            }
        }
    }

    /// How many words there are, which are within the limits of a request.
    pub fn words(&self) -> usize
        ensures count { result ≡ length self.now }
        ensures fits { FitsRequest self.now }
    {
        self.ends.len()
    }

    /// The word at this place, counted from 0.
    pub fn word(&self, at: usize) -> &[u8]
        requires { at < length self.now }
        ensures { slice_get self.now at ≡ Some result.now }
    {
        let ends = self.ends.as_slice();
        let (start, end) = (start_of(ends, at), start_of(ends, at + 1));
        part(self.bytes.as_slice(), start, end)
    }
}

// The bytes from one place to another.
fn part(bytes: &[u8], start: usize, end: usize) -> &[u8]
    requires { (start ≤ end) × (end ≤ length bytes.now) }
    ensures { result.now ≡ take (end - start) (drop start bytes.now) }
{
    &bytes[start..end]
}

// Where the word at a place begins, and the one before it ends.
fn start_of(ends: &[u32], at: usize) -> usize
    requires { at ≤ length ends.now }
    ensures { result ≡ start_of 0 ends.now at }
{
    if at == 0 { 0 } else { ends[at - 1] as usize }
}

// Appends a line: a mark, a number, CR LF.
#[tactic(auto, using(crate::specs::TextLaws::kept))]
fn push_line<I: Integer>(into: &mut Text, mark: u8, n: I) -> Result<(), NoMemory>
    ensures ok { OnOk result (into.new ≡ into.old ++ line mark (I.text n)) }
    ensures kept { take (length into.old) into.new ≡ into.old }
{
    into.push(&[mark])?;
    push_number(into, n)?;
    into.push(b"\r\n")
}

#[tactic(auto, using(crate::specs::TextLaws::kept))]
fn push_bulk_parts(into: &mut Text, bytes: &[u8]) -> Result<(), NoMemory>
    ensures ok { OnOk result (into.new ≡ into.old ++ bulk_text bytes.now) }
    ensures kept { take (length into.old) into.new ≡ into.old }
{
    push_line(into, b'$', bytes.len())?;
    into.push(bytes)?;
    into.push(b"\r\n")
}

/// Appends the head of an array of so many items, which follow it: the head of a request of so many words, or of a
/// reply. At want of memory the text is as before.
pub fn push_array_head<I: Integer>(into: &mut Text, items: I) -> Result<(), NoMemory>
    ensures ok { OnOk result (into.new ≡ into.old ++ line 42 (I.text items)) }
    ensures err { OnErr result (into.new ≡ into.old) }
{
    let before = into.len();
    let pushed = push_line(into, b'*', items);
    into.keep_if(pushed, before)
}

/// Appends a bulk string. At want of memory the text is as before.
pub fn push_bulk(into: &mut Text, bytes: &[u8]) -> Result<(), NoMemory>
    ensures ok { OnOk result (into.new ≡ into.old ++ bulk_text bytes.now) }
    ensures err { OnErr result (into.new ≡ into.old) }
{
    let before = into.len();
    let pushed = push_bulk_parts(into, bytes);
    into.keep_if(pushed, before)
}

#[tactic(auto, using(crate::specs::TextLaws::kept))]
fn push_each_word(into: &mut Text, words: &Request) -> Result<(), NoMemory>
    ensures ok { OnOk result (into.new ≡ into.old ++ flat_map bulk_text words.now) }
    ensures kept { take (length into.old) into.new ≡ into.old }
{
    for at in 0..words.words() {
        push_bulk(into, words.word(at))?;
    }
    Ok(())
}

/// Appends the words of a request, each as a bulk string, without the head of the request. At want of memory the text
/// is as before.
pub fn push_words(into: &mut Text, words: &Request) -> Result<(), NoMemory>
    ensures ok { OnOk result (into.new ≡ into.old ++ flat_map bulk_text words.now) }
    ensures err { OnErr result (into.new ≡ into.old) }
{
    let before = into.len();
    let pushed = push_each_word(into, words);
    into.keep_if(pushed, before)
}

#[tactic(auto, using(crate::specs::TextLaws::kept))]
fn push_request_parts(into: &mut Text, request: &Request) -> Result<(), NoMemory>
    ensures fits { FitsRequest request.now }
    ensures ok { OnOk result (into.new ≡ into.old ++ request_text request.now) }
    ensures kept { take (length into.old) into.new ≡ into.old }
{
    push_array_head(into, request.words())?;
    push_words(into, request)
}

/// Appends the text of a request. At want of memory the text is as before.
pub fn push_request(into: &mut Text, request: &Request) -> Result<(), NoMemory>
    requires { 0 < length request.now }
    ensures grammar { IsRequest request.now }
    ensures ok { OnOk result (into.new ≡ into.old ++ request_text request.now) }
    ensures err { OnErr result (into.new ≡ into.old) }
{
    let before = into.len();
    let pushed = push_request_parts(into, request);
    into.keep_if(pushed, before)
}

/// No request's text is a proper prefix of another's, whatever is behind them, and each is the text of one request
/// alone.
pub fn request_texts_differ()
    ensures { (a b : List Bytes) (x y : Bytes) → IsRequest a → IsRequest b
        → request_text a ++ x ≡ request_text b ++ y → (a ≡ b) × (x ≡ y) }
{}
