//! The requests that a live search becomes.

ghost use Rattle.std.specs.Prelude.{◌≡◌, ◌≤◌, ◌++◌, ◌∷◌, [], true, false, ◌&&◌, nat_le, length, codes, decimal, IfOk};
ghost use Rattle.std.specs.Prelude.{is_some};
ghost use Rattle.std.specs.List.{list_any};
ghost use Rattle.byte_text.specs.Names.{is_word};
ghost use Rattle.byte_text.specs.Requests.{FitsRequest, total, max_request};
ghost use Rattle.world_model.specs.Commands.{command_spelled};
ghost use Rattle.live_fence.specs.LiveFences.{live_name, is_search, begins_search, live_pair, end_request};
ghost use Rattle.live_fence.specs.FenceWord.{has_fence, may_be_live};

use byte_text::{MAX_REQUEST, MAX_WORDS, NoMemory, Request, Text, push_u64};
use cmd_words::{CommandFault, command_of};
use std::alloc::Global;

// The most words of a live search: those of its SETCHAN are two more.
const MOST_WORDS: usize = MAX_WORDS - 2;

/// What a live search becomes.
#[derive(Drop)]
pub struct LivePair {
    /// SETCHAN of the session's channel, with the search as its fence.
    pub fence: Request,
    /// SUBSCRIBE to the channel.
    pub listen: Request,
    /// DELCHAN of the channel, for the end of the session.
    pub end: Request,
}

// Whether a word is the name of a search that may be live, in any case of its ASCII letters.
fn is_search(word: &[u8]) -> bool
    ensures { result ≡ is_search word.now }
{
    word.eq_ignore_ascii_case(b"WITHIN")
        || word.eq_ignore_ascii_case(b"INTERSECTS")
        || word.eq_ignore_ascii_case(b"NEARBY")
}

// Whether the first word is such a name.
fn begins_search(request: &Request) -> bool
    ensures { result ≡ begins_search request.now }
{
    request.words() > 0 && is_search(request.word(0))
}

// Whether a word is FENCE, in any case of its ASCII letters.
fn is_fence(word: &[u8]) -> bool
    ensures { result ≡ is_word word.now (codes "FENCE") }
{
    word.eq_ignore_ascii_case(b"FENCE")
}

// Whether one of the words is FENCE.
fn has_fence(request: &Request) -> bool
    ensures { result ≡ has_fence request.now }
{
    for at in 0..request.words() {
        if is_fence(request.word(at)) {
            return true;
        }
    }
    false
}

// Whether the words may be a live search, before they are read.
fn may_be_live(request: &Request) -> bool
    ensures { result ≡ may_be_live request.now }
{
    request.words() <= MOST_WORDS && begins_search(request) && has_fence(request)
}

// The bytes of all words.
fn bytes_of(request: &Request) -> usize
    ensures bytes { result ≡ total request.now }
    ensures fits { FitsRequest request.now }
{
    let mut sum = 0;
    for at in 0..request.words() {
        sum += request.word(at).len();
    }
    sum
}

// The bytes of SETCHAN, the channel, and the words of the search.
fn setting_bytes(request: &Request, channel: &[u8]) -> usize
    requires short { length channel.now ≤ 255 }
    ensures bytes { result ≡ total (codes "SETCHAN" ∷ channel.now ∷ request.now) }
    ensures fits { FitsRequest request.now }
{
    bytes_of(request) + channel.len() + b"SETCHAN".len()
}

// The channel of a session's live fence.
fn channel_name(alloc: Global, session: u32) -> Result<Text, NoMemory>
    ensures name { IfOk result (λ name. name ≡ live_name session) }
    ensures short { IfOk result (λ name. length name ≤ 255) }
{
    let mut name = Text::new(alloc);
    name.push(b"live/")?;
    push_u64(&mut name, u64::from(session))?;
    Ok(name)
}

// A command on the channel: its name, and the channel's.
fn named_request(alloc: Global, command: &[u8], channel: &[u8]) -> Result<Request, NoMemory>
    requires short { (length command.now ≤ 255) × (length channel.now ≤ 255) }
    ensures { IfOk result (λ made. made ≡ command.now ∷ channel.now ∷ []) }
{
    let mut made = Request::with_room(alloc, 2, command.len() + channel.len())?;
    made.push(command)?;
    made.push(channel)?;
    Ok(made)
}

// SETCHAN, the channel, and the words of the search.
fn fence_request(
    alloc: Global,
    request: &Request,
    channel: &[u8],
    room: usize,
) -> Result<Request, NoMemory>
    requires fits { FitsRequest (codes "SETCHAN" ∷ channel.now ∷ request.now) }
    ensures { IfOk result (λ made. made ≡ codes "SETCHAN" ∷ channel.now ∷ request.now) }
{
    let mut made = Request::with_room(alloc, request.words() + 2, room)?;
    made.push(b"SETCHAN")?;
    made.push(channel)?;
    for at in 0..request.words() {
        made.push(request.word(at))?;
    }
    Ok(made)
}

// Whether the words are a spelling.
fn is_spelled(alloc: Global, request: &Request) -> Result<bool, NoMemory>
    ensures { IfOk result (λ spelled. spelled ≡ is_some (command_spelled request.now)) }
{
    match command_of(alloc, request) {
        Ok(_) => Ok(true),
        Err(CommandFault::Refused(_)) => Ok(false),
        Err(CommandFault::Memory) => Err(NoMemory),
    }
}

// The requests of a search that may be live.
fn pair_of(alloc: Global, request: &Request, session: u32) -> Result<Option<LivePair>, NoMemory>
    requires { may_be_live request.now ≡ true }
    ensures { IfOk result (λ pair. pair ≡ live_pair session request.now) }
{
    let channel = channel_name(alloc, session)?;
    let room = setting_bytes(request, channel.bytes());
    if room > MAX_REQUEST {
        return Ok(None);
    }
    let fence = fence_request(alloc, request, channel.bytes(), room)?;
    if !is_spelled(alloc, &fence)? {
        return Ok(None);
    }
    let listen = named_request(alloc, b"SUBSCRIBE", channel.bytes())?;
    let end = live_end(alloc, session)?;
    Ok(Some(LivePair { fence, listen, end }))
}

/// The requests that a search becomes where it is live: of at most 4,094 words, the first of them WITHIN, INTERSECTS or
/// NEARBY in any case, and with SETCHAN and the session's channel before them a spelling within the greatest request.
/// None where it is not live. Words without FENCE are not read.
pub fn live_pair(
    alloc: Global,
    request: &Request,
    session: u32,
) -> Result<Option<LivePair>, NoMemory>
    ensures { IfOk result (λ pair. pair ≡ live_pair session request.now) }
{
    if !may_be_live(request) {
        return Ok(None);
    }
    pair_of(alloc, request, session)
}

/// The request that deletes the channel of a session's live fence.
pub fn live_end(alloc: Global, session: u32) -> Result<Request, NoMemory>
    ensures { IfOk result (λ made. made ≡ end_request session) }
{
    let channel = channel_name(alloc, session)?;
    named_request(alloc, b"DELCHAN", channel.bytes())
}
