//! Requests that set the channel of a session's live fence, whoever asks for it.

ghost use Rattle.std.specs.Prelude.{◌≡◌, ◌&&◌, codes};
ghost use Rattle.byte_text.specs.Names.{is_word, same};
ghost use Rattle.live_fence.specs.LiveFences.{live_name, sets_live};

use crate::parts::behind;
use byte_text::Request;
use itoa::Buffer;

// Whether a word is SETCHAN, in any case of its ASCII letters.
fn is_setting(word: &[u8]) -> bool
    ensures { result ≡ is_word word.now (codes "SETCHAN") }
{
    word.eq_ignore_ascii_case(b"SETCHAN")
}

// Whether the bytes are the name of the session's channel.
fn is_own(session: u32, name: &[u8]) -> bool
    ensures { result ≡ same name.now (live_name session) }
{
    let mut buffer = Buffer::new();
    match behind(b"live/", name) {
        Some(number) => number == buffer.format(session).as_bytes(),
        None => false,
    }
}

/// Whether a request sets the channel of the session's live fence, whatever it goes on with.
pub fn sets_live(session: u32, request: &Request) -> bool
    ensures { result ≡ sets_live session request.now }
{
    request.words() > 1 && is_setting(request.word(0)) && is_own(session, request.word(1))
}
