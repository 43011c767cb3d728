//! What is shown of a frame.

ghost use Rattle.std.specs.Prelude.{◌≡◌, ◌++◌, ◌≤◌, ◌-◌, drop, length, codes, decimal, MatchOption, Some, None};
ghost use Rattle.live_fence.specs.LiveFences.{live_name};
ghost use Rattle.live_fence.specs.Parts.{behind, begins_bulk, payload_at, shown};

use itoa::{Buffer, Integer};

// The head of an array of three, `message`, and the mark of the next bulk string.
const MESSAGE: &[u8] = b"*3\r\n$7\r\nmessage\r\n$";

// What stands between the number of a channel's bytes and that of its session.
const CHANNEL: &[u8] = b"\r\nlive/";

/// What the bytes have behind a beginning.
pub(crate) fn behind<'a>(front: &[u8], bytes: &'a [u8]) -> Option<&'a [u8]>
    ensures { MatchOption result (behind front.now bytes.now ≡ None)
        (λ rest. behind front.now bytes.now ≡ Some rest.now) }
{
    bytes.strip_prefix(front)
}

// Whether a bulk string begins that is not the null one.
fn begins_bulk(bytes: &[u8]) -> bool
    ensures { result ≡ begins_bulk bytes.now }
{
    bytes.len() > 1 && bytes[0] == b'$' && bytes[1] != b'-'
}

// What the bytes have behind the text of a number.
fn behind_number<I: Integer>(n: I, bytes: &[u8]) -> Option<&[u8]>
    ensures { MatchOption result (behind (I.text n) bytes.now ≡ None)
        (λ rest. behind (I.text n) bytes.now ≡ Some rest.now) }
{
    let mut buffer = Buffer::new();
    behind(buffer.format(n).as_bytes(), bytes)
}

// How many bytes the name of a session's channel has.
fn name_len(session: u32) -> usize
    ensures { result ≡ length (live_name session) }
{
    let mut buffer = Buffer::new();
    buffer.format(session).len() + 5
}

// The payload, as a bulk string, of a message of the session's live fence.
fn payload_of(session: u32, frame: &[u8]) -> Option<&[u8]>
    ensures { MatchOption result (payload_at session frame.now ≡ None)
        (λ payload. payload_at session frame.now ≡ Some payload.now) }
{
    let rest = behind(MESSAGE, frame)?;
    let rest = behind_number(name_len(session), rest)?;
    let rest = behind(CHANNEL, rest)?;
    let rest = behind_number(session, rest)?;
    let rest = behind(b"\r\n", rest)?;
    if begins_bulk(rest) { Some(rest) } else { None }
}

/// The place at which what is shown of a frame begins, on the connection of the session to which it is sent: of a
/// message of the session's live fence its payload alone is shown, of every other frame all.
pub fn live_part(session: u32, frame: &[u8]) -> usize
    ensures within { result ≤ length frame.now }
    ensures shown { drop result frame.now ≡ shown session frame.now }
{
    match payload_of(session, frame) {
        Some(payload) => frame.len() - payload.len(),
        None => 0,
    }
}
