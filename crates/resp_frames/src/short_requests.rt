//! Requests of few and short words that stand whole at the front of a piece, as nearly all do: their bytes are gone
//! over once.
//!
//! Where a reader holds no beginning of a request, and one of less than 100 words of less than 100 bytes each stands
//! whole at the front of the piece, its words are taken as they are found. Of all others the end is looked for first,
//! and then the words are read, since a fault is that of the stream's first wrong byte wherever the pieces were cut.
//! Such requests are few.

ghost use Rattle.std.specs.Prelude.{◌≡◌, ◌<◌, ◌≤◌, ◌+◌, ◌++◌, ◌∷◌, length, take, decimal, flat_map, IfOk, IfSome};
ghost use Rattle.byte_text.specs.Lines.{line, bulk_text};
ghost use Rattle.byte_text.specs.Requests.{IsRequest, request_text};
ghost use Rattle.resp_frames.specs.ShortRequests.{AreShortWords};

use byte_text::{NoMemory, Request};
use std::alloc::Global;

// The bytes of room that are taken for each word.
const WORD_ROOM: usize = 32;

// The number that a digit stands for.
fn digit(byte: u8) -> Option<u32>
    ensures digit { IfSome result (λ d. byte ≡ 48 + d) }
    ensures short { IfSome result (λ d. d < 10) }
{
    if byte.is_ascii_digit() {
        Some((byte - b'0') as u32)
    } else {
        None
    }
}

// The number that a digit makes with the one that is next, where there is one, and what stands behind it.
fn with_next(first: u32, bytes: &[u8]) -> (u32, &[u8])
    requires { first < 10 }
    ensures number { (48 + first) ∷ bytes.now ≡ decimal result.0 ++ result.1.now }
    ensures short { result.0 < 100 }
{
    if first == 0 {
        return (first, bytes);
    }
    match bytes {
        [] => (first, bytes),
        [next, behind @ ..] => match digit(*next) {
            Some(second) => (10 * first + second, behind),
            None => (first, bytes),
        },
    }
}

// The number of at most two digits at the front, and what stands behind it.
fn short_number(bytes: &[u8]) -> Option<(u32, &[u8])>
    ensures number { IfSome result (λ n. bytes.now ≡ decimal n.0 ++ n.1.now) }
    ensures short { IfSome result (λ n. n.0 < 100) }
{
    match bytes {
        [] => None,
        [first, behind @ ..] => match digit(*first) {
            Some(first) => Some(with_next(first, behind)),
            None => None,
        },
    }
}

// What stands behind CR LF, where these are next.
fn past_end(bytes: &[u8]) -> Option<&[u8]>
    ensures { IfSome result (λ behind. bytes.now ≡ 13 ∷ 10 ∷ behind.now) }
{
    match bytes {
        [first, second, behind @ ..] => {
            if *first == b'\r' && *second == b'\n' {
                Some(behind)
            } else {
                None
            }
        }
        _ => None,
    }
}

// The number of a line of this mark, of at most two digits, at the front, and what stands behind the line.
fn short_line(bytes: &[u8], mark: u8) -> Option<(u32, &[u8])>
    ensures line { IfSome result (λ l. bytes.now ≡ line mark (decimal l.0) ++ l.1.now) }
    ensures short { IfSome result (λ l. l.0 < 100) }
{
    match bytes {
        [] => None,
        [first, behind @ ..] => {
            if *first != mark {
                return None;
            }
            let Some((number, behind)) = short_number(behind) else {
                return None;
            };
            match past_end(behind) {
                Some(behind) => Some((number, behind)),
                None => None,
            }
        }
    }
}

// The word of less than 100 bytes at the front, and what stands behind it.
fn short_word(bytes: &[u8]) -> Option<(&[u8], &[u8])>
    ensures word { IfSome result (λ w. bytes.now ≡ bulk_text w.0.now ++ w.1.now) }
    ensures short { IfSome result (λ w. length w.0.now < 100) }
{
    let Some((len, behind)) = short_line(bytes, b'$') else {
        return None;
    };
    let len = len as usize;
    if behind.len() < len {
        return None;
    }
    let (word, behind) = behind.split_at(len);
    match past_end(behind) {
        Some(behind) => Some((word, behind)),
        None => None,
    }
}

// So many words, each of less than 100 bytes, at the front, and how many bytes they take.
fn short_words(
    alloc: Global,
    count: u32,
    bytes: &[u8],
) -> Result<Option<(Request, usize)>, NoMemory>
    requires { count < 100 }
    ensures { IfOk result (λ r. IfSome r (λ f. AreShortWords f.0 count × (f.1 ≤ length bytes.now)
        × (take f.1 bytes.now ≡ flat_map bulk_text f.0))) }
{
    let room = count as usize;
    let mut request = Request::with_room(alloc, room, room * WORD_ROOM)?;
    let mut rest = bytes;
    for _ in 0..count {
        let Some((word, behind)) = short_word(rest) else {
            return Ok(None);
        };
        request.push(word)?;
        rest = behind;
    }
    Ok(Some((request, bytes.len() - rest.len())))
}

/// The request at the front and how many bytes it takes, where one of less than 100 words, each of less than 100 bytes,
/// stands there whole. Of all other bytes nothing is said.
pub(crate) fn short_request(
    alloc: Global,
    bytes: &[u8],
) -> Result<Option<(Request, usize)>, NoMemory>
    ensures { IfOk result
        (λ r. IfSome r (λ f. IsRequest f.0 × (f.1 ≤ length bytes.now) × (take f.1 bytes.now ≡ request_text f.0))) }
{
    let Some((count, behind)) = short_line(bytes, b'*') else {
        return Ok(None);
    };
    if count == 0 {
        return Ok(None);
    }
    let before = bytes.len() - behind.len();
    match short_words(alloc, count, behind)? {
        Some((request, taken)) => Ok(Some((request, before + taken))),
        None => Ok(None),
    }
}
