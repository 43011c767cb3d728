//! The first piece of a frame: which follows of its mark and the text of its line.

ghost use Rattle.std.specs.Prelude.{◌≡◌, ◌++◌, ◌∷◌, List, ℕ, IfSome, IsSome};
ghost use Rattle.byte_text.specs.Replies.{inside};
ghost use Rattle.byte_text.specs.declared.replies.Piece.{Piece};
ghost use Rattle.ws_front.specs.Pieces.{IsPieceAt, IsPieceOf};

use crate::lines::{first_line, past_end};
use byte_text::{read_i64, read_u64};

/// The text of the line of a null bulk string, and of a null array.
const NULL: &[u8] = b"-1";

// What stands behind a bulk string, whose line has this text.
fn behind_bulk<'a>(text: &[u8], behind: &'a [u8]) -> Option<&'a [u8]>
    ensures made { IfSome result
        (λ rest. (p : Piece) × IsPieceOf 36 text.now behind.now p rest.now × (inside p ≡ 0)) }
    ensures only { (p : Piece) (rest : List ℕ) → IsPieceOf 36 text.now behind.now p rest → IsSome result }
{
    if text == NULL {
        return Some(behind);
    }
    let Ok(len) = read_u64(text) else {
        return None;
    };
    let len = len as usize;
    if behind.len() < len {
        return None;
    }
    let (_, end) = behind.split_at(len);
    past_end(end)
}

// How many replies stand inside of an array, whose line has this text.
fn items_of(text: &[u8]) -> Option<u32>
    ensures made { IfSome result
        (λ n. (p : Piece) × ((behind : List ℕ) → IsPieceOf 42 text.now behind p behind) × (inside p ≡ n)) }
    ensures only { (p : Piece) (behind rest : List ℕ) → IsPieceOf 42 text.now behind p rest → IsSome result }
{
    if text == NULL {
        return Some(0);
    }
    match read_u64(text) {
        Ok(n) if n < 1 << 32 => Some(n as u32),
        _ => None,
    }
}

// How many replies stand inside of a piece whose line has this mark and this text, and what stands behind the piece.
fn piece_of<'a>(mark: u8, text: &[u8], behind: &'a [u8]) -> Option<(u32, &'a [u8])>
    ensures made { IfSome result
        (λ r. (p : Piece) × IsPieceOf mark text.now behind.now p r.1.now × (inside p ≡ r.0)) }
    ensures only { (p : Piece) (rest : List ℕ) → IsPieceOf mark text.now behind.now p rest → IsSome result }
{
    match mark {
        b'+' | b'-' => Some((0, behind)),
        b':' => match read_i64(text) {
            Ok(_) => Some((0, behind)),
            Err(_) => None,
        },
        b'$' => match behind_bulk(text, behind) {
            Some(rest) => Some((0, rest)),
            None => None,
        },
        b'*' => match items_of(text) {
            Some(items) => Some((items, behind)),
            None => None,
        },
        _ => None,
    }
}

// The same of what stands behind the mark.
fn piece_behind(mark: u8, rest: &[u8]) -> Option<(u32, &[u8])>
    ensures made { IfSome result
        (λ r. (p : Piece) × IsPieceAt (mark ∷ rest.now) p r.1.now × (inside p ≡ r.0)) }
    ensures only { (p : Piece) (behind : List ℕ) → IsPieceAt (mark ∷ rest.now) p behind → IsSome result }
{
    let (text, behind) = first_line(rest)?;
    piece_of(mark, text, behind)
}

/// How many replies stand inside of the piece at the front, and what stands behind it.
pub(crate) fn first_piece(bytes: &[u8]) -> Option<(u32, &[u8])>
    ensures made { IfSome result (λ r. (p : Piece) × IsPieceAt bytes.now p r.1.now × (inside p ≡ r.0)) }
    ensures only { (p : Piece) (behind : List ℕ) → IsPieceAt bytes.now p behind → IsSome result }
{
    match bytes {
        [] => None,
        [mark, rest @ ..] => piece_behind(*mark, rest),
    }
}
