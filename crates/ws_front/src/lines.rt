//! The line at the front of a frame.

ghost use Rattle.std.specs.Prelude.{◌≡◌, ◌<◌, ◌++◌, ◌∷◌, List, ℕ, length, position, IfSome, IsSome};
ghost use Rattle.byte_text.specs.Lines.{IsOneLine};
ghost use Rattle.ws_front.specs.Pieces.{is_end};

/// What stands behind CR LF, where these are next.
pub(crate) fn past_end(bytes: &[u8]) -> Option<&[u8]>
    ensures made { IfSome result (λ behind. bytes.now ≡ 13 ∷ 10 ∷ behind.now) }
    ensures only { (behind : List ℕ) → bytes.now ≡ 13 ∷ 10 ∷ behind → IsSome result }
{
    match bytes {
        [first, second, behind @ ..] => {
            if *first == b'\r' && *second == b'\n' {
                Some(behind)
            } else {
                None
            }
        }
        _ => None,
    }
}

// Where the first CR or LF is.
fn first_end(bytes: &[u8]) -> Option<usize>
    ensures first { result ≡ position is_end bytes.now }
    ensures within { IfSome result (λ at. at < length bytes.now) }
{
    bytes
        .iter()
        .position(|byte| *byte == b'\r' || *byte == b'\n')
}

/// The text of a line, and what stands behind its CR LF, where neither CR nor LF stands in the text.
pub(crate) fn first_line(bytes: &[u8]) -> Option<(&[u8], &[u8])>
    ensures made { IfSome result (λ l. IsOneLine l.0.now × (bytes.now ≡ l.0.now ++ 13 ∷ 10 ∷ l.1.now)) }
    ensures only { (text behind : List ℕ) → IsOneLine text → bytes.now ≡ text ++ 13 ∷ 10 ∷ behind
        → IsSome result }
{
    let at = first_end(bytes)?;
    let (text, end) = bytes.split_at(at);
    match past_end(end) {
        Some(behind) => Some((text, behind)),
        None => None,
    }
}
