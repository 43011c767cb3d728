//! The words of a request's text, which was gone over before.

ghost use Rattle.std.specs.Prelude.{◌≡◌, ◌≢◌, ℕ, List, ◌++◌, ◌∷◌, ◌<◌, ◌≤◌, ◌^◌, length, decimal, IfOk, Ok};
ghost use Rattle.byte_text.specs.Lines.{line, bulk_text};
ghost use Rattle.byte_text.specs.Requests.{IsRequest, IsRequestText, request_text, max_word};
ghost use Rattle.std.specs.List.{AllByRecursion};

use byte_text::{NoMemory, Request, read_u64};
use std::alloc::Global;

// The place of the first CR.
fn return_at(bytes: &[u8]) -> usize
    ensures found { (text rest : List ℕ) → AllByRecursion (λ b. b ≢ 13) text → bytes.now ≡ text ++ 13 ∷ rest
        → result ≡ length text }
    ensures within { result ≤ length bytes.now }
{
    let mut at = 0;
    while at < bytes.len() {
        if bytes[at] == b'\r' {
            return at;
        }
        at += 1;
    }
    at
}

// What stands behind CR LF.
fn behind_end(bytes: &[u8]) -> &[u8]
    ensures { (a b : ℕ) (rest : List ℕ) → bytes.now ≡ a ∷ b ∷ rest → result.now ≡ rest }
{
    match bytes {
        [_, _, rest @ ..] => rest,
        _ => bytes,
    }
}

fn number_of(digits: &[u8]) -> u32
    ensures { (n : ℕ) → n < 2 ^ 32 → digits.now ≡ decimal n → result ≡ n }
{
    match read_u64(digits) {
        Ok(n) if n < 1 << 32 => n as u32,
        _ => 0,
    }
}

// The number of the line at the front, and what stands behind that line.
fn number_at(bytes: &[u8]) -> (u32, &[u8])
    ensures { (mark n : ℕ) (rest : List ℕ) → n < 2 ^ 32 → bytes.now ≡ line mark (decimal n) ++ rest
        → (result.0 ≡ n) × (result.1.now ≡ rest) }
{
    match bytes {
        [] => (0, bytes),
        [_, tail @ ..] => {
            let (digits, behind) = tail.split_at(return_at(tail));
            (number_of(digits), behind_end(behind))
        }
    }
}

// The word at the front, and what stands behind it.
fn word_at(bytes: &[u8]) -> (&[u8], &[u8])
    ensures { (word rest : List ℕ) → length word ≤ max_word → bytes.now ≡ bulk_text word ++ rest
        → (result.0.now ≡ word) × (result.1.now ≡ rest) }
{
    let (len, behind) = number_at(bytes);
    let len = len as usize;
    if behind.len() < len {
        return (behind, behind);
    }
    let (word, behind) = behind.split_at(len);
    (word, behind_end(behind))
}

// The request whose text this is.
pub(crate) fn words_of(alloc: Global, text: &[u8]) -> Result<Request, NoMemory>
    requires { IsRequestText text.now }
    ensures { IfOk result (λ r. IsRequest r × (text.now ≡ request_text r)) }
{
    let (count, rest) = number_at(text);
    let mut request = Request::with_room(alloc, count as usize, text.len())?;
    let mut rest = rest;
    for _ in 0..count {
        let (word, behind) = word_at(rest);
        request.push(word)?;
        rest = behind;
    }
    Ok(request)
}
