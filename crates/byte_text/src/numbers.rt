//! Canonical numbers, written and read: a number has one text.
//!
//! Each number has one text: no leading zero, no `+`, no `-0`. So reading and writing are exact both ways.

ghost use Rattle.std.specs.Prelude.{◌≡◌, ◌≢◌, ℕ, ℤ, pos, List, ◌++◌, ◌∷◌, [], ◌^◌, ◌<◌, ◌≤◌, decimal, OnOk, OnErr};
ghost use Rattle.std.specs.Prelude.{IfOk, Ok, IfSome, IsSome, Some, negsuc, suc};
ghost use Rattle.std.specs.Fmt.{signed_decimal};
ghost use Rattle.byte_text.specs.Numbers.{read_natural, read_whole};
ghost use mir.Syntax.{w64};
ghost use mir.Val.{SFits as FitsSigned};

use crate::texts::{Text, TextFault};
use itoa::{Buffer, Integer};
use memory::NoMemory;

/// Appends the text of a number. At want of memory the text is as before.
pub(crate) fn push_number<I: Integer>(into: &mut Text, n: I) -> Result<(), NoMemory>
    ensures ok { OnOk result (into.new ≡ into.old ++ I.text n) }
    ensures err { OnErr result (into.new ≡ into.old) }
{
    let mut buffer = Buffer::new();
    into.push(buffer.format(n).as_bytes())
}

/// Appends the canonical text of a number. At want of memory the text is as before.
pub fn push_i64(into: &mut Text, n: i64) -> Result<(), NoMemory>
    ensures ok { OnOk result (into.new ≡ into.old ++ signed_decimal n) }
    ensures err { OnErr result (into.new ≡ into.old) }
{
    push_number(into, n)
}

/// Appends the canonical text of a number. At want of memory the text is as before.
pub fn push_u64(into: &mut Text, n: u64) -> Result<(), NoMemory>
    ensures ok { OnOk result (into.new ≡ into.old ++ decimal n) }
    ensures err { OnErr result (into.new ≡ into.old) }
{
    push_number(into, n)
}

// The number that one more digit makes.
fn with_digit(n: u64, byte: u8) -> Option<u64>
    requires { 0 < n }
    ensures made { IfSome result (λ m. (0 < m) × (decimal m ≡ decimal n ++ byte ∷ [])) }
    ensures only { (m : ℕ) (rest : List ℕ) → m < 2 ^ 64 → decimal m ≡ decimal n ++ byte ∷ rest → IsSome result }
{
    if byte < b'0' || byte > b'9' {
        return None;
    }
    let digit = (byte - b'0') as u64;
    if n > u64::MAX / 10 || digit > u64::MAX - 10 * n {
        return None;
    }
    Some(10 * n + digit)
}

// The number whose text is that of another and these digits.
fn with_digits(n: u64, digits: &[u8]) -> Option<u64>
    requires { 0 < n }
    ensures made { IfSome result (λ m. decimal m ≡ decimal n ++ digits.now) }
    ensures only { (m : ℕ) → m < 2 ^ 64 → decimal m ≡ decimal n ++ digits.now → result ≡ Some m }
{
    let mut longer = n;
    for at in 0..digits.len() {
        match with_digit(longer, digits[at]) {
            Some(next) => longer = next,
            None => return None,
        }
    }
    Some(longer)
}

// The natural number whose text is this byte and these digits.
fn natural_from(first: u8, digits: &[u8]) -> Option<u64>
    ensures made { IfSome result (λ n. first ∷ digits.now ≡ decimal n) }
    ensures only { (n : ℕ) → n < 2 ^ 64 → first ∷ digits.now ≡ decimal n → result ≡ Some n }
{
    if first < b'0' || first > b'9' {
        return None;
    }
    if first > b'0' {
        return with_digits((first - b'0') as u64, digits);
    }
    if digits.len() > 0 { None } else { Some(0) }
}

// The natural number of which the bytes are the canonical text.
fn natural(bytes: &[u8]) -> Option<u64>
    ensures made { IfSome result (λ n. bytes.now ≡ decimal n) }
    ensures only { (n : ℕ) → n < 2 ^ 64 → bytes.now ≡ decimal n → result ≡ Some n }
{
    match bytes {
        [] => None,
        [first, digits @ ..] => natural_from(*first, digits),
    }
}

/// The number of which the bytes are the canonical text: digits without a leading zero but `0` itself. Every other text
/// is NotNumber.
pub fn read_u64(bytes: &[u8]) -> Result<u64, TextFault>
    ensures reads { result ≡ read_natural bytes.now }
    ensures text { IfOk result (λ n. bytes.now ≡ decimal n) }
    ensures exact { (n : ℕ) → n < 2 ^ 64 → bytes.now ≡ decimal n → result ≡ Ok n }
{
    match natural(bytes) {
        Some(n) => Ok(n),
        None => Err(TextFault::NotNumber),
    }
}

// The number below zero of this magnitude.
fn negative(magnitude: u64) -> Option<i64>
    ensures made { IfSome result (λ z. signed_decimal z ≡ 45 ∷ decimal magnitude) }
    ensures only { (k : ℕ) → k < 2 ^ 63 → magnitude ≡ suc k → result ≡ Some (negsuc k) }
{
    if magnitude > 0 && magnitude <= 1 << 63 {
        Some(-1 - ((magnitude - 1) as i64))
    } else {
        None
    }
}

// The number of this magnitude.
fn positive(magnitude: u64) -> Option<i64>
    ensures made { IfSome result (λ z. z ≡ pos magnitude) }
    ensures only { (n : ℕ) → n < 2 ^ 63 → magnitude ≡ n → result ≡ Some (pos n) }
{
    if magnitude < 1 << 63 {
        Some(magnitude as i64)
    } else {
        None
    }
}

// The whole number whose text is this byte and these.
fn whole_from(first: u8, digits: &[u8]) -> Option<i64>
    ensures made { IfSome result (λ z. first ∷ digits.now ≡ signed_decimal z) }
    ensures only { (z : ℤ) → FitsSigned w64 z → first ∷ digits.now ≡ signed_decimal z → result ≡ Some z }
{
    if first == b'-' {
        match natural(digits) {
            Some(magnitude) => negative(magnitude),
            None => None,
        }
    } else {
        match natural_from(first, digits) {
            Some(magnitude) => positive(magnitude),
            None => None,
        }
    }
}

// The whole number of which the bytes are the canonical text.
fn whole(bytes: &[u8]) -> Option<i64>
    ensures made { IfSome result (λ z. bytes.now ≡ signed_decimal z) }
    ensures only { (z : ℤ) → FitsSigned w64 z → bytes.now ≡ signed_decimal z → result ≡ Some z }
{
    match bytes {
        [] => None,
        [first, digits @ ..] => whole_from(*first, digits),
    }
}

/// The number of which the bytes are the canonical text: digits without a leading zero but `0` itself, with a `-`
/// before them where it is negative. Every other text is NotNumber.
pub fn read_i64(bytes: &[u8]) -> Result<i64, TextFault>
    ensures reads { result ≡ read_whole bytes.now }
    ensures text { IfOk result (λ z. bytes.now ≡ signed_decimal z) }
    ensures exact { (z : ℤ) → FitsSigned w64 z → bytes.now ≡ signed_decimal z → result ≡ Ok z }
{
    match whole(bytes) {
        Some(z) => Ok(z),
        None => Err(TextFault::NotNumber),
    }
}
