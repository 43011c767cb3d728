//! The kinds of word that stand in commands, each read from one word.

ghost use Rattle.std.specs.Prelude.{◌≡◌, ◌==◌, ◌≤◌, ◌≤ℤ◌, pos, length, IfOk, None};
ghost use Rattle.std.specs.List.{list_all, position_or_len};
ghost use Rattle.world_model.specs.Grammar.{a_word, a_coordinate, a_geojson};
ghost use Rattle.world_data.specs.Filters.{number_in};
ghost use Rattle.world_data.specs.Limits.{max_coord, max_meters};
ghost use Rattle.byte_text.specs.Numbers.{natural_within};
ghost use Rattle.byte_text.specs.Streams.{is_digit as is_decimal_digit};
ghost use Rattle.world_model.specs.Kinds.{is_endless as is_endless_bound, bound_of, value_of_word};
ghost use Rattle.world_model.specs.Commands.{is_fraction as is_decimal_fraction, are_digits as are_decimal_digits};
ghost use Rattle.world_model.specs.Commands.{without_minus as without_sign};
ghost use Rattle.cmd_words.specs.Progress.{IsOne, IsFault, due_fault, name_of, glob_of};
ghost use Rattle.cmd_words.specs.Sets.{coordinate_of, object_of};

use crate::faults::{CommandFault, fraction, invalid, text};
use byte_text::{Name, NameFault, Text, read_i64, read_u64};
use geojson_model::{ShapeFault, shape_of};
use glob_match::well_formed;
use planar_geom::{MAX_COORD, Shape};
use std::alloc::Global;
use world_data::MAX_METERS;
use world_model::{Value, WordFault};

/// The name that the word is.
pub(crate) fn read_name(alloc: Global, word: &[u8]) -> Result<Name, CommandFault>
    ensures { IsOne a_word name_of word.now result }
{
    match Name::of(alloc, word) {
        Ok(name) => Ok(name),
        Err(NameFault::Refused(_)) => Err(invalid(alloc, word)),
        Err(NameFault::Memory) => Err(CommandFault::Memory),
    }
}

/// The pattern that the word is: a name that is well formed as one.
pub(crate) fn read_glob(alloc: Global, word: &[u8]) -> Result<Name, CommandFault>
    ensures { IsOne a_word glob_of word.now result }
{
    if well_formed(word) {
        read_name(alloc, word)
    } else {
        Err(invalid(alloc, word))
    }
}

/// The value of a field that the word is: a number, or any other name as a text. Only a text takes memory.
pub(crate) fn read_value(alloc: Global, word: &[u8]) -> Result<Value, CommandFault>
    ensures { IsOne a_word value_of_word word.now result }
{
    match read_i64(word) {
        Ok(number) => Ok(Value::Whole(number)),
        Err(_) => read_text(alloc, word),
    }
}

// The text that the word is, which writes no number.
fn read_text(alloc: Global, word: &[u8]) -> Result<Value, CommandFault>
    requires { number_in word.now ≡ None }
    ensures { IsOne a_word value_of_word word.now result }
{
    match read_name(alloc, word) {
        Ok(text) => Ok(Value::Word(text)),
        Err(why) => Err(why),
    }
}

/// The number from `least` to `most` that the word is.
pub(crate) fn read_between(
    alloc: Global,
    word: &[u8],
    least: u32,
    most: u32,
) -> Result<u32, CommandFault>
    ensures { IsOne a_word (natural_within least most) word.now result }
{
    match read_u64(word) {
        Ok(n) => {
            if n < least as u64 {
                Err(invalid(alloc, word))
            } else if n > most as u64 {
                Err(invalid(alloc, word))
            } else {
                Ok(n as u32)
            }
        }
        Err(_) => Err(invalid(alloc, word)),
    }
}

/// The meters that the word is.
pub(crate) fn read_meters(alloc: Global, word: &[u8]) -> Result<u32, CommandFault>
    ensures { IsOne a_word (natural_within 0 max_meters) word.now result }
{
    read_between(alloc, word, 0, MAX_METERS)
}

/// The bound of a range that the word is: none where it is endless.
pub(crate) fn read_bound(alloc: Global, word: &[u8]) -> Result<Option<i64>, CommandFault>
    ensures { IsOne a_word bound_of word.now result }
{
    match bound_in(word) {
        Some(bound) => Ok(bound),
        None => Err(invalid(alloc, word)),
    }
}

/// The bound of a range that the word is, if it is one: none where it is endless.
pub(crate) fn bound_in(word: &[u8]) -> Option<Option<i64>>
    ensures { result ≡ bound_of word.now }
{
    if is_endless(word) {
        return Some(None);
    }
    match read_i64(word) {
        Ok(n) => Some(Some(n)),
        Err(_) => None,
    }
}

// Whether the word is the endless bound of a range.
fn is_endless(word: &[u8]) -> bool
    ensures { result ≡ is_endless_bound word.now }
{
    word == b"-inf".as_slice() || word == b"+inf".as_slice() || word == b"inf".as_slice()
}

/// The coordinate of at least `low` that the word is.
pub(crate) fn read_coordinate(alloc: Global, word: &[u8], low: i64) -> Result<i64, CommandFault>
    ensures one { IsOne a_coordinate (coordinate_of low) word.now result }
    ensures least { IfOk result (λ z. low ≤ℤ z) }
    ensures greatest { IfOk result (λ z. z ≤ℤ pos max_coord) }
{
    match read_i64(word) {
        Ok(n) => {
            if n < low {
                Err(no_coordinate(alloc, word))
            } else if n > MAX_COORD {
                Err(no_coordinate(alloc, word))
            } else {
                Ok(n)
            }
        }
        Err(_) => Err(no_coordinate(alloc, word)),
    }
}

// The word is no coordinate that may stand here.
fn no_coordinate(alloc: Global, word: &[u8]) -> CommandFault
    ensures { IsFault (due_fault a_coordinate word.now) result }
{
    if is_fraction(word) {
        fraction(alloc, word)
    } else {
        invalid(alloc, word)
    }
}

// Whether the word is a number with a fraction: an optional `-`, digits, `.`, digits.
fn is_fraction(word: &[u8]) -> bool
    ensures { result ≡ is_decimal_fraction word.now }
{
    let digits = without_minus(word);
    let point = point_of(digits);
    point < digits.len() && are_digits(&digits[..point]) && are_digits(&digits[point + 1..])
}

// The word without the `-` that it may begin with.
fn without_minus(word: &[u8]) -> &[u8]
    ensures { result.now ≡ without_sign word.now }
{
    if !word.is_empty() && word[0] == b'-' {
        &word[1..]
    } else {
        word
    }
}

// The place of the first point, or the number of bytes where there is none.
fn point_of(bytes: &[u8]) -> usize
    ensures place { result ≡ position_or_len (λ b. b == 46) bytes.now }
    ensures within { result ≤ length bytes.now }
{
    for at in 0..bytes.len() {
        if bytes[at] == b'.' {
            return at;
        }
    }
    bytes.len()
}

// Whether there are bytes, and each is a decimal digit.
fn are_digits(bytes: &[u8]) -> bool
    ensures { result ≡ are_decimal_digits bytes.now }
{
    bytes.len() > 0 && all_digits(bytes)
}

// Whether each byte is a decimal digit.
fn all_digits(bytes: &[u8]) -> bool
    ensures { result ≡ list_all is_decimal_digit bytes.now }
{
    bytes.iter().all(|byte| is_digit(*byte))
}

fn is_digit(byte: u8) -> bool
    ensures { result ≡ is_decimal_digit byte }
{
    b'0' <= byte && byte <= b'9'
}

/// The GeoJSON text that the word is, and its shape.
pub(crate) fn read_geojson(alloc: Global, word: &[u8]) -> Result<(Text, Shape), CommandFault>
    ensures { IsOne a_geojson object_of word.now result }
{
    match shape_of(alloc, word) {
        Ok(shape) => match text(alloc, word) {
            Ok(text) => Ok((text, shape)),
            Err(want) => Err(want),
        },
        Err(ShapeFault::Memory) => Err(CommandFault::Memory),
        Err(ShapeFault::Refused(fault)) => Err(CommandFault::Refused(WordFault::Geo(fault))),
    }
}
