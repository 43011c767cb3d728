//! Fields of numbers and texts: the tests that they pass, the values that they have, and how a reply shows them.

use crate::samples::{fields, name};
use crate::tables::{Answers, are_answered, yes_or_no};
use byte_text::{Name, Text, read_i64};
use object_match::{has_value, passes, show_value};
use std::alloc::Global;
use std::test::Fail;
use world_data::{Fields, Test, Tests, Value, Values};

// In each line a call over the fields `age` 7 and `state` idle: tests that are passed or not (a range of a field, with a
// dash where it has no bound, a text, or values; a stroke between two tests), whether a field has a value, or what a
// reply shows of it.
const ANSWERS: &str = "
    range age 7 9 => yes
    range age 8 9 => no
    range age - 7 => yes
    range age - 6 => no
    range age 7 - => yes
    range age 8 - => no
    range age - - => yes
    range state - - => no
    range none 0 0 => yes
    range none 1 - => no
    same state idle => yes
    same state Idle => no
    same state busy => no
    same age 7 => no
    same none 0 => no
    among age 1 7 => yes
    among age 1 07 => no
    among age 1 idle => no
    among state 3 idle => yes
    among state 3 busy => no
    among none idle 0 => yes
    among none idle 1 => no
    range age 7 9|same state idle => yes
    range age 7 9|same state busy => no
    among age 1 2|same state idle => no
    has age 7 => yes
    has age 8 => no
    has age 07 => no
    has state idle => yes
    has state busy => no
    has state 0 => no
    has none 0 => yes
    has none idle => no
    show age => 7
    show state => idle
    show none => 0
    ";

fn two_fields(alloc: Global) -> Result<Fields, Fail> {
    let given: [(&[u8], &[u8]); 2] = [(b"age", b"7"), (b"state", b"idle")];
    fields(alloc, given.as_slice())
}

// A bound, or none.
fn bound(word: &str) -> Result<Option<i64>, Fail> {
    match word {
        "-" => Ok(None),
        _ => Ok(Some(read_i64(word.as_bytes())?)),
    }
}

fn range(called: Name, words: &str) -> Result<Test, Fail> {
    let (low, high) = words.split_once(' ').ok_or("two bounds")?;
    Ok(Test::Range(called, bound(low)?, bound(high)?))
}

fn among(alloc: Global, called: Name, words: &str) -> Result<Test, Fail> {
    let mut values = Values::new(alloc);
    for word in words.split(' ') {
        let value = Value::of(name(alloc, word.as_bytes())?);
        if values.push(value).is_err() {
            return Err(Fail::from("no memory"));
        }
    }
    Ok(Test::Among(called, values))
}

// The test of these words.
fn test(alloc: Global, words: &str) -> Result<Test, Fail> {
    let (kind, behind) = words.split_once(' ').ok_or("a field")?;
    let (called, asked) = behind.split_once(' ').ok_or("a value")?;
    let called = name(alloc, called.as_bytes())?;
    match kind {
        "range" => range(called, asked),
        "same" => Ok(Test::Same(called, name(alloc, asked.as_bytes())?)),
        _ => among(alloc, called, asked),
    }
}

// Whether the fields pass all tests of these words.
fn tested(alloc: Global, words: &str) -> Result<Text, Fail> {
    let mut tests = Tests::new(alloc);
    for one in words.split('|') {
        if tests.push(test(alloc, one)?).is_err() {
            return Err(Fail::from("no memory"));
        }
    }
    yes_or_no(alloc, passes(&tests, &two_fields(alloc)?))
}

// Whether the field has the value.
fn had(alloc: Global, words: &str) -> Result<Text, Fail> {
    let (called, word) = words.split_once(' ').ok_or("a value")?;
    let value = Value::of(name(alloc, word.as_bytes())?);
    let called = name(alloc, called.as_bytes())?;
    yes_or_no(alloc, has_value(&two_fields(alloc)?, &called, &value))
}

// What is shown of the field.
fn shown(alloc: Global, called: &str) -> Result<Text, Fail> {
    let mut text = Text::new(alloc);
    let called = name(alloc, called.as_bytes())?;
    show_value(&two_fields(alloc)?, &called, &mut text)?;
    Ok(text)
}

struct OfFields;

impl Answers for OfFields {
    fn answer(alloc: Global, case: &str) -> Result<Text, Fail> {
        match case.split_once(' ') {
            Some(("has", words)) => had(alloc, words),
            Some(("show", called)) => shown(alloc, called),
            _ => tested(alloc, case),
        }
    }
}

#[test]
fn fields_are_filtered(rt: HostRuntime) -> Result<(), Fail> {
    are_answered::<OfFields>(&rt, rt.alloc(), ANSWERS)
}
