//! Texts, numbers and frames from outside, and each call with ample memory.

ghost use Rattle.std.specs.Prelude.{◌≡◌, ◌++◌, ◌∷◌, [], IfOk, OnOk};
ghost use Rattle.byte_text.specs.Replies.{IsFrame};

use crate::tables::{Answers, are_answered, yes_or_no};
use byte_text::*;
use std::alloc::Global;
use std::collections::HashMap;
use std::test::Fail;

// Of bytes that are no name, why not; of others, how many there are.
fn length_or_fault(alloc: Global, bytes: &[u8]) -> (usize, &'static str) {
    match Name::of(alloc, bytes) {
        Ok(name) => (name.bytes().len(), ""),
        Err(NameFault::Refused(TextFault::Empty)) => (0, "empty"),
        Err(NameFault::Refused(TextFault::TooLong)) => (0, "too long"),
        Err(NameFault::Refused(TextFault::NotUtf8)) => (0, "not UTF-8"),
        Err(_) => (0, "another"),
    }
}

#[test]
fn bytes_that_are_names_or_not(rt: HostRuntime) {
    let alloc = rt.alloc();
    assert_eq!(rt; length_or_fault(alloc, b""), (0, "empty"));
    assert_eq!(rt; length_or_fault(alloc, &[b'a'; 255]), (255, ""));
    assert_eq!(rt; length_or_fault(alloc, &[b'a'; 256]), (0, "too long"));
    assert_eq!(rt; length_or_fault(alloc, b"\xFF"), (0, "not UTF-8"));
}

// Two names in their order, a table that has one name and is asked for another, and texts of whole numbers.
const WORDS: &str = "
    before v1 v10 => yes
    before truck01z truck02a => yes
    before truck0000019 truck0000020 => yes
    found v1 v1 => yes
    found v1 v10 => no
    whole -9223372036854775808 => -9223372036854775808
    whole 0 => 0
    whole  => no number
    whole - => no number
    whole -0 => no number
    whole +5 => no number
    whole 007 => no number
    whole  1 => no number
    whole 1.0 => no number
    whole 9223372036854775808 => no number
    natural 18446744073709551615 => 18446744073709551615
    natural  => no number
    natural -1 => no number
    natural 00 => no number
    natural 18446744073709551616 => no number
    natural 1e3 => no number
    ";

// Whether one name comes before another that it does not equal.
fn is_before(one: &Name, other: &Name) -> bool {
    *one < *other && *one != *other
}

// Whether a table that has one name alone has a copy of another, which is to be where they are equal.
fn is_found(alloc: Global, one: Name, other: &Name) -> Result<bool, Fail> {
    let copy = other.copy(alloc)?;
    let is_same = one == copy && one.bytes() == copy.bytes();
    let mut table = HashMap::new(alloc);
    table.insert(one, 7u8)?;
    Ok(is_same && table.get(&copy) == Some(&7))
}

// Two names, compared or looked up.
fn of_names(alloc: Global, question: &str, one: &str, other: &str) -> Result<Text, Fail> {
    let one = Name::of(alloc, one.as_bytes())?;
    let other = Name::of(alloc, other.as_bytes())?;
    if question == "found" {
        yes_or_no(alloc, is_found(alloc, one, &other)?)
    } else {
        yes_or_no(alloc, is_before(&one, &other))
    }
}

// The number of a word, written again.
fn of_number(alloc: Global, question: &str, word: &[u8]) -> Result<Text, Fail> {
    let mut text = Text::new(alloc);
    if question == "whole" {
        match read_i64(word) {
            Ok(number) => push_i64(&mut text, number)?,
            Err(_) => text.push(b"no number")?,
        }
    } else {
        match read_u64(word) {
            Ok(number) => push_u64(&mut text, number)?,
            Err(_) => text.push(b"no number")?,
        }
    }
    Ok(text)
}

struct Words;

impl Answers for Words {
    fn answer(alloc: Global, case: &str) -> Result<Text, Fail> {
        let (question, words) = case.split_once(' ').ok_or("a question")?;
        if question == "whole" || question == "natural" {
            return of_number(alloc, question, words.as_bytes());
        }
        let (one, other) = words.split_once(' ').ok_or("two names")?;
        of_names(alloc, question, one, other)
    }
}

#[test]
fn names_and_numbers(rt: HostRuntime) -> Result<(), Fail> {
    are_answered::<Words>(&rt, rt.alloc(), WORDS)
}

// What is written behind `a`, whose copy stays as it is: numbers, a string as JSON has it, and pieces of a request.
fn written(alloc: Global) -> Result<(Text, Text), Fail> {
    let mut text = Text::with_room(alloc, 2)?;
    text.push(b"a")?;
    let before = text.copy()?;
    push_i64(&mut text, -12)?;
    push_u64(&mut text, 7)?;
    push_json(&mut text, b"a\"\\\x08\t\n\x0C\r\x01\x1F\x7F/\xCE\xA9")?;
    push_array_head(&mut text, 2)?;
    push_bulk(&mut text, b"hello")?;
    push_bulk(&mut text, b"")?;
    Ok((before, text))
}

#[test]
fn texts(rt: HostRuntime) -> Result<(), Fail> {
    let (before, text) = written(rt.alloc())?;
    assert_eq!(rt; before.bytes(), b"a".as_slice());
    assert_eq!(rt;
        text.bytes(),
        b"a-127\"a\\\"\\\\\\b\\t\\n\\f\\r\\u0001\\u001f\x7F/\xCE\xA9\"*2\r\n$5\r\nhello\r\n$0\r\n\r\n".as_slice()
    );
    Ok(())
}

// The request of the words `` and `key`: how many words it has, each of them as a bulk string, and the request.
fn requested(alloc: Global) -> Result<(usize, Text), Fail> {
    let mut request = Request::with_room(alloc, 2, 1)?;
    request.push(b"")?;
    request.push(b"key")?;
    let mut text = Text::new(alloc);
    push_bulk(&mut text, request.word(0))?;
    push_bulk(&mut text, request.word(1))?;
    push_request(&mut text, &request)?;
    Ok((request.words(), text))
}

#[test]
fn requests(rt: HostRuntime) -> Result<(), Fail> {
    let alloc = rt.alloc();
    assert_eq!(rt; Request::new(alloc).words(), 0);
    let (words, text) = requested(alloc)?;
    assert_eq!(rt; words, 2);
    assert_eq!(rt;
        text.bytes(),
        b"$0\r\n\r\n$3\r\nkey\r\n*2\r\n$0\r\n\r\n$3\r\nkey\r\n".as_slice()
    );
    Ok(())
}

fn put(reply: &mut Reply, piece: Piece) -> Result<(), Fail>
    ensures ok { OnOk result (reply.new ≡ reply.old ++ piece ∷ []) }
{
    match reply.push(piece) {
        Ok(()) => Ok(()),
        Err(_) => Err(Fail::from("no memory")),
    }
}

// An array of every other kind of piece.
fn every_piece(alloc: Global) -> Result<Reply, Fail>
    ensures { IfOk result (λ r. IsFrame r) }
{
    let mut reply = Reply::new(alloc);
    put(&mut reply, Piece::List(6))?;
    put(&mut reply, Piece::Status(Text::of(alloc, b"OK")?))?;
    put(&mut reply, Piece::Fault(Text::of(alloc, b"ERR x")?))?;
    put(&mut reply, Piece::Number(-12))?;
    put(&mut reply, Piece::Bulk(Text::of(alloc, b"a\r\nb")?))?;
    put(&mut reply, Piece::NoBulk)?;
    put(&mut reply, Piece::NoList)?;
    Ok(reply)
}

#[test]
fn replies(rt: HostRuntime) -> Result<(), Fail> {
    let mut reply = every_piece(rt.alloc())?;
    assert_eq!(rt; reply.len(), 7);
    assert!(rt; matches!(reply.at(6), Piece::NoList));
    let mut text = Text::new(rt.alloc());
    push_frame(&mut text, &reply)?;
    assert_eq!(rt;
        text.bytes(),
        b"*6\r\n+OK\r\n-ERR x\r\n:-12\r\n$4\r\na\r\nb\r\n$-1\r\n*-1\r\n".as_slice()
    );
    Ok(())
}
