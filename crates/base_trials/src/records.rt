//! Records, read as changes and written again.

use crate::samples::{name, request};
use crate::tables::{Answers, are_answered};
use byte_text::{Request, Text, push_request, push_u64};
use log_sides::NEWEST;
use record_reader::{RecordFault, change_of};
use record_writer::push_record;
use std::alloc::Global;
use std::test::Fail;
use world_data::{Change, Object};

// In each line the words of a record, and the kind of the change that they are read as in each version, where it is
// written again as it was read; or that they are no record. A stroke stands for a word without letters.
const RECORDS: &str = r#"
    SET k a OBJECT {"type":"Point","coordinates":[2,1]} => put with 0
    SET k a FIELD b -5 FIELD c 7 AT 1000 OBJECT {"type":"Point","coordinates":[2,1]} => put with 2 until 1000
    SET k FIELD FIELD AT -9223372036854775808 FIELD OBJECT 9223372036854775807 AT 18446744073709551615 OBJECT {"type":"Point","coordinates":[2,1]} => put with 2 until 18446744073709551615
    DEL k a => del
    DROP k => drop
    FLUSHDB => flush
    SETCHAN f WITHIN k FENCE DETECT enter,exit BOUNDS 0 0 5 5 => setting
    SETCHAN f INTERSECTS k MATCH a* WHERE b -inf 5 WHEREIN c 2 1 -1 FENCE COMMANDS set,del OBJECT {"type":"Point","coordinates":[2,1]} => setting
    SETCHAN f NEARBY k FENCE POINT 1 2 300 => setting
    SETCHAN f NEARBY k FENCE NODWELL ROAM k * 300 => setting
    SETCHAN AT WITHIN k FENCE BOUNDS 0 0 5 5 => setting
    DELCHAN f => end of a channel
    PING => no record
    AOFSHRINK => no record
    GET k a => no record
    set k a OBJECT {"type":"Point","coordinates":[2,1]} => no record
    SET k a object {"type":"Point","coordinates":[2,1]} => no record
    SET k a POINT 1 2 => no record
    SET k a OBJECT => no record
    SET k a OBJECT {} => no record
    SET k a OBJECT {"type":"Point","coordinates":[2,1]} x => no record
    SET k OBJECT {"type":"Point","coordinates":[2,1]} => no record
    SET k a FIELD c 7 FIELD b 5 OBJECT {"type":"Point","coordinates":[2,1]} => no record
    SET k a FIELD b 7 FIELD b 5 OBJECT {"type":"Point","coordinates":[2,1]} => no record
    SET k a FIELD b 0 OBJECT {"type":"Point","coordinates":[2,1]} => no record
    SET k a FIELD b | OBJECT {"type":"Point","coordinates":[2,1]} => no record
    SET k a FIELD c idle FIELD b 5 OBJECT {"type":"Point","coordinates":[2,1]} => no record
    SET k a field b 7 OBJECT {"type":"Point","coordinates":[2,1]} => no record
    SET k a FIELD b => no record
    SET k a AT 01000 OBJECT {"type":"Point","coordinates":[2,1]} => no record
    SET k a AT -1 OBJECT {"type":"Point","coordinates":[2,1]} => no record
    SET k a AT 18446744073709551616 OBJECT {"type":"Point","coordinates":[2,1]} => no record
    SET k a AT 1000 FIELD b 7 OBJECT {"type":"Point","coordinates":[2,1]} => no record
    SET k a AT 1000 AT 1000 OBJECT {"type":"Point","coordinates":[2,1]} => no record
    SET k a EX 10 OBJECT {"type":"Point","coordinates":[2,1]} => no record
    del k a => no record
    DEL k => no record
    DEL k a b => no record
    DROP => no record
    DROP k a => no record
    FLUSHDB x => no record
    DELCHAN => no record
    DELCHAN f g => no record
    setchan f WITHIN k FENCE BOUNDS 0 0 5 5 => no record
    SETCHAN f within k FENCE BOUNDS 0 0 5 5 => no record
    SETCHAN f WITHIN k FENCE DETECT exit,enter BOUNDS 0 0 5 5 => no record
    SETCHAN f WITHIN k FENCE DETECT inside,outside,enter,exit,cross BOUNDS 0 0 5 5 => no record
    SETCHAN f WITHIN k FENCE MATCH a* BOUNDS 0 0 5 5 => no record
    SETCHAN f WITHIN k MATCH [ FENCE BOUNDS 0 0 5 5 => no record
    SETCHAN f WITHIN k WHERE b -inf inf FENCE BOUNDS 0 0 5 5 => no record
    SETCHAN f WITHIN k BOUNDS 0 0 5 5 => no record
    SETCHAN f WITHIN k FENCE GET k a => no record
    SETCHAN f WITHIN k WHERE s idle busy FENCE BOUNDS 0 0 5 5 => no record
    SETCHAN f WITHIN k WHERE s idle 5 FENCE BOUNDS 0 0 5 5 => no record
    SETCHAN f AT 05000 WITHIN k FENCE BOUNDS 0 0 5 5 => no record
    SETCHAN f AT -1 WITHIN k FENCE BOUNDS 0 0 5 5 => no record
    SETCHAN f AT 18446744073709551616 WITHIN k FENCE BOUNDS 0 0 5 5 => no record
    SETCHAN f at 5000 WITHIN k FENCE BOUNDS 0 0 5 5 => no record
    SETCHAN f AT 5000 AT 5000 WITHIN k FENCE BOUNDS 0 0 5 5 => no record
    SETCHAN f AT WITHIN k FENCE BOUNDS 0 0 5 5 => no record
    SETCHAN f WITHIN k AT 5000 FENCE BOUNDS 0 0 5 5 => no record
    SETCHAN AT 5000 WITHIN k FENCE BOUNDS 0 0 5 5 => no record
    SETCHAN f EX 5 WITHIN k FENCE BOUNDS 0 0 5 5 => no record
    SETCHAN f AT 5000 EX 5 WITHIN k FENCE BOUNDS 0 0 5 5 => no record
    SETCHAN f AT 5000 => no record
    SETCHAN f AT => no record
    SETCHAN f => no record
    | => no record
    DROP | => no record
    SET k | OBJECT {"type":"Point","coordinates":[2,1]} => no record
    "#;

// In each line a version and words, and what they are read as in a side of that version: a record of a later version is
// told from what is none.
const LATER: &str = r#"
    1 SET k a FIELD s idle OBJECT {"type":"Point","coordinates":[2,1]} => a later version
    2 SET k a FIELD s idle OBJECT {"type":"Point","coordinates":[2,1]} => put with 1
    3 SET k a FIELD s idle OBJECT {"type":"Point","coordinates":[2,1]} => put with 1
    1 SET k a FIELD b 5 FIELD s idle AT 1000 OBJECT {"type":"Point","coordinates":[2,1]} => a later version
    2 SET k a FIELD b 5 FIELD s idle AT 1000 OBJECT {"type":"Point","coordinates":[2,1]} => put with 2 until 1000
    1 SET k a FIELD b 07 OBJECT {"type":"Point","coordinates":[2,1]} => a later version
    2 SET k a FIELD b 07 OBJECT {"type":"Point","coordinates":[2,1]} => put with 1
    1 SET k a FIELD b 9223372036854775808 OBJECT {"type":"Point","coordinates":[2,1]} => a later version
    2 SET k a FIELD b 9223372036854775808 OBJECT {"type":"Point","coordinates":[2,1]} => put with 1
    3 SET k a FIELD b -0 OBJECT {"type":"Point","coordinates":[2,1]} => put with 1
    1 SETCHAN f WITHIN k WHERE s idle idle FENCE BOUNDS 0 0 5 5 => a later version
    2 SETCHAN f WITHIN k WHERE s idle idle FENCE BOUNDS 0 0 5 5 => setting
    3 SETCHAN f WITHIN k WHERE s idle idle FENCE BOUNDS 0 0 5 5 => setting
    1 SETCHAN f WITHIN k WHERE b 1 5 WHEREIN s 2 3 idle FENCE BOUNDS 0 0 5 5 => a later version
    2 SETCHAN f WITHIN k WHERE b 1 5 WHEREIN s 2 3 idle FENCE BOUNDS 0 0 5 5 => setting
    1 SETCHAN f AT 5000 WITHIN k FENCE BOUNDS 0 0 5 5 => a later version
    2 SETCHAN f AT 5000 WITHIN k FENCE BOUNDS 0 0 5 5 => a later version
    3 SETCHAN f AT 5000 WITHIN k FENCE BOUNDS 0 0 5 5 => setting until 5000
    2 SETCHAN f AT 0 NEARBY k FENCE NODWELL ROAM k * 300 => a later version
    3 SETCHAN f AT 0 NEARBY k FENCE NODWELL ROAM k * 300 => setting until 0
    3 SETCHAN AT AT 18446744073709551615 WITHIN k FENCE BOUNDS 0 0 5 5 => setting until 18446744073709551615
    2 SETCHAN f AT 5000 WITHIN k WHERE s idle idle FENCE BOUNDS 0 0 5 5 => a later version
    3 SETCHAN f AT 5000 WITHIN k WHERE s idle idle FENCE BOUNDS 0 0 5 5 => setting until 5000
    "#;

// The kind of a change.
fn kind_of(change: &Change) -> &'static str {
    match change {
        Change::Put(_) => "put",
        Change::Del(_, _) => "del",
        Change::Drop(_) => "drop",
        Change::Flush => "flush",
        Change::SetChan(_) => "setting",
        Change::DelChan(_) => "end of a channel",
    }
}

// A deadline, where there is one.
fn push_until(out: &mut Text, deadline: Option<u64>) -> Result<(), Fail> {
    if let Some(moment) = deadline {
        out.push(b" until ")?;
        push_u64(out, moment)?;
    }
    Ok(())
}

// How many fields a put has, and its deadline.
fn push_put(out: &mut Text, object: &Object) -> Result<(), Fail> {
    out.push(b" with ")?;
    push_u64(out, object.fields.len() as u64)?;
    push_until(out, object.deadline)
}

// Whether the record of the change is the text of the words.
fn is_written_again(alloc: Global, words: &Request, change: &Change) -> Result<bool, Fail> {
    if words.words() == 0 {
        return Ok(false);
    }
    let mut record = Text::new(alloc);
    push_record(&mut record, change)?;
    let mut sent = Text::new(alloc);
    push_request(&mut sent, words)?;
    Ok(record.bytes() == sent.bytes())
}

// What words are read as.
fn push_change(
    alloc: Global,
    out: &mut Text,
    words: &Request,
    change: &Change,
) -> Result<(), Fail> {
    if !is_written_again(alloc, words, change)? {
        return Ok(out.push(b"another record")?);
    }
    out.push(kind_of(change).as_bytes())?;
    match change {
        Change::Put(object) => push_put(out, object),
        Change::SetChan(channel) => push_until(out, channel.deadline),
        _ => Ok(()),
    }
}

// What words are read as in a version, or that they are no record, or one of a later version.
fn read(alloc: Global, words: &Request, version: u8) -> Result<Text, Fail> {
    let mut text = Text::new(alloc);
    match change_of(alloc, words, version) {
        Ok(change) => push_change(alloc, &mut text, words, &change)?,
        Err(RecordFault::NotRecord) => text.push(b"no record")?,
        Err(RecordFault::Version) => text.push(b"a later version")?,
        Err(RecordFault::Memory) => text.push(b"no memory")?,
    }
    Ok(text)
}

// What words are read as in each version, if that is the same.
fn read_in_each(alloc: Global, words: &Request) -> Result<Text, Fail> {
    let first = read(alloc, words, 1)?;
    for version in 2..=NEWEST {
        if read(alloc, words, version)?.bytes() != first.bytes() {
            return Ok(Text::of(alloc, b"another in a later version")?);
        }
    }
    Ok(first)
}

struct Words;

impl Answers for Words {
    fn answer(alloc: Global, case: &str) -> Result<Text, Fail> {
        read_in_each(alloc, &request(alloc, case)?)
    }
}

struct Versioned;

impl Answers for Versioned {
    fn answer(alloc: Global, case: &str) -> Result<Text, Fail> {
        match case.split_once(' ') {
            Some(("1", line)) => read(alloc, &request(alloc, line)?, 1),
            Some(("2", line)) => read(alloc, &request(alloc, line)?, 2),
            Some((_, line)) => read(alloc, &request(alloc, line)?, 3),
            None => Err(Fail::from("no version")),
        }
    }
}

#[test]
fn records_are_read(rt: HostRuntime) -> Result<(), Fail> {
    let alloc = rt.alloc();
    assert_eq!(rt;
        read_in_each(alloc, &Request::new(alloc))?.bytes(),
        b"no record".as_slice()
    );
    are_answered::<Words>(&rt, alloc, RECORDS)
}

#[test]
fn a_record_of_a_later_version_is_told(rt: HostRuntime) -> Result<(), Fail> {
    assert_eq!(rt; NEWEST, 3);
    are_answered::<Versioned>(&rt, rt.alloc(), LATER)
}

// The record of the drop of `k`, behind a text.
fn drop_record(alloc: Global) -> Result<Text, Fail> {
    let mut text = Text::of(alloc, b"x")?;
    push_record(&mut text, &Change::Drop(name(alloc, b"k")?))?;
    Ok(text)
}

#[test]
fn the_record_of_a_drop(rt: HostRuntime) -> Result<(), Fail> {
    let wanted = b"x*2\r\n$4\r\nDROP\r\n$1\r\nk\r\n";
    assert_eq!(rt; drop_record(rt.alloc())?.bytes(), wanted.as_slice());
    Ok(())
}
