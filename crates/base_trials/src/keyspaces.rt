//! Objects of two keys that are put, found and taken out.

use crate::samples::{name, object};
use crate::tables::{Answers, are_answered};
use byte_text::{Name, Text, push_u64};
use keyspace::*;
use rtree::{NoLedger, Steps, Visits};
use std::alloc::Global;
use std::test::Fail;
use world_data::Object;

// In each line letters of changes: objects that are put, `8` and `9` to take out what is due then first, `-` to take out `a`, `g` to give
// up the depot, `d` to drop the fleet, `!` to clear all. Behind them whether an object stood there or was taken out by the last one, each
// key with the number of its objects, of how many objects in all and the least deadline (0 for none), how many the fleet has, and whether
// `a` is there and stays.
const ANSWERS: &str = "
    b => no fleet1 1 7 1 no
    ba => no fleet2 2 7 2 yes
    bac => no depot1fleet2 3 7 2 yes
    bacB => yes depot1fleet2 3 9 2 yes
    Bac8 => no depot1fleet2 3 9 2 yes
    Bac89 => yes depot0fleet2 2 9 2 yes
    Bac89g => no fleet2 2 9 2 yes
    Bac89g- => yes fleet1 1 9 1 no
    Bac89g-d => no  0 0 0 no
    Bac89g-da => no fleet1 1 0 1 yes
    Bac89g-da! => no  0 0 0 no
    ";

// The object that a letter puts.
fn object_of(alloc: Global, letter: u8) -> Result<Object, Fail> {
    let (key, id, deadline): (&[u8], &[u8], Option<u64>) = match letter {
        b'a' => (b"fleet", b"a", None),
        b'b' => (b"fleet", b"b", Some(7)),
        b'B' => (b"fleet", b"b", Some(9)),
        _ => (b"depot", b"c", Some(9)),
    };
    let mut object = object(alloc, key, id, 1, 2)?;
    object.deadline = deadline;
    Ok(object)
}

// Puts an object, and says whether one stood there.
fn put(all: &mut Keyspace, object: Object) -> Result<bool, Fail> {
    all.prepare(&object.key)?;
    if all.len() > 9 {
        return Err(Fail::from("ten objects"));
    }
    Ok(all.put(object, &mut Steps::new(NoLedger)).is_some())
}

// Takes out the one that expires first, and says whether one was due and is of the depot.
fn take_due(all: &mut Keyspace, now: u64) -> bool {
    match all.take_due(now, &mut Steps::new(NoLedger)) {
        Some(object) => object.key.bytes() == b"depot".as_slice(),
        None => false,
    }
}

// Takes out `a`, and says whether it was there and nodes were visited for it.
fn take_out(all: &mut Keyspace, fleet: &Name, a: &Name) -> bool {
    let mut steps = Steps::new(Visits::new());
    all.take_out(fleet, a, &mut steps).is_some() && steps.ledger().count() > 0
}

// Gives up the depot, or takes out the fleet, of it `a`, or all.
fn take_keys(alloc: Global, all: &mut Keyspace, letter: u8) -> Result<bool, Fail> {
    let fleet = name(alloc, b"fleet")?;
    match letter {
        b'-' => return Ok(take_out(all, &fleet, &name(alloc, b"a")?)),
        b'g' => all.give_up(&name(alloc, b"depot")?),
        b'd' => all.drop_key(&fleet),
        _ => all.clear(),
    }
    Ok(false)
}

// Does what a letter stands for, and says whether an object stood there or was taken out.
fn step(alloc: Global, all: &mut Keyspace, letter: u8) -> Result<bool, Fail> {
    match letter {
        b'8' => Ok(take_due(all, 8)),
        b'9' => Ok(take_due(all, 9)),
        b'-' | b'g' | b'd' | b'!' => take_keys(alloc, all, letter),
        _ => put(all, object_of(alloc, letter)?),
    }
}

// How many objects the fleet has, 0 also where it is not there.
fn fleet_of(all: &Keyspace, fleet: &Name) -> usize {
    match all.collection(fleet) {
        Some(trucks) => trucks.len(),
        None => 0,
    }
}

// Appends each key, in order, with the number of its objects.
fn push_keys(text: &mut Text, all: &Keyspace) -> Result<(), Fail> {
    for i in 0..all.keys() {
        text.push(all.key(i).bytes())?;
        push_u64(text, all.count(i) as u64)?;
    }
    Ok(())
}

fn told(alloc: Global, all: &Keyspace, answer: bool) -> Result<Text, Fail> {
    let (fleet, a) = (name(alloc, b"fleet")?, name(alloc, b"a")?);
    let mut text = Text::of(alloc, if answer { b"yes " } else { b"no " })?;
    push_keys(&mut text, all)?;
    let numbers = [
        all.len() as u64,
        all.least_due().unwrap_or(0),
        fleet_of(all, &fleet) as u64,
    ];
    for number in numbers {
        text.push(b" ")?;
        push_u64(&mut text, number)?;
    }
    let found = matches!(all.get(&fleet, &a), Some(object) if object.deadline == None);
    let stays = found && all.recall(&fleet, &a).is_some();
    text.push(if stays { b" yes" } else { b" no" })?;
    Ok(text)
}

// Does what these letters stand for, and tells what is there.
fn told_after(alloc: Global, all: &mut Keyspace, letters: &str) -> Result<Text, Fail> {
    let mut answer = false;
    for letter in letters.bytes() {
        answer = step(alloc, all, letter)?;
    }
    told(alloc, all, answer)
}

struct Letters;

impl Answers for Letters {
    fn answer(alloc: Global, case: &str) -> Result<Text, Fail> {
        told_after(alloc, &mut Keyspace::new(alloc), case)
    }
}

#[test]
fn keyspaces(rt: HostRuntime) -> Result<(), Fail> {
    are_answered::<Letters>(&rt, rt.alloc(), ANSWERS)
}
