//! Channels of a hub that are put, found and taken out, and those that are out while a call is made.

use crate::samples::{at, channel, name};
use crate::tables::{Answers, are_answered};
use byte_text::{Text, push_u64};
use channel_hub::{Candidates, Hub};
use planar_geom::Area;
use std::alloc::Global;
use std::test::Fail;
use world_data::{Channel, Kind, Watch};

// In each line letters of changes: channels that are put (`x` and `z` go at 1000, `y` at 2000, and a capital letter
// stays), a digit to take out what is due at so many thousands, `b` to put that back, `l` to let it go, `-` to take out
// `z`, `!` to clear all. Behind them the channels that are left, those that are out, the least deadline (0 for none),
// how many the key has, and whether `z` is there.
const ANSWERS: &str = "
    zxy => xyz:: 1000 3 yes
    zX => Xz:: 1000 2 yes
    zxy0 => xyz:: 1000 3 yes
    zxy1 => y:xz: 2000 1 no
    zxy2 => :xzy: 0 0 no
    zxy1b => xyz:: 1000 3 yes
    zxy1l => y:: 2000 1 no
    zxy1lb => y:: 2000 1 no
    zxy12 => :y: 0 0 no
    zxy12b => y:: 2000 1 no
    zXY2 => XY:z: 0 2 no
    zxy1Z => yZ:: 2000 2 yes
    zxy1- => y:: 2000 1 no
    zxy- => xy:: 1000 2 no
    zZ => Z:: 0 1 yes
    Zz => z:: 1000 1 yes
    zxy1! => :: 0 0 no
    zxy1!b => :: 0 0 no
    zxy!x => x:: 1000 1 no
    ";

// The channel that a letter puts, on a disc.
fn channel_of(alloc: Global, letter: u8) -> Result<Channel, Fail> {
    let watch = Watch::Zone(Kind::Near, Area::Disc(at(0, 0)?, 5));
    let mut channel = channel(alloc, &[letter.to_ascii_lowercase()], b"k", watch)?;
    channel.deadline = match letter {
        b'x' | b'z' => Some(1000),
        b'y' => Some(2000),
        _ => None,
    };
    Ok(channel)
}

fn put(alloc: Global, hub: &mut Hub, channel: Channel) -> Result<(), Fail> {
    hub.prepare(alloc, &channel)?;
    hub.put(channel);
    Ok(())
}

// Does what a letter stands for.
fn step(alloc: Global, hub: &mut Hub, letter: u8) -> Result<(), Fail> {
    match letter {
        b'0' => hub.take_due(999),
        b'1' => hub.take_due(1000),
        b'2' => hub.take_due(2000),
        b'b' => hub.put_back(),
        b'l' => hub.let_go(),
        b'!' => hub.clear(),
        b'-' => {
            hub.take_out(&name(alloc, b"z")?);
        }
        _ => put(alloc, hub, channel_of(alloc, letter)?)?,
    }
    Ok(())
}

// Appends the name of a channel, in capital letters where it stays.
fn push_name(out: &mut Text, channel: &Channel) -> Result<(), Fail> {
    for letter in channel.name.bytes() {
        match channel.deadline {
            Some(_) => out.push(&[*letter])?,
            None => out.push(&[letter.to_ascii_uppercase()])?,
        }
    }
    Ok(())
}

// Appends the names of the channels, in order.
fn push_names(out: &mut Text, channels: &Candidates) -> Result<(), Fail> {
    for i in 0..channels.len() {
        push_name(out, channels.at(i))?;
    }
    Ok(())
}

fn told(alloc: Global, hub: &Hub) -> Result<Text, Fail> {
    let mut text = Text::new(alloc);
    for i in 0..hub.len() {
        push_name(&mut text, hub.at(i))?;
    }
    text.push(b":")?;
    push_names(&mut text, &hub.taken(alloc)?)?;
    text.push(b": ")?;
    push_u64(&mut text, hub.least_due().unwrap_or(0))?;
    text.push(b" ")?;
    push_u64(
        &mut text,
        hub.of_key(alloc, &name(alloc, b"k")?)?.len() as u64,
    )?;
    let stands = hub.get(&name(alloc, b"z")?).is_some();
    text.push(if stands { b" yes" } else { b" no" })?;
    Ok(text)
}

// Does what these letters stand for, and tells what is there.
fn told_after(alloc: Global, hub: &mut Hub, letters: &str) -> Result<Text, Fail> {
    for letter in letters.bytes() {
        step(alloc, hub, letter)?;
    }
    told(alloc, hub)
}

struct Letters;

impl Answers for Letters {
    fn answer(alloc: Global, case: &str) -> Result<Text, Fail> {
        told_after(alloc, &mut Hub::new(alloc), case)
    }
}

#[test]
fn hubs(rt: HostRuntime) -> Result<(), Fail> {
    are_answered::<Letters>(&rt, rt.alloc(), ANSWERS)
}
