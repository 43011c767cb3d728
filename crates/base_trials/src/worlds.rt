//! A world that takes one change after another, and what its parts weigh.

ghost use Rattle.std.specs.Prelude.{◌≡◌, IfOk};
ghost use Rattle.world_store.specs.Stored.{HasFew};

use crate::samples::{at, channel, name, object};
use crate::tables::{Answers, are_answered};
use byte_text::{Text, push_u64};
use planar_geom::Area;
use std::alloc::Global;
use std::test::Fail;
use world_data::{Change, Kind, Object, Watch};
use world_store::{StoreParts, StoredWorld};

// In each line letters of changes, and how many objects the world then has, their weight, how many channels, their
// weight, and the least deadline of all, or a dash. The record of a channel with a deadline has two words more.
const WORLDS: &str = "
    . => 0 0 0 0 -
    a => 1 46 0 0 -
    aA => 1 63 0 0 7
    Aab => 2 107 0 0 9
    Abd => 1 61 0 0 9
    dbd => 1 61 0 0 9
    abcp => 1 46 0 0 -
    cf => 1 46 1 24 -
    fF => 0 0 1 24 -
    Fgef => 0 0 2 49 -
    Fge => 0 0 1 25 -
    fh => 0 0 1 39 7
    hfa => 1 46 1 24 -
    hg => 0 0 2 64 7
    hge => 0 0 1 25 -
    bh => 1 61 1 39 7
    bhe => 1 61 0 0 9
    aFg!b => 1 61 0 0 9
    ";

// The object with a text and a deadline in place of its own.
fn told(object: Object, text: Text, deadline: Option<u64>) -> Object
    ensures { result.fields ≡ object.fields }
{
    let mut told = object;
    told.text = text;
    told.deadline = deadline;
    told
}

// The put of an object of a key and an id, with a text and a deadline.
fn put(
    alloc: Global,
    key: &[u8],
    id: &[u8],
    text: &[u8],
    deadline: Option<u64>,
) -> Result<Change, Fail>
    ensures { IfOk result HasFew }
{
    let object = object(alloc, key, id, 1, 2)?;
    let text = Text::of(alloc, text)?;
    Ok(Change::Put(told(object, text, deadline)))
}

// A channel of this name on a disc of this radius with a deadline, and with no words.
fn setting(alloc: Global, called: &[u8], radius: u32, deadline: Option<u64>) -> Result<Change, Fail>
    ensures { IfOk result HasFew }
{
    let watch = Watch::Zone(Kind::Near, Area::Disc(at(0, 0)?, radius));
    let mut channel = channel(alloc, called, b"k", watch)?;
    channel.deadline = deadline;
    Ok(Change::SetChan(channel))
}

// The change of a letter.
fn change(alloc: Global, letter: u8) -> Result<Change, Fail>
    ensures { IfOk result HasFew }
{
    match letter {
        b'a' => put(alloc, b"k", b"a", b"x", None),
        b'A' => put(alloc, b"k", b"a", b"xyz", Some(7)),
        b'b' => put(alloc, b"k", b"b", b"x", Some(9)),
        b'c' => put(alloc, b"l", b"c", b"x", None),
        b'd' => Ok(Change::Del(name(alloc, b"k")?, name(alloc, b"a")?)),
        b'p' => Ok(Change::Drop(name(alloc, b"k")?)),
        b'f' => setting(alloc, b"f", 5, None),
        b'F' => setting(alloc, b"f", 7, None),
        b'h' => setting(alloc, b"f", 5, Some(7)),
        b'g' => setting(alloc, b"gg", 5, None),
        b'e' => Ok(Change::DelChan(name(alloc, b"f")?)),
        _ => Ok(Change::Flush),
    }
}

// The world after these changes.
fn world_after(alloc: Global, letters: &str) -> Result<StoredWorld, Fail> {
    let mut world = StoredWorld::new(alloc);
    for letter in letters.bytes() {
        if letter != b'.' {
            world.fold(change(alloc, letter)?)?;
        }
    }
    Ok(world)
}

// The numbers of a world, and whether its parts have as many objects and channels.
fn numbers_of(world: StoredWorld) -> ([u64; 4], u64, bool) {
    let (objects, channels) = (world.objects(), world.channels());
    let parts: StoreParts = world.into_parts();
    let is_same = parts.objects.len() == objects && parts.hub.len() == channels;
    let numbers = [
        objects as u64,
        parts.weight,
        channels as u64,
        parts.channel_weight,
    ];
    (numbers, parts.due_from, is_same)
}

struct Worlds;

impl Answers for Worlds {
    fn answer(alloc: Global, case: &str) -> Result<Text, Fail> {
        let (numbers, due_from, is_same) = numbers_of(world_after(alloc, case)?);
        let mut text = Text::new(alloc);
        for number in numbers {
            push_u64(&mut text, number)?;
            text.push(b" ")?;
        }
        if due_from == u64::MAX {
            text.push(b"-")?;
        } else {
            push_u64(&mut text, due_from)?;
        }
        text.push(if is_same { b"" } else { b" other parts" })?;
        Ok(text)
    }
}

#[test]
fn each_change_is_weighed(rt: HostRuntime) -> Result<(), Fail> {
    are_answered::<Worlds>(&rt, rt.alloc(), WORLDS)
}
