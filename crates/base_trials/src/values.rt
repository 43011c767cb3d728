//! Values of a world, and its plain program, with ample memory.

ghost use Rattle.std.specs.Prelude.{◌≡◌, length};

use crate::samples::{at, channel, fields, name, object};
use crate::tables::{Answers, are_answered};
use byte_text::{Text, push_u64};
use planar_geom::{Area, Shape};
use std::alloc::Global;
use std::test::Fail;
use world_data::*;

// The name of the first of two fields, the value of the second, that of the first, and that of the second as JSON has
// it.
fn shown(alloc: Global, two: &Fields) -> Result<Text, Fail>
    requires { length two.now ≡ 2 }
{
    let mut text = Text::new(alloc);
    text.push(two.name(0).bytes())?;
    two.value(1).show(&mut text)?;
    two.show(0, &mut text)?;
    two.show_json(1, &mut text)?;
    Ok(text)
}

// A copy of fields, of which two are written 0, one of them where it had a text, and one a number where it had a text.
fn of_fields(alloc: Global) -> Result<Text, Fail> {
    let given: [(&[u8], &[u8]); 6] = [
        (b"state", b"idle"),
        (b"age", b"old"),
        (b"load", b"full"),
        (b"age", b"-7"),
        (b"load", b"0"),
        (b"width", b"0"),
    ];
    let copy = fields(alloc, given.as_slice())?.copy(alloc)?;
    if copy.len() == 2 {
        shown(alloc, &copy)
    } else {
        Ok(Text::of(alloc, b"another number")?)
    }
}

// A list of names that is cleared, and what was copied of it before.
fn of_names(alloc: Global) -> Result<Text, Fail> {
    let mut names = NameList::new(alloc);
    if names.push(name(alloc, b"a")?).is_err() {
        return Err(Fail::from("no memory"));
    }
    let copy = names.copy(alloc)?;
    names.clear();
    if names.len() == 0 && copy.len() == 1 {
        Ok(Text::of(alloc, copy.at(0).bytes())?)
    } else {
        Ok(Text::of(alloc, b"another number")?)
    }
}

// The test that a field `a` of the value -1 or `idle` passes.
fn among(alloc: Global) -> Result<Test, Fail> {
    let mut values = Values::new(alloc);
    if values.push(Value::Whole(-1)).is_err() {
        return Err(Fail::from("no memory"));
    }
    if values.push(Value::of(name(alloc, b"idle")?)).is_err() {
        return Err(Fail::from("no memory"));
    }
    Ok(Test::Among(name(alloc, b"a")?, values.copy(alloc)?))
}

// A value of a word is the same as a copy of that of another, is that text, or no field has it.
fn of_words(alloc: Global, words: &str) -> Result<Text, Fail> {
    let (word, other) = words.split_once(' ').unwrap_or((words, words));
    let value = Value::of(name(alloc, word.as_bytes())?);
    let other = name(alloc, other.as_bytes())?;
    let is_text = value.is_word(&other);
    let same = Value::of(other).copy(alloc)?;
    let answer = if value.is_none() {
        "none"
    } else if !value.is_same(&same) {
        "another"
    } else if is_text {
        "same text"
    } else {
        "same number"
    };
    Ok(Text::of(alloc, answer.as_bytes())?)
}

// A copy of the list of one test.
fn one_test(alloc: Global, test: Test) -> Result<Tests, Fail> {
    let mut tests = Tests::new(alloc);
    if tests.push(test).is_err() {
        return Err(Fail::from("no memory"));
    }
    Ok(tests.copy(alloc)?)
}

// A test of this kind.
fn test(alloc: Global, kind: &str) -> Result<Test, Fail> {
    match kind {
        "among" => among(alloc),
        "same" => Ok(Test::Same(name(alloc, b"a")?, name(alloc, b"idle")?)),
        _ => Ok(Test::Range(name(alloc, b"a")?, Some(-1), None)),
    }
}

// The kind of the one test in the copy of a list, what it names and what it asks for.
fn of_tests(alloc: Global, kind: &str) -> Result<Text, Fail> {
    let tests = one_test(alloc, test(alloc, kind)?)?;
    let mut text = Text::new(alloc);
    if tests.len() != 1 {
        return Err(Fail::from("another number"));
    }
    match tests.at(0) {
        Test::Range(called, low, high) => {
            text.push(called.bytes())?;
            text.push(match (low, high) {
                (Some(-1), None) => b" from -1",
                _ => b" another",
            })?;
        }
        Test::Same(called, word) => {
            text.push(called.bytes())?;
            text.push(b" is ")?;
            text.push(word.bytes())?;
        }
        Test::Among(called, values) => {
            text.push(called.bytes())?;
            text.push(b" of")?;
            for i in 0..values.len() {
                text.push(b" ")?;
                values.at(i).show(&mut text)?;
            }
        }
    }
    Ok(text)
}

// A copy of the object of the key `k` and this id, which expires at 7.
fn mortal(alloc: Global, id: &[u8]) -> Result<Object, Fail> {
    let mut mortal = object(alloc, b"k", id, 1, 2)?;
    mortal.deadline = Some(7);
    Ok(mortal.copy(alloc)?)
}

// A copy of the channel `z` on a figure, which expires at 9.
fn on_figure(alloc: Global) -> Result<Channel, Fail> {
    let area = Area::Figure(Shape::point(alloc, at(1, 2)?)?);
    let mut channel = channel(alloc, b"z", b"k", Watch::Zone(Kind::Within, area))?;
    channel.deadline = Some(9);
    Ok(channel.copy(alloc)?)
}

// The change that a letter stands for: the channel, or an object.
fn change(alloc: Global, letter: u8) -> Result<Change, Fail> {
    match letter {
        b'z' => Ok(Change::SetChan(on_figure(alloc)?)),
        _ => Ok(Change::Put(mortal(alloc, &[letter])?)),
    }
}

// Appends a name, and a deadline where there is one.
fn push_until(out: &mut Text, called: &[u8], deadline: Option<u64>) -> Result<(), Fail> {
    out.push(called)?;
    match deadline {
        Some(moment) => Ok(push_u64(out, moment)?),
        None => Ok(()),
    }
}

// Appends the ids of the objects and the names of the channels, each from the last on, with their deadlines.
fn push_last(out: &mut Text, world: &mut World) -> Result<(), Fail> {
    for _ in 0..world.objects.len() {
        if let Some(last) = world.objects.pop() {
            push_until(out, last.id.bytes(), last.deadline)?;
        }
    }
    for _ in 0..world.channels.len() {
        if let Some(last) = world.channels.pop() {
            push_until(out, last.name.bytes(), last.deadline)?;
        }
    }
    Ok(())
}

// The world after the changes of these letters.
fn of_world(alloc: Global, letters: &str) -> Result<Text, Fail> {
    let mut world = World::new(alloc);
    let mut text = Text::new(alloc);
    for letter in letters.bytes() {
        world.fold(change(alloc, letter)?)?;
    }
    push_last(&mut text, &mut world)?;
    Ok(text)
}

// The bytes of two frames, moved out, of which the second and then the first are let go.
fn of_frames(alloc: Global) -> Result<Text, Fail> {
    let mut frames = Frames::new(alloc)?;
    frames.put(b"+OK\r\n")?;
    frames.put(b":1\r\n")?;
    let mut moved = frames.move_out();
    let all = Text::of(alloc, moved.bytes())?;
    moved.keep(1);
    if frames.has_place()
        || !frames.is_empty()
        || moved.len() != 1
        || moved.at(0) != b"+OK\r\n".as_slice()
    {
        return Ok(Text::of(alloc, b"another number")?);
    }
    moved.clear();
    if moved.has_place() && moved.is_empty() {
        Ok(all)
    } else {
        Ok(Text::of(alloc, b"frames that stay")?)
    }
}

const VALUES: &str = r#"
    fields => ageidle-7"idle"
    value 5 5 => same number
    value 5 6 => another
    value 007 7 => another
    value 007 007 => same text
    value 1.5 1.5 => same text
    value idle idle => same text
    value idle Idle => another
    value -9223372036854775808 -9223372036854775808 => same number
    value 9223372036854775808 9223372036854775808 => same text
    value -0 -0 => same text
    value 0 0 => none
    names => a
    tests range => a from -1
    tests same => a is idle
    tests among => a of -1 idle
    frames => +OK<>:1<>
    world ba => b7a7
    world z => z9
    world az => a7z9
    "#;

struct OfData;

impl Answers for OfData {
    fn answer(alloc: Global, case: &str) -> Result<Text, Fail> {
        match case {
            "fields" => of_fields(alloc),
            "names" => of_names(alloc),
            "frames" => of_frames(alloc),
            _ => match case.split_once(' ') {
                Some(("value", words)) => of_words(alloc, words),
                Some(("tests", kind)) => of_tests(alloc, kind),
                Some((_, letters)) => of_world(alloc, letters),
                None => Err(Fail::from("no such case")),
            },
        }
    }
}

#[test]
fn values_are_shown(rt: HostRuntime) -> Result<(), Fail> {
    are_answered::<OfData>(&rt, rt.alloc(), VALUES)
}
