//! Small values that the tests are made of.

ghost use Rattle.std.specs.Prelude.{◌≡◌, [], None, IfOk};

use byte_text::{Name, Request, Text, push_array_head, push_bulk};
use planar_geom::{Pt, Shape};
use resp_frames::Requests;
use std::alloc::Global;
use std::test::Fail;
use world_data::{Channel, Fence, Fields, Object, Tests, Value, Wanted, Watch};

/// The name of these bytes.
pub(crate) fn name(alloc: Global, bytes: &[u8]) -> Result<Name, Fail>
    ensures { IfOk result (λ n. n ≡ bytes.now) }
{
    match Name::of(alloc, bytes) {
        Ok(name) => Ok(name),
        Err(_) => Err(Fail::from("no name")),
    }
}

// The array of a line's words.
fn array_of(alloc: Global, line: &str) -> Result<Text, Fail> {
    let mut text = Text::new(alloc);
    push_array_head(&mut text, line.split(' ').count())?;
    for word in line.split(' ') {
        push_bulk(&mut text, if word == "|" { b"" } else { word.as_bytes() })?;
    }
    Ok(text)
}

/// The words of a line, between spaces; a stroke stands for a word without letters.
pub(crate) fn request(alloc: Global, line: &str) -> Result<Request, Fail> {
    let text = array_of(alloc, line)?;
    match Requests::new(alloc).feed(text.bytes()) {
        Ok(fed) => Ok(fed.request.ok_or("no request")?),
        Err(_) => Err(Fail::from("no request")),
    }
}

/// The point at these coordinates.
pub(crate) fn at(x: i64, y: i64) -> Result<Pt, Fail> {
    match Pt::of(x, y) {
        Some(point) => Ok(point),
        None => Err(Fail::from("no point")),
    }
}

/// These fields: each is given the value of its word in turn, and goes where that is 0.
pub(crate) fn fields(alloc: Global, given: &[(&[u8], &[u8])]) -> Result<Fields, Fail> {
    let mut fields = Fields::new(alloc);
    for (called, word) in given {
        fields.set(name(alloc, called)?, Value::of(name(alloc, word)?))?;
    }
    Ok(fields)
}

/// The object of this key and id at the point with these coordinates: its text is `{}`, it has no field, and it stays.
pub(crate) fn object(alloc: Global, key: &[u8], id: &[u8], x: i64, y: i64) -> Result<Object, Fail>
    ensures key { IfOk result (λ o. o.key ≡ key.now) }
    ensures fields { IfOk result (λ o. o.fields ≡ []) }
{
    Ok(Object {
        key: name(alloc, key)?,
        id: name(alloc, id)?,
        text: Text::of(alloc, b"{}")?,
        shape: Shape::point(alloc, at(x, y)?)?,
        fields: Fields::new(alloc),
        deadline: None,
    })
}

/// All words of DETECT and of COMMANDS.
pub(crate) fn all_wanted() -> Wanted {
    Wanted {
        inside: true,
        outside: true,
        enter: true,
        exit: true,
        cross: true,
        set: true,
        del: true,
        drop: true,
    }
}

/// The channel of this name for all objects of a key that watches this and wants to hear of everything; it has no words, and
/// it stays.
pub(crate) fn channel(
    alloc: Global,
    called: &[u8],
    key: &[u8],
    watch: Watch,
) -> Result<Channel, Fail>
    ensures name { IfOk result (λ c. c.name ≡ called.now) }
    ensures glob { IfOk result (λ c. c.fence.glob ≡ None) }
    ensures watch { IfOk result (λ c. c.fence.watch ≡ watch) }
    ensures words { IfOk result (λ c. c.words ≡ []) }
    ensures deadline { IfOk result (λ c. c.deadline ≡ None) }
{
    Ok(Channel {
        name: name(alloc, called)?,
        fence: Fence {
            key: name(alloc, key)?,
            glob: None,
            tests: Tests::new(alloc),
            wanted: all_wanted(),
            watch,
        },
        words: Request::new(alloc),
        deadline: None,
    })
}
