//! Objects and their keys, as replies show them.

ghost use Rattle.std.specs.Prelude.{◌≡◌, ◌≢◌, ◌++◌, ◌∷◌, [], List, length, sum_by, IfOk, IfSome, IfNone, OnOk};
ghost use Rattle.byte_text.specs.Replies.{bulk, frame_text, IsFrame};
ghost use Rattle.byte_text.specs.declared.replies.Piece.TheVariants as piece;
ghost use Rattle.planar_geom.specs.Shapes.{positions};
ghost use Rattle.world_model.specs.Replies.{no_list, bounds_reply as bounds_pieces, fields_reply, is_ids};
ghost use Rattle.world_model.specs.Replies.{item_reply as item_pieces, object_reply as object_pieces, stats_of_key};
ghost use Rattle.world_data.specs.declared.objects.Object.{Object};
ghost use Rattle.reply_text.specs.Gets.{get_pieces};

use crate::drafts::Draft;
use crate::ready_frames::text_frame;
use byte_text::{Name, NoMemory, Piece, Reply, Text, lists_are_whole, push_frame};
use planar_geom::{BBox, box_of, centre};
use std::alloc::Global;
use world_model::{Fields, Object, Query, Shown};

// Puts an object last, as it is shown.
fn push_object(draft: &mut Draft, object: &Object, shown: Shown) -> Result<(), NoMemory>
    ensures { OnOk result (draft.new ≡ draft.old ++ object_pieces shown object.now) }
{
    match shown {
        Shown::Points => draft.point(centre(box_of(&object.shape))),
        Shown::Bounds => draft.bounds(box_of(&object.shape)),
        Shown::Objects => draft.bulk(object.text.bytes()),
        Shown::Ids => draft.bulk(object.id.bytes()),
        Shown::Count => Ok(()),
    }
}

// Puts fields last: their names and values in turn. More of them than a `u32` counts twice have room in no memory.
fn push_fields(draft: &mut Draft, fields: &Fields) -> Result<(), NoMemory>
    ensures { OnOk result (draft.new ≡ draft.old ++ fields_reply fields.now) }
{
    let Ok(count) = u32::try_from(fields.len()) else {
        return Err(NoMemory);
    };
    let Some(words) = count.checked_mul(2) else {
        return Err(NoMemory);
    };
    draft.head(words)?;
    for i in 0..fields.len() {
        draft.bulk(fields.name(i).bytes())?;
        draft.value(fields.value(i))?;
    }
    Ok(())
}

// An object as it is shown: its text, the centre of its box as latitude and longitude, its bounds, or its id. A count
// shows nothing of it.
fn object_reply(alloc: Global, object: &Object, shown: Shown) -> Result<Reply, NoMemory>
    ensures value { IfOk result (λ reply. reply ≡ object_pieces shown object.now) }
    ensures frame { shown ≢ Shown.Count → IfOk result IsFrame }
{
    let mut draft = Draft::new(alloc);
    push_object(&mut draft, object, shown)?;
    Ok(draft.finish())
}

/// The frame of the answer to GET for an object that is there: the object as it is shown, or an array of that and its
/// fields.
pub fn get_frame(
    alloc: Global,
    object: &Object,
    with_fields: bool,
    shown: Shown,
) -> Result<Text, NoMemory>
    requires { shown ≢ Shown.Count }
    ensures { IfOk result (λ frame. frame ≡ frame_text (get_pieces with_fields shown object.now)) }
{
    match (with_fields, shown) {
        (false, Shown::Objects) => text_frame(alloc, object.text.bytes()),
        _ => {
            let reply = get_reply(alloc, object, with_fields, shown)?;
            let mut frame = Text::new(alloc);
            push_frame(&mut frame, &reply)?;
            Ok(frame)
        }
    }
}

// The reply that this frame is of.
fn get_reply(
    alloc: Global,
    object: &Object,
    with_fields: bool,
    shown: Shown,
) -> Result<Reply, NoMemory>
    ensures value { IfOk result (λ reply. reply ≡ get_pieces with_fields shown object.now) }
    ensures frame { shown ≢ Shown.Count → IfOk result IsFrame }
{
    lists_are_whole();
    if !with_fields {
        return object_reply(alloc, object, shown);
    }
    let mut draft = Draft::new(alloc);
    draft.head(2)?;
    push_object(&mut draft, object, shown)?;
    push_fields(&mut draft, &object.fields)?;
    Ok(draft.finish())
}

/// An object as an item of a search: its id alone, or its id, what is shown of it, and its fields where there are some
/// and they are wanted.
pub(crate) fn item_reply(alloc: Global, query: &Query, object: &Object) -> Result<Reply, NoMemory>
    requires { query.now.shown ≢ Shown.Count }
    ensures value { IfOk result (λ reply. reply ≡ item_pieces query.now object.now) }
    ensures frame { IfOk result IsFrame }
{
    lists_are_whole();
    let mut draft = Draft::new(alloc);
    push_item(&mut draft, query, object)?;
    Ok(draft.finish())
}

// Puts an item of a search last.
fn push_item(draft: &mut Draft, query: &Query, object: &Object) -> Result<(), NoMemory>
    ensures { OnOk result (draft.new ≡ draft.old ++ item_pieces query.now object.now) }
{
    if is_ids(query.shown) {
        return draft.bulk(object.id.bytes());
    }
    if query.bare || object.fields.len() == 0 {
        return push_shown(draft, 2, object, query.shown);
    }
    push_shown(draft, 3, object, query.shown)?;
    push_fields(draft, &object.fields)
}

// Puts the head of an array of so many parts last, and its first two parts: the id of an object, and what is shown of
// it.
fn push_shown(draft: &mut Draft, parts: u32, object: &Object, shown: Shown) -> Result<(), NoMemory>
    ensures { OnOk result
        (draft.new ≡ draft.old ++ piece.List parts ∷ (bulk object.now.id ++ object_pieces shown object.now)) }
{
    draft.head(parts)?;
    draft.bulk(object.id.bytes())?;
    push_object(draft, object, shown)
}

fn is_ids(shown: Shown) -> bool
    ensures { result ≡ is_ids shown }
{
    matches!(shown, Shown::Ids)
}

/// A name as a bulk string.
pub(crate) fn name_reply(alloc: Global, name: &Name) -> Result<Reply, NoMemory>
    ensures value { IfOk result (λ reply. reply ≡ bulk name.now) }
    ensures frame { IfOk result IsFrame }
{
    let mut draft = Draft::new(alloc);
    draft.bulk(name.bytes())?;
    Ok(draft.finish())
}

/// The bounds of a key: its box, or the null array where it has no object.
pub fn bounds_reply(alloc: Global, bounds: Option<BBox>) -> Result<Reply, NoMemory>
    ensures some { IfSome bounds (λ b. IfOk result (λ reply. reply ≡ bounds_pieces b)) }
    ensures none { IfNone bounds (IfOk result (λ reply. reply ≡ no_list)) }
    ensures frame { IfOk result IsFrame }
{
    let mut draft = Draft::new(alloc);
    match bounds {
        Some(b) => draft.bounds(b)?,
        None => draft.piece(Piece::NoList)?,
    }
    Ok(draft.finish())
}

/// How many objects a key has, and how many positions these have; the null array where it has no object. Counts beyond
/// the integers of RESP2 have room in no memory.
pub fn stats_reply(alloc: Global, objects: u64, points: u64) -> Result<Reply, NoMemory>
    ensures value { (list : List Object) → objects ≡ length list → points ≡ sum_by (λ o. positions o.shape) list
        → IfOk result (λ reply. reply ≡ stats_of_key list) }
    ensures frame { IfOk result IsFrame }
{
    let mut draft = Draft::new(alloc);
    if objects == 0 {
        draft.piece(Piece::NoList)?;
        return Ok(draft.finish());
    }
    draft.head(4)?;
    draft.bulk(b"num_objects")?;
    draft.count(objects)?;
    draft.bulk(b"num_points")?;
    draft.count(points)?;
    Ok(draft.finish())
}
