//! SET: an object is put, with fields and a deadline.

ghost use Rattle.std.specs.Prelude.{◌≡◌, ◌≤◌, ◌+◌, ◌^◌, ◌∷◌, List, Option, Some, None, [], is_some, length};
ghost use Rattle.std.specs.Prelude.{find, IfOk, IfSome, IfNone};
ghost use Rattle.byte_text.specs.Replies.{frame_text};
ghost use Rattle.byte_text.specs.declared.replies.Piece.{Piece};
ghost use Rattle.world_data.specs.Limits.{max_moment, max_reply};
ghost use Rattle.ordered_lists.specs.Lists.{put_in};
ghost use Rattle.world_data.specs.Worlds.{object_before, is_at};
ghost use Rattle.world_data.specs.Records.{weight};
ghost use Rattle.fence_model.specs.Writes.{silent};
ghost use Rattle.world_data.specs.declared.worlds.Change.TheVariants as change;
ghost use Rattle.world_model.specs.Effects.{effect, changes, deadline_after, is_kept_back};
ghost use Rattle.world_model.specs.declared.commands.Command.TheVariants as command;
ghost use Rattle.world_model.specs.declared.object_commands.ObjectCommand.TheVariants as of_object;
ghost use Rattle.world_data.specs.declared.objects.Object.{Object};
ghost use Rattle.keyspace.specs.Entries.{objects_in};
ghost use Rattle.object_plans.specs.Kept.{AreKept};
ghost use Rattle.object_plans.specs.Moves.{IsAccepted, world_in, world_of};
ghost use Rattle.record_writer.specs.Lengths.{HasFewFields, len_of};
ghost use Rattle.object_plans.specs.Plans.{IsPlan, put_or_full};

use crate::answers::{say_frame, say_refusal};
use crate::fields::whole_fields;
use crate::frames::fine_frame_in;
use crate::moves::ObjectChange;
use crate::plans::Plan;
use byte_text::{NoMemory, Text};
use keyspace::Keyspace;
use record_writer::put_len;
use reply_text::null_frame;
use std::alloc::Global;
use std::mem;
use world_data::{MAX_FIELDS, MAX_OBJECTS, MAX_WEIGHT};
use world_model::{Fields, NameList, Object, Only, Refusal};

// Whether NX or XX keeps an object back, where one is there or not.
fn keeps_back(only: Only, is_there: bool) -> bool
    ensures { (old : Option Object) → is_there ≡ is_some old → result ≡ is_kept_back only old }
{
    match only {
        Only::Any => false,
        Only::Absent => is_there,
        Only::Present => !is_there,
    }
}

// The weight of the world after a put of an object whose record has this length, where this one stands in its place.
fn weight_after(
    _objects: &Keyspace,
    total: u64,
    old: Option<&Object>,
    _object: &Object,
    length: u64,
) -> u64
    requires kept { AreKept (objects_in _objects.now) total }
    requires none { IfNone old (find (is_at _object.now.key _object.now.id) (objects_in _objects.now) ≡ None) }
    requires some { IfSome old (λ o. find (is_at _object.now.key _object.now.id) (objects_in _objects.now)
        ≡ Some o.now) }
    requires length { length ≡ len_of _object.now }
    requires short { length ≤ 2 ^ 63 + 2 ^ 39 }
    ensures { result ≡ weight (world_of (put_in object_before _object.now (objects_in _objects.now))) }
{
    match old {
        Some(old) => total + length - put_len(old),
        None => total + length,
    }
}

/// An object is put in its place, where `old` stands if one does, told to those who watch where it is announced, and
/// this frame is the reply, where the world will not be too heavy.
pub(crate) fn plan_put(
    alloc: Global,
    objects: &Keyspace,
    total: u64,
    old: Option<&Object>,
    object: Object,
    announced: bool,
    frame: Text,
) -> Result<Plan, NoMemory>
    requires kept { AreKept (objects_in objects.now) total }
    requires none { IfNone old (find (is_at object.key object.id) (objects_in objects.now) ≡ None) }
    requires some { IfSome old (λ o. find (is_at object.key object.id) (objects_in objects.now) ≡ Some o.now) }
    requires few { HasFewFields object }
    requires accepted { IsAccepted object }
    requires short { length frame ≤ max_reply }
    ensures { (reply : List Piece) → frame ≡ frame_text reply
        → IfOk result (λ p. IsPlan (objects_in objects.now)
        (put_or_full (world_in objects.now) object reply announced) p) }
{
    let length = put_len(&object);
    let weight = weight_after(objects, total, old, &object, length);
    if weight > MAX_WEIGHT {
        return say_refusal(alloc, total, Refusal::DatabaseFull);
    }
    Ok(Plan {
        frame,
        action: ObjectChange::Put(object),
        announced,
        length,
        weight,
        closes: false,
    })
}

/// The plan of a put of an object in place of `old`, whose record is no shorter, with this frame as the reply. It is
/// not weighed, since the world gets no heavier.
pub(crate) fn plan_lighter(
    objects: &Keyspace,
    total: u64,
    old: &Object,
    object: Object,
    frame: Text,
) -> Plan
    requires kept { AreKept (objects_in objects.now) total }
    requires some { find (is_at object.key object.id) (objects_in objects.now) ≡ Some old.now }
    requires few { HasFewFields object }
    requires accepted { IsAccepted object }
    requires lighter { len_of object ≤ len_of old.now }
    requires short { length frame ≤ max_reply }
    ensures { (reply : List Piece) → frame ≡ frame_text reply
        → IsPlan (objects_in objects.now) (changes reply (silent (change.Put object) ∷ [])) result }
{
    let length = put_len(&object);
    let weight = weight_after(objects, total, Some(old), &object, length);
    Plan {
        frame,
        action: ObjectChange::Put(object),
        announced: false,
        length,
        weight,
        closes: false,
    }
}

/// The deadline that EX gives, in milliseconds.
pub fn deadline_after(now: u64, seconds: Option<u32>) -> Option<u64>
    requires { now ≤ max_moment }
    ensures { result ≡ deadline_after now seconds }
{
    match seconds {
        Some(seconds) => Some(now + 1000 * u64::from(seconds)),
        None => None,
    }
}

/// How a SET puts its object: the names of fields that are written 0, after how many seconds the object expires, and
/// whether it is done for an object that is there, or for one that is not.
pub(crate) struct Terms {
    pub cleared: NameList,
    pub seconds: Option<u32>,
    pub only: Only,
}

impl Drop for Terms {
    fn drop(self) {
        let Terms {
            cleared: _,
            seconds: _,
            only: _,
        } = self;
    }
}

/// What a SET of this object will do, whose fields are those that are given, and whose text has its shape. `+OK` stands
/// in the memory of `spare`.
pub(crate) fn plan_set(
    alloc: Global,
    objects: &Keyspace,
    total: u64,
    now: u64,
    terms: Terms,
    object: Object,
    spare: &mut Text,
) -> Result<Plan, NoMemory>
    requires kept { AreKept (objects_in objects.now) total }
    requires accepted { IsAccepted object }
    requires moment { now ≤ max_moment }
    ensures { IfOk result (λ p. IsPlan (objects_in objects.now)
        (effect (world_in objects.now) now [] (command.Object (of_object.Set
        object.key object.id object.fields terms.cleared terms.seconds terms.only object.text object.shape))) p) }
{
    let old = objects.get(&object.key, &object.id);
    let is_new = old.is_none();
    if keeps_back(terms.only, !is_new) {
        return say_frame(alloc, total, null_frame(alloc)?);
    }
    let mut whole = object;
    let given = mem::replace(&mut whole.fields, Fields::new(alloc));
    whole.fields = whole_fields(alloc, old, given, &terms.cleared)?;
    whole.deadline = deadline_after(now, terms.seconds);
    if whole.fields.len() > MAX_FIELDS {
        return say_refusal(alloc, total, Refusal::TooManyFields);
    }
    if is_new && objects.len() >= MAX_OBJECTS {
        return say_refusal(alloc, total, Refusal::TooManyObjects);
    }
    let frame = fine_frame_in(alloc, spare)?;
    plan_put(alloc, objects, total, old, whole, true, frame)
}
