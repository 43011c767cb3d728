//! FSET and FGET: fields of an object are set and told.

ghost use Rattle.std.specs.Prelude.{◌≡◌, [], ℕ, not, if◌then◌else◌, IfOk};
ghost use Rattle.std.specs.List.{list_any};
ghost use Rattle.byte_text.specs.Replies.{frame_text};
ghost use Rattle.world_data.specs.Filters.{same_value, value_of};
ghost use Rattle.world_data.specs.Worlds.{has_key};
ghost use Rattle.world_model.specs.Effects.{effect, changed_count, given_and_cleared, missing};
ghost use Rattle.world_model.specs.Replies.{value_reply};
ghost use Rattle.world_model.specs.declared.commands.Command.TheVariants as command;
ghost use Rattle.world_model.specs.declared.object_commands.ObjectCommand.TheVariants as of_object;
ghost use Rattle.keyspace.specs.Entries.{objects_in};
ghost use Rattle.object_plans.specs.Kept.{AreKept};
ghost use Rattle.object_plans.specs.Moves.{world_in};
ghost use Rattle.object_plans.specs.Plans.{IsPlan};

use crate::answers::{say_count, say_frame, say_refusal};
use crate::fields::with_values;
use crate::plans::Plan;
use crate::puts::plan_put;
use byte_text::{Name, NoMemory, Text};
use keyspace::Keyspace;
use object_match::{has_value, show_value};
use reply_text::{count_frame, text_frame};
use std::alloc::Global;
use world_data::{MAX_FIELDS, Value};
use world_model::{Fields, NameList, Refusal};

// Whether there is an object of the key.
fn has_key(objects: &Keyspace, key: &Name) -> bool
    ensures { result ≡ list_any (has_key key.now) (objects_in objects.now) }
{
    match objects.collection(key) {
        Some(found) => found.len() > 0,
        None => false,
    }
}

/// The refusal of a command on an object that is not there.
pub fn plan_missing(
    alloc: Global,
    objects: &Keyspace,
    total: u64,
    key: &Name,
) -> Result<Plan, NoMemory>
    requires { AreKept (objects_in objects.now) total }
    ensures { IfOk result (λ p. IsPlan (objects_in objects.now) (missing (world_in objects.now) key.now) p) }
{
    if has_key(objects, key) {
        say_refusal(alloc, total, Refusal::IdNotFound)
    } else {
        say_refusal(alloc, total, Refusal::KeyNotFound)
    }
}

// 0 where the field of this name has the value, else 1.
fn difference(fields: &Fields, name: &Name, value: &Value) -> u64
    ensures { result ≡ (if not (same_value (value_of fields.now name.now) value.now) then 1 else 0) }
{
    u64::from(!has_value(fields, name, value))
}

// How many of these values the fields do not have.
fn changed_given(fields: &Fields, given: &Fields) -> u64
    ensures { result ≡ changed_count fields.now given.now }
{
    let mut count = 0;
    for i in 0..given.len() {
        count += difference(fields, given.name(i), given.value(i));
    }
    count
}

// How many of the fields of these names have a value.
fn changed_cleared(fields: &Fields, cleared: &NameList) -> u64
    ensures { result ≡ changed_count fields.now (given_and_cleared [] cleared.now) }
{
    let mut count = 0;
    let zero = Value::Whole(0);
    for i in 0..cleared.len() {
        count += difference(fields, cleared.at(i), &zero);
    }
    count
}

// How many fields get another value. More of them than a `u64` counts have room in no memory.
fn changed_count(fields: &Fields, given: &Fields, cleared: &NameList) -> Result<u64, NoMemory>
    ensures { IfOk result (λ n. n ≡ changed_count fields.now (given_and_cleared given.now cleared.now)) }
{
    match changed_given(fields, given).checked_add(changed_cleared(fields, cleared)) {
        Some(count) => Ok(count),
        None => Err(NoMemory),
    }
}

/// What FSET will do. Where no value changes, nothing is changed.
pub(crate) fn plan_fset(
    alloc: Global,
    objects: &Keyspace,
    total: u64,
    key: &Name,
    id: &Name,
    given: &Fields,
    cleared: &NameList,
) -> Result<Plan, NoMemory>
    requires { AreKept (objects_in objects.now) total }
    ensures { IfOk result (λ p. (now : ℕ) → IsPlan (objects_in objects.now)
        (effect (world_in objects.now) now []
        (command.Object (of_object.Fset key.now id.now given.now cleared.now))) p) }
{
    let Some(old) = objects.get(key, id) else {
        return plan_missing(alloc, objects, total, key);
    };
    let count = changed_count(&old.fields, given, cleared)?;
    if count == 0 {
        return say_count(alloc, total, 0);
    }
    let mut object = old.copy(alloc)?;
    object.fields = with_values(alloc, old.fields.copy(alloc)?, given, cleared)?;
    if object.fields.len() > MAX_FIELDS {
        // By a call, so that its parts are not proved to be dropped here.
        drop(object);
        return say_refusal(alloc, total, Refusal::TooManyFields);
    }
    plan_put(
        alloc,
        objects,
        total,
        Some(old),
        object,
        false,
        count_frame(alloc, count)?,
    )
}

// The frame of the value of a field, as a bulk string. A field that is missing reads 0.
fn value_frame(alloc: Global, fields: &Fields, name: &Name) -> Result<Text, NoMemory>
    ensures { IfOk result (λ frame. frame ≡ frame_text (value_reply (value_of fields.now name.now))) }
{
    let mut text = Text::new(alloc);
    show_value(fields, name, &mut text)?;
    text_frame(alloc, text.bytes())
}

/// What FGET will do.
pub(crate) fn plan_fget(
    alloc: Global,
    objects: &Keyspace,
    total: u64,
    key: &Name,
    id: &Name,
    field: &Name,
) -> Result<Plan, NoMemory>
    requires { AreKept (objects_in objects.now) total }
    ensures { IfOk result (λ p. (now : ℕ) → IsPlan (objects_in objects.now)
        (effect (world_in objects.now) now [] (command.Object (of_object.Fget key.now id.now field.now))) p) }
{
    let Some(object) = objects.get(key, id) else {
        return plan_missing(alloc, objects, total, key);
    };
    let frame = value_frame(alloc, &object.fields, field)?;
    say_frame(alloc, total, frame)
}
