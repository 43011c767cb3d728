//! GET, BOUNDS and STATS: objects are read.

ghost use Rattle.std.specs.Prelude.{◌≡◌, ◌≢◌, ℕ, [], map, sum_by, IfOk};
ghost use Rattle.std.specs.List.{AllByRecursion};
ghost use Rattle.byte_text.specs.Replies.{IsFrame, frame_text};
ghost use Rattle.planar_geom.specs.Shapes.{positions};
ghost use Rattle.world_data.specs.Worlds.{objects_of};
ghost use Rattle.world_model.specs.Effects.{effect};
ghost use Rattle.world_model.specs.Replies.{stats_of_key, bounds_of_key};
ghost use Rattle.world_model.specs.declared.commands.Command.TheVariants as command;
ghost use Rattle.world_model.specs.declared.object_commands.ObjectCommand.TheVariants as of_object;
ghost use Rattle.reply_text.specs.Gets.{get_pieces};
ghost use Rattle.keyspace.specs.Entries.{objects_in};
ghost use Rattle.object_plans.specs.Kept.{AreKept};
ghost use Rattle.object_plans.specs.Moves.{world_in};
ghost use Rattle.object_plans.specs.Plans.{IsPlan};

use crate::answers::{say, say_frame};
use crate::frames::text_frame_in;
use crate::plans::Plan;
use byte_text::{Name, NoMemory, Reply, Text};
use collection::Collection;
use keyspace::Keyspace;
use reply_text::{ReplyList, bounds_reply, get_frame, null_frame, stats_reply};
use std::alloc::Global;
use world_model::{NameList, Object, Shown};

// The frame of the answer to GET for an object that is there. Its text alone stands in the memory of `spare`.
fn shown_frame(
    alloc: Global,
    object: &Object,
    with_fields: bool,
    shown: Shown,
    spare: &mut Text,
) -> Result<Text, NoMemory>
    requires { shown ≢ Shown.Count }
    ensures { IfOk result (λ frame. frame ≡ frame_text (get_pieces with_fields shown object.now)) }
{
    match (with_fields, shown) {
        (false, Shown::Objects) => text_frame_in(alloc, spare, object.text.bytes()),
        _ => get_frame(alloc, object, with_fields, shown),
    }
}

/// What GET will do. An object's text alone is answered in the memory of `spare`.
pub(crate) fn plan_get(
    alloc: Global,
    objects: &Keyspace,
    total: u64,
    key: &Name,
    id: &Name,
    with_fields: bool,
    shown: Shown,
    spare: &mut Text,
) -> Result<Plan, NoMemory>
    requires kept { AreKept (objects_in objects.now) total }
    requires shown { shown ≢ Shown.Count }
    ensures { IfOk result (λ p. (now : ℕ) → IsPlan (objects_in objects.now)
        (effect (world_in objects.now) now [] (command.Object (of_object.Get key.now id.now with_fields shown))) p) }
{
    match objects.get(key, id) {
        Some(object) => {
            let frame = shown_frame(alloc, object, with_fields, shown, spare)?;
            say_frame(alloc, total, frame)
        }
        None => say_frame(alloc, total, null_frame(alloc)?),
    }
}

// The bounds of a key.
fn bounds_of(alloc: Global, objects: &Keyspace, key: &Name) -> Result<Reply, NoMemory>
    ensures value { IfOk result (λ reply. reply ≡ bounds_of_key (objects_of (world_in objects.now) key.now)) }
    ensures frame { IfOk result IsFrame }
{
    match objects.collection(key) {
        Some(found) => bounds_reply(alloc, found.bounds()),
        None => bounds_reply(alloc, None),
    }
}

/// What BOUNDS will do.
pub(crate) fn plan_bounds(
    alloc: Global,
    objects: &Keyspace,
    total: u64,
    key: &Name,
) -> Result<Plan, NoMemory>
    requires { AreKept (objects_in objects.now) total }
    ensures { IfOk result (λ p. (now : ℕ) → IsPlan (objects_in objects.now)
        (effect (world_in objects.now) now [] (command.Object (of_object.Bounds key.now))) p) }
{
    let reply = bounds_of(alloc, objects, key)?;
    say(alloc, total, &reply)
}

// How many positions the objects of a key have. More of them than a `u64` counts have room in no memory.
fn positions_of(objects: &Collection) -> Result<u64, NoMemory>
    ensures { IfOk result (λ n. n ≡ sum_by (λ o. positions o.shape) objects.now.objects) }
{
    let mut count: u64 = 0;
    for i in 0..objects.len() {
        let Some(more) = count.checked_add(objects.at(i).shape.positions()) else {
            return Err(NoMemory);
        };
        count = more;
    }
    Ok(count)
}

// What STATS says of one key.
fn stats_of(alloc: Global, objects: &Keyspace, key: &Name) -> Result<Reply, NoMemory>
    ensures value { IfOk result (λ reply. reply ≡ stats_of_key (objects_of (world_in objects.now) key.now)) }
    ensures frame { IfOk result IsFrame }
{
    match objects.collection(key) {
        Some(found) => stats_reply(alloc, found.len() as u64, positions_of(found)?),
        None => stats_reply(alloc, 0, 0),
    }
}

// What STATS says of each key.
fn stats_of_each(alloc: Global, objects: &Keyspace, keys: &NameList) -> Result<ReplyList, NoMemory>
    ensures value { IfOk result (λ replies. replies
        ≡ map (λ key. stats_of_key (objects_of (world_in objects.now) key)) keys.now) }
    ensures frames { IfOk result (λ replies. AllByRecursion IsFrame replies) }
{
    let mut replies = ReplyList::new(alloc);
    for i in 0..keys.len() {
        replies.push(stats_of(alloc, objects, keys.at(i))?)?;
    }
    Ok(replies)
}

/// What STATS will do.
pub(crate) fn plan_stats(
    alloc: Global,
    objects: &Keyspace,
    total: u64,
    keys: &NameList,
) -> Result<Plan, NoMemory>
    requires { AreKept (objects_in objects.now) total }
    ensures { IfOk result (λ p. (now : ℕ) → IsPlan (objects_in objects.now)
        (effect (world_in objects.now) now [] (command.Object (of_object.Stats keys.now))) p) }
{
    let reply = stats_of_each(alloc, objects, keys)?.array(alloc)?;
    say(alloc, total, &reply)
}
