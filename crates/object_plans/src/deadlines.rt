//! EXPIRE, PERSIST and TTL: the deadline of an object is set, taken away and told.
//!
//! PERSIST is not weighed: its record is shorter than the one it replaces. So its plan is of its own.

ghost use Rattle.std.specs.Prelude.{◌≡◌, ◌≤◌, ℕ, [], IfOk};
ghost use Rattle.world_data.specs.Limits.{max_moment};
ghost use Rattle.world_model.specs.Effects.{effect};
ghost use Rattle.world_model.specs.Replies.{seconds_left};
ghost use Rattle.world_model.specs.declared.commands.Command.TheVariants as command;
ghost use Rattle.world_model.specs.declared.object_commands.ObjectCommand.TheVariants as of_object;
ghost use Rattle.keyspace.specs.Entries.{objects_in};
ghost use Rattle.object_plans.specs.Kept.{AreKept};
ghost use Rattle.object_plans.specs.Moves.{world_in};
ghost use Rattle.object_plans.specs.Plans.{IsPlan, without_deadline};

use crate::answers::{say, say_count};
use crate::plans::Plan;
use crate::puts::{deadline_after, plan_lighter, plan_put};
use byte_text::{Name, NoMemory};
use keyspace::Keyspace;
use reply_text::{count_frame, number_reply};
use std::alloc::Global;
use world_model::Object;

/// What EXPIRE will do.
pub(crate) fn plan_expire(
    alloc: Global,
    objects: &Keyspace,
    total: u64,
    now: u64,
    key: &Name,
    id: &Name,
    seconds: u32,
) -> Result<Plan, NoMemory>
    requires kept { AreKept (objects_in objects.now) total }
    requires moment { now ≤ max_moment }
    ensures { IfOk result (λ p. IsPlan (objects_in objects.now)
        (effect (world_in objects.now) now [] (command.Object (of_object.Expire key.now id.now seconds))) p) }
{
    let Some(old) = objects.get(key, id) else {
        return say_count(alloc, total, 0);
    };
    let mut object = old.copy(alloc)?;
    object.deadline = deadline_after(now, Some(seconds));
    plan_put(
        alloc,
        objects,
        total,
        Some(old),
        object,
        false,
        count_frame(alloc, 1)?,
    )
}

// The seconds until a deadline, rounded up, or -1 without one.
fn seconds_left(now: u64, deadline: Option<u64>) -> i64
    ensures { result ≡ seconds_left now deadline }
{
    let Some(deadline) = deadline else {
        return -1;
    };
    let left = deadline.saturating_sub(now);
    let whole = left / 1000;
    let more = if left % 1000 == 0 { 0 } else { 1 };
    (whole + more) as i64
}

/// What TTL will do.
pub(crate) fn plan_ttl(
    alloc: Global,
    objects: &Keyspace,
    total: u64,
    now: u64,
    key: &Name,
    id: &Name,
) -> Result<Plan, NoMemory>
    requires { AreKept (objects_in objects.now) total }
    ensures { IfOk result (λ p. IsPlan (objects_in objects.now)
        (effect (world_in objects.now) now [] (command.Object (of_object.Ttl key.now id.now))) p) }
{
    match objects.get(key, id) {
        Some(object) => {
            let left = seconds_left(now, object.deadline);
            say(alloc, total, &number_reply(alloc, left)?)
        }
        None => say(alloc, total, &number_reply(alloc, -2)?),
    }
}

// The same object without its deadline, where it has one.
fn without_deadline(alloc: Global, object: &Object) -> Result<Option<Object>, NoMemory>
    ensures { IfOk result (λ o. o ≡ without_deadline object.now) }
{
    if object.deadline.is_none() {
        return Ok(None);
    }
    let mut other = object.copy(alloc)?;
    other.deadline = None;
    Ok(Some(other))
}

/// What PERSIST will do.
pub(crate) fn plan_persist(
    alloc: Global,
    objects: &Keyspace,
    total: u64,
    key: &Name,
    id: &Name,
) -> Result<Plan, NoMemory>
    requires { AreKept (objects_in objects.now) total }
    ensures { IfOk result (λ p. (now : ℕ) → IsPlan (objects_in objects.now)
        (effect (world_in objects.now) now [] (command.Object (of_object.Persist key.now id.now))) p) }
{
    let Some(old) = objects.get(key, id) else {
        return say_count(alloc, total, 0);
    };
    match without_deadline(alloc, old)? {
        Some(object) => {
            let frame = count_frame(alloc, 1)?;
            Ok(plan_lighter(objects, total, old, object, frame))
        }
        None => say_count(alloc, total, 0),
    }
}
