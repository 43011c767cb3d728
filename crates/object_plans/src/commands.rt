//! What a command on objects will do, beside the channels of its world.

ghost use Rattle.std.specs.Prelude.{◌≡◌, ◌+◌, ◌*◌, ◌≤◌, ℕ, List, [], true, length, IfOk};
ghost use Rattle.byte_text.specs.Requests.{max_words};
ghost use Rattle.world_data.specs.Limits.{max_moment};
ghost use Rattle.world_data.specs.declared.channels.Channel.{Channel};
ghost use Rattle.world_model.specs.Effects.{effect};
ghost use Rattle.world_model.specs.declared.commands.Command.TheVariants as family;
ghost use Rattle.world_model.specs.declared.object_commands.ObjectCommand.TheVariants as of_object;
ghost use Rattle.keyspace.specs.Entries.{objects_in};
ghost use Rattle.object_plans.specs.Asking.{IsAsked};
ghost use Rattle.object_plans.specs.Beside.{channels_weight, is_weighed, IsCounted, IsPlanBeside};
ghost use Rattle.object_plans.specs.Kept.{AreKept, most_kept};
ghost use Rattle.object_plans.specs.Moves.{world_in, world_with};
ghost use Rattle.object_plans.specs.Plans.{IsPlan};

use crate::answers::say_frame;
use crate::beside::beside_channels;
use crate::changes::{plan_fget, plan_fset};
use crate::contexts::ObjectContext;
use crate::deadlines::{plan_expire, plan_persist, plan_ttl};
use crate::deletes::{plan_del, plan_drop, plan_flush, plan_pdel};
use crate::listings::plan_keys;
use crate::plans::Plan;
use crate::puts::{Terms, plan_set};
use crate::reads::{plan_bounds, plan_get, plan_stats};
use byte_text::{MAX_WORDS, NoMemory, Text};
use keyspace::Keyspace;
use reply_text::fine_frame;
use std::alloc::Global;
use world_model::{Fields, NameList, Object, ObjectCommand};

// What AOFSHRINK will do: it answers alone, since the log is rewritten beside the calls.
fn plan_shrink(alloc: Global, _objects: &Keyspace, total: u64) -> Result<Plan, NoMemory>
    requires { AreKept (objects_in _objects.now) total }
    ensures { IfOk result (λ p. (now : ℕ) → IsPlan (objects_in _objects.now)
        (effect (world_in _objects.now) now [] (family.Object of_object.Shrink)) p) }
{
    say_frame(alloc, total, fine_frame(alloc)?)
}

// What a command on objects will do in a world without channels.
fn plan_alone(
    alloc: Global,
    context: ObjectContext<'_>,
    command: ObjectCommand,
    spare: &mut Text,
) -> Result<Plan, NoMemory>
    requires kept { AreKept (objects_in context.objects.now) context.total }
    requires moment { context.now ≤ max_moment }
    requires asked { IsAsked command }
    ensures { IfOk result (λ p. IsPlan (objects_in context.entry.objects.now)
        (effect (world_in context.entry.objects.now) context.entry.now [] (family.Object command)) p) }
{
    let ObjectContext {
        objects,
        total,
        now,
        ..
    } = context;
    match command {
        ObjectCommand::Set {
            key,
            id,
            fields,
            cleared,
            seconds,
            only,
            text,
            shape,
        } => {
            let object = Object {
                key,
                id,
                text,
                shape,
                fields,
                deadline: None,
            };
            let terms = Terms {
                cleared,
                seconds,
                only,
            };
            plan_set(alloc, objects, total, now, terms, object, spare)
        }
        ObjectCommand::Get {
            key,
            id,
            with_fields,
            shown,
        } => plan_get(alloc, objects, total, &key, &id, with_fields, shown, spare),
        ObjectCommand::Del { key, id } => plan_del(alloc, objects, total, key, id),
        ObjectCommand::Drop { key } => plan_drop(alloc, objects, total, key),
        ObjectCommand::Pdel { key, glob } => plan_pdel(alloc, objects, total, key, &glob),
        ObjectCommand::Fset {
            key,
            id,
            fields,
            cleared,
        } => plan_fset(alloc, objects, total, &key, &id, &fields, &cleared),
        ObjectCommand::Fget { key, id, field } => {
            plan_fget(alloc, objects, total, &key, &id, &field)
        }
        ObjectCommand::Expire { key, id, seconds } => {
            plan_expire(alloc, objects, total, now, &key, &id, seconds)
        }
        ObjectCommand::Persist { key, id } => plan_persist(alloc, objects, total, &key, &id),
        ObjectCommand::Ttl { key, id } => plan_ttl(alloc, objects, total, now, &key, &id),
        ObjectCommand::Keys { glob } => plan_keys(alloc, objects, total, &glob),
        ObjectCommand::Bounds { key } => plan_bounds(alloc, objects, total, &key),
        ObjectCommand::Stats { keys } => plan_stats(alloc, objects, total, &keys),
        ObjectCommand::Flush => plan_flush(alloc, objects),
        ObjectCommand::Shrink => plan_shrink(alloc, objects, total),
    }
}

// Whether so few values are given and cleared that they are words of one request.
fn are_few(given: &Fields, cleared: &NameList) -> bool
    ensures { result ≡ true → length given.now + length cleared.now ≤ 2 * max_words }
{
    if given.len() > MAX_WORDS {
        return false;
    }
    cleared.len() <= MAX_WORDS
}

// Whether the values that FSET changes are few.
fn is_counted(_objects: &Keyspace, command: &ObjectCommand) -> bool
    ensures { result ≡ true → IsCounted (objects_in _objects.now) command.now }
{
    match command {
        ObjectCommand::Fset {
            fields,
            cleared,
            ..
        } => are_few(fields, cleared),
        _ => true,
    }
}

// Whether the command is refused where its put leaves the world too heavy. PERSIST, which puts an object too, makes
// none heavier.
fn is_weighed(command: &ObjectCommand) -> bool
    ensures { result ≡ is_weighed command.now }
{
    matches!(
        command,
        ObjectCommand::Set { .. } | ObjectCommand::Fset { .. } | ObjectCommand::Expire { .. }
    )
}

/// What a command on objects will do beside channels of the context's weight: a put for which they leave no room is
/// refused. A frame may stand in the memory of `spare`.
pub fn plan_object(
    alloc: Global,
    context: ObjectContext<'_>,
    command: ObjectCommand,
    spare: &mut Text,
) -> Result<Plan, NoMemory>
    requires kept { AreKept (objects_in context.objects.now) context.total }
    requires light { context.total + context.channels ≤ most_kept }
    requires moment { context.now ≤ max_moment }
    requires asked { IsAsked command }
    ensures { IfOk result (λ p. (cs : List Channel) → context.entry.channels ≡ channels_weight cs
        → IsPlanBeside cs (objects_in context.entry.objects.now)
        (effect (world_with cs (objects_in context.entry.objects.now)) context.entry.now []
        (family.Object command)) p) }
{
    // More values than a request has words have room in no memory.
    if !is_counted(context.objects, &command) {
        // By a call, so that the parts of a command are not proved to be dropped here.
        drop(command);
        return Err(NoMemory);
    }
    let is_weighed = is_weighed(&command);
    let plan = plan_alone(alloc, context, command, spare)?;
    if !is_weighed {
        return Ok(plan);
    }
    beside_channels(
        alloc,
        context.objects,
        context.total,
        context.channels,
        plan,
    )
}
