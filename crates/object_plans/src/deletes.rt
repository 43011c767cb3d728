//! DEL, PDEL, DROP and FLUSHDB: objects are taken out.

ghost use Rattle.std.specs.Prelude.{◌≡◌, ◌+◌, ◌≤◌, ℕ, true, [], sum_by, IfOk, OnOk};
ghost use Rattle.byte_text.specs.Globs.{glob_meets, is_well_formed};
ghost use Rattle.world_model.specs.Effects.{effect};
ghost use Rattle.world_model.specs.declared.commands.Command.TheVariants as command;
ghost use Rattle.world_model.specs.declared.object_commands.ObjectCommand.TheVariants as of_object;
ghost use Rattle.keyspace.specs.Entries.{objects_in};
ghost use Rattle.object_plans.specs.Kept.{AreKept, most_kept};
ghost use Rattle.object_plans.specs.Moves.{world_in};
ghost use Rattle.record_writer.specs.Lengths.{HaveFewFields, HasFewFields, len_of};
ghost use Rattle.object_plans.specs.Plans.{IsPlan};
ghost use Rattle.object_plans.specs.Sweeps.{IsSwept, IsSweptOf};

use crate::answers::say_count;
use crate::moves::ObjectChange;
use crate::plans::Plan;
use byte_text::{Name, NoMemory};
use collection::Collection;
use glob_match::glob_meets;
use keyspace::Keyspace;
use record_writer::{del_len, drop_len, flush_len, put_len};
use reply_text::{count_frame, fine_frame};
use std::alloc::Global;
use world_model::{NameList, Object};
use world_store::weight_less;

/// What DEL will do.
pub(crate) fn plan_del(
    alloc: Global,
    objects: &Keyspace,
    total: u64,
    key: Name,
    id: Name,
) -> Result<Plan, NoMemory>
    requires { AreKept (objects_in objects.now) total }
    ensures { IfOk result (λ p. (now : ℕ) → IsPlan (objects_in objects.now)
        (effect (world_in objects.now) now [] (command.Object (of_object.Del key id))) p) }
{
    match objects.get(&key, &id) {
        Some(object) => Ok(Plan {
            frame: count_frame(alloc, 1)?,
            length: del_len(&key, &id),
            weight: total - put_len(object),
            action: ObjectChange::Delete(key, id),
            announced: true,
            closes: false,
        }),
        None => say_count(alloc, total, 0),
    }
}

/// What PDEL takes out: the ids, the bytes of the records of the dels, and the weight of what is left.
#[derive(Drop)]
struct Swept {
    ids: NameList,
    length: u64,
    weight: u64,
}

// Takes note of an object where its id meets the pattern.
fn sweep_one(
    alloc: Global,
    swept: &mut Swept,
    object: &Object,
    pattern: &Name,
) -> Result<(), NoMemory>
    requires pattern { is_well_formed pattern.now ≡ true }
    requires few { HasFewFields object.now }
    requires small { swept.old.length + swept.old.weight ≤ most_kept }
    requires weighed { len_of object.now ≤ swept.old.weight }
    ensures { OnOk result (IsSwept pattern.now object.now swept.old swept.new) }
{
    if !glob_meets(pattern.bytes(), object.id.bytes()) {
        return Ok(());
    }
    if swept.ids.push(object.id.copy(alloc)?).is_err() {
        return Err(NoMemory);
    }
    swept.length += del_len(&object.key, &object.id);
    swept.weight -= put_len(object);
    Ok(())
}

// The objects of a key whose ids meet the pattern, in a world of this weight.
fn sweep(alloc: Global, objects: &Collection, total: u64, pattern: &Name) -> Result<Swept, NoMemory>
    requires pattern { is_well_formed pattern.now ≡ true }
    requires few { HaveFewFields objects.now.objects }
    requires weighed { sum_by len_of objects.now.objects ≤ total }
    requires light { total ≤ most_kept }
    ensures { IfOk result (λ s. IsSweptOf pattern.now objects.now.objects total s) }
{
    let mut swept = Swept {
        ids: NameList::new(alloc),
        length: 0,
        weight: total,
    };
    for i in 0..objects.len() {
        sweep_one(alloc, &mut swept, objects.at(i), pattern)?;
    }
    Ok(swept)
}

/// What PDEL will do.
pub(crate) fn plan_pdel(
    alloc: Global,
    objects: &Keyspace,
    total: u64,
    key: Name,
    pattern: &Name,
) -> Result<Plan, NoMemory>
    requires kept { AreKept (objects_in objects.now) total }
    requires pattern { is_well_formed pattern.now ≡ true }
    ensures { IfOk result (λ p. (now : ℕ) → IsPlan (objects_in objects.now)
        (effect (world_in objects.now) now [] (command.Object (of_object.Pdel key pattern.now))) p) }
{
    let Some(found) = objects.collection(&key) else {
        return say_count(alloc, total, 0);
    };
    let swept = sweep(alloc, found, total, pattern)?;
    let count = swept.ids.len() as u64;
    Ok(Plan {
        frame: count_frame(alloc, count)?,
        action: ObjectChange::DeleteEach(key, swept.ids),
        announced: true,
        length: swept.length,
        weight: swept.weight,
        closes: false,
    })
}

/// What DROP will do.
pub(crate) fn plan_drop(
    alloc: Global,
    objects: &Keyspace,
    total: u64,
    key: Name,
) -> Result<Plan, NoMemory>
    requires { AreKept (objects_in objects.now) total }
    ensures { IfOk result (λ p. (now : ℕ) → IsPlan (objects_in objects.now)
        (effect (world_in objects.now) now [] (command.Object (of_object.Drop key))) p) }
{
    let Some(found) = objects.collection(&key) else {
        return say_count(alloc, total, 0);
    };
    if found.len() == 0 {
        return say_count(alloc, total, 0);
    }
    let weight = weight_less(total, found);
    Ok(Plan {
        frame: count_frame(alloc, 1)?,
        length: drop_len(&key),
        action: ObjectChange::DropKey(key),
        announced: true,
        weight,
        closes: false,
    })
}

/// What FLUSHDB will do.
pub(crate) fn plan_flush(alloc: Global, _objects: &Keyspace) -> Result<Plan, NoMemory>
    ensures { IfOk result (λ p. (now : ℕ)
        → IsPlan (objects_in _objects.now) (effect (world_in _objects.now) now [] (command.Object of_object.Flush)) p) }
{
    Ok(Plan {
        frame: fine_frame(alloc)?,
        action: ObjectChange::Clear,
        announced: false,
        length: flush_len(),
        weight: 0,
        closes: false,
    })
}
