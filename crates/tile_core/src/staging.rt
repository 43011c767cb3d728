//! What writes bring to the sessions that listen, staged before anything is placed. The steps count the nodes of trees
//! that are visited to find out.
//!
//! What a call brings is staged in the order of its writes, the deletions of what is due first, and placed before the
//! caller's reply. No request both subscribes and changes something, so the order of a caller's own messages and
//! replies is never asked.

ghost use Rattle.std.specs.Prelude.{◌≡◌, ◌∷◌, [], true, false, map, IfOk, OnOk};
ghost use Rattle.std.specs.List.{list_all};
ghost use Rattle.world_data.specs.Sound.{is_sound_channel};
ghost use Rattle.world_data.specs.declared.worlds.Change.TheVariants as change;
ghost use Rattle.world_data.specs.Expiry.{deadline_of};
ghost use Rattle.fence_model.specs.Writes.{announced};
ghost use Rattle.keyspace.specs.Entries.{objects_in};
ghost use Rattle.session_table.specs.Sessions.{session_of};
ghost use Rattle.message_fanout.specs.Stagings.{IsBeforeDel, IsStagedIn, those_left};
ghost use Rattle.object_plans.specs.Moves.{AllThere, HaveAllThere, world_with};
ghost use Rattle.object_plans.specs.Plans.{writes_of};
ghost use Rattle.tile_core.specs.Ready.{HoldsOfObjects, planned_writes};
ghost use Rattle.tile_core.specs.Staged.{AreStagedEach, StagesBehind, dels_of};

use crate::growths::{Growths, grown};
use byte_text::{Name, NoMemory};
use channel_hub::Hub;
use command_plans::{ObjectChange, Planned};
use keyspace::Keyspace;
use message_fanout::{stage_del, stage_drop, stage_put, turn_laws};
use rtree::{Steps, Visits};
use session_table::Session;
use std::alloc::Global;
use world_model::{NameList, Object};

// Stages what the del of an object by its deadline brings: channels whose deadlines come before it have gone then.
fn stage_due<G: Growths>(
    alloc: Global,
    hub: &Hub,
    object: &Object,
    sessions: &mut Vec<Session>,
    steps: &mut Steps<Visits>,
    growths: &mut G,
) -> Result<(), NoMemory>
    requires { list_all is_sound_channel hub.now.channels ≡ true }
    ensures same { map session_of sessions.new.items ≡ map session_of sessions.old.items }
    ensures staged { OnOk result
        (IsStagedIn (IsBeforeDel (those_left (deadline_of object.now.deadline) hub.now.channels) object.now)
        (announced (change.Del object.now.key object.now.id)) sessions.old.items sessions.new.items) }
{
    let gone_before = object.deadline.unwrap_or(0);
    grown(growths)?;
    stage_del(alloc, hub, sessions, object, gone_before, steps)
}

/// Stages what the dels of objects by their deadlines bring, one after another. For want of memory a part may be
/// staged.
pub(crate) fn stage_dels<G: Growths>(
    alloc: Global,
    hub: &Hub,
    held: &[Object],
    sessions: &mut Vec<Session>,
    steps: &mut Steps<Visits>,
    growths: &mut G,
) -> Result<(), NoMemory>
    requires { list_all is_sound_channel hub.now.channels ≡ true }
    ensures same { map session_of sessions.new.items ≡ map session_of sessions.old.items }
    ensures staged { OnOk result
        (AreStagedEach hub.now.channels held.now sessions.old.items sessions.new.items) }
{
    for i in 0..held.len() {
        stage_due(alloc, hub, &held[i], sessions, steps, growths)?;
    }
    Ok(())
}

// Stages what the dels of the objects of a key that have these ids bring.
fn stage_each<G: Growths>(
    alloc: Global,
    hub: &Hub,
    objects: &Keyspace,
    key: &Name,
    ids: &NameList,
    sessions: &mut Vec<Session>,
    steps: &mut Steps<Visits>,
    growths: &mut G,
) -> Result<(), NoMemory>
    requires sound { list_all is_sound_channel hub.now.channels ≡ true }
    requires there { AllThere key.now ids.now (objects_in objects.now) }
    ensures same { map session_of sessions.new.items ≡ map session_of sessions.old.items }
    ensures staged { OnOk result (StagesBehind (world_with hub.now.channels (objects_in objects.now))
        (dels_of key.now ids.now) sessions.old.items sessions.new.items) }
{
    for i in 0..ids.len() {
        if let Some(object) = objects.get(key, ids.at(i)) {
            grown(growths)?;
            stage_del(alloc, hub, sessions, object, 0, steps)?;
        }
    }
    Ok(())
}

// Stages what the del of the object of a key and an id brings.
fn stage_one<G: Growths>(
    alloc: Global,
    hub: &Hub,
    objects: &Keyspace,
    key: &Name,
    id: &Name,
    sessions: &mut Vec<Session>,
    steps: &mut Steps<Visits>,
    growths: &mut G,
) -> Result<(), NoMemory>
    requires sound { list_all is_sound_channel hub.now.channels ≡ true }
    requires there { AllThere key.now (id.now ∷ []) (objects_in objects.now) }
    ensures same { map session_of sessions.new.items ≡ map session_of sessions.old.items }
    ensures staged { OnOk result (StagesBehind (world_with hub.now.channels (objects_in objects.now)) (announced
        (change.Del key.now id.now) ∷ []) sessions.old.items sessions.new.items) }
{
    // A law, of which nothing is left at run time.
    turn_laws();
    if hub.len() == 0 {
        return Ok(());
    }
    match objects.recall(key, id) {
        Some(object) => {
            grown(growths)?;
            stage_del(alloc, hub, sessions, object, 0, steps)
        }
        None => Ok(()),
    }
}

// Stages what the put of an object brings, told to those who watch where it is announced, and answers whether somebody
// may be told.
fn stage_object<G: Growths>(
    alloc: Global,
    hub: &Hub,
    objects: &Keyspace,
    object: &Object,
    announced: bool,
    sessions: &mut Vec<Session>,
    steps: &mut Steps<Visits>,
    growths: &mut G,
) -> Result<bool, NoMemory>
    requires { list_all is_sound_channel hub.now.channels ≡ true }
    ensures same { map session_of sessions.new.items ≡ map session_of sessions.old.items }
    ensures staged { OnOk result (StagesBehind (world_with hub.now.channels (objects_in objects.now))
        (record { change = change.Put object.now; announced = announced } ∷ []) sessions.old.items sessions.new.items) }
    ensures quiet { IfOk result (λ told. told ≡ false → sessions.new ≡ sessions.old) }
{
    // A law, of which nothing is left at run time.
    turn_laws();
    if !announced {
        return Ok(false);
    }
    // Where no channel stands nobody is told, and the object's place need not be sought again.
    if hub.len() == 0 {
        return Ok(false);
    }
    let old = objects.recall(&object.key, &object.id);
    grown(growths)?;
    stage_put(alloc, hub, objects, sessions, old, object, steps)
}

// Stages what a move of the objects brings, and answers whether somebody may be told.
fn stage_move<G: Growths>(
    alloc: Global,
    hub: &Hub,
    objects: &Keyspace,
    action: &ObjectChange,
    announced: bool,
    sessions: &mut Vec<Session>,
    steps: &mut Steps<Visits>,
    growths: &mut G,
) -> Result<bool, NoMemory>
    requires sound { list_all is_sound_channel hub.now.channels ≡ true }
    requires there { HaveAllThere (objects_in objects.now) action.now }
    ensures same { map session_of sessions.new.items ≡ map session_of sessions.old.items }
    ensures staged { OnOk result (StagesBehind (world_with hub.now.channels (objects_in objects.now))
        (writes_of action.now announced) sessions.old.items sessions.new.items) }
    ensures quiet { IfOk result (λ told. told ≡ false → sessions.new ≡ sessions.old) }
{
    // A law, of which nothing is left at run time.
    turn_laws();
    match action {
        ObjectChange::Stay | ObjectChange::Clear => Ok(false),
        ObjectChange::Put(object) => stage_object(
            alloc, hub, objects, object, announced, sessions, steps, growths,
        ),
        ObjectChange::Delete(key, id) => {
            stage_one(alloc, hub, objects, key, id, sessions, steps, growths)?;
            Ok(true)
        }
        ObjectChange::DeleteEach(key, ids) => {
            stage_each(alloc, hub, objects, key, ids, sessions, steps, growths)?;
            Ok(true)
        }
        ObjectChange::DropKey(key) => {
            grown(growths)?;
            stage_drop(alloc, hub, sessions, key)?;
            Ok(true)
        }
    }
}

/// Stages what a request brings, behind what is due, and answers whether somebody may be told: where nobody is, no
/// session is looked at. Changes of channels bring nothing. For want of memory a part may be staged.
pub(crate) fn stage_planned<G: Growths>(
    alloc: Global,
    hub: &Hub,
    objects: &Keyspace,
    planned: &Planned,
    sessions: &mut Vec<Session>,
    steps: &mut Steps<Visits>,
    growths: &mut G,
) -> Result<bool, NoMemory>
    requires sound { list_all is_sound_channel hub.now.channels ≡ true }
    requires there { HoldsOfObjects (HaveAllThere (objects_in objects.now)) planned.now }
    ensures same { map session_of sessions.new.items ≡ map session_of sessions.old.items }
    ensures staged { OnOk result (StagesBehind (world_with hub.now.channels (objects_in objects.now))
        (planned_writes planned.now) sessions.old.items sessions.new.items) }
    ensures quiet { IfOk result (λ told. told ≡ false → sessions.new ≡ sessions.old) }
{
    // A law, of which nothing is left at run time.
    turn_laws();
    match planned {
        Planned::Objects(plan) => {
            stage_move(
                alloc,
                hub,
                objects,
                &plan.action,
                plan.announced,
                sessions,
                steps,
                growths,
            )
        }
        Planned::Channels(_plan) => Ok(false),
        Planned::Subscribed(_) => Ok(false),
    }
}
