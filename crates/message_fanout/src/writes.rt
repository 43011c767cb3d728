//! What a write raises, staged for the sessions that hear it: on the channels alone that it may concern, in order of
//! their names.

ghost use Rattle.std.specs.Prelude.{◌≡◌, true, false, flat_map, map, option_map, Some, IfOk, OnOk};
ghost use Rattle.std.specs.List.{list_all};
ghost use Rattle.world_data.specs.Sound.{is_sound_channel};
ghost use Rattle.world_data.specs.Worlds.{object_at};
ghost use Rattle.world_data.specs.declared.worlds.World.{World};
ghost use Rattle.world_data.specs.declared.worlds.Change.TheVariants.{Put, Del, Drop};
ghost use Rattle.fence_model.specs.Writes.{announced};
ghost use Rattle.channel_hub.specs.MessageLaws.{messages_on};
ghost use Rattle.keyspace.specs.Entries.{objects_in};
ghost use Rattle.session_table.specs.Sessions.{session_of};
ghost use Rattle.session_table.specs.Fans.{AreBrought};
ghost use Rattle.byte_text.specs.Globs.{is_sound_glob};
ghost use Rattle.message_fanout.specs.Stagings.{IsBeforePut, IsBeforeDel, IsBeforeDrop, IsStagedIn};
ghost use Rattle.message_fanout.specs.Stagings.{is_gone, messages_by, those_left};

use crate::raises::{either, stage_del_on, stage_drop_on, stage_put_on};
use byte_text::{Name, NoMemory};
use channel_hub::{Candidates, Hub};
use keyspace::Keyspace;
use rtree::{Ledger, Steps};
use session_table::Session;
use std::alloc::Global;
use world_data::{Channel, Object};

// Stages what a put raises on these channels.
fn stage_put_at<L: Ledger>(
    alloc: Global,
    candidates: &Candidates<'_>,
    objects: &Keyspace,
    sessions: &mut Vec<Session>,
    old: Option<&Object>,
    new: &Object,
    steps: &mut Steps<L>,
) -> Result<bool, NoMemory>
    requires { list_all is_sound_channel candidates.now ≡ true }
    ensures same { map session_of sessions.new.items ≡ map session_of sessions.old.items }
    ensures staged { OnOk result ((w : World) → w.objects ≡ objects_in objects.now
        → object_at w new.now.key new.now.id ≡ option_map (λ o. o.now) old.entry
        → AreBrought (flat_map (messages_on w (Put new.now)) candidates.now)
        sessions.old.items sessions.new.items) }
    ensures quiet { IfOk result (λ told. told ≡ false → sessions.new ≡ sessions.old) }
{
    let mut is_told = false;
    for i in 0..candidates.len() {
        let told = stage_put_on(alloc, candidates.at(i), objects, sessions, old, new, steps)?;
        is_told = either(is_told, told);
    }
    Ok(is_told)
}

/// Stages all that the put of an object raises, behind what is staged: `old` is the object of its key and id before it,
/// and `objects` are all objects then, so that it is asked before the object is put. It answers whether something is
/// raised; where nothing is, no session is looked at. For want of memory a part may be staged. The steps rise by the
/// nodes that are visited to find the channels, and what is near for those that roam.
pub fn stage_put<L: Ledger>(
    alloc: Global,
    hub: &Hub,
    objects: &Keyspace,
    sessions: &mut Vec<Session>,
    old: Option<&Object>,
    new: &Object,
    steps: &mut Steps<L>,
) -> Result<bool, NoMemory>
    requires { list_all is_sound_channel hub.now.channels ≡ true }
    ensures same { map session_of sessions.new.items ≡ map session_of sessions.old.items }
    ensures staged { OnOk result
        (IsStagedIn (IsBeforePut hub.now.channels (objects_in objects.now) (option_map (λ o. o.now) old.entry) new.now)
        (announced (Put new.now)) sessions.old.items sessions.new.items) }
    ensures quiet { IfOk result (λ told. told ≡ false → sessions.new ≡ sessions.old) }
{
    let candidates = hub.candidates_of_put(alloc, old, new, steps)?;
    stage_put_at(alloc, &candidates, objects, sessions, old, new, steps)
}

// The channel has a deadline before this moment.
fn has_gone(channel: &Channel, gone_before: u64) -> bool
    ensures { result ≡ is_gone gone_before channel.now }
{
    match channel.deadline {
        Some(deadline) => deadline < gone_before,
        None => false,
    }
}

// Stages what a del raises on a channel, where it has not gone before this moment.
fn stage_del_by(
    alloc: Global,
    channel: &Channel,
    sessions: &mut Vec<Session>,
    old: &Object,
    gone_before: u64,
) -> Result<(), NoMemory>
    requires { is_sound_glob channel.now.fence.glob ≡ true }
    ensures same { map session_of sessions.new.items ≡ map session_of sessions.old.items }
    ensures staged { OnOk result ((w : World) → object_at w old.now.key old.now.id ≡ Some old.now
        → AreBrought (messages_by gone_before w (Del old.now.key old.now.id) channel.now)
        sessions.old.items sessions.new.items) }
{
    if has_gone(channel, gone_before) {
        return Ok(());
    }
    stage_del_on(alloc, channel, sessions, old)
}

// Stages what a del raises on those of these channels that have not gone before this moment.
fn stage_del_at(
    alloc: Global,
    concerned: &Candidates<'_>,
    sessions: &mut Vec<Session>,
    old: &Object,
    gone_before: u64,
) -> Result<(), NoMemory>
    requires { list_all is_sound_channel concerned.now ≡ true }
    ensures same { map session_of sessions.new.items ≡ map session_of sessions.old.items }
    ensures staged { OnOk result ((w : World) → object_at w old.now.key old.now.id ≡ Some old.now
        → AreBrought (flat_map (messages_by gone_before w (Del old.now.key old.now.id)) concerned.now)
        sessions.old.items sessions.new.items) }
{
    for i in 0..concerned.len() {
        stage_del_by(alloc, concerned.at(i), sessions, old, gone_before)?;
    }
    Ok(())
}

/// Stages all that the del of an object raises after the channels have gone whose deadlines come before a moment,
/// behind what is staged. Those may still stand in the hub, and are left out; 0 leaves out none. It asks for the object
/// alone, which may be taken out of the objects before or after: a channel that roams raises nothing at a del. For want
/// of memory a part may be staged. The steps rise by the nodes that are visited to find the channels.
pub fn stage_del<L: Ledger>(
    alloc: Global,
    hub: &Hub,
    sessions: &mut Vec<Session>,
    old: &Object,
    gone_before: u64,
    steps: &mut Steps<L>,
) -> Result<(), NoMemory>
    requires { list_all is_sound_channel hub.now.channels ≡ true }
    ensures same { map session_of sessions.new.items ≡ map session_of sessions.old.items }
    ensures staged { OnOk result
        (IsStagedIn (IsBeforeDel (those_left gone_before hub.now.channels) old.now)
        (announced (Del old.now.key old.now.id)) sessions.old.items sessions.new.items) }
{
    let concerned = hub.candidates_of_del(alloc, old, steps)?;
    stage_del_at(alloc, &concerned, sessions, old, gone_before)
}

// Stages what the drop of its key raises on each of these channels.
fn stage_drop_at(
    alloc: Global,
    watching: &Candidates<'_>,
    sessions: &mut Vec<Session>,
) -> Result<(), NoMemory>
    ensures same { map session_of sessions.new.items ≡ map session_of sessions.old.items }
    ensures staged { OnOk result ((w : World)
        → AreBrought (flat_map (λ c. messages_on w (Drop c.fence.key) c) watching.now)
        sessions.old.items sessions.new.items) }
{
    for i in 0..watching.len() {
        stage_drop_on(alloc, watching.at(i), sessions)?;
    }
    Ok(())
}

/// Stages all that the drop of a key raises, behind what is staged. It asks for no object. For want of memory a part
/// may be staged.
pub fn stage_drop(
    alloc: Global,
    hub: &Hub,
    sessions: &mut Vec<Session>,
    key: &Name,
) -> Result<(), NoMemory>
    ensures same { map session_of sessions.new.items ≡ map session_of sessions.old.items }
    ensures staged { OnOk result
        (IsStagedIn (IsBeforeDrop hub.now.channels) (announced (Drop key.now)) sessions.old.items sessions.new.items) }
{
    let watching = hub.of_key(alloc, key)?;
    stage_drop_at(alloc, &watching, sessions)
}
