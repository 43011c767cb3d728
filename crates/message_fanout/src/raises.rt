//! What a change raises on one channel, staged for the sessions that hear it. Of a put it is answered whether something
//! was raised: where nothing is, no session is looked at.

ghost use Rattle.std.specs.Prelude.{◌≡◌, ◌||◌, ◌∷◌, [], true, false, find, map, option_map, List, Some, None, IfOk, OnOk};
ghost use Rattle.std.specs.List.{AllByRecursion};
ghost use Rattle.byte_text.specs.Globs.{is_sound_glob};
ghost use Rattle.world_data.specs.Sound.{is_sound_watch};
ghost use Rattle.world_data.specs.Worlds.{object_at};
ghost use Rattle.world_data.specs.declared.objects.Object.{Object};
ghost use Rattle.world_data.specs.declared.channels.Detect.{Detect};
ghost use Rattle.world_data.specs.declared.worlds.World.{World};
ghost use Rattle.world_data.specs.declared.worlds.Change.TheVariants.{Put, Del, Drop};
ghost use Rattle.fence_model.specs.Messages.{roam_payload};
ghost use Rattle.fence_table.specs.Pairs.{items};
ghost use Rattle.collection.specs.Objects.{has_id};
ghost use Rattle.keyspace.specs.Entries.{objects_in};
ghost use Rattle.message_text.specs.Payloads.{has_objects, payload_of};
ghost use Rattle.channel_hub.specs.MessageLaws.{messages_on};
ghost use Rattle.session_table.specs.Sessions.{session_of};
ghost use Rattle.session_table.specs.Fans.{AreBrought};
ghost use Rattle.roam_fence.specs.Pairs.{shown};
ghost use Rattle.message_fanout.specs.Raises.{ArePairs, sent, payloads_of, area_payloads, roam_payloads, detect_of};

use byte_text::{Name, NoMemory, Text};
use collection::Collection;
use fence_table::{Pair, raised};
use keyspace::Keyspace;
use message_text::push_message;
use roam_fence::{RoamList, near_pairs};
use rtree::{Ledger, Steps};
use session_table::{Session, stage_message};
use std::alloc::Global;
use world_data::{Channel, Detect, Object, Raised, Watch};

// Most payloads have fewer bytes, so that their text takes memory once.
const ROOM: usize = 256;

/// Whether one of two is so.
pub(crate) fn either(first: bool, second: bool) -> bool
    ensures { result ≡ (first || second) }
{
    first || second
}

// Stages the message of one thing that is raised.
fn stage_raised(
    alloc: Global,
    channel: &Channel,
    sessions: &mut Vec<Session>,
    raised: Raised,
    object: Option<&Object>,
    other: Option<&Object>,
) -> Result<bool, NoMemory>
    requires { has_objects raised (option_map (λ o. o.now) object) (option_map (λ o. o.now) other) ≡ true }
    ensures same { map session_of sessions.new.items ≡ map session_of sessions.old.items }
    ensures staged { OnOk result (AreBrought
        (sent channel.now (payload_of channel.now raised (option_map (λ o. o.now) object.entry)
        (option_map (λ o. o.now) other.entry) ∷ []))
        sessions.old.items sessions.new.items) }
    ensures quiet { IfOk result (λ told. told ≡ false → sessions.new ≡ sessions.old) }
{
    let mut payload = Text::with_room(alloc, ROOM)?;
    push_message(&mut payload, channel, raised, object, other)?;
    stage_message(alloc, sessions, &channel.name, &payload)?;
    Ok(true)
}

// Stages the message of what is raised on one object, where something is.
fn stage_item(
    alloc: Global,
    channel: &Channel,
    sessions: &mut Vec<Session>,
    raised: Option<Raised>,
    object: &Object,
) -> Result<bool, NoMemory>
    requires { AllByRecursion (λ r. has_objects r (Some object.now) None ≡ true) (items raised None) }
    ensures same { map session_of sessions.new.items ≡ map session_of sessions.old.items }
    ensures staged { OnOk result (AreBrought (sent channel.now (payloads_of channel.now object.now (items raised None)))
        sessions.old.items sessions.new.items) }
    ensures quiet { IfOk result (λ told. told ≡ false → sessions.new ≡ sessions.old) }
{
    match raised {
        Some(raised) => stage_raised(alloc, channel, sessions, raised, Some(object), None),
        None => Ok(false),
    }
}

// Stages the messages of what is raised on one object, in order.
fn stage_pair(
    alloc: Global,
    channel: &Channel,
    sessions: &mut Vec<Session>,
    pair: Pair,
    object: &Object,
) -> Result<bool, NoMemory>
    requires { AllByRecursion (λ r. has_objects r (Some object.now) None ≡ true) (items pair.first pair.second) }
    ensures same { map session_of sessions.new.items ≡ map session_of sessions.old.items }
    ensures staged { OnOk result
        (AreBrought (sent channel.now (payloads_of channel.now object.now (items pair.first pair.second)))
        sessions.old.items sessions.new.items) }
    ensures quiet { IfOk result (λ told. told ≡ false → sessions.new ≡ sessions.old) }
{
    let first = stage_item(alloc, channel, sessions, pair.first, object)?;
    let second = stage_item(alloc, channel, sessions, pair.second, object)?;
    Ok(either(first, second))
}

// Stages what a put raises on a channel that watches an area.
fn stage_area(
    alloc: Global,
    channel: &Channel,
    sessions: &mut Vec<Session>,
    old: Option<&Object>,
    new: &Object,
) -> Result<bool, NoMemory>
    requires { is_sound_glob channel.now.fence.glob ≡ true }
    ensures same { map session_of sessions.new.items ≡ map session_of sessions.old.items }
    ensures staged { OnOk result
        (AreBrought (sent channel.now (area_payloads channel.now (option_map (λ o. o.now) old.entry) new.now))
        sessions.old.items sessions.new.items) }
    ensures quiet { IfOk result (λ told. told ≡ false → sessions.new ≡ sessions.old) }
{
    stage_pair(
        alloc,
        channel,
        sessions,
        raised(channel, old, Some(new)),
        new,
    )
}

// What a roaming object does: it comes near to another, or goes away from it.
fn roamed(near: bool) -> Detect
    ensures { result ≡ detect_of near }
{
    if near { Detect::Near } else { Detect::Far }
}

// Stages the message of one of the targets that an object has come near to, or gone away from: the one of this id.
fn stage_near(
    alloc: Global,
    channel: &Channel,
    targets: &Collection,
    sessions: &mut Vec<Session>,
    id: &Name,
    near: bool,
    new: &Object,
) -> Result<bool, NoMemory>
    ensures same { map session_of sessions.new.items ≡ map session_of sessions.old.items }
    ensures staged { OnOk result ((o : Object) → find (has_id id.now) targets.now.objects ≡ Some o
        → AreBrought (sent channel.now (roam_payload channel.now.name new.now (o, detect_of near) ∷ []))
        sessions.old.items sessions.new.items) }
    ensures quiet { IfOk result (λ told. told ≡ false → sessions.new ≡ sessions.old) }
{
    let Some(other) = targets.get(id) else {
        return Ok(false);
    };
    stage_raised(
        alloc,
        channel,
        sessions,
        Raised::Set(roamed(near)),
        Some(new),
        Some(other),
    )
}

// Stages the messages of all pairs, in order. Each other object is among the targets.
fn stage_pairs(
    alloc: Global,
    channel: &Channel,
    targets: &Collection,
    pairs: &RoamList,
    sessions: &mut Vec<Session>,
    new: &Object,
) -> Result<bool, NoMemory>
    ensures same { map session_of sessions.new.items ≡ map session_of sessions.old.items }
    ensures staged { OnOk result ((list : List (Object × Detect)) → ArePairs targets.now.objects list
        → pairs.now ≡ map shown list
        → AreBrought (sent channel.now (map (roam_payload channel.now.name new.now) list)) sessions.old.items
        sessions.new.items) }
    ensures quiet { IfOk result (λ told. told ≡ false → sessions.new ≡ sessions.old) }
{
    let mut is_told = false;
    for i in 0..pairs.len() {
        let (id, near) = (pairs.id(i), pairs.is_near(i));
        let told = stage_near(alloc, channel, targets, sessions, id, near, new)?;
        is_told = either(is_told, told);
    }
    Ok(is_told)
}

// Stages what a put raises on a channel that roams over the targets.
fn stage_roams<L: Ledger>(
    alloc: Global,
    channel: &Channel,
    targets: &Collection,
    sessions: &mut Vec<Session>,
    old: Option<&Object>,
    new: &Object,
    steps: &mut Steps<L>,
) -> Result<bool, NoMemory>
    requires glob { is_sound_glob channel.now.fence.glob ≡ true }
    requires pattern { is_sound_watch channel.now.fence.watch ≡ true }
    ensures same { map session_of sessions.new.items ≡ map session_of sessions.old.items }
    ensures staged { OnOk result (AreBrought
        (sent channel.now (roam_payloads channel.now (option_map (λ o. o.now) old.entry) new.now targets.now.objects))
        sessions.old.items sessions.new.items) }
    ensures quiet { IfOk result (λ told. told ≡ false → sessions.new ≡ sessions.old) }
{
    if !channel.fence.wanted.set {
        return Ok(false);
    }
    let mut pairs = RoamList::new(alloc);
    near_pairs(alloc, &channel.fence, targets, old, new, &mut pairs, steps)?;
    // The targets stand by id, so that each is found by its own.
    let _by_id = targets.len();
    stage_pairs(alloc, channel, targets, &pairs, sessions, new)
}

/// Stages what the put of an object raises on a channel: `old` is the object of its key and id before it, and `objects`
/// are all objects then. For want of memory a part may be staged.
pub(crate) fn stage_put_on<L: Ledger>(
    alloc: Global,
    channel: &Channel,
    objects: &Keyspace,
    sessions: &mut Vec<Session>,
    old: Option<&Object>,
    new: &Object,
    steps: &mut Steps<L>,
) -> Result<bool, NoMemory>
    requires glob { is_sound_glob channel.now.fence.glob ≡ true }
    requires pattern { is_sound_watch channel.now.fence.watch ≡ true }
    ensures same { map session_of sessions.new.items ≡ map session_of sessions.old.items }
    ensures staged { OnOk result ((w : World) → w.objects ≡ objects_in objects.now
        → object_at w new.now.key new.now.id ≡ option_map (λ o. o.now) old.entry
        → AreBrought (messages_on w (Put new.now) channel.now) sessions.old.items sessions.new.items) }
    ensures quiet { IfOk result (λ told. told ≡ false → sessions.new ≡ sessions.old) }
{
    match &channel.fence.watch {
        Watch::Roam(key, _, _, _) => match objects.collection(key) {
            Some(targets) => stage_roams(alloc, channel, targets, sessions, old, new, steps),
            None => Ok(false),
        },
        Watch::Zone(_, _) => stage_area(alloc, channel, sessions, old, new),
    }
}

/// Stages what the del of an object raises on a channel. For want of memory a part may be staged.
pub(crate) fn stage_del_on(
    alloc: Global,
    channel: &Channel,
    sessions: &mut Vec<Session>,
    old: &Object,
) -> Result<(), NoMemory>
    requires { is_sound_glob channel.now.fence.glob ≡ true }
    ensures same { map session_of sessions.new.items ≡ map session_of sessions.old.items }
    ensures staged { OnOk result ((w : World) → object_at w old.now.key old.now.id ≡ Some old.now
        → AreBrought (messages_on w (Del old.now.key old.now.id) channel.now) sessions.old.items sessions.new.items) }
{
    stage_pair(
        alloc,
        channel,
        sessions,
        raised(channel, Some(old), None),
        old,
    )?;
    Ok(())
}

/// Stages what the drop of its key raises on a channel. For want of memory a part may be staged.
pub(crate) fn stage_drop_on(
    alloc: Global,
    channel: &Channel,
    sessions: &mut Vec<Session>,
) -> Result<(), NoMemory>
    ensures same { map session_of sessions.new.items ≡ map session_of sessions.old.items }
    ensures staged { OnOk result ((w : World)
        → AreBrought (messages_on w (Drop channel.now.fence.key) channel.now) sessions.old.items sessions.new.items) }
{
    if !channel.fence.wanted.drop {
        return Ok(());
    }
    stage_raised(alloc, channel, sessions, Raised::Drop, None, None)?;
    Ok(())
}
