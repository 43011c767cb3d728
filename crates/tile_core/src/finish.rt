//! The finish of a call that was made ready. It takes no memory.

ghost use Rattle.std.specs.Prelude.{◌≡◌, ◌≤◌, ◌<◌, ◌+◌, ◌^◌, List, [], ◌∷◌, false, length};
ghost use Rattle.world_model.specs.Halls.{placed, placed_each};
ghost use Rattle.world_model.specs.Subscriptions.{Sub};
ghost use Rattle.world_model.specs.Effects.{Effect};
ghost use Rattle.keyspace.specs.Entries.{objects_in};
ghost use Rattle.delivery_model.specs.Staging.{after_all};
ghost use Rattle.session_table.specs.Sessions.{AreReplies, AreSoundSubs, session_of};
ghost use Rattle.session_table.specs.Fans.{AreBare, ArePlaced};
ghost use Rattle.tile_core.specs.Dues.{IsChannelDueFrom, IsDueFrom};
ghost use Rattle.object_plans.specs.Moves.{HasRoom, HoldsOfPut, moved};
ghost use Rattle.channel_plans.specs.Planned.{IsPlanned, channels_moved, without_names};
ghost use Rattle.object_plans.specs.Beside.{channels_left, weight_left};
ghost use Rattle.tile_core.specs.Ready.{CanComplete, HasRoomFor, HoldsOfSet, IsCompleted, IsDoneIf, IsPreparedFor};
ghost use Rattle.tile_core.specs.Ready.{IsSoundAnswer, ending_if, length_if, planned_length, planned_writes, replied, reply_frames};
ghost use Rattle.tile_core.specs.Stores.{IsStore, world_at};

use crate::dues::release;
use crate::moves::{channels_due_from_after, due_from_after, make_move};
use crate::ready::Ready;
use crate::spares::keep_room;
use crate::stores::Store;
use byte_text::Text;
use channel_hub::Hub;
use command_plans::{ChannelChange, ChannelPlan, Confirmed, ObjectChange, Plan, Planned};
use session_table::{Session, place_staged};
use world_model::{NameList, Object};

// Takes out the channels of these names.
fn drop_channels(hub: &mut Hub, names: &NameList)
    ensures { hub.new.channels ≡ without_names names.now hub.old.channels }
{
    for i in 0..names.len() {
        hub.take_out(names.at(i));
    }
}

// Does this to the channels.
fn move_channels(hub: &mut Hub, action: ChannelChange)
    requires { IsPreparedFor hub.old action }
    ensures { hub.new.channels ≡ channels_moved action hub.old.channels }
{
    match action {
        ChannelChange::Set(channel) => {
            hub.put(channel);
        }
        ChannelChange::Drop(names) => drop_channels(hub, &names),
    }
}

// Does what a plan of objects says, and answers its session. The memory of the frame is kept in a spare text.
fn finish_objects(store: &mut Store, caller: &mut Session, plan: Plan, spare: &mut Text)
    requires room { HasRoom store.old.objects plan.action }
    requires few { length (objects_in store.old.objects) < 2 ^ 32 }
    requires replies { AreReplies (plan.frame ∷ []) caller.old }
    requires bare { caller.old.mail.staged ≡ [] }
    ensures objects { objects_in store.new.objects ≡ moved (objects_in store.old.objects) plan.action }
    ensures channels { store.new.hub.channels ≡ channels_left plan.action store.old.hub.channels }
    ensures weight { store.new.weight ≡ plan.weight }
    ensures least { store.new.due_from ≤ store.old.due_from }
    ensures put { HoldsOfPut (IsDueFrom store.new.due_from) plan.action }
    ensures channels_due_from { store.new.channels_due_from ≡ store.old.channels_due_from }
    ensures channel_weight { store.new.channel_weight ≡ weight_left plan.action store.old.channel_weight }
    ensures caller { session_of caller.new ≡ ending_if plan.closes (placed plan.frame (session_of caller.old)) }
    ensures staged { caller.new.mail.staged ≡ caller.old.mail.staged }
{
    store.due_from = due_from_after(store.due_from, &plan.action);
    store.weight = plan.weight;
    if let ObjectChange::Clear = plan.action {
        store.hub.clear();
        store.channel_weight = 0;
    }
    make_move(&mut store.objects, plan.action, &mut store.steps);
    keep_room(spare, plan.frame);
    caller.place_replies();
    if plan.closes {
        caller.close();
    }
}

// Does what a plan of channels says, and answers its session.
fn finish_channels(store: &mut Store, caller: &mut Session, plan: ChannelPlan)
    requires room { IsPreparedFor store.old.hub plan.action }
    requires replies { AreReplies (plan.frame ∷ []) caller.old }
    requires bare { caller.old.mail.staged ≡ [] }
    ensures rest { store.new ≡ record store.old {
      hub = store.new.hub;
      channel_weight = plan.weight;
      channels_due_from = store.new.channels_due_from;
    } }
    ensures least { store.new.channels_due_from ≤ store.old.channels_due_from }
    ensures set { HoldsOfSet (IsChannelDueFrom store.new.channels_due_from) plan.action }
    ensures channels { store.new.hub.channels ≡ channels_moved plan.action store.old.hub.channels }
    ensures caller { session_of caller.new ≡ placed plan.frame (session_of caller.old) }
    ensures staged { caller.new.mail.staged ≡ caller.old.mail.staged }
{
    store.channels_due_from = channels_due_from_after(store.channels_due_from, &plan.action);
    store.channel_weight = plan.weight;
    move_channels(&mut store.hub, plan.action);
    caller.place_replies();
}

// Gives a session its new subscriptions, and confirms them.
fn finish_subscribing(caller: &mut Session, confirmed: Confirmed)
    requires sound { AreSoundSubs confirmed.subs }
    requires replies { AreReplies confirmed.frames.items caller.old }
    requires bare { caller.old.mail.staged ≡ [] }
    ensures caller { session_of caller.new
        ≡ placed_each (record (session_of caller.old) { subs = confirmed.subs }) confirmed.frames.items }
    ensures staged { caller.new.mail.staged ≡ caller.old.mail.staged }
{
    caller.set_subscriptions(confirmed.subs);
    caller.place_replies();
}

// Does what was planned for a session, and answers it. The bytes of the records are answered.
fn finish(store: &mut Store, caller: &mut Session, planned: Planned, spare: &mut Text) -> u64
    requires plan { IsSoundAnswer planned }
    requires room { HasRoomFor store.old planned }
    requires few { length (objects_in store.old.objects) < 2 ^ 32 }
    requires replies { AreReplies (reply_frames planned) caller.old }
    requires bare { caller.old.mail.staged ≡ [] }
    ensures length { result ≡ planned_length planned }
    ensures world { world_at store.new ≡ after_all (world_at store.old) (planned_writes planned) }
    ensures kept { (held : List Sub) (e : Effect) → IsPlanned (world_at store.old) store.old.weight held e planned
        → IsStore store.old → IsStore store.new }
    ensures caller { session_of caller.new ≡ replied planned (session_of caller.old) }
    ensures staged { caller.new.mail.staged ≡ caller.old.mail.staged }
{
    match planned {
        Planned::Objects(plan) => {
            let length = plan.length;
            finish_objects(store, caller, plan, spare);
            length
        }
        Planned::Channels(plan) => {
            let length = plan.length;
            finish_channels(store, caller, plan);
            length
        }
        Planned::Subscribed(confirmed) => {
            finish_subscribing(caller, confirmed);
            0
        }
    }
}

// Does what was planned for the session at a place, where its request is done. The bytes of the records are answered.
fn finish_planned(
    store: &mut Store,
    sessions: &mut Vec<Session>,
    at: usize,
    planned: Option<Planned>,
    spare: &mut Text,
) -> u64
    requires few { length (objects_in store.old.objects) < 2 ^ 32 }
    requires at { at < length sessions.old.items }
    requires can { CanComplete store.old sessions.old.items at planned }
    requires bare { AreBare sessions.old.items }
    ensures done { IsDoneIf store.old sessions.old.items at planned store.new sessions.new.items }
    ensures length { result ≡ length_if planned }
{
    match planned {
        Some(planned) => finish(store, &mut sessions[at], planned, spare),
        None => 0,
    }
}

/// Lets all go that was taken out.
pub(crate) fn let_go(store: &mut Store, held: Vec<Object>)
    ensures objects { objects_in store.new.objects ≡ objects_in store.old.objects }
    ensures channels { store.new.hub.channels ≡ store.old.hub.channels }
    ensures rest { store.new ≡ record store.old { objects = store.new.objects; hub = store.new.hub } }
{
    release(&mut store.objects, held);
    store.hub.let_go();
}

// Places all that is staged. Where nobody is told no session is looked at.
fn place_told(sessions: &mut Vec<Session>, is_told: bool)
    requires { is_told ≡ false → AreBare sessions.old.items }
    ensures { ArePlaced sessions.old.items sessions.new.items }
{
    if !is_told {
        return;
    }
    place_staged(sessions);
}

/// Places all that is staged, does what was made ready, and answers the session at the place. It takes no memory; that
/// of the reply's frame is kept in a spare text. The bytes of the records of all changes are answered.
pub(crate) fn complete(
    store: &mut Store,
    sessions: &mut Vec<Session>,
    at: usize,
    ready: Ready,
    spare: &mut Text,
) -> u64
    requires few { length (objects_in store.old.objects) < 2 ^ 32 }
    requires at { at < length sessions.old.items }
    requires quiet { ready.is_told ≡ false → AreBare sessions.old.items }
    requires can { CanComplete store.old sessions.old.items at ready.planned }
    requires short { ready.gone.length + length_if ready.planned < 2 ^ 64 }
    ensures { IsCompleted store.old sessions.old.items at ready store.new sessions.new.items result }
{
    let Ready {
        gone,
        planned,
        is_told,
    } = ready;
    place_told(sessions, is_told);
    let length = finish_planned(store, sessions, at, planned, spare);
    // Only now, since a key that has no object left may be that of the object that is put.
    let gone_length = gone.length;
    let_go(store, gone.held);
    gone_length + length
}
