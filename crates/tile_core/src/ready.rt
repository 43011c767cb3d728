//! A call is made ready: what is due is taken out, and what is asked is planned in the world after that, each with the
//! messages that it brings staged; then the records of all of it go to a ledger. Where that cannot be, all is as
//! before.

ghost use Rattle.std.specs.Prelude.{◌≡◌, ◌⊎◌, ◌≤◌, ◌<◌, ◌+◌, ◌++◌, ◌^◌, true, false, map, length, IfOk, OnErr, OnOk};
ghost use Rattle.std.specs.List.{list_all};
ghost use Rattle.world_data.specs.Expiry.{deadline_of};
ghost use Rattle.world_data.specs.Limits.{max_moment};
ghost use Rattle.world_data.specs.Sound.{is_sound_channel};
ghost use Rattle.keyspace.specs.Entries.{objects_in};
ghost use Rattle.session_table.specs.Sessions.{session_of};
ghost use Rattle.session_table.specs.Fans.{AreBare};
ghost use Rattle.object_plans.specs.Beside.{channels_weight};
ghost use Rattle.object_plans.specs.Kept.{most_kept};
ghost use Rattle.tile_core.specs.Dues.{AreChannelsDueFrom, AreOut, HaveRoom};
ghost use Rattle.tile_core.specs.Orders.{Rise};
ghost use Rattle.tile_core.specs.RecordSinks.{AreTaken, CanRecordIf, ready_writes, writes_if};
ghost use Rattle.tile_core.specs.Ready.{HasRoomFor, IsAsBefore, IsDueTaken, IsPlannedBehind, IsReady, IsRestBehind};
ghost use Rattle.tile_core.specs.Ready.{IsRoomier, IsUndone, dues, reply_frames};
ghost use Rattle.tile_core.specs.Staged.{AreStagedEach};
ghost use Rattle.tile_core.specs.Stores.{IsStore};

use crate::channel_dues::{ExpiredChannels, expire_channels};
use crate::dues::{Expired, expire, put_back};
use crate::growths::{Growths, grown};
use crate::moves::make_room;
use crate::record_sinks::RecordSink;
use crate::records::record_ready;
use crate::spares::Spares;
use crate::staging::{stage_dels, stage_planned};
use crate::stores::{Store, Sums};
use byte_text::{NoMemory, Text};
use command_plans::{ChannelChange, Context, Planned, plan_asked};
use message_fanout::turn_laws;
use session_table::{Session, unstage};
use std::alloc::Global;
use world_model::{Asked, Object};

/// What is to be made ready: the place of the session that calls, the moment, and what it asks for.
#[derive(Clone, Copy)]
pub(crate) struct Call<'a> {
    pub(crate) at: usize,
    pub(crate) now: u64,
    pub(crate) asked: &'a Asked,
}

/// What is due and was taken out. Its channels are out in the hub.
#[derive(Drop)]
pub(crate) struct Gone {
    /// The objects, in the order in which they expire.
    pub(crate) held: Vec<Object>,
    /// The bytes of the records of the deletions of objects and channels.
    pub(crate) length: u64,
}

/// What was taken out, and what is to be done after that, but where its session is cut by what is due. Where nobody is
/// told, nothing is staged for any session.
#[derive(Drop)]
pub(crate) struct Ready {
    pub(crate) gone: Gone,
    pub(crate) planned: Option<Planned>,
    pub(crate) is_told: bool,
}

// Stages what the dels of objects by their deadlines bring, and then takes the channels out that are due. For want of
// memory the channels are as before, and a part may be staged.
fn take_out_channels<G: Growths>(
    alloc: Global,
    store: &mut Store,
    held: &[Object],
    sessions: &mut Vec<Session>,
    now: u64,
    growths: &mut G,
) -> Result<ExpiredChannels, NoMemory>
    requires sound { list_all is_sound_channel store.old.hub.channels ≡ true }
    requires light { store.old.channel_weight ≤ most_kept }
    requires weighed { store.old.channel_weight ≡ channels_weight store.old.hub.channels }
    requires due_from { AreChannelsDueFrom store.old.channels_due_from store.old.hub.channels }
    ensures out { IfOk result (AreOut store.old.hub now store.old.channel_weight store.new.hub) }
    ensures staged { OnOk result
        (AreStagedEach store.old.hub.channels held.now sessions.old.items sessions.new.items) }
    ensures rest { store.new ≡ record store.old { hub = store.new.hub; steps = store.new.steps } }
    ensures same { map session_of sessions.new.items ≡ map session_of sessions.old.items }
    ensures err { OnErr result (store.new.hub.channels ≡ store.old.hub.channels) }
{
    stage_dels(alloc, &store.hub, held, sessions, &mut store.steps, growths)?;
    expire_channels(
        alloc,
        &mut store.hub,
        store.channel_weight,
        store.channels_due_from,
        now,
        growths,
    )
}

// Notes what was taken out of a store.
fn note_gone(store: &mut Store, objects: Expired, channels: ExpiredChannels) -> Gone
    requires { objects.length + channels.length < 2 ^ 64 }
    ensures store { store.new ≡ record store.old {
      weight = objects.weight;
      due_from = objects.due_from;
      channel_weight = channels.weight;
      channels_due_from = channels.due_from;
    } }
    ensures held { result.held ≡ objects.held }
    ensures length { result.length ≡ objects.length + channels.length }
{
    store.weight = objects.weight;
    store.due_from = objects.due_from;
    store.channel_weight = channels.weight;
    store.channels_due_from = channels.due_from;
    Gone {
        length: objects.length + channels.length,
        held: objects.held,
    }
}

// Takes out what is due, and stages what that brings. For want of memory the world is as before, and a part may be
// staged.
fn take_out_due<G: Growths>(
    alloc: Global,
    store: &mut Store,
    sessions: &mut Vec<Session>,
    now: u64,
    growths: &mut G,
) -> Result<Gone, NoMemory>
    requires kept { IsStore store.old }
    requires bare { AreBare sessions.old.items }
    ensures taken { IfOk result (λ g. IsDueTaken store.old now store.new g sessions.new.items) }
    ensures room { IfOk result (λ g. HaveRoom store.new.objects g.held.items) }
    ensures same { map session_of sessions.new.items ≡ map session_of sessions.old.items }
    ensures err { OnErr result (IsAsBefore store.old store.new) }
{
    // A law, of which nothing is left at run time.
    turn_laws();
    // What is counted stands in order.
    let _count = store.hub.len();
    let objects = expire(
        alloc,
        &mut store.objects,
        store.weight,
        store.due_from,
        now,
        &mut store.steps,
        growths,
    )?;
    match take_out_channels(
        alloc,
        store,
        objects.held.as_slice(),
        sessions,
        now,
        growths,
    ) {
        Ok(channels) => Ok(note_gone(store, objects, channels)),
        Err(NoMemory) => {
            put_back(&mut store.objects, objects.held, &mut store.steps);
            Err(NoMemory)
        }
    }
}

// Takes room for what is put.
fn make_room_for<G: Growths>(
    alloc: Global,
    store: &mut Store,
    planned: &Planned,
    growths: &mut G,
) -> Result<(), NoMemory>
    ensures kept { IsRoomier store.old store.new }
    ensures room { OnOk result (HasRoomFor store.new planned.now) }
{
    match planned {
        Planned::Objects(plan) => make_room(&mut store.objects, &plan.action, growths),
        Planned::Channels(plan) => match &plan.action {
            ChannelChange::Set(channel) => {
                grown(growths)?;
                store.hub.prepare(alloc, channel)
            }
            ChannelChange::Drop(_) => Ok(()),
        },
        Planned::Subscribed(_) => Ok(()),
    }
}

// Puts replies behind those of a session.
fn add_replies<G: Growths>(
    caller: &mut Session,
    frames: &[Text],
    growths: &mut G,
) -> Result<(), NoMemory>
    ensures same { session_of caller.new ≡ session_of caller.old }
    ensures staged { caller.new.mail.staged ≡ caller.old.mail.staged }
    ensures replies { OnOk result (caller.new.mail.replies ≡ caller.old.mail.replies ++ frames.now) }
{
    for frame in frames {
        grown(growths)?;
        caller.add_reply(frame.bytes())?;
    }
    Ok(())
}

// Puts the frames of the reply behind what is staged for its session.
fn hold_reply<G: Growths>(
    caller: &mut Session,
    planned: &Planned,
    growths: &mut G,
) -> Result<(), NoMemory>
    ensures same { session_of caller.new ≡ session_of caller.old }
    ensures staged { caller.new.mail.staged ≡ caller.old.mail.staged }
    ensures replies { OnOk result (caller.new.mail.replies ≡ reply_frames planned.now) }
{
    caller.clear_replies();
    match planned {
        Planned::Objects(plan) => {
            grown(growths)?;
            caller.add_reply(plan.frame.bytes())
        }
        Planned::Channels(plan) => {
            grown(growths)?;
            caller.add_reply(plan.frame.bytes())
        }
        Planned::Subscribed(confirmed) => {
            add_replies(caller, confirmed.frames.as_slice(), growths)
        }
    }
}

// What is asked is planned for the session at a place, with the messages that it brings, its reply, which may stand in
// the memory of a spare text, and room for the rest; and whether somebody may be told.
fn plan_request<G: Growths>(
    alloc: Global,
    store: &mut Store,
    sessions: &mut Vec<Session>,
    at: usize,
    now: u64,
    asked: &Asked,
    spare: &mut Text,
    growths: &mut G,
) -> Result<(Planned, bool), NoMemory>
    requires kept { IsStore store.old }
    requires at { at < length sessions.old.items }
    requires moment { now ≤ max_moment }
    ensures room { IsRoomier store.old store.new }
    ensures same { map session_of sessions.new.items ≡ map session_of sessions.old.items }
    ensures planned { IfOk result (λ p.
        IsPlannedBehind store.old now asked.now at store.new sessions.old.items sessions.new.items p.0) }
    ensures quiet { IfOk result (λ p. p.1 ≡ false → AreBare sessions.old.items → AreBare sessions.new.items) }
{
    let context = Context {
        objects: &store.objects,
        total: store.weight,
        hub: &store.hub,
        channels: store.channel_weight,
        subs: sessions[at].subscriptions(),
        now,
    };
    let planned = plan_asked(alloc, context, asked, &mut store.steps, spare)?;
    make_room_for(alloc, store, &planned, growths)?;
    let is_told = stage_planned(
        alloc,
        &store.hub,
        &store.objects,
        &planned,
        sessions,
        &mut store.steps,
        growths,
    )?;
    hold_reply(&mut sessions[at], &planned, growths)?;
    Ok((planned, is_told))
}

// The same, but where the session has no room for what is staged for it: it will be cut, and its request not done.
fn plan_rest<G: Growths>(
    alloc: Global,
    store: &mut Store,
    sessions: &mut Vec<Session>,
    at: usize,
    now: u64,
    asked: &Asked,
    spare: &mut Text,
    growths: &mut G,
) -> Result<(Option<Planned>, bool), NoMemory>
    requires kept { IsStore store.old }
    requires at { at < length sessions.old.items }
    requires moment { now ≤ max_moment }
    ensures room { IsRoomier store.old store.new }
    ensures same { map session_of sessions.new.items ≡ map session_of sessions.old.items }
    ensures planned { IfOk result (λ p.
        IsRestBehind store.old now asked.now at store.new sessions.old.items sessions.new.items p.0) }
    ensures quiet { IfOk result (λ p. p.1 ≡ false → AreBare sessions.old.items → AreBare sessions.new.items) }
{
    if !sessions[at].has_room_left() {
        return Ok((None, false));
    }
    // Asked for what is planned, before its large locals are made.
    grown(growths)?;
    match plan_request(alloc, store, sessions, at, now, asked, spare, growths) {
        Ok((planned, is_told)) => Ok((Some(planned), is_told)),
        Err(NoMemory) => Err(NoMemory),
    }
}

// Puts back what was taken out of a store, which had these sums before.
fn undo(store: &mut Store, held: Vec<Object>, sums: Sums)
    requires room { HaveRoom store.old.objects held.items }
    requires few { length (objects_in store.old.objects) + length held.items < 2 ^ 32 }
    ensures { IsUndone store.old held.items sums store.new }
{
    put_back(&mut store.objects, held, &mut store.steps);
    store.hub.put_back();
    store.weight = sums.weight;
    store.due_from = sums.due_from;
    store.channel_weight = sums.channel_weight;
    store.channels_due_from = sums.channels_due_from;
}

// Hands the records of what was made ready to the ledger. For want of memory what is due is put back.
fn record_or_undo<L: RecordSink, G: Growths>(
    alloc: Global,
    store: &mut Store,
    sums: Sums,
    ready: Ready,
    records: &mut Text,
    ledger: &mut L,
    growths: &mut G,
) -> Result<Ready, NoMemory>
    requires room { HaveRoom store.old.objects ready.gone.held.items }
    requires few { length (objects_in store.old.objects) + length ready.gone.held.items < 2 ^ 32 }
    requires rise { Rise (λ c. deadline_of c.deadline) store.old.hub.taken }
    requires can { CanRecordIf ready.planned }
    ensures same { IfOk result (λ r. r ≡ ready) }
    ensures stays { OnOk result (store.new ≡ store.old) }
    ensures recorded { OnOk result
        (AreTaken L.takes (ready_writes store.old.hub.taken ready) ledger.old ledger.new) }
    ensures undone { OnErr result (IsUndone store.old ready.gone.held.items sums store.new) }
    ensures unrecorded { OnErr result ((ledger.new ≡ ledger.old) ⊎ L.stays ledger.old ledger.new) }
{
    match record_ready(alloc, records, &store.hub, &ready, ledger, growths) {
        Ok(()) => Ok(ready),
        Err(NoMemory) => {
            undo(store, ready.gone.held, sums);
            Err(NoMemory)
        }
    }
}

/// Makes a tick ready: takes out what is due, stages what that brings, and hands its records to the ledger. For want of
/// memory the world is as before, and a part may be staged.
pub(crate) fn make_tick_ready<L: RecordSink, G: Growths>(
    alloc: Global,
    store: &mut Store,
    sessions: &mut Vec<Session>,
    now: u64,
    records: &mut Text,
    ledger: &mut L,
    growths: &mut G,
) -> Result<Ready, NoMemory>
    requires kept { IsStore store.old }
    requires bare { AreBare sessions.old.items }
    ensures taken { IfOk result (λ r. IsDueTaken store.old now store.new r.gone sessions.new.items) }
    ensures recorded { IfOk result (λ r. AreTaken L.takes (dues store.old now) ledger.old ledger.new) }
    ensures same { map session_of sessions.new.items ≡ map session_of sessions.old.items }
    ensures err { OnErr result (IsAsBefore store.old store.new) }
    ensures unrecorded { OnErr result ((ledger.new ≡ ledger.old) ⊎ L.stays ledger.old ledger.new) }
{
    let sums = store.sums();
    let gone = take_out_due(alloc, store, sessions, now, growths)?;
    let ready = Ready {
        gone,
        planned: None,
        is_told: true,
    };
    record_or_undo(alloc, store, sums, ready, records, ledger, growths)
}

// Whether somebody may be told: of what was due, or of what is asked.
fn may_be_told(gone: &Gone, is_told: bool) -> bool
    ensures { result ≡ false → (gone.now.length ≡ 0) × (is_told ≡ false) }
{
    gone.length > 0 || is_told
}

// Makes a call of the session at a place ready, and hands its records to the ledger. For want of memory the world is as
// before, and a part may be staged.
fn make_ready_in_part<L: RecordSink, G: Growths>(
    alloc: Global,
    store: &mut Store,
    sessions: &mut Vec<Session>,
    call: Call<'_>,
    spares: &mut Spares,
    ledger: &mut L,
    growths: &mut G,
) -> Result<Ready, NoMemory>
    requires kept { IsStore store.old }
    requires bare { AreBare sessions.old.items }
    requires at { call.at < length sessions.old.items }
    requires moment { call.now ≤ max_moment }
    ensures ready { IfOk result (λ r. IsReady store.old call.entry.now call.entry.asked.now call.entry.at store.new sessions.new.items r) }
    ensures recorded { IfOk result (λ r.
        AreTaken L.takes (dues store.old call.entry.now ++ writes_if r.planned) ledger.old ledger.new) }
    ensures same { map session_of sessions.new.items ≡ map session_of sessions.old.items }
    ensures err { OnErr result (IsAsBefore store.old store.new) }
    ensures unrecorded { OnErr result ((ledger.new ≡ ledger.old) ⊎ L.stays ledger.old ledger.new) }
{
    let sums = store.sums();
    let gone = take_out_due(alloc, store, sessions, call.now, growths)?;
    let planned = plan_rest(
        alloc,
        store,
        sessions,
        call.at,
        call.now,
        call.asked,
        &mut spares.frame,
        growths,
    );
    match planned {
        Ok((planned, is_told)) => {
            let ready = Ready {
                is_told: may_be_told(&gone, is_told),
                gone,
                planned,
            };
            record_or_undo(
                alloc,
                store,
                sums,
                ready,
                &mut spares.records,
                ledger,
                growths,
            )
        }
        Err(NoMemory) => {
            undo(store, gone.held, sums);
            Err(NoMemory)
        }
    }
}

/// Makes a call of the session at a place ready, and hands its records to the ledger. For want of memory the world is
/// as before, and nothing is staged.
pub(crate) fn make_ready<L: RecordSink, G: Growths>(
    alloc: Global,
    store: &mut Store,
    sessions: &mut Vec<Session>,
    call: Call<'_>,
    spares: &mut Spares,
    ledger: &mut L,
    growths: &mut G,
) -> Result<Ready, NoMemory>
    requires kept { IsStore store.old }
    requires bare { AreBare sessions.old.items }
    requires at { call.at < length sessions.old.items }
    requires moment { call.now ≤ max_moment }
    ensures ready { IfOk result (λ r. IsReady store.old call.entry.now call.entry.asked.now call.entry.at store.new sessions.new.items r) }
    ensures recorded { IfOk result (λ r.
        AreTaken L.takes (dues store.old call.entry.now ++ writes_if r.planned) ledger.old ledger.new) }
    ensures same { map session_of sessions.new.items ≡ map session_of sessions.old.items }
    ensures err { OnErr result (IsAsBefore store.old store.new) }
    ensures unrecorded { OnErr result ((ledger.new ≡ ledger.old) ⊎ L.stays ledger.old ledger.new) }
    ensures bare { OnErr result (AreBare sessions.new.items) }
{
    match make_ready_in_part(alloc, store, sessions, call, spares, ledger, growths) {
        Ok(ready) => Ok(ready),
        Err(NoMemory) => {
            unstage(sessions);
            Err(NoMemory)
        }
    }
}
