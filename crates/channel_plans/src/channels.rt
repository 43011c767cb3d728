//! DELCHAN, PDELCHAN and CHANS: channels are taken out and shown.

ghost use Rattle.std.specs.Prelude.{◌≡◌, ◌+◌, ◌≤◌, ◌<◌, ◌∷◌, ℕ, List, [], true, length, map, take, IfOk, IfErr, OnOk};
ghost use Rattle.byte_text.specs.Globs.{is_well_formed};
ghost use Rattle.byte_text.specs.Replies.{frame_text, array};
ghost use Rattle.world_data.specs.Limits.{max_reply};
ghost use Rattle.world_data.specs.declared.channels.Channel.{Channel};
ghost use Rattle.world_model.specs.Effects.{effect};
ghost use Rattle.world_model.specs.Replies.{channel_reply};
ghost use Rattle.world_model.specs.Subscriptions.{Sub};
ghost use Rattle.world_model.specs.declared.commands.Command.TheVariants as command;
ghost use Rattle.world_model.specs.declared.channel_commands.ChannelCommand.TheVariants as of_channel;
ghost use Rattle.keyspace.specs.Entries.{objects_in};
ghost use Rattle.object_plans.specs.Kept.{AreKept, most_kept};
ghost use Rattle.channel_plans.specs.Dropping.{met_channels, IsDropped, IsDroppedOf};
ghost use Rattle.record_writer.specs.Lengths.{len_of_channel};
ghost use Rattle.object_plans.specs.Listings.{joined, AreItems, IsTooLong};
ghost use Rattle.channel_plans.specs.Contexts.{kept_world};
ghost use Rattle.object_plans.specs.Beside.{channels_weight};
ghost use Rattle.channel_plans.specs.Planned.{IsPlanned};

use crate::contexts::Context;
use crate::planned::{ChannelChange, ChannelPlan, Planned};
use byte_text::{Name, NoMemory, Text};
use channel_hub::Hub;
use glob_match::glob_meets;
use object_plans::{Plan, or_refusal, say_count};
use record_writer::{channel_len, delchan_len};
use reply_text::{ItemFrames, ReplyFault, count_frame};
use std::alloc::Global;
use world_model::{Channel, NameList};

// The list of this one name.
fn one_name(alloc: Global, name: Name) -> Result<NameList, NoMemory>
    ensures { IfOk result (λ names. names ≡ name ∷ []) }
{
    let mut names = NameList::new(alloc);
    match names.push(name) {
        Ok(()) => Ok(names),
        Err(_) => Err(NoMemory),
    }
}

/// What DELCHAN will do in its context.
pub(crate) fn plan_delchan(
    alloc: Global,
    context: Context<'_>,
    name: Name,
) -> Result<Planned, NoMemory>
    requires kept { AreKept (objects_in context.objects.now) context.total }
    requires channels { context.channels ≡ channels_weight context.hub.now.channels }
    requires light { context.total + context.channels ≤ most_kept }
    ensures { IfOk result (λ p. (now : ℕ) (held : List Sub)
        → IsPlanned (kept_world context.entry) context.entry.total held
        (effect (kept_world context.entry) now [] (command.Channel (of_channel.Delchan name))) p) }
{
    // That no name stands twice is known where the channels are counted.
    let _count = context.hub.len();
    match context.hub.get(&name) {
        Some(channel) => Ok(Planned::Channels(ChannelPlan {
            frame: count_frame(alloc, 1)?,
            length: delchan_len(&name),
            weight: context.channels - channel_len(channel),
            action: ChannelChange::Drop(one_name(alloc, name)?),
        })),
        None => Ok(Planned::Objects(say_count(alloc, context.total, 0)?)),
    }
}

/// What PDELCHAN takes out: the names, the bytes of the records of the changes, and the weight of the channels that are
/// left.
#[derive(Drop)]
struct Dropped {
    names: NameList,
    length: u64,
    weight: u64,
}

// Takes note of a channel where its name meets the pattern.
fn drop_one(
    alloc: Global,
    dropped: &mut Dropped,
    channel: &Channel,
    pattern: &Name,
) -> Result<(), NoMemory>
    requires pattern { is_well_formed pattern.now ≡ true }
    requires small { dropped.old.length + dropped.old.weight ≤ most_kept }
    requires weighed { len_of_channel channel.now ≤ dropped.old.weight }
    ensures { OnOk result (IsDropped pattern.now channel.now dropped.old dropped.new) }
{
    if !glob_meets(pattern.bytes(), channel.name.bytes()) {
        return Ok(());
    }
    if dropped.names.push(channel.name.copy(alloc)?).is_err() {
        return Err(NoMemory);
    }
    dropped.length += delchan_len(&channel.name);
    dropped.weight -= channel_len(channel);
    Ok(())
}

// The channels, of this weight, whose names meet the pattern.
fn drop_each(alloc: Global, hub: &Hub, channels: u64, pattern: &Name) -> Result<Dropped, NoMemory>
    requires pattern { is_well_formed pattern.now ≡ true }
    requires weighed { channels ≡ channels_weight hub.now.channels }
    requires light { channels ≤ most_kept }
    ensures { IfOk result (λ d. IsDroppedOf pattern.now hub.now.channels channels d) }
{
    let mut dropped = Dropped {
        names: NameList::new(alloc),
        length: 0,
        weight: channels,
    };
    for i in 0..hub.len() {
        drop_one(alloc, &mut dropped, hub.at(i), pattern)?;
    }
    Ok(dropped)
}

/// What PDELCHAN will do in its context.
pub(crate) fn plan_pdelchan(
    alloc: Global,
    context: Context<'_>,
    pattern: &Name,
) -> Result<Planned, NoMemory>
    requires kept { AreKept (objects_in context.objects.now) context.total }
    requires channels { context.channels ≡ channels_weight context.hub.now.channels }
    requires light { context.total + context.channels ≤ most_kept }
    requires pattern { is_well_formed pattern.now ≡ true }
    ensures { IfOk result (λ p. (now : ℕ) (held : List Sub)
        → IsPlanned (kept_world context.entry) context.entry.total held
        (effect (kept_world context.entry) now [] (command.Channel (of_channel.Pdelchan pattern.now))) p) }
{
    let dropped = drop_each(alloc, context.hub, context.channels, pattern)?;
    let count = dropped.names.len() as u64;
    Ok(Planned::Channels(ChannelPlan {
        frame: count_frame(alloc, count)?,
        action: ChannelChange::Drop(dropped.names),
        length: dropped.length,
        weight: dropped.weight,
    }))
}

// Puts the channel at a place last, where its name meets the pattern.
fn push_met(items: &mut ItemFrames, hub: &Hub, i: usize, pattern: &Name) -> Result<(), ReplyFault>
    requires within { i < length hub.now.channels }
    requires pattern { is_well_formed pattern.now ≡ true }
    requires items { AreItems (map channel_reply (met_channels pattern.now (take i hub.now.channels))) items.old }
    ensures ok { OnOk result (AreItems (map channel_reply
        (met_channels pattern.now (take (i + 1) hub.now.channels))) items.new) }
    ensures too_long { IfErr result (IsTooLong
        (joined (map channel_reply (met_channels pattern.now (take (i + 1) hub.now.channels))))) }
{
    let channel = hub.at(i);
    if glob_meets(pattern.bytes(), channel.name.bytes()) {
        items.push_channel(channel)
    } else {
        Ok(())
    }
}

// The frame of the channels whose names meet the pattern.
fn chans_frame(alloc: Global, hub: &Hub, pattern: &Name) -> Result<Text, ReplyFault>
    requires { is_well_formed pattern.now ≡ true }
    ensures ok { IfOk result (λ t.
        (t ≡ frame_text (array (map channel_reply (met_channels pattern.now hub.now.channels))))
        × (length t ≤ max_reply)) }
    ensures too_long { IfErr result (IsTooLong
        (array (map channel_reply (met_channels pattern.now hub.now.channels)))) }
{
    let mut items = ItemFrames::new(alloc);
    for i in 0..hub.len() {
        push_met(&mut items, hub, i, pattern)?;
    }
    items.array(alloc)
}

/// What CHANS will do in its context.
pub(crate) fn plan_chans(
    alloc: Global,
    context: Context<'_>,
    pattern: &Name,
) -> Result<Planned, NoMemory>
    requires kept { AreKept (objects_in context.objects.now) context.total }
    requires channels { context.channels ≡ channels_weight context.hub.now.channels }
    requires light { context.total + context.channels ≤ most_kept }
    requires pattern { is_well_formed pattern.now ≡ true }
    ensures { IfOk result (λ p. (now : ℕ) (held : List Sub)
        → IsPlanned (kept_world context.entry) context.entry.total held
        (effect (kept_world context.entry) now [] (command.Channel (of_channel.Chans pattern.now))) p) }
{
    let frame = or_refusal(alloc, chans_frame(alloc, context.hub, pattern))?;
    Ok(Planned::Objects(Plan::reply(frame, context.total)))
}
