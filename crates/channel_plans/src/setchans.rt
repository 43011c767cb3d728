//! SETCHAN: a channel is put in its place, with its area.

ghost use Rattle.std.specs.Prelude.{◌≡◌, ◌+◌, ◌≤◌, ◌++◌, ◌∷◌, ◌^◌, List, []};
ghost use Rattle.std.specs.Prelude.{Some, true, ◌&&◌, codes, find, is_none, length, nat_le, IfOk, OnOk};
ghost use Rattle.byte_text.specs.Requests.{FitsRequest, max_word, total as total_bytes};
ghost use Rattle.log_record.specs.Words.{IsRecorded};
ghost use Rattle.ordered_lists.specs.Lists.{put_in};
ghost use Rattle.planar_geom.specs.declared.shapes.Area.TheVariants.{Figure};
ghost use Rattle.world_data.specs.Limits.{max_channels, max_moment};
ghost use Rattle.world_data.specs.Sound.{is_sound_channel};
ghost use Rattle.world_data.specs.Worlds.{are_channels, channel_before, is_named};
ghost use Rattle.world_data.specs.declared.channels.Channel.{Channel};
ghost use Rattle.world_data.specs.declared.worlds.Change.TheVariants as change;
ghost use Rattle.world_model.specs.Effects.{effect, set_area, setchan_effect, settled_channel, watch_over, within_reply};
ghost use Rattle.world_model.specs.Sound.{is_sound_setting};
ghost use Rattle.world_model.specs.Subscriptions.{Sub};
ghost use Rattle.world_model.specs.declared.search_commands.AreaWords.TheVariants as area_words;
ghost use Rattle.world_model.specs.declared.commands.Command.TheVariants as command;
ghost use Rattle.world_model.specs.declared.channel_commands.ChannelCommand.TheVariants as of_channel;
ghost use Rattle.keyspace.specs.Entries.{objects_in};
ghost use Rattle.channel_plans.specs.Settings.{IsRecordable, IsRecordableAt};
ghost use Rattle.object_plans.specs.Kept.{AreKept, most_kept};
ghost use Rattle.record_writer.specs.Lengths.{len_of_channel};
ghost use Rattle.channel_plans.specs.Contexts.{kept_world};
ghost use Rattle.object_plans.specs.Beside.{channels_weight};
ghost use Rattle.channel_plans.specs.Planned.{IsPlanned};

use crate::contexts::Context;
use crate::planned::{ChannelChange, ChannelPlan, Planned};
use byte_text::{MAX_REQUEST, MAX_WORD, MAX_WORDS, Name, NoMemory, Request};
use channel_hub::Hub;
use object_plans::{deadline_after, figure_of, plan_missing, say_refusal};
use planar_geom::Area;
use record_writer::channel_len;
use reply_text::count_frame;
use std::alloc::Global;
use world_data::{MAX_CHANNELS, MAX_WEIGHT};
use world_model::{AreaWords, Channel, Fence, Object, Refusal, Watch};

// Puts the area into what is watched, where that is an area.
fn put_area(watch: &mut Watch, area: Area)
    ensures { watch.new ≡ watch_over watch.old area }
{
    if let Watch::Zone(_, zone) = watch {
        *zone = area;
    }
}

// The channel with the area in its place.
fn channel_over(channel: Channel, area: Area) -> Channel
    ensures { result ≡ record channel { fence = record channel.fence { watch = watch_over channel.fence.watch area } } }
{
    let mut channel = channel;
    put_area(&mut channel.fence.watch, area);
    channel
}

// The bytes of all words.
fn bytes_of(words: &Request) -> usize
    ensures { result ≡ total_bytes words.now }
{
    let mut sum = 0;
    for at in 0..words.words() {
        sum += words.word(at).len();
    }
    sum
}

// Whether the words are a request with one more.
fn takes(words: &Request, word: &[u8]) -> bool
    ensures fits { result ≡ true → FitsRequest (words.now ++ word.now ∷ []) }
    ensures short { result ≡ true → length word.now ≤ max_word }
{
    if words.words() >= MAX_WORDS {
        return false;
    }
    if word.len() > MAX_WORD {
        return false;
    }
    bytes_of(words) + word.len() <= MAX_REQUEST
}

// Puts a word last. Words that no request holds have room in no memory.
fn push_last(words: &mut Request, word: &[u8]) -> Result<(), NoMemory>
    ensures words { OnOk result (words.new ≡ words.old ++ word.now ∷ []) }
    ensures short { OnOk result (length word.now ≤ max_word) }
{
    if takes(words, word) {
        words.push(word)
    } else {
        Err(NoMemory)
    }
}

// The channel over the shape of an object, whose text stands last in its words.
fn channel_at(alloc: Global, channel: Channel, object: &Object) -> Result<Channel, NoMemory>
    ensures settled { IfOk result (λ c. c
        ≡ settled_channel channel (Figure object.now.shape) (codes "OBJECT" ∷ object.now.text ∷ [])) }
    ensures short { OnOk result (length object.now.text ≤ max_word) }
{
    let mut settled = channel_over(channel, figure_of(alloc, &object.shape)?);
    push_last(&mut settled.words, b"OBJECT")?;
    push_last(&mut settled.words, object.text.bytes())?;
    Ok(settled)
}

// Whether the channel would be one more than there may be.
fn is_one_too_many(hub: &Hub, name: &Name) -> bool
    ensures { result ≡ (is_none (find (is_named name.now) hub.now.channels)
        && nat_le max_channels (length hub.now.channels)) }
{
    match hub.get(name) {
        Some(_) => false,
        None => hub.len() >= MAX_CHANNELS,
    }
}

// The weight of the channels, which is this one, after a channel is put whose record has this length.
fn weight_after(hub: &Hub, channels: u64, channel: &Channel, length: u64) -> u64
    requires weighed { channels ≡ channels_weight hub.now.channels }
    requires light { channels ≤ most_kept }
    requires by_name { are_channels hub.now.channels ≡ true }
    requires length { length ≡ len_of_channel channel.now }
    requires small { length ≤ 2 ^ 40 }
    ensures value { result ≡ channels_weight (put_in channel_before channel.now hub.now.channels) }
    ensures short { result ≤ channels + length }
{
    match hub.get(&channel.name) {
        Some(old) => channels + length - channel_len(old),
        None => channels + length,
    }
}

// A channel is put in its place.
fn plan_settled(alloc: Global, context: Context<'_>, channel: Channel) -> Result<Planned, NoMemory>
    requires sound { is_sound_channel channel ≡ true }
    requires recorded { IsRecorded (change.SetChan channel) }
    requires kept { AreKept (objects_in context.objects.now) context.total }
    requires channels { context.channels ≡ channels_weight context.hub.now.channels }
    requires light { context.total + context.channels ≤ most_kept }
    ensures { IfOk result (λ p. (held : List Sub) → IsPlanned (kept_world context.entry) context.entry.total held
        (within_reply (setchan_effect (kept_world context.entry) channel)) p) }
{
    // That no name stands twice is known where the channels are counted.
    let _count = context.hub.len();
    // A channel that is not put is dropped by a call, so that its parts are not proved to be dropped here.
    if is_one_too_many(context.hub, &channel.name) {
        drop(channel);
        let refusal = say_refusal(alloc, context.total, Refusal::TooManyChannels)?;
        return Ok(Planned::Objects(refusal));
    }
    let length = channel_len(&channel);
    let weight = weight_after(context.hub, context.channels, &channel, length);
    if context.total + weight > MAX_WEIGHT {
        drop(channel);
        let refusal = say_refusal(alloc, context.total, Refusal::DatabaseFull)?;
        return Ok(Planned::Objects(refusal));
    }
    Ok(Planned::Channels(ChannelPlan {
        frame: count_frame(alloc, 1)?,
        action: ChannelChange::Set(channel),
        length,
        weight,
    }))
}

// A channel is put over the shape of an object, which has to be there.
fn plan_over(
    alloc: Global,
    context: Context<'_>,
    channel: Channel,
    key: &Name,
    id: &Name,
) -> Result<Planned, NoMemory>
    requires sound { is_sound_setting channel (Some (area_words.Of key.now id.now)) ≡ true }
    requires recorded { IsRecordable channel (Some (area_words.Of key.now id.now)) }
    requires kept { AreKept (objects_in context.objects.now) context.total }
    requires channels { context.channels ≡ channels_weight context.hub.now.channels }
    requires light { context.total + context.channels ≤ most_kept }
    ensures { IfOk result (λ p. (held : List Sub) → IsPlanned (kept_world context.entry) context.entry.total held
        (within_reply (set_area (kept_world context.entry) channel (Some (area_words.Of key.now id.now)))) p) }
{
    let Some(object) = context.objects.get(key, id) else {
        drop(channel);
        return Ok(Planned::Objects(plan_missing(alloc, context.objects, context.total, key)?));
    };
    let settled = channel_at(alloc, channel, object)?;
    plan_settled(alloc, context, settled)
}

// A channel is put with its area.
fn plan_area(
    alloc: Global,
    context: Context<'_>,
    channel: Channel,
    area: Option<AreaWords>,
) -> Result<Planned, NoMemory>
    requires sound { is_sound_setting channel area ≡ true }
    requires recorded { IsRecordable channel area }
    requires kept { AreKept (objects_in context.objects.now) context.total }
    requires channels { context.channels ≡ channels_weight context.hub.now.channels }
    requires light { context.total + context.channels ≤ most_kept }
    ensures { IfOk result (λ p. (held : List Sub) → IsPlanned (kept_world context.entry) context.entry.total held
        (within_reply (set_area (kept_world context.entry) channel area)) p) }
{
    match area {
        None => plan_settled(alloc, context, channel),
        Some(AreaWords::Given(area)) => {
            let settled = channel_over(channel, area);
            plan_settled(alloc, context, settled)
        }
        Some(AreaWords::Of(key, id)) => plan_over(alloc, context, channel, &key, &id),
    }
}

/// What SETCHAN will do in its context, whose moment the seconds are counted from.
pub(crate) fn plan_setchan(
    alloc: Global,
    context: Context<'_>,
    channel: Channel,
    area: Option<AreaWords>,
    seconds: Option<u32>,
) -> Result<Planned, NoMemory>
    requires sound { is_sound_setting channel area ≡ true }
    requires recorded { IsRecordableAt context.now seconds channel area }
    requires kept { AreKept (objects_in context.objects.now) context.total }
    requires channels { context.channels ≡ channels_weight context.hub.now.channels }
    requires light { context.total + context.channels ≤ most_kept }
    requires moment { context.now ≤ max_moment }
    ensures { IfOk result (λ p. (held : List Sub) → IsPlanned (kept_world context.entry) context.entry.total held
        (effect (kept_world context.entry) context.entry.now []
        (command.Channel (of_channel.Setchan channel area seconds))) p) }
{
    let mut channel = channel;
    channel.deadline = deadline_after(context.now, seconds);
    plan_area(alloc, context, channel, area)
}
