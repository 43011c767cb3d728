//! Channels that expire: those whose deadline has come are out in the hub while a call is made, and go with it.
//!
//! An object and a channel of one deadline go in that order, so that the channel hears of the object. No deadline is
//! looked for where none can have come: the core keeps a moment until which no channel is due.

ghost use Rattle.std.specs.Prelude.{◌≡◌, ◌≤◌, ◌+◌, sum_by, IfOk, OnErr};
ghost use Rattle.world_data.specs.Records.{record_len};
ghost use Rattle.world_data.specs.declared.worlds.Change.TheVariants as change;
ghost use Rattle.record_writer.specs.Lengths.{len_of_channel};
ghost use Rattle.object_plans.specs.Beside.{channels_weight};
ghost use Rattle.object_plans.specs.Kept.{most_kept};
ghost use Rattle.tile_core.specs.Dues.{AreChannelsDueFrom, AreCounted, AreOut};

use crate::growths::{Growths, grown};
use byte_text::NoMemory;
use channel_hub::{Candidates, Hub};
use record_writer::{channel_len, delchan_len};
use std::alloc::Global;
use world_data::Channel;

/// What is known of the channels that are out.
#[derive(Clone, Copy)]
pub(crate) struct ExpiredChannels {
    /// The bytes of the records of their deletions.
    pub(crate) length: u64,
    /// The weight of the channels that are left.
    pub(crate) weight: u64,
    /// No deadline of those comes before this moment.
    pub(crate) due_from: u64,
}

// The least deadline of the channels, or the greatest moment where there is none.
fn least_channel_deadline(hub: &Hub) -> u64
    ensures { AreChannelsDueFrom result hub.now.channels }
{
    hub.least_due().unwrap_or(u64::MAX)
}

// Counts one more channel that is out.
fn count_one(gone: ExpiredChannels, channel: &Channel) -> ExpiredChannels
    requires heavy { len_of_channel channel.now ≤ gone.weight }
    requires small { gone.length + gone.weight ≤ most_kept }
    ensures length { result.length ≡ gone.length + record_len (change.DelChan channel.now.name) }
    ensures weight { result.weight + len_of_channel channel.now ≡ gone.weight }
    ensures small { result.length + result.weight ≤ gone.length + gone.weight }
    ensures due_from { result.due_from ≡ gone.due_from }
{
    ExpiredChannels {
        length: gone.length + delchan_len(&channel.name),
        weight: gone.weight - channel_len(channel),
        due_from: gone.due_from,
    }
}

// Counts each of these channels, which are no heavier than all.
fn count_each(out: &Candidates<'_>, total: u64, due_from: u64) -> ExpiredChannels
    requires light { total ≤ most_kept }
    requires weighed { sum_by len_of_channel out.now ≤ total }
    ensures counted { AreCounted total out.now result }
    ensures due_from { result.due_from ≡ due_from }
{
    let mut gone = ExpiredChannels {
        length: 0,
        weight: total,
        due_from,
    };
    for i in 0..out.len() {
        gone = count_one(gone, out.at(i));
    }
    gone
}

// Counts the channels that are out, where all together have this weight.
fn count_out<G: Growths>(
    alloc: Global,
    hub: &Hub,
    total: u64,
    growths: &mut G,
) -> Result<ExpiredChannels, NoMemory>
    requires light { total ≤ most_kept }
    requires weighed { channels_weight hub.now.channels + sum_by len_of_channel hub.now.taken ≡ total }
    ensures counted { IfOk result (AreCounted total hub.now.taken) }
    ensures due_from { IfOk result (λ g. AreChannelsDueFrom g.due_from hub.now.channels) }
{
    grown(growths)?;
    let out = hub.taken(alloc)?;
    Ok(count_each(&out, total, least_channel_deadline(hub)))
}

/// Takes the channels out that are due now, of channels of a weight of which no deadline comes before `due_from`. For
/// want of memory the channels are as before.
pub(crate) fn expire_channels<G: Growths>(
    alloc: Global,
    hub: &mut Hub,
    total: u64,
    due_from: u64,
    now: u64,
    growths: &mut G,
) -> Result<ExpiredChannels, NoMemory>
    requires light { total ≤ most_kept }
    requires weighed { total ≡ channels_weight hub.old.channels }
    requires due_from { AreChannelsDueFrom due_from hub.old.channels }
    ensures out { IfOk result (AreOut hub.old now total hub.new) }
    ensures err { OnErr result (hub.new.channels ≡ hub.old.channels) }
{
    grown(growths)?;
    if now < due_from {
        hub.let_go();
        return Ok(ExpiredChannels {
            length: 0,
            weight: total,
            due_from,
        });
    }
    hub.take_due(now);
    match count_out(alloc, hub, total, growths) {
        Ok(gone) => Ok(gone),
        Err(NoMemory) => {
            hub.put_back();
            Err(NoMemory)
        }
    }
}
