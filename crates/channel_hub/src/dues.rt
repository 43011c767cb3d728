//! Channels whose deadline has come.

ghost use Rattle.std.specs.Prelude.{◌≡◌};
ghost use Rattle.world_data.specs.Expiry.{is_channel_due};
ghost use Rattle.channel_hub.specs.Dues.{is_out, left_at};

use crate::indexed_channels::IndexedChannels;
use world_data::Channel;

/// Whether a channel has a deadline, and it is at most now.
pub(crate) fn is_due(channel: &Channel, now: u64) -> bool
    ensures { result ≡ is_channel_due now channel.now }
{
    match channel.deadline {
        Some(deadline) => deadline <= now,
        None => false,
    }
}

/// Whether a channel is out, where those are that were due at a moment.
pub(crate) fn is_out(out: Option<u64>, channel: &Channel) -> bool
    ensures { result ≡ is_out out channel.now }
{
    match out {
        Some(now) => is_due(channel, now),
        None => false,
    }
}

/// Takes all channels out that are due. The one that was prepared stays prepared.
pub(crate) fn let_due_go(all: &mut IndexedChannels, now: u64)
    ensures channels { all.new.channels ≡ left_at now all.old.channels }
    ensures prepared { all.new.prepared ≡ all.old.prepared }
{
    while let Some(at) = all.due_place(now) {
        drop(all.remove(at));
    }
}
