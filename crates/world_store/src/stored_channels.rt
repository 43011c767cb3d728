//! The channels of a stored world.

ghost use Rattle.std.specs.Prelude.{◌≡◌, ◌+◌, [], true, not, length, filter, sum_by, OnOk, OnErr};
ghost use Rattle.ordered_lists.specs.Lists.{put_in};
ghost use Rattle.world_data.specs.Worlds.{channel_before, is_named};
ghost use Rattle.record_writer.specs.Lengths.{len_of_channel};
ghost use Rattle.channel_hub.specs.Hubs.{IsPrepared};

use byte_text::{Name, NoMemory};
use channel_hub::Hub;
use record_writer::channel_len;
use std::alloc::Global;
use std::marker::Model;
use world_data::Channel;

/// Channels in order of their names, and the bytes of their records.
pub(crate) struct StoredChannels {
    alloc: Global,
    hub: Hub,
    weight: u64,
}

impl Drop for StoredChannels {
    fn drop(self) {
        let StoredChannels {
            alloc: _,
            hub: _,
            weight: _,
        } = self;
    }
}

impl Model for StoredChannels {
    ghost use Rattle.std.specs.Prelude.{◌≡◌, List, sum_by};
    ghost use Rattle.world_data.specs.declared.channels.Channel.{Channel};
    ghost use Rattle.record_writer.specs.Lengths.{len_of_channel};

    ghost Value = { List Channel };

    ghost view = { λ s. s.hub.channels };

    ghost invariant = { λ s. s.weight ≡ sum_by len_of_channel s.hub.channels };
}

impl StoredChannels {
    /// No channel.
    pub(crate) fn new(alloc: Global) -> StoredChannels
        ensures { result ≡ [] }
    {
        StoredChannels {
            alloc,
            hub: Hub::new(alloc),
            weight: 0,
        }
    }

    /// How many channels there are.
    pub(crate) fn len(&self) -> usize
        ensures { result ≡ length self.now }
    {
        self.hub.len()
    }

    /// Puts a channel at its place, in place of the one of its name. For want of memory the channels are as before.
    pub(crate) fn put(&mut self, channel: Channel) -> Result<(), NoMemory>
        ensures ok { OnOk result (self.new ≡ put_in channel_before channel self.old) }
        ensures err { OnErr result (self.new ≡ self.old) }
    {
        let Some(weight) = self.weight.checked_add(channel_len(&channel)) else {
            return Err(NoMemory);
        };
        self.hub.prepare(self.alloc, &channel)?;
        self.weight = exchange(&mut self.hub, weight, channel);
        Ok(())
    }

    /// Takes out the channel of this name, where there is one.
    pub(crate) fn take_out(&mut self, name: &Name)
        ensures { self.new ≡ filter (λ c. not (is_named name.now c)) self.old }
    {
        self.weight = take_one(&mut self.hub, self.weight, name);
    }

    /// Takes out all channels.
    pub(crate) fn clear(&mut self)
        ensures { self.new ≡ [] }
    {
        self.weight = 0;
        self.hub.clear();
    }

    /// The channels, and the bytes of their records.
    pub(crate) fn into_parts(self) -> (Hub, u64)
        ensures channels { result.0.channels ≡ self }
        ensures weight { result.1 ≡ sum_by len_of_channel self }
    {
        let StoredChannels {
            alloc: _,
            hub,
            weight,
        } = self;
        (hub, weight)
    }
}

// Puts the channel that was prepared, where the channels and it have this weight. The weight of all is answered.
fn exchange(hub: &mut Hub, weight: u64, channel: Channel) -> u64
    requires prepared { IsPrepared hub.old channel }
    requires weighed { weight ≡ sum_by len_of_channel hub.old.channels + len_of_channel channel }
    ensures channels { hub.new.channels ≡ put_in channel_before channel hub.old.channels }
    ensures weighed { result ≡ sum_by len_of_channel hub.new.channels }
{
    // Channels stand in order, so there is no second one of this name.
    let _count = hub.len();
    match hub.put(channel) {
        Some(old) => weight - channel_len(&old),
        None => weight,
    }
}

// Takes out the channel of this name, where there is one, of channels of this weight. The weight of the others is
// answered.
fn take_one(hub: &mut Hub, weight: u64, name: &Name) -> u64
    requires { weight ≡ sum_by len_of_channel hub.old.channels }
    ensures channels { hub.new.channels ≡ filter (λ c. not (is_named name.now c)) hub.old.channels }
    ensures weighed { result ≡ sum_by len_of_channel hub.new.channels }
{
    // What is counted stands in order.
    let _count = hub.len();
    match hub.take_out(name) {
        Some(taken) => weight - channel_len(&taken),
        None => weight,
    }
}
