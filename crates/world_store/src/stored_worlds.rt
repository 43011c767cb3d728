//! A stored world, and the parts that it is taken apart into.

ghost use Rattle.std.specs.Prelude.{◌≡◌, ◌<◌, ◌^◌, true, length, sum_by, None, Some, IfNone, IfSome, OnOk, OnErr};
ghost use Rattle.world_data.specs.Worlds.{empty_world, after, object_at};
ghost use Rattle.record_writer.specs.Lengths.{len_of, len_of_channel, HaveFewFields};
ghost use Rattle.world_store.specs.Stored.{HasFew, due_from, earlier_of, is_put, world_of};

use crate::stored_channels::StoredChannels;
use crate::stored_objects::StoredObjects;
use byte_text::{Name, NoMemory};
use channel_hub::Hub;
use keyspace::Keyspace;
use std::alloc::Global;
use std::marker::Model;
use world_data::{Change, Object};

/// A world as it is kept. A change of one object or channel takes time that grows as the logarithm of their number, and
/// its root.
pub struct StoredWorld {
    objects: StoredObjects,
    channels: StoredChannels,
}

impl Drop for StoredWorld {
    fn drop(self) {
        let StoredWorld {
            objects: _,
            channels: _,
        } = self;
    }
}

impl Model for StoredWorld {
    ghost use Rattle.world_data.specs.declared.worlds.World.{World};

    ghost Value = { World };

    ghost view = { λ s. record { objects = s.objects; channels = s.channels } };
}

/// The parts of a stored world.
#[derive(Drop)]
pub struct StoreParts {
    pub objects: Keyspace,
    /// The bytes of the records of all objects.
    pub weight: u64,
    /// The least deadline of all objects and channels, or the greatest moment where none has one.
    pub due_from: u64,
    pub hub: Hub,
    /// The bytes of the records of all channels.
    pub channel_weight: u64,
}

impl StoredWorld {
    /// The empty world. What is put into it takes its memory from `alloc`.
    pub fn new(alloc: Global) -> StoredWorld
        ensures { result ≡ empty_world }
    {
        StoredWorld {
            objects: StoredObjects::new(alloc),
            channels: StoredChannels::new(alloc),
        }
    }

    /// How many objects there are.
    pub fn objects(&self) -> usize
        ensures { result ≡ length self.now.objects }
    {
        self.objects.len()
    }

    /// How many channels there are.
    pub fn channels(&self) -> usize
        ensures { result ≡ length self.now.channels }
    {
        self.channels.len()
    }

    /// The object of this key and this id, where there is one.
    pub fn get(&self, key: &Name, id: &Name) -> Option<&Object>
        ensures none { IfNone result (object_at self.now key.now id.now ≡ None) }
        ensures some { IfSome result (λ o. object_at self.now key.now id.now ≡ Some o.now) }
    {
        self.objects.get(key, id)
    }

    /// Makes the world the one after the change. For want of memory, which comes at a put or a setting alone, it is as
    /// before.
    pub fn fold(&mut self, change: Change) -> Result<(), NoMemory>
        requires { HasFew change }
        ensures ok { OnOk result (self.new ≡ after self.old change) }
        ensures err { OnErr result (self.new ≡ self.old) }
        ensures put { OnErr result (is_put change ≡ true) }
    {
        match change {
            Change::Put(object) => self.objects.put(object),
            Change::Del(key, id) => {
                self.objects.take_out(&key, &id);
                Ok(())
            }
            Change::Drop(key) => {
                self.objects.drop_key(&key);
                Ok(())
            }
            Change::Flush => {
                self.objects.clear();
                self.channels.clear();
                Ok(())
            }
            Change::SetChan(channel) => self.channels.put(channel),
            Change::DelChan(name) => {
                self.channels.take_out(&name);
                Ok(())
            }
        }
    }

    /// Takes the world apart. Its weight is the sum of the two weights.
    pub fn into_parts(self) -> StoreParts
        ensures world { world_of result ≡ self }
        ensures weight { result.weight ≡ sum_by len_of self.objects }
        ensures channel_weight { result.channel_weight ≡ sum_by len_of_channel self.channels }
        ensures due_from { result.due_from ≡ due_from self }
        ensures few { length self.objects < 2 ^ 32 }
        ensures few_fields { HaveFewFields self.objects }
    {
        let StoredWorld { objects, channels } = self;
        let (objects, weight) = objects.into_parts();
        let (hub, channel_weight) = channels.into_parts();
        StoreParts {
            due_from: earlier_of(objects.least_due(), hub.least_due()),
            objects,
            weight,
            hub,
            channel_weight,
        }
    }
}

// The lesser of two moments; the greatest one stands for a moment that is not there.
fn earlier_of(first: Option<u64>, second: Option<u64>) -> u64
    ensures { result ≡ earlier_of first second }
{
    first.unwrap_or(u64::MAX).min(second.unwrap_or(u64::MAX))
}
