//! All channels of a hub by name, and their marks in the index.
//!
//! A channel stays in its slot. The index gives out the slot, so that one that a write may concern is read without
//! seeking its name; those that are named are few, and are put in order of their names. A name that is sought leads to
//! the slot through a hash map. The order is a list of slots, which is halved only where a channel comes or goes. The
//! slots of the channels that have a deadline stand in a second list, in the order in which they expire: those that are
//! due are in front, so no deadline is sought among all. A channel is prepared before it is put, so that `put` takes no
//! memory.

ghost use Rattle.std.specs.Prelude.{◌≡◌, ◌+◌, ◌<◌, ◌≤◌, [], true, not, length, filter, find, slice_get, Some, None, IfOk};
ghost use Rattle.std.specs.Prelude.{IfNone, IfSome, OnOk, OnErr};
ghost use Rattle.std.specs.List.{remove};
ghost use Rattle.ordered_lists.specs.Lists.{put_in};
ghost use Rattle.world_data.specs.Expiry.{is_channel_due};
ghost use Rattle.world_data.specs.Worlds.{are_channels, channel_before, is_named};
ghost use Rattle.fence_model.specs.Messages.{watches};
ghost use Rattle.fence_index.specs.Marks.{mark_of};
ghost use Rattle.channel_hub.specs.DuePlaces.{places_out};
ghost use Rattle.channel_hub.specs.Dues.{due_in, least_due, left_at, left_of};
ghost use Rattle.channel_hub.specs.Hubs.{AreWhole, may_concern};
ghost use Rattle.rtree.specs.Ledgers.{IsRead};

use crate::candidates::{Candidates, push_of_key, push_slots};
use crate::channel_slots::{exchange, place_of};
use crate::due_places::{list_places, place_of_due};
use crate::due_slots::{due_count, first_channels, out_count, put_due, take_due};
use crate::slots_by_name::SlotsByName;
use byte_text::{Name, NoMemory};
use fence_index::{FenceIndex, watch_is_whole};
use planar_geom::BBox;
use rtree::{Ledger, Steps};
use run_list::RunList;
use slab::Slab;
use std::alloc::Global;
use std::marker::Model;
use world_data::Channel;

/// Channels in byte order of their names, and an index of their fences. One more may be prepared, which is then put
/// without taking memory.
pub(crate) struct IndexedChannels {
    // A channel stays in its slot until it is taken out. There is room for the channel that is prepared in the index.
    slots: Slab<Channel>,
    // The slots of all channels, in byte order of their names. There is room for one more too.
    order: RunList,
    // Those of channels with a deadline, in order of deadline and name. There is room for all, and for one more too.
    dues: RunList,
    // The same slots, each found by its channel's name. One more can be put too.
    names: SlotsByName,
    // Each channel under its slot.
    index: FenceIndex,
}

impl Drop for IndexedChannels {
    fn drop(self) {
        let IndexedChannels {
            slots: _,
            order: _,
            dues: _,
            names: _,
            index: _,
        } = self;
    }
}

impl Model for IndexedChannels {
    ghost use Rattle.slab.specs.Slab.{get, slab_len};
    ghost use Rattle.channel_hub.specs.Hubs.{ByName, IsKept, channels_in};

    ghost Value = { ByName };

    ghost view = { λ h. record { channels = channels_in (get h.slots) h.order.items; prepared = h.index.prepared } };

    ghost invariant = { λ h. IsKept (get h.slots) h.order h.dues h.index h.names (slab_len h.slots) h.slots.capacity };
}

impl IndexedChannels {
    /// No channel, and none prepared. It takes no memory; channels take it from `alloc`.
    pub(crate) fn new(alloc: Global) -> IndexedChannels
        ensures channels { result.channels ≡ [] }
        ensures prepared { result.prepared ≡ None }
    {
        IndexedChannels {
            slots: Slab::new(alloc),
            order: RunList::new(alloc),
            dues: RunList::new(alloc),
            names: SlotsByName::new(alloc),
            index: FenceIndex::new(alloc),
        }
    }

    /// Prepares a channel, in place of the one that was prepared before and not put: all memory that `put` needs is
    /// taken. For want of it that one stays prepared. The channels stay.
    pub(crate) fn prepare(&mut self, alloc: Global, channel: &Channel) -> Result<(), NoMemory>
        ensures channels { self.new.channels ≡ self.old.channels }
        ensures ok { OnOk result (self.new.prepared ≡ Some (mark_of channel.now)) }
        ensures err { OnErr result (self.new.prepared ≡ self.old.prepared) }
    {
        if self.slots.reserve(1).is_err() {
            return Err(NoMemory);
        }
        self.order.reserve(1)?;
        self.dues.reserve(self.order.len() + 1 - self.dues.len())?;
        self.names.prepare(alloc)?;
        self.index.prepare(alloc, channel)
    }

    /// Puts the channel that was prepared at its place, and gives out the one of its name that stood there. None is
    /// prepared then.
    pub(crate) fn put(&mut self, channel: Channel) -> Option<Channel>
        requires { self.old.prepared ≡ Some (mark_of channel) }
        ensures channels { self.new.channels ≡ put_in channel_before channel self.old.channels }
        ensures replaced { result ≡ find (is_named channel.name) self.old.channels }
        ensures prepared { self.new.prepared ≡ None }
    {
        // What the channels watch is kept whole: the law on those that no change concerns asks for it.
        watch_is_whole(&channel.fence.watch);
        match self.names.get(&channel.name) {
            Some(slot) => {
                self.index.take_out(&self.slots[slot], slot);
                self.index.put(&channel, slot);
                take_due(&mut self.dues, &self.slots, slot);
                let old = exchange(&mut self.slots, slot, channel);
                put_due(&mut self.dues, &self.slots, slot);
                Some(old)
            }
            None => {
                let at = place_of(&self.slots, &self.order, &channel.name);
                let slot = self.slots.vacant_key();
                self.index.put(&channel, slot);
                self.names.put(&channel.name, slot);
                self.slots.insert_reserved(channel);
                self.order.insert(at, slot);
                put_due(&mut self.dues, &self.slots, slot);
                None
            }
        }
    }

    /// Takes out the channel of this name, where there is one. The one that was prepared stays prepared. It takes no
    /// memory.
    pub(crate) fn take_out(&mut self, name: &Name) -> Option<Channel>
        ensures channels { self.new.channels ≡ filter (λ c. not (is_named name.now c)) self.old.channels }
        ensures taken { result ≡ find (is_named name.now) self.old.channels }
        ensures prepared { self.new.prepared ≡ self.old.prepared }
    {
        match self.names.get(name) {
            Some(_) => {
                let at = place_of(&self.slots, &self.order, name);
                Some(self.remove(at))
            }
            None => None,
        }
    }

    /// Takes out the channel at a place. The one that was prepared stays prepared. It takes no memory.
    pub(crate) fn remove(&mut self, at: usize) -> Channel
        requires { at < length self.old.channels }
        ensures channels { self.new.channels ≡ remove self.old.channels at }
        ensures taken { slice_get self.old.channels at ≡ Some result }
        ensures prepared { self.new.prepared ≡ self.old.prepared }
    {
        let slot = self.order.remove(at);
        take_due(&mut self.dues, &self.slots, slot);
        let channel = self.slots.remove(slot);
        self.index.take_out(&channel, slot);
        self.names.take_out(&channel.name);
        channel
    }

    /// Takes out all channels. The one that was prepared stays prepared. It takes no memory.
    pub(crate) fn clear(&mut self)
        ensures channels { self.new.channels ≡ [] }
        ensures prepared { self.new.prepared ≡ self.old.prepared }
    {
        self.slots.clear();
        self.order.remove_between(0, self.order.len());
        self.dues.remove_between(0, self.dues.len());
        self.names.clear();
        self.index.clear();
    }

    /// The channel of this name, where there is one.
    pub(crate) fn get(&self, name: &Name) -> Option<&Channel>
        ensures none { IfNone result (find (is_named name.now) self.now.channels ≡ None) }
        ensures some { IfSome result (λ c. find (is_named name.now) self.now.channels ≡ Some c.now) }
    {
        match self.names.get(name) {
            Some(slot) => Some(&self.slots[slot]),
            None => None,
        }
    }

    /// How many channels there are.
    pub(crate) fn len(&self) -> usize
        ensures count { result ≡ length self.now.channels }
        ensures by_name { are_channels self.now.channels ≡ true }
        ensures whole { AreWhole self.now.channels }
    {
        // Naming the slots shows the proof what is kept of them.
        let _kept = &self.slots;
        self.order.len()
    }

    /// The channel at this place, counted from 0 by ascending name.
    pub(crate) fn at(&self, i: usize) -> &Channel
        requires { i < length self.now.channels }
        ensures { slice_get self.now.channels i ≡ Some result.now }
    {
        &self.slots[self.order.at(i)]
    }

    /// The least deadline of those that are left where those are out that were due at a moment.
    pub(crate) fn least_due(&self, out: Option<u64>) -> Option<u64>
        ensures { result ≡ least_due (left_of out self.now.channels) }
    {
        let first = out_count(&self.slots, &self.dues, out);
        if first == self.dues.len() {
            return None;
        }
        match self.slots.get(self.dues.at(first)) {
            Some(channel) => channel.deadline,
            None => unreachable!(),
        }
    }

    /// The channels that are due, in the order in which they expire.
    pub(crate) fn due(&self, alloc: Global, now: u64) -> Result<Candidates<'_>, NoMemory>
        ensures { IfOk result (λ cs. cs ≡ due_in now self.now.channels) }
    {
        let count = due_count(&self.slots, &self.dues, now);
        let due = first_channels(alloc, &self.slots, &self.dues, count)?;
        Ok(due)
    }

    /// Lists the places of the channels that are due, from the front to the back, where there is room for all.
    pub(crate) fn list_due(&self, now: u64, places: &mut RunList)
        requires none { places.old.items ≡ [] }
        requires room { length self.now.channels ≤ places.old.spare }
        ensures places { places.new.items ≡ places_out (Some now) self.now.channels }
        ensures room { length places.new.items + places.new.spare ≡ places.old.spare }
    {
        let count = due_count(&self.slots, &self.dues, now);
        list_places(&self.slots, &self.order, &self.dues, count, places);
    }

    /// The place of the channel that expires first, where that is due.
    pub(crate) fn due_place(&self, now: u64) -> Option<usize>
        ensures none { IfNone result (left_at now self.now.channels ≡ self.now.channels) }
        ensures within { IfSome result (λ at. at < length self.now.channels) }
        ensures due { IfSome result
            (λ at. IfSome (slice_get self.now.channels at) (λ c. is_channel_due now c ≡ true)) }
    {
        match self.least_due(None) {
            Some(deadline) if deadline <= now => {
                Some(place_of_due(&self.slots, &self.order, &self.dues, 0))
            }
            _ => None,
        }
    }

    /// The channels of the key which a change may concern that moves an object from one box, where it was there, to
    /// another, where it is there after it. The steps do not fall, and rise by enough nodes to hold these channels, at
    /// most 16 each.
    pub(crate) fn candidates<L: Ledger>(
        &self,
        alloc: Global,
        key: &Name,
        old: Option<BBox>,
        new: Option<BBox>,
        steps: &mut Steps<L>,
    ) -> Result<Candidates<'_>, NoMemory>
        ensures channels { IfOk result (λ cs. cs ≡ filter (may_concern key.now old new) self.now.channels) }
        ensures read { IfOk result (λ cs. IsRead 0 (length cs) steps.old.count steps.new.count) }
        ensures counted { IsRead 0 0 steps.old.count steps.new.count }
    {
        let numbers = self.index.candidates(alloc, key, old, new, steps)?;
        let mut candidates = Candidates::new(alloc);
        push_slots(&self.slots, &numbers, &mut candidates)?;
        candidates.sort();
        Ok(candidates)
    }

    /// All channels of the key: a drop of it may concern each.
    pub(crate) fn of_key(&self, alloc: Global, key: &Name) -> Result<Candidates<'_>, NoMemory>
        ensures { IfOk result (λ cs. cs ≡ filter (watches (Some key.now)) self.now.channels) }
    {
        let mut candidates = Candidates::new(alloc);
        push_of_key(&self.slots, &self.order, key, &mut candidates)?;
        Ok(candidates)
    }
}
