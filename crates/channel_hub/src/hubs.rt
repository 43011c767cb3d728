//! The hub: all channels by name, and their marks in the index.
//!
//! Channels whose deadline has come are out from a moment on: no call shows them, and their slots and marks stay, so
//! that they are put back without memory where the call that took them out cannot be done. Once it is done they are let
//! go.

ghost use Rattle.std.specs.Prelude.{◌≡◌, ◌<◌, [], true, not, length, filter, find, slice_get, Some, None, IfOk, IfNone};
ghost use Rattle.std.specs.Prelude.{IfSome, OnOk, OnErr, flat_map, option_map};
ghost use Rattle.ordered_lists.specs.Lists.{put_in};
ghost use Rattle.world_data.specs.Worlds.{are_channels, channel_before, is_named, object_at};
ghost use Rattle.fence_model.specs.Messages.{announced_messages, watches};
ghost use Rattle.world_data.specs.declared.worlds.World.{World};
ghost use Rattle.world_data.specs.declared.worlds.Change.TheVariants.{Put, Del};
ghost use Rattle.fence_index.specs.Silence.{IfWhole};
ghost use Rattle.fence_index.specs.Candidates.{box_if};
ghost use Rattle.channel_hub.specs.Hubs.{IsPrepared, del_may_concern, may_concern, put_may_concern};
ghost use Rattle.channel_hub.specs.Dues.{IsSettled, due_in, least_due, left_at};
ghost use Rattle.channel_hub.specs.MessageLaws.{messages_on};
ghost use Rattle.rtree.specs.Ledgers.{IsRead};

use crate::candidates::Candidates;
use crate::due_places::gone_before;
use crate::dues::{is_out, let_due_go};
use crate::indexed_channels::IndexedChannels;
use byte_text::{Name, NoMemory};
use fence_index::unconcerned_are_silent;
use planar_geom::{BBox, box_of, shape_is_whole};
use rtree::{Ledger, Steps};
use run_list::RunList;
use std::alloc::Global;
use std::marker::Model;
use world_data::{Channel, Object};

/// The channels of a world, in byte order of their names, and an index of their fences. One more may be prepared, which
/// is then put without taking memory. Those that are due may be out for a while, and go back without taking memory.
pub struct Hub {
    // Those that are out too.
    all: IndexedChannels,
    // The moment at which those that are out were due, where some may be out.
    out: Option<u64>,
    // Their places, which ascend. There is room for all, and for the one that is prepared.
    gone: RunList,
}

impl Drop for Hub {
    fn drop(self) {
        let Hub {
            all: _,
            out: _,
            gone: _,
        } = self;
    }
}

impl Model for Hub {
    ghost use Rattle.channel_hub.specs.Hubs.{Held};
    ghost use Rattle.channel_hub.specs.Dues.{AreOut, left_of, taken_of};

    ghost Value = { Held };

    ghost view = { λ h. record {
      channels = left_of h.out h.all.channels;
      taken = taken_of h.out h.all.channels;
      every = h.all.channels;
      out = h.out;
      prepared = h.all.prepared;
    } };

    ghost invariant = { λ h. AreOut h.all h.out h.gone };
}

impl Hub {
    /// No channel, and none prepared. It takes no memory; channels take it from `alloc`.
    pub fn new(alloc: Global) -> Hub
        ensures channels { result.channels ≡ [] }
        ensures settled { IsSettled result }
        ensures prepared { result.prepared ≡ None }
    {
        Hub {
            all: IndexedChannels::new(alloc),
            out: None,
            gone: RunList::new(alloc),
        }
    }

    /// Prepares a channel, in place of the one that was prepared before and not put: all memory that `put` needs is
    /// taken. For want of it that one stays prepared. The channels stay, and those that are out stay out.
    pub fn prepare(&mut self, alloc: Global, channel: &Channel) -> Result<(), NoMemory>
        ensures channels { self.new.channels ≡ self.old.channels }
        ensures taken { self.new.taken ≡ self.old.taken }
        ensures every { self.new.every ≡ self.old.every }
        ensures out { self.new.out ≡ self.old.out }
        ensures ok { OnOk result (IsPrepared self.new channel.now) }
        ensures err { OnErr result (self.new.prepared ≡ self.old.prepared) }
    {
        let Some(count) = self.all.len().checked_add(1) else {
            return Err(NoMemory);
        };
        self.gone.reserve(count)?;
        self.all.prepare(alloc, channel)
    }

    /// Puts the channel that was prepared at its place, and gives out the one of its name that stood there. None is
    /// prepared then, and those that are out are let go.
    pub fn put(&mut self, channel: Channel) -> Option<Channel>
        requires { IsPrepared self.old channel }
        ensures channels { self.new.channels ≡ put_in channel_before channel self.old.channels }
        ensures settled { IsSettled self.new }
        ensures replaced { result ≡ find (is_named channel.name) self.old.channels }
        ensures prepared { self.new.prepared ≡ None }
    {
        self.let_go();
        self.all.put(channel)
    }

    /// Takes out the channel of this name, where there is one; those that are out are let go. The one that was prepared
    /// stays prepared. It takes no memory.
    pub fn take_out(&mut self, name: &Name) -> Option<Channel>
        ensures channels { self.new.channels ≡ filter (λ c. not (is_named name.now c)) self.old.channels }
        ensures settled { IsSettled self.new }
        ensures taken { result ≡ find (is_named name.now) self.old.channels }
        ensures prepared { self.new.prepared ≡ self.old.prepared }
    {
        self.let_go();
        self.all.take_out(name)
    }

    /// Takes out all channels; those that are out are let go. The one that was prepared stays prepared. It takes no
    /// memory.
    pub fn clear(&mut self)
        ensures channels { self.new.channels ≡ [] }
        ensures settled { IsSettled self.new }
        ensures prepared { self.new.prepared ≡ self.old.prepared }
    {
        self.put_back();
        self.all.clear();
    }

    /// Takes all channels out that are due at a moment, until they are put back or let go; those that were out before
    /// are let go. The one that was prepared stays prepared. It takes no memory.
    pub fn take_due(&mut self, now: u64)
        ensures channels { self.new.channels ≡ left_at now self.old.channels }
        ensures taken { self.new.taken ≡ due_in now self.old.channels }
        ensures every { self.new.every ≡ self.old.channels }
        ensures prepared { self.new.prepared ≡ self.old.prepared }
    {
        self.let_go();
        if now < self.least_due().unwrap_or(u64::MAX) {
            return;
        }
        self.all.list_due(now, &mut self.gone);
        self.out = Some(now);
    }

    /// The channels that are out, in the order in which they expire.
    pub fn taken(&self, alloc: Global) -> Result<Candidates<'_>, NoMemory>
        ensures { IfOk result (λ cs. cs ≡ self.now.taken) }
    {
        match self.out {
            Some(now) => self.all.due(alloc, now),
            None => Ok(Candidates::new(alloc)),
        }
    }

    /// Puts back all channels that are out. It takes no memory.
    pub fn put_back(&mut self)
        ensures channels { self.new.channels ≡ self.old.every }
        ensures settled { IsSettled self.new }
        ensures prepared { self.new.prepared ≡ self.old.prepared }
    {
        self.out = None;
        self.gone.remove_between(0, self.gone.len());
    }

    /// Lets all channels go that are out. The one that was prepared stays prepared. It takes no memory.
    pub fn let_go(&mut self)
        ensures channels { self.new.channels ≡ self.old.channels }
        ensures settled { IsSettled self.new }
        ensures prepared { self.new.prepared ≡ self.old.prepared }
    {
        if let Some(now) = self.out.take() {
            let_due_go(&mut self.all, now);
            self.gone.remove_between(0, self.gone.len());
        }
    }

    /// The least deadline of all channels; none where no channel has one.
    pub fn least_due(&self) -> Option<u64>
        ensures { result ≡ least_due self.now.channels }
    {
        self.all.least_due(self.out)
    }

    /// The channel of this name, where there is one.
    pub fn get(&self, name: &Name) -> Option<&Channel>
        ensures none { IfNone result (find (is_named name.now) self.now.channels ≡ None) }
        ensures some { IfSome result (λ c. find (is_named name.now) self.now.channels ≡ Some c.now) }
    {
        // That no name stands there twice is known where the channels are counted.
        let _count = self.all.len();
        match self.all.get(name) {
            Some(channel) => {
                if is_out(self.out, channel) {
                    None
                } else {
                    Some(channel)
                }
            }
            None => None,
        }
    }

    /// How many channels there are.
    pub fn len(&self) -> usize
        ensures count { result ≡ length self.now.channels }
        ensures by_name { are_channels self.now.channels ≡ true }
    {
        self.all.len() - self.gone.len()
    }

    /// The channel at this place, counted from 0 by ascending name.
    pub fn at(&self, i: usize) -> &Channel
        requires { i < length self.now.channels }
        ensures { slice_get self.now.channels i ≡ Some result.now }
    {
        // That there are no more than can be counted is known where they are counted.
        let _count = self.all.len();
        self.all.at(i + gone_before(&self.gone, i))
    }

    /// The channels of the key which a change may concern that moves an object from one box, where it was there, to
    /// another, where it is there after it. The steps do not fall, and rise by enough nodes to hold these channels, at
    /// most 16 each.
    pub fn candidates<L: Ledger>(
        &self,
        alloc: Global,
        key: &Name,
        old: Option<BBox>,
        new: Option<BBox>,
        steps: &mut Steps<L>,
    ) -> Result<Candidates<'_>, NoMemory>
        ensures channels { IfOk result (λ cs. cs ≡ filter (may_concern key.now old new) self.now.channels) }
        ensures read { IfOk result (λ cs. IsRead 0 (length cs) steps.old.count steps.new.count) }
        ensures counted { IsRead 0 0 steps.old.count steps.new.count }
    {
        let mut candidates = self.all.candidates(alloc, key, old, new, steps)?;
        candidates.leave_out(self.out);
        Ok(candidates)
    }

    /// The channels that a put may concern of an object in the place of the old one, where there is one. Every other
    /// raises nothing: the messages are those of these channels alone. The steps rise by enough nodes to hold these
    /// channels, at most 16 each.
    pub fn candidates_of_put<L: Ledger>(
        &self,
        alloc: Global,
        old: Option<&Object>,
        new: &Object,
        steps: &mut Steps<L>,
    ) -> Result<Candidates<'_>, NoMemory>
        ensures channels { IfOk result
            (λ cs. cs ≡ filter (put_may_concern (option_map (λ o. o.now) old.entry) new.now) self.now.channels) }
        ensures messages { (w : World) → w.channels ≡ self.now.channels
            → object_at w new.now.key new.now.id ≡ option_map (λ o. o.now) old.entry
            → announced_messages w (Put new.now)
            ≡ flat_map (messages_on w (Put new.now))
            (filter (put_may_concern (option_map (λ o. o.now) old.entry) new.now) w.channels) }
        ensures read { IfOk result (λ cs. IsRead 0 (length cs) steps.old.count steps.new.count) }
        ensures counted { IsRead 0 0 steps.old.count steps.new.count }
    {
        // The law speaks of whole shapes and of the channels that are kept here.
        shape_is_whole(&new.shape);
        unconcerned_are_silent();
        // That the channels are whole is known where they are counted.
        let _count = self.all.len();
        self.candidates(
            alloc,
            &new.key,
            whole_box(old),
            Some(box_of(&new.shape)),
            steps,
        )
    }

    /// The channels that a del of an object may concern. Every other raises nothing: the messages are those of these
    /// channels alone. The steps rise by enough nodes to hold these channels, at most 16 each.
    pub fn candidates_of_del<L: Ledger>(
        &self,
        alloc: Global,
        old: &Object,
        steps: &mut Steps<L>,
    ) -> Result<Candidates<'_>, NoMemory>
        ensures channels { IfOk result (λ cs. cs ≡ filter (del_may_concern old.now) self.now.channels) }
        ensures messages { (w : World) → w.channels ≡ self.now.channels
            → object_at w old.now.key old.now.id ≡ Some old.now
            → announced_messages w (Del old.now.key old.now.id)
            ≡ flat_map (messages_on w (Del old.now.key old.now.id)) (filter (del_may_concern old.now) w.channels) }
        ensures read { IfOk result (λ cs. IsRead 0 (length cs) steps.old.count steps.new.count) }
        ensures counted { IsRead 0 0 steps.old.count steps.new.count }
    {
        unconcerned_are_silent();
        // That the channels are whole is known where they are counted.
        let _count = self.all.len();
        self.candidates(alloc, &old.key, whole_box(Some(old)), None, steps)
    }

    /// All channels of the key: a drop of it may concern each.
    pub fn of_key(&self, alloc: Global, key: &Name) -> Result<Candidates<'_>, NoMemory>
        ensures { IfOk result (λ cs. cs ≡ filter (watches (Some key.now)) self.now.channels) }
    {
        let mut candidates = self.all.of_key(alloc, key)?;
        candidates.leave_out(self.out);
        Ok(candidates)
    }
}

// The box of an object, where there is one, whose shape is whole.
fn whole_box(object: Option<&Object>) -> Option<BBox>
    ensures value { result ≡ box_if (option_map (λ o. o.now) object.entry) }
    ensures whole { IfWhole (option_map (λ o. o.now) object.entry) }
{
    match object {
        Some(object) => {
            shape_is_whole(&object.shape);
            Some(box_of(&object.shape))
        }
        None => None,
    }
}
