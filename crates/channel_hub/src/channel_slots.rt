//! Channels in slots, and a list of the slots in byte order of the channels' names.

ghost use Rattle.std.specs.Prelude.{◌≡◌, find, Some, None, IsSome};
ghost use Rattle.byte_text.specs.Names.{before};
ghost use Rattle.ordered_lists.specs.Lists.{IsHeld, IsFree};
ghost use Rattle.world_data.specs.Worlds.{is_named};
ghost use Rattle.slab.specs.Slab.{ContainsKey, Updates, get, slab_len};
ghost use Rattle.channel_hub.specs.Hubs.{AreInOrder, channels_in};

use byte_text::Name;
use ordered_lists::is_before;
use run_list::{Before, RunList};
use slab::Slab;
use std::mem;
use world_data::Channel;

/// The test of the slots whose channels stand before a name.
#[derive(Drop)]
struct StandsBefore<'a> {
    slots: &'a Slab<Channel>,
    name: &'a Name,
}

impl<'a> Before for StandsBefore<'a> {
    ghost use Rattle.slab.specs.Slab.{get};
    ghost use Rattle.channel_hub.specs.Hubs.{stands_before};

    ghost before = { λ t slot. stands_before t.name.now (get t.slots.now slot) };

    fn is_before(&self, number: usize) -> bool {
        match self.slots.get(number) {
            Some(channel) => is_before(&channel.name, self.name),
            None => false,
        }
    }
}

/// The place of the slot of the channel of this name, or, where there is none, the place where it would go.
pub(crate) fn place_of(slots: &Slab<Channel>, order: &RunList, name: &Name) -> usize
    requires { AreInOrder (get slots.now) order.now.items }
    ensures held { IsSome (find (is_named name.now) (channels_in (get slots.now) order.now.items))
        → IsHeld (λ c. before c.name name.now) (λ c. before name.now c.name)
        (channels_in (get slots.now) order.now.items) result }
    ensures free { find (is_named name.now) (channels_in (get slots.now) order.now.items) ≡ None
        → IsFree (λ c. before c.name name.now) (λ c. before name.now c.name)
        (channels_in (get slots.now) order.now.items) result }
{
    order.place_of(&StandsBefore { slots, name })
}

/// Puts a channel in the slot of another, which it gives out.
pub(crate) fn exchange(slots: &mut Slab<Channel>, slot: usize, channel: Channel) -> Channel
    requires { ContainsKey slots.old slot }
    ensures updates { Updates slots.old slots.new slot (Some channel) }
    ensures taken { get slots.old slot ≡ Some result }
    ensures len { slab_len slots.new ≡ slab_len slots.old }
    ensures capacity { slots.new.capacity ≡ slots.old.capacity }
{
    mem::replace(&mut slots[slot], channel)
}
