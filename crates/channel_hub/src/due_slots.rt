//! Slots of channels that have a deadline, in order of deadline and name.

ghost use Rattle.std.specs.Prelude.{◌≡◌, ◌+◌, ◌≤◌, ℕ, List, true, not, length, take, drop, filter, OnOk, IfOk};
ghost use Rattle.slab.specs.Slab.{get};
ghost use Rattle.world_data.specs.Expiry.{channel_due_before};
ghost use Rattle.channel_hub.specs.DueOrder.{dues_of, expiring, has_come_in, has_deadline, with_due};
ghost use Rattle.channel_hub.specs.Dues.{left_of};
ghost use Rattle.channel_hub.specs.Hubs.{AreInOrder, channels_in};

use crate::candidates::Candidates;
use crate::dues::is_due;
use byte_text::NoMemory;
use ordered_lists::is_before;
use run_list::{Before, RunList};
use slab::Slab;
use std::alloc::Global;
use world_data::Channel;

/// The test of the slots whose channels expire before that in one slot.
#[derive(Drop)]
struct ExpiresBefore<'a> {
    slots: &'a Slab<Channel>,
    slot: usize,
}

impl<'a> Before for ExpiresBefore<'a> {
    ghost use Rattle.slab.specs.Slab.{get};
    ghost use Rattle.channel_hub.specs.DueOrder.{due_order};

    ghost before = { λ t slot. due_order (get t.slots.now) slot t.slot };

    fn is_before(&self, number: usize) -> bool {
        match self.slots.get(number) {
            Some(channel) => match self.slots.get(self.slot) {
                Some(other) => goes_before(channel, other),
                None => true,
            },
            None => false,
        }
    }
}

/// The test of the slots whose channels are due at a moment.
#[derive(Drop)]
struct HasCome<'a> {
    slots: &'a Slab<Channel>,
    now: u64,
}

impl<'a> Before for HasCome<'a> {
    ghost use Rattle.slab.specs.Slab.{get};
    ghost use Rattle.channel_hub.specs.DueOrder.{has_come_in};

    ghost before = { λ t slot. has_come_in t.now (get t.slots.now slot) };

    fn is_before(&self, number: usize) -> bool {
        match self.slots.get(number) {
            Some(channel) => is_due(channel, self.now),
            None => false,
        }
    }
}

/// Puts a slot among these where its channel has a deadline, for which there is room then.
pub(crate) fn put_due(dues: &mut RunList, slots: &Slab<Channel>, slot: usize)
    requires listed { (order : List ℕ) × (dues.old.items ≡ dues_of (get slots.now) order) }
    requires room { has_deadline (get slots.now slot) ≡ true → 1 ≤ dues.old.spare }
    ensures items { dues.new.items ≡ with_due (get slots.now) slot dues.old.items }
    ensures room { length dues.new.items + dues.new.spare ≡ length dues.old.items + dues.old.spare }
{
    if may_expire(slots, slot) {
        let at = dues.place_of(&ExpiresBefore { slots, slot });
        dues.insert(at, slot);
    }
}

/// Takes a slot out of these where its channel has a deadline.
pub(crate) fn take_due(dues: &mut RunList, slots: &Slab<Channel>, slot: usize)
    requires listed { (order : List ℕ) × (dues.old.items ≡ dues_of (get slots.now) order) }
    requires there { (rest : List ℕ) × (dues.old.items ≡ with_due (get slots.now) slot rest) }
    ensures items { (rest : List ℕ) → dues.old.items ≡ with_due (get slots.now) slot rest → dues.new.items ≡ rest }
    ensures room { length dues.new.items + dues.new.spare ≡ length dues.old.items + dues.old.spare }
{
    if may_expire(slots, slot) {
        let at = dues.place_of(&ExpiresBefore { slots, slot });
        let _ = dues.remove(at);
    }
}

/// How many of these are due at a moment: those in front.
pub(crate) fn due_count(slots: &Slab<Channel>, dues: &RunList, now: u64) -> usize
    requires { (order : List ℕ) × (dues.now.items ≡ dues_of (get slots.now) order) }
    ensures within { result ≤ length dues.now.items }
    ensures front { take result dues.now.items ≡ filter (λ s. has_come_in now (get slots.now s)) dues.now.items }
    ensures behind { drop result dues.now.items ≡ filter (λ s. not (has_come_in now (get slots.now s))) dues.now.items }
{
    dues.place_of(&HasCome { slots, now })
}

/// How many of these are out, where those are that were due at a moment.
pub(crate) fn out_count(slots: &Slab<Channel>, dues: &RunList, out: Option<u64>) -> usize
    requires { (order : List ℕ) × (dues.now.items ≡ dues_of (get slots.now) order) }
    ensures within { result ≤ length dues.now.items }
    ensures left { (order : List ℕ) → AreInOrder (get slots.now) order
        → dues.now.items ≡ dues_of (get slots.now) order
        → channels_in (get slots.now) (drop result dues.now.items)
        ≡ expiring (left_of out (channels_in (get slots.now) order)) }
{
    match out {
        Some(now) => due_count(slots, dues, now),
        None => 0,
    }
}

/// The channels in the first of these slots, in this order.
pub(crate) fn first_channels<'a>(
    alloc: Global,
    slots: &'a Slab<Channel>,
    dues: &RunList,
    count: usize,
) -> Result<Candidates<'a>, NoMemory>
    requires { count ≤ length dues.now.items }
    ensures { IfOk result (λ cs. cs ≡ channels_in (get slots.now) (take count dues.now.items)) }
{
    let mut channels = Candidates::new(alloc);
    for i in 0..count {
        channels.push(slots.get(dues.at(i)))?;
    }
    Ok(channels)
}

// Whether there is a channel in a slot, and it has a deadline.
fn may_expire(slots: &Slab<Channel>, slot: usize) -> bool
    ensures { result ≡ has_deadline (get slots.now slot) }
{
    match slots.get(slot) {
        Some(channel) => channel.deadline.is_some(),
        None => false,
    }
}

// Whether a channel goes before another: its deadline comes first, or at the same moment its name does. No deadline
// counts as the moment 0.
fn goes_before(channel: &Channel, other: &Channel) -> bool
    ensures { result ≡ channel_due_before channel.now other.now }
{
    let first = channel.deadline.unwrap_or(0);
    let second = other.deadline.unwrap_or(0);
    first < second || (first == second && is_before(&channel.name, &other.name))
}
