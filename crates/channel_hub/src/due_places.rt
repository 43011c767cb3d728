//! Places of channels that are due, in a list that ascends.

ghost use Rattle.std.specs.Prelude.{◌≡◌, ◌+◌, ◌-◌, ◌<◌, ◌≤◌, [], true, not, nat_lt, length, map};
ghost use Rattle.std.specs.Prelude.{slice_index, take};
ghost use Rattle.ordered_lists.specs.Lists.{ascends, insert_by, sorted_by};
ghost use Rattle.slab.specs.Slab.{get};
ghost use Rattle.channel_hub.specs.DueOrder.{dues_of};
ghost use Rattle.channel_hub.specs.DuePlaces.{place_among};
ghost use Rattle.channel_hub.specs.Hubs.{AreInOrder, channels_in};

use crate::channel_slots::place_of;
use run_list::{Before, RunList};
use slab::Slab;
use world_data::Channel;

/// The test of the numbers that are less than one.
#[derive(Drop)]
struct LessThan {
    number: usize,
}

impl Before for LessThan {
    ghost use Rattle.std.specs.Prelude.{nat_lt};

    ghost before = { λ t number. nat_lt number t.number };

    fn is_before(&self, number: usize) -> bool {
        number < self.number
    }
}

// Puts a place among these, which don't descend, and for which there is room.
fn put_place(places: &mut RunList, place: usize)
    requires order { ascends (λ c d. not (nat_lt d c)) places.old.items ≡ true }
    requires room { 1 ≤ places.old.spare }
    ensures items { places.new.items ≡ insert_by nat_lt place places.old.items }
    ensures room { places.new.spare + 1 ≡ places.old.spare }
{
    let at = places.place_of(&LessThan { number: place });
    places.insert(at, place);
}

/// The place by name of the channel that expires behind so many others.
pub(crate) fn place_of_due(
    slots: &Slab<Channel>,
    order: &RunList,
    dues: &RunList,
    at: usize,
) -> usize
    requires ordered { AreInOrder (get slots.now) order.now.items }
    requires listed { dues.now.items ≡ dues_of (get slots.now) order.now.items }
    requires within { at < length dues.now.items }
    ensures { result ≡ place_among (channels_in (get slots.now) order.now.items)
        (get slots.now (slice_index dues.now.items at)) }
{
    let channel = &slots[dues.at(at)];
    place_of(slots, order, &channel.name)
}

/// Lists the places by name of the channels that expire first, from the front to the back, where there is room.
pub(crate) fn list_places(
    slots: &Slab<Channel>,
    order: &RunList,
    dues: &RunList,
    count: usize,
    places: &mut RunList,
)
    requires ordered { AreInOrder (get slots.now) order.now.items }
    requires listed { dues.now.items ≡ dues_of (get slots.now) order.now.items }
    requires within { count ≤ length dues.now.items }
    requires none { places.old.items ≡ [] }
    requires room { count ≤ places.old.spare }
    ensures places { places.new.items ≡ sorted_by nat_lt
        (map (λ s. place_among (channels_in (get slots.now) order.now.items) (get slots.now s)) (take count dues.now.items)) }
    ensures room { length places.new.items + places.new.spare ≡ places.old.spare }
{
    let mut at = count;
    while at > 0 {
        at -= 1;
        put_place(places, place_of_due(slots, order, dues, at));
    }
}

/// How many of these places, which ascend, stand before what stands at a place once they are left out.
pub(crate) fn gone_before(gone: &RunList, at: usize) -> usize
    requires { at + length gone.now.items ≤ 18446744073709551615 }
    ensures within { result ≤ length gone.now.items }
    ensures front { 0 < result → slice_index gone.now.items (result - 1) < at + result }
    ensures behind { result < length gone.now.items → at + result < slice_index gone.now.items result }
{
    let mut low = 0;
    let mut high = gone.len();
    while low < high {
        let middle = low + (high - low) / 2;
        if gone.at(middle) <= at + middle {
            low = middle + 1;
        } else {
            high = middle;
        }
    }
    low
}
