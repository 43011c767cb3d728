//! What comes next where a world is copied piece by piece, found by halving.

ghost use Rattle.std.specs.Prelude.{◌≡◌, ◌≤◌, ◌<◌, true, false, not, length, filter, find, Some, None, IfSome};
ghost use Rattle.std.specs.Prelude.{option_map, slice_get};
ghost use Rattle.byte_text.specs.Names.{before};
ghost use Rattle.world_data.specs.Worlds.{are_objects, has_key};
ghost use Rattle.keyspace.specs.Entries.{has_objects, objects_in};
ghost use Rattle.world_store.specs.Copies.{is_behind, is_behind_name, is_next_channel, is_next_key, is_next_object};
ghost use Rattle.world_store.specs.Copies.{name_in, place_in, has_id_behind, has_key_behind, FirstOf, IsKeyPlace};
ghost use Rattle.world_store.specs.Copies.{AreBare};

use byte_text::Name;
use channel_hub::Hub;
use collection::Collection;
use keyspace::Keyspace;
use ordered_lists::is_before;
use world_data::{Channel, Object};

// The place of the first channel behind a name; the end where there is none.
fn channel_place(hub: &Hub, name: &Name) -> usize
    ensures { slice_get hub.now.channels result ≡ find (is_behind_name name.now) hub.now.channels }
{
    let mut low = 0;
    let mut high = hub.len();
    while low < high {
        let middle = low + (high - low) / 2;
        if is_before(name, &hub.at(middle).name) {
            high = middle;
        } else {
            low = middle + 1;
        }
    }
    low
}

// The channel at a place, where there is one.
fn channel_at(hub: &Hub, at: usize) -> Option<&Channel>
    ensures { option_map (λ c. c.now) result ≡ slice_get hub.now.channels at }
{
    if at < hub.len() {
        Some(hub.at(at))
    } else {
        None
    }
}

/// The first channel behind a name; the first of all where no name is given.
pub fn next_channel<'a>(hub: &'a Hub, after: Option<&Name>) -> Option<&'a Channel>
    ensures { option_map (λ c. c.now) result ≡ find (is_next_channel (name_in after.entry)) hub.now.channels }
{
    match after {
        Some(name) => channel_at(hub, channel_place(hub, name)),
        None => channel_at(hub, 0),
    }
}

// The place of the first object behind an id; the end where there is none.
fn object_place(objects: &Collection, id: &Name) -> usize
    ensures { slice_get objects.now.objects result ≡ find (has_id_behind id.now) objects.now.objects }
{
    let mut low = 0;
    let mut high = objects.len();
    while low < high {
        let middle = low + (high - low) / 2;
        if is_before(id, &objects.at(middle).id) {
            high = middle;
        } else {
            low = middle + 1;
        }
    }
    low
}

// The object at a place, where there is one.
fn object_at(objects: &Collection, at: usize) -> Option<&Object>
    ensures { option_map (λ o. o.now) result ≡ slice_get objects.now.objects at }
{
    if at < objects.len() {
        Some(objects.at(at))
    } else {
        None
    }
}

// The place of the first key that has an object, from a place on; the end where there is none.
fn next_held(objects: &Keyspace, from: usize) -> usize
    requires { from ≤ length objects.now }
    ensures from { from ≤ result }
    ensures within { result ≤ length objects.now }
    ensures bare { AreBare has_objects objects.now from result }
    ensures held { IfSome (slice_get objects.now result) (λ e. has_objects e ≡ true) }
{
    for at in from..objects.keys() {
        if objects.count(at) > 0 {
            return at;
        }
    }
    objects.keys()
}

// The place of the first key behind another that has an object; the end where there is none.
fn key_place(objects: &Keyspace, key: &Name) -> usize
    requires { are_objects (objects_in objects.now) ≡ true }
    ensures within { result ≤ length objects.now }
    ensures place { IsKeyPlace (before key.now) objects.now result }
{
    let mut low = 0;
    let mut high = objects.keys();
    while low < high {
        let middle = low + (high - low) / 2;
        let at = next_held(objects, middle);
        if at >= high || is_before(key, objects.key(at)) {
            high = middle;
        } else {
            low = at + 1;
        }
    }
    next_held(objects, low)
}

// The same; the first key of all where no key is given.
fn next_key(objects: &Keyspace, after: Option<&Name>) -> usize
    requires { are_objects (objects_in objects.now) ≡ true }
    ensures within { result ≤ length objects.now }
    ensures place { IsKeyPlace (is_next_key (name_in after.entry)) objects.now result }
{
    match after {
        Some(key) => key_place(objects, key),
        None => next_held(objects, 0),
    }
}

// The first object of the key at a place, which has one; none past the last key.
fn first_of(objects: &Keyspace, at: usize) -> Option<&Object>
    requires { IfSome (slice_get objects.now at) (λ e. has_objects e ≡ true) }
    ensures { FirstOf objects.now at (option_map (λ o. o.now) result) }
{
    if at >= objects.keys() {
        return None;
    }
    match objects.collection(objects.key(at)) {
        Some(own) => Some(own.at(0)),
        None => unreachable!(),
    }
}

// The first object whose key stands behind another; the first of all where no key is given.
fn first_of_next<'a>(objects: &'a Keyspace, after: Option<&Name>) -> Option<&'a Object>
    requires { are_objects (objects_in objects.now) ≡ true }
    ensures { option_map (λ o. o.now) result
        ≡ find (λ o. is_next_key (name_in after.entry) o.key) (objects_in objects.now) }
{
    // What keys have objects is known where they are counted.
    let _count = objects.keys();
    first_of(objects, next_key(objects, after))
}

// The first object of a key whose id stands behind another.
fn next_of_key<'a>(objects: &'a Keyspace, key: &Name, id: &Name) -> Option<&'a Object>
    ensures { option_map (λ o. o.now) result
        ≡ find (has_id_behind id.now) (filter (has_key key.now) (objects_in objects.now)) }
{
    match objects.collection(key) {
        Some(own) => object_at(own, object_place(own, id)),
        None => None,
    }
}

// The first object behind a key and an id.
fn object_behind<'a>(objects: &'a Keyspace, key: &Name, id: &Name) -> Option<&'a Object>
    requires { are_objects (objects_in objects.now) ≡ true }
    ensures { option_map (λ o. o.now) result ≡ find (is_behind key.now id.now) (objects_in objects.now) }
{
    match next_of_key(objects, key, id) {
        Some(object) => Some(object),
        None => first_of_next(objects, Some(key)),
    }
}

/// The first object behind a key and an id; the first of all where none are given.
pub fn next_object<'a>(objects: &'a Keyspace, after: Option<(&Name, &Name)>) -> Option<&'a Object>
    requires { are_objects (objects_in objects.now) ≡ true }
    ensures { option_map (λ o. o.now) result ≡ find (is_next_object (place_in after.entry)) (objects_in objects.now) }
{
    match after {
        Some((key, id)) => object_behind(objects, key, id),
        None => first_of_next(objects, None),
    }
}
