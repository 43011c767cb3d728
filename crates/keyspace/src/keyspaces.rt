//! All keys with their objects.
//!
//! Keys stand in a sorted vector, in which room can be taken beforehand; a tree map has none. A key without objects may
//! stand while a call is made, as the place to which an object goes back; it is given up at the call's end, last of
//! all, since it may be that of the object that is put. A call that runs out of memory may leave an empty key, until an
//! object is put under it or the world is cleared. No answer shows it.

ghost use Rattle.std.specs.Prelude.{◌≡◌, ◌+◌, ◌<◌, ◌≤◌, ◌^◌, ◌&&◌, ◌∷◌, [], true, not, length, filter, find, map};
ghost use Rattle.std.specs.Prelude.{is_some, is_none, if◌then◌else◌, slice_get, Some, None, IfNone, IfSome, OnOk};
ghost use Rattle.std.specs.Prelude.{OnErr};
ghost use Rattle.byte_text.specs.Names.{Bytes, before, same};
ghost use Rattle.ordered_lists.specs.Lists.{put_in, sorted_by, distinct};
ghost use Rattle.world_data.specs.Worlds.{object_before, are_objects, is_at, has_key};
ghost use Rattle.world_data.specs.Expiry.{is_due, due_before};
ghost use Rattle.world_data.specs.declared.objects.Object.{Object};
ghost use Rattle.collection.specs.Objects.{least_due};
ghost use Rattle.keyspace.specs.KeyOrder.{IsAdded};
ghost use Rattle.keyspace.specs.Entries.{objects_in, keys_of, is_held, are_held, room_for, has_room, has_objects};
ghost use Rattle.keyspace.specs.Entries.{is_entry_of};

use crate::deadlines::{noted, soonest};
use crate::key_order::place_of;
use crate::keyed_collections::KeyedCollection;
use byte_text::{Name, NoMemory};
use collection::Collection;
use rtree::{Ledger, Steps};
use std::alloc::Global;
use std::marker::Model;
use world_data::Object;

/// The objects of all keys, in byte order of key and id, with room for more that was taken beforehand.
#[derive(Drop)]
pub struct Keyspace {
    alloc: Global,
    collections: Vec<KeyedCollection>,
    // How many objects there are.
    count: usize,
    // What is known of deadlines: the keys in front of a place have none up to a moment, and no key has one before it.
    known: (usize, u64),
}

impl Model for Keyspace {
    ghost use Rattle.std.specs.Prelude.{◌≡◌, List, true, length};
    ghost use Rattle.keyspace.specs.Entries.{Entry, objects_in};
    ghost use Rattle.keyspace.specs.FirstDue.{IsKnown};
    ghost use Rattle.keyspace.specs.KeyOrder.{are_entries};

    ghost Value = { List Entry };

    ghost view = { λ k. k.collections.items };

    ghost invariant = { λ k. (are_entries k.collections.items ≡ true)
        × ((k.count ≡ length (objects_in k.collections.items)) × IsKnown k.collections.items k.known) };
}

impl Keyspace {
    /// No key. Room is taken from `alloc`.
    pub fn new(alloc: Global) -> Keyspace
        ensures { result ≡ [] }
    {
        Keyspace {
            alloc,
            collections: Vec::new(alloc),
            count: 0,
            known: (0, u64::MAX),
        }
    }

    /// How many objects there are.
    pub fn len(&self) -> usize
        ensures count { result ≡ length (objects_in self.now) }
        ensures sorted { are_objects (objects_in self.now) ≡ true }
    {
        self.count
    }

    /// The object of this key and this id, where there is one.
    pub fn get(&self, key: &Name, id: &Name) -> Option<&Object>
        ensures none { IfNone result (find (is_at key.now id.now) (objects_in self.now) ≡ None) }
        ensures some { IfSome result (λ o. find (is_at key.now id.now) (objects_in self.now) ≡ Some o.now) }
    {
        match place_of(self.collections.as_slice(), key) {
            Ok(at) => self.collections[at].objects().get(id),
            Err(_) => None,
        }
    }

    /// The same, looked for first where an object of the key was found last: for a command that comes back to the one it
    /// found.
    pub fn recall(&self, key: &Name, id: &Name) -> Option<&Object>
        ensures none { IfNone result (find (is_at key.now id.now) (objects_in self.now) ≡ None) }
        ensures some { IfSome result (λ o. find (is_at key.now id.now) (objects_in self.now) ≡ Some o.now) }
    {
        match place_of(self.collections.as_slice(), key) {
            Ok(at) => self.collections[at].objects().recall(id),
            Err(_) => None,
        }
    }

    /// The objects of this key; none where the key is not there, and it may be there without an object.
    pub fn collection(&self, key: &Name) -> Option<&Collection>
        ensures none { IfNone result (filter (has_key key.now) (objects_in self.now) ≡ []) }
        ensures some { IfSome result (λ c. c.now.objects ≡ filter (has_key key.now) (objects_in self.now)) }
    {
        match place_of(self.collections.as_slice(), key) {
            Ok(at) => Some(self.collections[at].objects()),
            Err(_) => None,
        }
    }

    /// How many keys there are, those without an object too.
    pub fn keys(&self) -> usize
        ensures count { result ≡ length self.now }
        ensures distinct { distinct (map (λ o. o.key) (objects_in self.now))
            ≡ map (λ e. e.key) (filter has_objects self.now) }
        ensures held { are_held (keys_of self.now) (objects_in self.now) ≡ true
            → keys_of self.now ≡ distinct (map (λ o. o.key) (objects_in self.now)) }
    {
        self.collections.len()
    }

    /// The key at a place, counted from 0 in byte order.
    pub fn key(&self, i: usize) -> &Name
        requires { i < length self.now }
        ensures { IfSome (slice_get self.now i) (λ e. result.now ≡ e.key) }
    {
        self.collections[i].key()
    }

    /// How many objects the key at a place has.
    pub fn count(&self, i: usize) -> usize
        requires { i < length self.now }
        ensures { IfSome (slice_get self.now i) (λ e. result ≡ length e.objects) }
    {
        self.collections[i].objects().len()
    }

    /// The least deadline of all objects. Of keys where no object has one, no object is looked at.
    pub fn least_due(&self) -> Option<u64>
        ensures { result ≡ least_due (objects_in self.now) }
    {
        match soonest(self.collections.as_slice(), self.known) {
            Some((_, due)) => Some(due),
            None => None,
        }
    }

    /// Takes room for one more object of this key, where there is none: then the key is there, maybe without an object.
    /// The objects stay, and no room is lost. For want of memory the keys are as before.
    pub fn prepare(&mut self, key: &Name) -> Result<(), NoMemory>
        ensures objects { objects_in self.new ≡ objects_in self.old }
        ensures keys { OnOk result (keys_of self.new ≡ put_in before key.now (keys_of self.old)) }
        ensures keys_stay { OnErr result (keys_of self.new ≡ keys_of self.old) }
        ensures room { OnOk result (1 ≤ room_for self.new key.now) }
        ensures kept { (k : Bytes) → room_for self.old k ≤ room_for self.new k }
    {
        match place_of(self.collections.as_slice(), key) {
            Ok(at) => self.collections[at].prepare(),
            Err(at) => {
                self.known.0 = 0;
                add(self.alloc, &mut self.collections, at, key)
            }
        }
    }

    /// Puts an object at its place, and gives out the one of its key and id that stood there. A new one takes one place
    /// of the room of its key. The steps rise by the nodes of its key's tree that are visited.
    pub fn put<L: Ledger>(&mut self, object: Object, steps: &mut Steps<L>) -> Option<Object>
        requires room { has_room self.old object ≡ true }
        requires few { length (objects_in self.old) < 2 ^ 32 }
        ensures objects { objects_in self.new ≡ put_in object_before object (objects_in self.old) }
        ensures keys { keys_of self.new ≡ keys_of self.old }
        ensures replaced { result ≡ find (is_at object.key object.id) (objects_in self.old) }
        ensures len { length (objects_in self.new) ≤ length (objects_in self.old) + 1 }
        ensures kept { (k : Bytes)
            → room_for self.old k ≤ room_for self.new k + (if same object.key k && is_none result then 1 else 0) }
    {
        match place_of(self.collections.as_slice(), &object.key) {
            Ok(at) => {
                self.known = noted(self.known, object.deadline);
                let old = self.collections[at].put(object, steps);
                self.count += usize::from(old.is_none());
                old
            }
            Err(_) => unreachable!(),
        }
    }

    /// Takes out the object of this key and this id, where there is one. Its place is room for another of its key,
    /// which stays also without an object. The steps rise as with `put`.
    pub fn take_out<L: Ledger>(
        &mut self,
        key: &Name,
        id: &Name,
        steps: &mut Steps<L>,
    ) -> Option<Object>
        ensures objects { objects_in self.new ≡ filter (λ o. not (is_at key.now id.now o)) (objects_in self.old) }
        ensures keys { keys_of self.new ≡ keys_of self.old }
        ensures taken { result ≡ find (is_at key.now id.now) (objects_in self.old) }
        ensures kept { (k : Bytes)
            → room_for self.old k + (if same key.now k && is_some result then 1 else 0) ≤ room_for self.new k }
    {
        match place_of(self.collections.as_slice(), key) {
            Ok(at) => {
                let taken = self.collections[at].take_out(id, steps);
                self.count -= usize::from(taken.is_some());
                taken
            }
            Err(_) => None,
        }
    }

    /// Takes out the object that expires first, where one is due: the one of the least deadline, then key, then id. Its
    /// place is room for another of its key, which stays also without an object. Of a moment before all deadlines that
    /// are known no key is looked at. The steps rise as with `put`.
    pub fn take_due<L: Ledger>(&mut self, now: u64, steps: &mut Steps<L>) -> Option<Object>
        ensures none { IfNone result (filter (is_due now) (objects_in self.old) ≡ []) }
        ensures stays { IfNone result (self.new ≡ self.old) }
        ensures first { IfSome result
            (λ o. sorted_by due_before (filter (is_due now) (objects_in self.old))
            ≡ o ∷ sorted_by due_before (filter (is_due now) (objects_in self.new))) }
        ensures taken { IfSome result (λ o. find (is_at o.key o.id) (objects_in self.old) ≡ Some o) }
        ensures objects { IfSome result
            (λ o. objects_in self.new ≡ filter (λ p. not (is_at o.key o.id p)) (objects_in self.old)) }
        ensures keys { keys_of self.new ≡ keys_of self.old }
        ensures kept { IfSome result
            (λ o. (k : Bytes) → room_for self.old k + (if same o.key k then 1 else 0) ≤ room_for self.new k) }
    {
        if now < self.known.1 {
            return None;
        }
        match soonest(self.collections.as_slice(), self.known) {
            Some((at, due)) => {
                self.known = (at, due);
                if due > now {
                    return None;
                }
                let object = self.collections[at].take_first(due, steps);
                self.count -= 1;
                Some(object)
            }
            None => {
                self.known = (0, u64::MAX);
                None
            }
        }
    }

    /// Takes out a key with all its objects. The other keys stay as they are.
    pub fn drop_key(&mut self, key: &Name)
        ensures objects { objects_in self.new ≡ filter (λ o. not (has_key key.now o)) (objects_in self.old) }
        ensures others { self.new ≡ filter (λ e. not (is_entry_of key.now e)) self.old }
        ensures keys { keys_of self.new ≡ filter (λ k. not (same k key.now)) (keys_of self.old) }
    {
        match place_of(self.collections.as_slice(), key) {
            Ok(at) => {
                let keyed = self.collections.remove(at);
                self.known.0 = 0;
                self.count -= keyed.objects().len();
                drop(keyed);
            }
            Err(_) => {}
        }
    }

    /// Takes out all objects.
    pub fn clear(&mut self)
        ensures { self.new ≡ [] }
    {
        self.collections.clear();
        self.count = 0;
        self.known = (0, u64::MAX);
    }

    /// Gives up the key where it has no object. All else stays as it is.
    pub fn give_up(&mut self, key: &Name)
        ensures objects { objects_in self.new ≡ objects_in self.old }
        ensures given_up { self.new ≡ filter (λ e. not (is_entry_of key.now e && not (has_objects e))) self.old }
        ensures keys { keys_of self.new
            ≡ filter (λ k. not (same k key.now && not (is_held (objects_in self.old) key.now))) (keys_of self.old) }
    {
        match place_of(self.collections.as_slice(), key) {
            Ok(at) => {
                if self.collections[at].objects().len() == 0 {
                    self.known.0 = 0;
                    drop(self.collections.remove(at));
                }
            }
            Err(_) => {}
        }
    }
}

// Puts a key with room for one object at a place. For want of memory the keys are as before.
fn add(
    alloc: Global,
    collections: &mut Vec<KeyedCollection>,
    at: usize,
    key: &Name,
) -> Result<(), NoMemory>
    requires { at ≤ length collections.old.items }
    ensures ok { OnOk result (IsAdded key.now collections.old.items at collections.new.items) }
    ensures err { OnErr result (collections.new.items ≡ collections.old.items) }
{
    let keyed = KeyedCollection::of(alloc, key)?;
    match collections.insert(at, keyed) {
        Ok(()) => Ok(()),
        Err(_) => Err(NoMemory),
    }
}
