//! The objects of a stored world.

ghost use Rattle.std.specs.Prelude.{◌≡◌, ◌+◌, ◌≤◌, ◌<◌, ◌^◌, [], true, not, length, filter, sum_by, OnOk, OnErr};
ghost use Rattle.std.specs.Prelude.{find, None, Some, IfNone, IfSome};
ghost use Rattle.ordered_lists.specs.Lists.{put_in};
ghost use Rattle.world_data.specs.Worlds.{are_objects, has_key, is_at, object_before};
ghost use Rattle.record_writer.specs.Lengths.{HasFewFields, len_of, HaveFewFields};
ghost use Rattle.keyspace.specs.Entries.{has_room, objects_in};

use crate::weights::weight_less;
use byte_text::{Name, NoMemory};
use keyspace::Keyspace;
use record_writer::put_len;
use rtree::{Steps, Visits};
use std::alloc::Global;
use std::marker::Model;
use world_data::Object;

/// The most objects, since places are numbers of 32 bits. For more there is no memory.
const MOST: usize = (1 << 32) - 1;

/// Objects in order of key and id, and the bytes of their records.
pub(crate) struct StoredObjects {
    objects: Keyspace,
    weight: u64,
    steps: Steps<Visits>,
}

impl Drop for StoredObjects {
    fn drop(self) {
        let StoredObjects {
            objects: _,
            weight: _,
            steps: _,
        } = self;
    }
}

impl Model for StoredObjects {
    ghost use Rattle.std.specs.Prelude.{List};
    ghost use Rattle.world_data.specs.declared.objects.Object.{Object};
    ghost use Rattle.keyspace.specs.Entries.{objects_in};
    ghost use Rattle.world_store.specs.Stored.{AreStored};

    ghost Value = { List Object };

    ghost view = { λ s. objects_in s.objects };

    ghost invariant = { λ s. AreStored (objects_in s.objects) s.weight };
}

impl StoredObjects {
    /// No object.
    pub(crate) fn new(alloc: Global) -> StoredObjects
        ensures { result ≡ [] }
    {
        StoredObjects {
            objects: Keyspace::new(alloc),
            weight: 0,
            steps: Steps::new(Visits::new()),
        }
    }

    /// How many objects there are.
    pub(crate) fn len(&self) -> usize
        ensures { result ≡ length self.now }
    {
        self.objects.len()
    }

    /// The object of this key and this id, where there is one.
    pub(crate) fn get(&self, key: &Name, id: &Name) -> Option<&Object>
        ensures none { IfNone result (find (is_at key.now id.now) self.now ≡ None) }
        ensures some { IfSome result (λ o. find (is_at key.now id.now) self.now ≡ Some o.now) }
    {
        self.objects.get(key, id)
    }

    /// Puts an object at its place, in place of the one of its key and id. For want of memory the objects are as
    /// before.
    pub(crate) fn put(&mut self, object: Object) -> Result<(), NoMemory>
        requires { HasFewFields object }
        ensures ok { OnOk result (self.new ≡ put_in object_before object self.old) }
        ensures err { OnErr result (self.new ≡ self.old) }
    {
        let len = put_len(&object);
        if !may_count(&self.objects, self.weight, len) {
            return Err(NoMemory);
        }
        self.objects.prepare(&object.key)?;
        self.weight = exchange(
            &mut self.objects,
            self.weight + len,
            object,
            &mut self.steps,
        );
        Ok(())
    }

    /// Takes out the object of this key and this id, where there is one.
    pub(crate) fn take_out(&mut self, key: &Name, id: &Name)
        ensures { self.new ≡ filter (λ o. not (is_at key.now id.now o)) self.old }
    {
        self.weight = take_one(&mut self.objects, self.weight, key, id, &mut self.steps);
        self.objects.give_up(key);
    }

    /// Takes out the objects of this key.
    pub(crate) fn drop_key(&mut self, key: &Name)
        ensures { self.new ≡ filter (λ o. not (has_key key.now o)) self.old }
    {
        self.weight = weight_without(&self.objects, self.weight, key);
        self.objects.drop_key(key);
    }

    /// Takes out all objects.
    pub(crate) fn clear(&mut self)
        ensures { self.new ≡ [] }
    {
        self.weight = 0;
        self.objects.clear();
    }

    /// The objects, and the bytes of their records.
    pub(crate) fn into_parts(self) -> (Keyspace, u64)
        ensures objects { objects_in result.0 ≡ self }
        ensures weight { result.1 ≡ sum_by len_of self }
        ensures few_fields { HaveFewFields self }
        ensures few { length self < 2 ^ 32 }
    {
        let StoredObjects {
            objects,
            weight,
            steps: _,
        } = self;
        (objects, weight)
    }
}

// Whether one object more is counted and weighed, whose record has this length.
fn may_count(objects: &Keyspace, weight: u64, len: u64) -> bool
    ensures sorted { are_objects (objects_in objects.now) ≡ true }
    ensures few { result ≡ true → length (objects_in objects.now) + 1 < 2 ^ 32 }
    ensures small { result ≡ true → weight + len < 2 ^ 64 }
{
    objects.len() < MOST && len <= u64::MAX - weight
}

// Puts an object for which there is room, where the objects and it have this weight. The weight of all is answered.
fn exchange(objects: &mut Keyspace, weight: u64, object: Object, steps: &mut Steps<Visits>) -> u64
    requires sorted { are_objects (objects_in objects.old) ≡ true }
    requires room { has_room objects.old object ≡ true }
    requires few { length (objects_in objects.old) < 2 ^ 32 }
    requires fields { HaveFewFields (objects_in objects.old) }
    requires weighed { weight ≡ sum_by len_of (objects_in objects.old) + len_of object }
    ensures objects { objects_in objects.new ≡ put_in object_before object (objects_in objects.old) }
    ensures len { length (objects_in objects.new) ≤ length (objects_in objects.old) + 1 }
    ensures weighed { result ≡ sum_by len_of (objects_in objects.new) }
{
    match objects.put(object, steps) {
        Some(old) => weight - put_len(&old),
        None => weight,
    }
}

// Takes out the object of this key and this id, where there is one, of objects of this weight. The weight of the others
// is answered.
fn take_one(
    objects: &mut Keyspace,
    weight: u64,
    key: &Name,
    id: &Name,
    steps: &mut Steps<Visits>,
) -> u64
    requires fields { HaveFewFields (objects_in objects.old) }
    requires weighed { weight ≡ sum_by len_of (objects_in objects.old) }
    ensures objects { objects_in objects.new ≡ filter (λ o. not (is_at key.now id.now o)) (objects_in objects.old) }
    ensures weighed { result ≡ sum_by len_of (objects_in objects.new) }
{
    // Objects stand in order, so there is no second one of this key and this id.
    let _count = objects.len();
    match objects.take_out(key, id, steps) {
        Some(taken) => weight - put_len(&taken),
        None => weight,
    }
}

// The weight of objects without those of a key.
fn weight_without(objects: &Keyspace, weight: u64, key: &Name) -> u64
    requires fields { HaveFewFields (objects_in objects.now) }
    requires weighed { weight ≡ sum_by len_of (objects_in objects.now) }
    ensures { result ≡ sum_by len_of (filter (λ o. not (has_key key.now o)) (objects_in objects.now)) }
{
    match objects.collection(key) {
        Some(found) => weight_less(weight, found),
        None => weight,
    }
}
