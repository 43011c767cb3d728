//! A key and its objects.

ghost use Rattle.std.specs.Prelude.{◌≡◌, ◌+◌, ◌≤◌, [], true, not, filter, find, Some, is_some, if◌then◌else◌, IfOk};
ghost use Rattle.std.specs.Prelude.{OnOk};
ghost use Rattle.ordered_lists.specs.Lists.{put_in};
ghost use Rattle.collection.specs.Objects.{id_before, has_id, has_room, least_due};
ghost use Rattle.keyspace.specs.Entries.{Entry};
ghost use Rattle.keyspace.specs.KeyOrder.{held_of};
ghost use Rattle.keyspace.specs.FirstDue.{Took};

use byte_text::{Name, NoMemory};
use collection::Collection;
use rtree::{Ledger, Steps};
use std::alloc::Global;
use std::marker::Model;
use world_data::Object;

/// A key and its objects. There may be none, as beside room that was taken for the first.
#[derive(Drop)]
pub(crate) struct KeyedCollection {
    key: Name,
    objects: Collection,
}

impl Model for KeyedCollection {
    ghost use Rattle.keyspace.specs.Entries.{Entry};

    ghost Value = { Entry };

    ghost view = { λ s. record { key = s.key; objects = s.objects.objects; spare = s.objects.spare } };
}

impl KeyedCollection {
    /// A key with no object, and room for one.
    pub(crate) fn of(alloc: Global, key: &Name) -> Result<KeyedCollection, NoMemory>
        ensures key { IfOk result (λ s. s.key ≡ key.now) }
        ensures objects { IfOk result (λ s. s.objects ≡ []) }
        ensures room { IfOk result (λ s. 1 ≤ s.spare) }
    {
        let key = key.copy(alloc)?;
        let mut objects = Collection::new(alloc);
        objects.prepare()?;
        Ok(KeyedCollection { key, objects })
    }

    /// The key.
    pub(crate) fn key(&self) -> &Name
        ensures { result.now ≡ self.now.key }
    {
        &self.key
    }

    /// The objects.
    pub(crate) fn objects(&self) -> &Collection
        ensures { result.now ≡ held_of self.now }
    {
        &self.objects
    }

    /// Takes room for one more object, where there is none. The objects stay, and no room is lost.
    pub(crate) fn prepare(&mut self) -> Result<(), NoMemory>
        ensures key { self.new.key ≡ self.old.key }
        ensures objects { self.new.objects ≡ self.old.objects }
        ensures room { OnOk result (1 ≤ self.new.spare) }
        ensures kept { self.old.spare ≤ self.new.spare }
    {
        self.objects.prepare()
    }

    /// Puts an object at its place, and gives out the one of its id that stood there. A new one takes one place of the
    /// room.
    pub(crate) fn put<L: Ledger>(&mut self, object: Object, steps: &mut Steps<L>) -> Option<Object>
        requires { has_room (held_of self.old) object.id ≡ true }
        ensures key { self.new.key ≡ self.old.key }
        ensures objects { self.new.objects ≡ put_in id_before object self.old.objects }
        ensures replaced { result ≡ find (has_id object.id) self.old.objects }
        ensures spare { self.new.spare + (if is_some result then 0 else 1) ≡ self.old.spare }
    {
        self.objects.put(object, steps)
    }

    /// Takes out the object of this id, where there is one. Its place is room for another.
    pub(crate) fn take_out<L: Ledger>(&mut self, id: &Name, steps: &mut Steps<L>) -> Option<Object>
        ensures key { self.new.key ≡ self.old.key }
        ensures objects { self.new.objects ≡ filter (λ o. not (has_id id.now o)) self.old.objects }
        ensures taken { result ≡ find (has_id id.now) self.old.objects }
        ensures spare { self.new.spare ≡ self.old.spare + (if is_some result then 1 else 0) }
    {
        self.objects.take_out(id, steps)
    }

    /// Takes out the first object of the least deadline. Its place is room for another.
    pub(crate) fn take_first<L: Ledger>(&mut self, due: u64, steps: &mut Steps<L>) -> Object
        requires { least_due self.old.objects ≡ Some due }
        ensures key { self.new.key ≡ self.old.key }
        ensures took { Took due self.old.objects self.new.objects result }
        ensures spare { self.new.spare ≡ self.old.spare + 1 }
    {
        match self.objects.first_due() {
            Some(at) => self.objects.take_at(at, steps),
            None => unreachable!(),
        }
    }
}
