//! Objects, and the list of them that a world holds.

ghost use Rattle.std.specs.Prelude.{◌≡◌, ◌∷◌, ◌++◌, [], true, not, length, filter, IfOk, IfErr, IfSome, IfNone, OnOk};
ghost use Rattle.std.specs.Prelude.{OnErr};
ghost use Rattle.ordered_lists.specs.Lists.{IsHeld, IsFree, put_in};
ghost use Rattle.world_data.specs.Worlds.{are_objects, object_before, is_at, has_key};

use crate::fields::Fields;
use byte_text::{Name, NoMemory, Text};
use ordered_lists::{insert_at, is_before, is_same};
use planar_geom::Shape;
use std::alloc::Global;
use std::marker::Model;

/// An object: its text with the shape that it has, its fields, and the moment at which it expires, if any.
pub struct Object {
    pub key: Name,
    pub id: Name,
    pub text: Text,
    pub shape: Shape,
    pub fields: Fields,
    pub deadline: Option<u64>,
}

impl Drop for Object {
    fn drop(self) {
        let Object {
            key: _,
            id: _,
            text: _,
            shape: _,
            fields: _,
            deadline: _,
        } = self;
    }
}

impl Object {
    ghost use Rattle.std.specs.Prelude.{◌≡◌, IfOk};

    /// The same object in memory of its own.
    pub fn copy(&self, alloc: Global) -> Result<Object, NoMemory>
        ensures { IfOk result (λ object. object ≡ self.now) }
    {
        Ok(Object {
            key: self.key.copy(alloc)?,
            id: self.id.copy(alloc)?,
            text: self.text.copy()?,
            shape: self.shape.copy(alloc)?,
            fields: self.fields.copy(alloc)?,
            deadline: self.deadline,
        })
    }
}

/// Objects in order of key and id, no pair of these twice.
#[derive(Drop)]
pub struct Objects {
    list: Vec<Object>,
}

impl Model for Objects {
    ghost use Rattle.std.specs.Prelude.{List, ◌≡◌, true};
    ghost use Rattle.world_data.specs.declared.objects.Object.{Object};

    ghost Value = { List Object };

    ghost use Rattle.world_data.specs.Worlds.{are_objects};

    ghost view = { λ o. o.list.items };

    ghost invariant = { λ o. are_objects o.list.items ≡ true };
}

impl Objects {
    /// No object yet. What is put takes its memory from `alloc`.
    pub fn new(alloc: Global) -> Objects
        ensures { result ≡ [] }
    {
        Objects {
            list: Vec::new(alloc),
        }
    }

    /// How many objects there are.
    pub fn len(&self) -> usize
        ensures count { result ≡ length self.now }
        ensures sorted { are_objects self.now ≡ true }
    {
        self.list.len()
    }

    /// Takes the last object out, where there is one.
    pub fn pop(&mut self) -> Option<Object>
        ensures last { IfSome result (λ o. self.old ≡ self.new ++ o ∷ []) }
        ensures none { IfNone result ((self.old ≡ []) × (self.new ≡ [])) }
    {
        self.list.pop()
    }

    // Puts an object at its place, in place of the one of its key and id. For want of memory the objects are as before.
    pub(crate) fn put(&mut self, object: Object) -> Result<(), NoMemory>
        ensures ok { OnOk result (self.new ≡ put_in object_before object self.old) }
        ensures err { OnErr result (self.new ≡ self.old) }
    {
        match place_of(self.list.as_slice(), &object) {
            Ok(at) => {
                self.list[at] = object;
                Ok(())
            }
            Err(at) => insert_at(&mut self.list, at, object),
        }
    }

    // Takes away the object of a key and an id.
    pub(crate) fn remove(&mut self, key: &Name, id: &Name)
        ensures { self.new ≡ filter (λ o. not (is_at key.now id.now o)) self.old }
    {
        self.list.retain(
            |object: &Object| -> bool
                ensures { result ≡ not (is_at key.entry.now id.entry.now object.now) }
            { !(is_same(&object.key, key) && is_same(&object.id, id)) },
        );
    }

    // Takes away the objects of a key.
    pub(crate) fn remove_key(&mut self, key: &Name)
        ensures { self.new ≡ filter (λ o. not (has_key key.now o)) self.old }
    {
        self.list.retain(
            |object: &Object| -> bool
                ensures { result ≡ not (has_key key.entry.now object.now) }
            { !is_same(&object.key, key) },
        );
    }

    // Takes all objects away.
    pub(crate) fn clear(&mut self)
        ensures { self.new ≡ [] }
    {
        self.list.clear();
    }
}

// Whether the first object stands before the second.
fn stands_before(first: &Object, second: &Object) -> bool
    ensures { result ≡ object_before first.now second.now }
{
    is_before(&first.key, &second.key)
        || is_same(&first.key, &second.key) && is_before(&first.id, &second.id)
}

// The place of the object of this key and id, or, where there is none, the place where it would go.
fn place_of(list: &[Object], object: &Object) -> Result<usize, usize>
    ensures held { IfOk result (λ at. IsHeld (λ o. object_before o object.now) (object_before object.now) list.now at) }
    ensures free { IfErr result
        (λ at. IsFree (λ o. object_before o object.now) (object_before object.now) list.now at) }
{
    for (at, other) in list.iter().enumerate() {
        if stands_before(object, other) {
            return Err(at);
        }
        if !stands_before(other, object) {
            return Ok(at);
        }
    }
    Err(list.len())
}
