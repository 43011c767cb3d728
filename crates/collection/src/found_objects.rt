//! Objects that were found, in byte order of their ids.
//!
//! What a search in the tree gives is slots, so each object is read where it lies and put in order by its id. Its place
//! among all objects is not sought.

ghost use Rattle.std.specs.Prelude.{◌≡◌, ◌<◌, [], ◌++◌, length, slice_get, Some, OnOk};
ghost use Rattle.std.specs.Prelude.{IsPermutation};
ghost use Rattle.std.specs.Cmp.Lexicographic.{slice_cmp};
ghost use Rattle.std.specs.List.{cons_option};
ghost use Rattle.std.specs.List.Sorted.{IsSortedByKey};
ghost use Rattle.std.specs.Option.{option_copied};
ghost use Rattle.std.specs.Ordering.{nat_cmp};
ghost use Rattle.slab.specs.Slab.{get};
ghost use Rattle.collection.specs.Meeting.{AreInOrder};
ghost use Rattle.collection.specs.Slotted.{objects_at};

use byte_text::NoMemory;
use rtree::Ids;
use slab::Slab;
use std::alloc::Global;
use std::cmp::Ordering;
use std::marker::Model;
use world_data::Object;

/// Objects of a collection that were found, in the order in which they were listed.
#[derive(Drop)]
pub struct FoundObjects<'a> {
    objects: Vec<&'a Object>,
}

impl<'a> Model for FoundObjects<'a> {
    ghost use Rattle.std.specs.Prelude.{List, map};
    ghost use Rattle.world_data.specs.declared.objects.Object.{Object};

    ghost Value = { List Object };

    ghost view = { λ f. map (λ object. object.now) f.objects.items };
}

impl<'a> FoundObjects<'a> {
    /// No object yet. What is listed takes its memory from `alloc`.
    pub fn new(alloc: Global) -> FoundObjects<'a>
        ensures { result ≡ [] }
    {
        FoundObjects {
            objects: Vec::new(alloc),
        }
    }

    /// How many objects there are.
    pub fn len(&self) -> usize
        ensures { result ≡ length self.now }
    {
        self.objects.len()
    }

    /// The object at a place, counted from 0.
    pub fn at(&self, i: usize) -> &'a Object
        requires { i < length self.now }
        ensures { slice_get self.now i ≡ Some result.now }
    {
        self.objects[i]
    }

    // Takes all objects out.
    fn clear(&mut self)
        ensures { self.new ≡ [] }
    {
        self.objects.clear();
    }

    // Puts an object last, where there is one.
    fn push(&mut self, object: Option<&'a Object>) -> Result<(), NoMemory>
        ensures { OnOk result (self.new ≡ self.old ++ cons_option (option_copied object.entry) []) }
    {
        let Some(object) = object else {
            return Ok(());
        };
        match self.objects.push(object) {
            Ok(()) => Ok(()),
            Err(_) => Err(NoMemory),
        }
    }

    // Puts them in byte order of their ids. It takes no memory.
    fn sort(&mut self)
        ensures objects { IsPermutation self.old self.new }
        ensures order { IsSortedByKey (λ o. o.id) (slice_cmp nat_cmp) self.new }
    {
        self.objects.sort_unstable_by(
            |a: &&Object, b: &&Object| -> Ordering
                ensures { result ≡ slice_cmp nat_cmp a.now.now.id b.now.now.id }
            { a.id.cmp(&b.id) },
        );
    }
}

/// Lists the objects in these slots, in byte order of their ids.
pub(crate) fn list_found<'a>(
    slots: &'a Slab<Object>,
    numbers: &Ids,
    into: &mut FoundObjects<'a>,
) -> Result<(), NoMemory>
    ensures { OnOk result (AreInOrder (objects_at (get slots.now) numbers.now) into.new) }
{
    into.clear();
    for i in 0..numbers.len() {
        into.push(slots.get(numbers.at(i)))?;
    }
    into.sort();
    Ok(())
}
