//! The objects of one key.
//!
//! Each object stays in its slot; the orders are lists of slot numbers, so a new or a removed object moves numbers of
//! one run and no object. Both lists have room for all objects beforehand, the one by deadline too, so that an object
//! may gain a deadline without memory. What the tree holds is told by sums over its pairs, which says the same as a
//! permutation and changes by a number where a pair comes or goes.

ghost use Rattle.std.specs.Prelude.{◌≡◌, ◌+◌, ◌<◌, ◌≤◌, ℕ, [], true, not, length, filter, find, is_some, if◌then◌else◌};
ghost use Rattle.std.specs.Prelude.{slice_get, Some, None, All, IfNone, IfSome, IfOk, OnOk};
ghost use Rattle.std.specs.List.{remove};
ghost use Rattle.ordered_lists.specs.Lists.{put_in};
ghost use Rattle.world_data.specs.declared.objects.Object.{Object};
ghost use Rattle.collection.specs.Objects.{id_before, has_id, are_by_id, has_room, least_due, bounds_of};
ghost use Rattle.planar_geom.specs.Nearness.{IsWholeShape};
ghost use Rattle.collection.specs.Costs.{IsCheap};
ghost use Rattle.collection.specs.Deadlines.{FirstDue};
ghost use Rattle.collection.specs.Meeting.{meets_box, IsVisited};

use crate::bounds;
use crate::found_objects::FoundObjects;
use crate::hints::Hint;
use crate::id_order::{place_near, place_noted};
use crate::near_objects::NearObjects;
use crate::object_lists::ObjectList;
use byte_text::{Name, NoMemory};
use planar_geom::{BBox, Pt};
use rtree::{Ledger, Steps};
use std::alloc::Global;
use std::marker::Model;
use world_data::Object;

/// The objects of one key, in byte order of their ids, with room for more that was taken beforehand.
#[derive(Drop)]
pub struct Collection {
    objects: ObjectList,
    // Where an object was found by its id last.
    last: Hint,
}

impl Model for Collection {
    ghost use Rattle.std.specs.Prelude.{◌≡◌, true};
    ghost use Rattle.collection.specs.Objects.{Held, are_by_id};

    ghost Value = { Held };

    ghost view = { λ c. c.objects };

    ghost invariant = { λ c. are_by_id c.objects.objects ≡ true };
}

impl Collection {
    /// No object, and no room. Room is taken from `alloc`.
    pub fn new(alloc: Global) -> Collection
        ensures { result.objects ≡ [] }
    {
        Collection {
            objects: ObjectList::new(alloc),
            last: Hint::new(),
        }
    }

    /// Takes room for one more object, where there is none. The objects stay, and no room is lost.
    pub fn prepare(&mut self) -> Result<(), NoMemory>
        ensures objects { self.new.objects ≡ self.old.objects }
        ensures room { OnOk result (1 ≤ self.new.spare) }
        ensures kept { self.old.spare ≤ self.new.spare }
    {
        self.objects.prepare()
    }

    /// Puts an object at its place, and gives out the one of its id that stood there. A new one takes one place of the
    /// room. The steps rise by the nodes of the tree that are visited, at most a number of times the logarithm of the
    /// number of objects.
    pub fn put<L: Ledger>(&mut self, object: Object, steps: &mut Steps<L>) -> Option<Object>
        requires { has_room self.old object.id ≡ true }
        ensures objects { self.new.objects ≡ put_in id_before object self.old.objects }
        ensures replaced { result ≡ find (has_id object.id) self.old.objects }
        ensures spare { self.new.spare + (if is_some result then 0 else 1) ≡ self.old.spare }
        ensures cost { IsCheap (length self.old.objects) steps.old.count steps.new.count }
    {
        match place_near(&self.objects, &object.id, &self.last) {
            Ok(at) => Some(self.objects.exchange(at, object, steps)),
            Err(at) => {
                self.objects.insert(at, object, steps);
                None
            }
        }
    }

    /// Takes out the object of this id, where there is one. Its place is room for another. The steps rise as with
    /// `put`.
    pub fn take_out<L: Ledger>(&mut self, id: &Name, steps: &mut Steps<L>) -> Option<Object>
        ensures objects { self.new.objects ≡ filter (λ o. not (has_id id.now o)) self.old.objects }
        ensures taken { result ≡ find (has_id id.now) self.old.objects }
        ensures spare { self.new.spare ≡ self.old.spare + (if is_some result then 1 else 0) }
        ensures cost { IsCheap (length self.old.objects) steps.old.count steps.new.count }
    {
        match place_near(&self.objects, id, &self.last) {
            Ok(at) => Some(self.take_at(at, steps)),
            Err(_) => None,
        }
    }

    /// Takes out the object at this place, counted from 0 by ascending id. Its place is room for another. The steps
    /// rise as with `put`.
    pub fn take_at<L: Ledger>(&mut self, i: usize, steps: &mut Steps<L>) -> Object
        requires { i < length self.old.objects }
        ensures objects { self.new.objects ≡ remove self.old.objects i }
        ensures taken { slice_get self.old.objects i ≡ Some result }
        ensures spare { self.new.spare ≡ self.old.spare + 1 }
        ensures cost { IsCheap (length self.old.objects) steps.old.count steps.new.count }
    {
        self.objects.remove(i, steps)
    }

    /// The object of this id, where there is one.
    pub fn get(&self, id: &Name) -> Option<&Object>
        ensures none { IfNone result (find (has_id id.now) self.now.objects ≡ None) }
        ensures some { IfSome result (λ o. find (has_id id.now) self.now.objects ≡ Some o.now) }
    {
        match place_noted(&self.objects, id, &self.last) {
            Ok(at) => Some(self.objects.at(at)),
            Err(_) => None,
        }
    }

    /// The same, looked for first where an object was found last: for a command that comes back to the one it found.
    pub fn recall(&self, id: &Name) -> Option<&Object>
        ensures none { IfNone result (find (has_id id.now) self.now.objects ≡ None) }
        ensures some { IfSome result (λ o. find (has_id id.now) self.now.objects ≡ Some o.now) }
    {
        match place_near(&self.objects, id, &self.last) {
            Ok(at) => Some(self.objects.at(at)),
            Err(_) => None,
        }
    }

    /// How many objects there are.
    pub fn len(&self) -> usize
        ensures count { result ≡ length self.now.objects }
        ensures by_id { are_by_id self.now.objects ≡ true }
    {
        self.objects.len()
    }

    /// The object at this place, counted from 0 by ascending id.
    pub fn at(&self, i: usize) -> &Object
        requires { i < length self.now.objects }
        ensures { slice_get self.now.objects i ≡ Some result.now }
    {
        self.objects.at(i)
    }

    /// The least deadline of all objects. One object is looked at.
    pub fn least_due(&self) -> Option<u64>
        ensures { result ≡ least_due self.now.objects }
    {
        self.objects.least_due()
    }

    /// The first place of the least deadline, counted from 0 by ascending id; none where no object has a deadline. It
    /// is found in steps in the logarithm of the number of objects.
    pub fn first_due(&self) -> Option<usize>
        ensures { FirstDue self.now.objects result }
    {
        self.objects.first_due()
    }

    /// The least box round the objects; none where there is no object.
    pub fn bounds(&self) -> Option<BBox>
        ensures { result ≡ bounds_of self.now.objects }
    {
        bounds::bounds_of(&self.objects)
    }

    /// Lists the objects whose box meets a box, in byte order of their ids. The steps rise by the nodes of the tree that
    /// are visited, one at least where there is an object. For want of memory the list may hold anything.
    pub fn met<'a, L: Ledger>(
        &'a self,
        alloc: Global,
        b: BBox,
        into: &mut FoundObjects<'a>,
        steps: &mut Steps<L>,
    ) -> Result<(), NoMemory>
        ensures found { OnOk result (into.new ≡ filter (meets_box b) self.now.objects) }
        ensures whole { All (λ o. IsWholeShape o.shape) self.now.objects }
        ensures visits { IsVisited self.now.objects steps.old.count steps.new.count }
    {
        self.objects.met(alloc, b, into, steps)
    }

    /// A walk through the objects by rising distance of their boxes from a point, which has given none yet.
    pub fn near(&self, alloc: Global, from: Pt) -> Result<NearObjects<'_>, NoMemory>
        ensures objects { IfOk result (λ w. w.objects ≡ self.now.objects) }
        ensures by_id { are_by_id self.now.objects ≡ true }
        ensures from { IfOk result (λ w. w.from ≡ from) }
        ensures given { IfOk result (λ w. w.given ≡ None) }
    {
        self.objects.near(alloc, from)
    }
}
