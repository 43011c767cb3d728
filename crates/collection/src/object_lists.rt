//! Objects in slots, in an order of their own: none moves when another is put in or taken out.

ghost use Rattle.std.specs.Prelude.{◌≡◌, ◌<◌, ◌≤◌, ◌+◌, [], true, not, length, take, drop, slice_get, Some, None, All, filter};
ghost use Rattle.std.specs.Prelude.{OnOk, IfOk};
ghost use Rattle.std.specs.List.{insert, remove, slice_set, list_all};
ghost use Rattle.byte_text.specs.Names.{before};
ghost use Rattle.collection.specs.Objects.{are_by_id, least_due};
ghost use Rattle.planar_geom.specs.Nearness.{IsWholeShape};
ghost use Rattle.collection.specs.Costs.{IsCheap};
ghost use Rattle.collection.specs.Deadlines.{FirstDue};
ghost use Rattle.collection.specs.Meeting.{meets_box, IsVisited};

use crate::box_lists::{move_box, put_box, take_box};
use crate::due_lists::{is_moved, put_due, put_moved, take_due, take_moved};
use crate::found_objects::{FoundObjects, list_found};
use crate::id_tests::IsBefore;
use crate::near_objects::NearObjects;
use byte_text::{Name, NoMemory};
use planar_geom::{BBox, Pt, box_of};
use rtree::{Ids, Ledger, Steps, Tree};
use run_list::RunList;
use slab::Slab;
use std::alloc::Global;
use std::marker::Model;
use world_data::Object;

/// A list of objects, with room for more that was taken beforehand. An object stays in its slot, and the list is of
/// keys.
pub(crate) struct ObjectList {
    slots: Slab<Object>,
    keys: RunList,
    // Those of objects with a deadline, in order of deadline and id. There is room for all.
    dues: RunList,
    // Each key beside the box of its object.
    boxes: Tree,
}

impl Drop for ObjectList {
    fn drop(self) {
        let ObjectList {
            slots: _,
            keys: _,
            dues: _,
            boxes: _,
        } = self;
    }
}

impl Model for ObjectList {
    ghost use Rattle.slab.specs.Slab.{get, slab_len};
    ghost use Rattle.collection.specs.Objects.{Held};
    ghost use Rattle.collection.specs.Slotted.{objects_at, AreKept, room_of};

    ghost Value = { Held };

    ghost view = { λ l. record {
      objects = objects_at (get l.slots) l.keys.items;
      spare = room_of (slab_len l.slots) l.slots.capacity l.keys l.dues l.boxes;
    } };

    ghost invariant = { λ l. AreKept (get l.slots) l.keys.items l.dues l.boxes };
}

impl ObjectList {
    /// No object, and no room. Room is taken from `alloc`.
    pub(crate) fn new(alloc: Global) -> ObjectList
        ensures { result.objects ≡ [] }
    {
        ObjectList {
            slots: Slab::new(alloc),
            keys: RunList::new(alloc),
            dues: RunList::new(alloc),
            boxes: Tree::new(alloc),
        }
    }

    /// Takes room for one more object, where there is none. The objects stay, and no room is lost.
    pub(crate) fn prepare(&mut self) -> Result<(), NoMemory>
        ensures objects { self.new.objects ≡ self.old.objects }
        ensures room { OnOk result (1 ≤ self.new.spare) }
        ensures kept { self.old.spare ≤ self.new.spare }
    {
        match self.slots.reserve(1) {
            Ok(()) => {}
            Err(_) => return Err(NoMemory),
        }
        if self.boxes.reserve(1).is_err() {
            return Err(NoMemory);
        }
        self.keys.reserve(1)?;
        self.dues.reserve(self.keys.len() + 1 - self.dues.len())
    }

    /// How many objects there are.
    pub(crate) fn len(&self) -> usize
        ensures count { result ≡ length self.now.objects }
        ensures most { length self.now.objects ≤ 4294967295 }
    {
        self.keys.len()
    }

    /// The object at a place.
    pub(crate) fn at(&self, i: usize) -> &Object
        requires { i < length self.now.objects }
        ensures { slice_get self.now.objects i ≡ Some result.now }
    {
        match self.slots.get(self.keys.at(i)) {
            Some(object) => object,
            None => unreachable!(),
        }
    }

    /// How many objects stand before an id, where they are in order.
    pub(crate) fn count_before(&self, id: &Name) -> usize
        requires { are_by_id self.now.objects ≡ true }
        ensures within { result ≤ length self.now.objects }
        ensures front { list_all (λ o. before o.id id.now) (take result self.now.objects) ≡ true }
        ensures behind { list_all (λ o. not (before o.id id.now)) (drop result self.now.objects) ≡ true }
    {
        self.keys.place_of(&IsBefore {
            slots: &self.slots,
            id,
        })
    }

    /// Puts an object at a place, for which there is room, where all are in order then. It takes no memory.
    pub(crate) fn insert<L: Ledger>(&mut self, i: usize, object: Object, steps: &mut Steps<L>)
        requires within { i ≤ length self.old.objects }
        requires room { 1 ≤ self.old.spare }
        requires by_id { are_by_id (insert self.old.objects i object) ≡ true }
        ensures objects { self.new.objects ≡ insert self.old.objects i object }
        ensures spare { self.new.spare + 1 ≡ self.old.spare }
        ensures cost { IsCheap (length self.old.objects) steps.old.count steps.new.count }
    {
        let key = self.slots.insert_reserved(object);
        self.keys.insert(i, key);
        put_due(&mut self.dues, &self.slots, key);
        put_box(&mut self.boxes, &self.slots, key, steps);
    }

    /// Takes out the object at a place, which is room for another.
    pub(crate) fn remove<L: Ledger>(&mut self, i: usize, steps: &mut Steps<L>) -> Object
        requires { i < length self.old.objects }
        ensures objects { self.new.objects ≡ remove self.old.objects i }
        ensures taken { slice_get self.old.objects i ≡ Some result }
        ensures spare { self.new.spare ≡ self.old.spare + 1 }
        ensures cost { IsCheap (length self.old.objects) steps.old.count steps.new.count }
    {
        let key = self.keys.remove(i);
        take_due(&mut self.dues, &self.slots, key);
        take_box(&mut self.boxes, &self.slots, key, steps);
        self.slots.remove(key)
    }

    /// Puts an object in the place of another, which it gives out, where all are in order then. One that keeps its
    /// deadline keeps its place in the order of deadlines, and one that keeps its box its node.
    pub(crate) fn exchange<L: Ledger>(
        &mut self,
        i: usize,
        object: Object,
        steps: &mut Steps<L>,
    ) -> Object
        requires within { i < length self.old.objects }
        requires by_id { are_by_id (slice_set self.old.objects i object) ≡ true }
        ensures objects { self.new.objects ≡ slice_set self.old.objects i object }
        ensures taken { slice_get self.old.objects i ≡ Some result }
        ensures spare { self.new.spare ≡ self.old.spare }
        ensures cost { IsCheap (length self.old.objects) steps.old.count steps.new.count }
    {
        let key = self.keys.at(i);
        let moves = is_moved(&self.slots, key, &object);
        take_moved(&mut self.dues, &self.slots, key, moves);
        let old = self.slots.remove(key);
        let _ = self.slots.insert_reserved(object);
        put_moved(&mut self.dues, &self.slots, key, moves);
        move_box(&mut self.boxes, &self.slots, key, box_of(&old.shape), steps);
        old
    }

    /// The least deadline of all objects.
    pub(crate) fn least_due(&self) -> Option<u64>
        ensures { result ≡ least_due self.now.objects }
    {
        if self.dues.len() == 0 {
            return None;
        }
        match self.slots.get(self.dues.at(0)) {
            Some(object) => object.deadline,
            None => unreachable!(),
        }
    }

    /// The first place of the least deadline, where there is a deadline and the objects are in order.
    pub(crate) fn first_due(&self) -> Option<usize>
        requires { are_by_id self.now.objects ≡ true }
        ensures { FirstDue self.now.objects result }
    {
        if self.dues.len() == 0 {
            return None;
        }
        match self.slots.get(self.dues.at(0)) {
            Some(object) => Some(self.count_before(&object.id)),
            None => unreachable!(),
        }
    }

    /// Lists the objects whose box meets a box, in byte order of their ids, in which all stand.
    pub(crate) fn met<'a, L: Ledger>(
        &'a self,
        alloc: Global,
        b: BBox,
        into: &mut FoundObjects<'a>,
        steps: &mut Steps<L>,
    ) -> Result<(), NoMemory>
        requires { are_by_id self.now.objects ≡ true }
        ensures found { OnOk result (into.new ≡ filter (meets_box b) self.now.objects) }
        ensures whole { All (λ o. IsWholeShape o.shape) self.now.objects }
        ensures visits { IsVisited self.now.objects steps.old.count steps.new.count }
    {
        let mut numbers = Ids::new(alloc);
        match self.boxes.search(&b, &mut numbers, steps) {
            Ok(()) => list_found(&self.slots, &numbers, into),
            Err(_) => Err(NoMemory),
        }
    }

    /// A walk through the objects by rising distance of their boxes from a point, which has given none yet.
    pub(crate) fn near(&self, alloc: Global, from: Pt) -> Result<NearObjects<'_>, NoMemory>
        requires { are_by_id self.now.objects ≡ true }
        ensures objects { IfOk result (λ w. w.objects ≡ self.now.objects) }
        ensures from { IfOk result (λ w. w.from ≡ from) }
        ensures given { IfOk result (λ w. w.given ≡ None) }
    {
        NearObjects::of(alloc, &self.slots, &self.keys, &self.boxes, from)
    }
}
