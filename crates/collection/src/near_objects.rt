//! Walks through objects by rising distance of their boxes from a point.

ghost use Rattle.std.specs.Prelude.{◌≡◌, true, None, IfOk};
ghost use Rattle.slab.specs.Slab.{get};
ghost use Rattle.collection.specs.Objects.{are_by_id};
ghost use Rattle.collection.specs.Boxed.{AreBoxed};
ghost use Rattle.collection.specs.Nearing.{IsNearing};
ghost use Rattle.collection.specs.Slotted.{objects_at, AreSlotted};

use crate::found_objects::{FoundObjects, list_found};
use byte_text::NoMemory;
use planar_geom::Pt;
use rtree::{Ids, Ledger, NearWalk, Steps, Tree};
use run_list::RunList;
use slab::Slab;
use std::alloc::Global;
use std::marker::Model;
use world_data::Object;

/// A walk through objects by rising distance of their boxes from a point.
pub struct NearObjects<'a> {
    slots: &'a Slab<Object>,
    keys: &'a RunList,
    walk: NearWalk<'a>,
    // The keys of those that the tree gave last.
    numbers: Ids,
    // How far away they are, squared.
    given: Option<u64>,
}

impl<'a> Drop for NearObjects<'a> {
    fn drop(self) {
        let NearObjects {
            slots: _,
            keys: _,
            walk: _,
            numbers: _,
            given: _,
        } = self;
    }
}

impl<'a> Model for NearObjects<'a> {
    ghost use Rattle.slab.specs.Slab.{get};
    ghost use Rattle.collection.specs.Nearing.{Nearing, IsNearingOf};
    ghost use Rattle.collection.specs.Slotted.{objects_at};

    ghost Value = { Nearing };

    ghost view = { λ w. record {
      objects = objects_at (get w.slots.now) w.keys.now.items;
      from = w.walk.from;
      given = w.given;
    } };

    ghost invariant = { λ w. IsNearingOf
        (get w.slots.now) w.keys.now.items w.walk.from w.given w.walk.given_up w.walk.left };
}

impl<'a> NearObjects<'a> {
    /// A walk from a point through the objects of these keys, whose boxes are in the tree. It has given none yet.
    pub(crate) fn of(
        alloc: Global,
        slots: &'a Slab<Object>,
        keys: &'a RunList,
        boxes: &'a Tree,
        from: Pt,
    ) -> Result<NearObjects<'a>, NoMemory>
        requires slotted { AreSlotted (get slots.now) keys.now.items }
        requires by_id { are_by_id (objects_at (get slots.now) keys.now.items) ≡ true }
        requires boxed { AreBoxed (get slots.now) keys.now.items boxes.now.pairs }
        ensures objects { IfOk result (λ w. w.objects ≡ objects_at (get slots.now) keys.now.items) }
        ensures from { IfOk result (λ w. w.from ≡ from) }
        ensures given { IfOk result (λ w. w.given ≡ None) }
    {
        match NearWalk::of(boxes, from) {
            Ok(walk) => Ok(NearObjects {
                slots,
                keys,
                walk,
                numbers: Ids::new(alloc),
                given: None,
            }),
            Err(_) => Err(NoMemory),
        }
    }

    /// Lists all objects at the least squared distance not given yet, in byte order of their ids, and answers that
    /// distance; `None` exactly where all were given. For want of memory the list may hold anything, and the walk with
    /// it.
    pub fn next<L: Ledger>(
        &mut self,
        into: &mut FoundObjects<'a>,
        steps: &mut Steps<L>,
    ) -> Result<Option<u64>, NoMemory>
        ensures ok { IfOk result (λ d. IsNearing d self.old self.new into.new) }
        ensures objects { self.new.objects ≡ self.old.objects }
        ensures from { self.new.from ≡ self.old.from }
    {
        self.numbers.clear();
        let Ok(answer) = self.walk.next(&mut self.numbers, steps) else {
            return Err(NoMemory);
        };
        match answer {
            Some(distance) => {
                self.given = Some(distance);
                list_found(self.slots, &self.numbers, into)?;
                Ok(Some(distance))
            }
            None => Ok(None),
        }
    }
}
