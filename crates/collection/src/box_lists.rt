//! The boxes of objects, each beside the object's key, in a tree.

ghost use Rattle.std.specs.Prelude.{◌≡◌, ◌+◌, ◌≤◌, true, length, IsSome, Contains};
ghost use Rattle.planar_geom.specs.Points.{Bounds};
ghost use Rattle.rtree.specs.Pairs.{pair};
ghost use Rattle.slab.specs.Slab.{get};
ghost use Rattle.collection.specs.Boxed.{pair_at, IsMore, IsMoved, IsWholeIn};
ghost use Rattle.collection.specs.Costs.{IsCheap};

use planar_geom::{BBox, Pt, box_of, shape_is_whole};
use rtree::{Ledger, Steps, Tree};
use slab::Slab;
use world_data::Object;

/// Puts a key into the tree beside the box of its object, for which there is room.
pub(crate) fn put_box<L: Ledger>(
    boxes: &mut Tree,
    slots: &Slab<Object>,
    key: usize,
    steps: &mut Steps<L>,
)
    requires room { 1 ≤ boxes.old.spare }
    requires there { IsSome (get slots.now key) }
    ensures pairs { IsMore (pair_at (get slots.now) key) boxes.old.pairs boxes.new.pairs }
    ensures room { boxes.new.spare + 1 ≡ boxes.old.spare }
    ensures whole { IsWholeIn (get slots.now key) }
    ensures cost { IsCheap (length boxes.old.pairs) steps.old.count steps.new.count }
{
    boxes.insert(box_at(slots, key), key, steps);
}

/// Takes a key out of the tree, where it stands beside the box of its object.
pub(crate) fn take_box<L: Ledger>(
    boxes: &mut Tree,
    slots: &Slab<Object>,
    key: usize,
    steps: &mut Steps<L>,
)
    requires there { IsSome (get slots.now key) }
    requires boxed { Contains boxes.old.pairs (pair_at (get slots.now) key) }
    ensures pairs { IsMore (pair_at (get slots.now) key) boxes.new.pairs boxes.old.pairs }
    ensures room { boxes.new.spare ≡ boxes.old.spare + 1 }
    ensures cost { IsCheap (length boxes.old.pairs) steps.old.count steps.new.count }
{
    let _ = boxes.remove(box_at(slots, key), key, steps);
}

/// Moves a key in the tree from a box to that of its object. Where both are the same the tree stays as it is.
pub(crate) fn move_box<L: Ledger>(
    boxes: &mut Tree,
    slots: &Slab<Object>,
    key: usize,
    old: BBox,
    steps: &mut Steps<L>,
)
    requires there { IsSome (get slots.now key) }
    requires boxed { Contains boxes.old.pairs (pair old key) }
    ensures pairs { IsMoved (pair old key) (pair_at (get slots.now) key) boxes.old.pairs boxes.new.pairs }
    ensures room { boxes.new.spare ≡ boxes.old.spare }
    ensures whole { IsWholeIn (get slots.now key) }
    ensures cost { IsCheap (length boxes.old.pairs) steps.old.count steps.new.count }
{
    let new = box_at(slots, key);
    if is_same(old, new) {
        return;
    }
    let _ = boxes.remove(old, key, steps);
    boxes.insert(new, key, steps);
}

// The box of a key's object.
fn box_at(slots: &Slab<Object>, key: usize) -> BBox
    requires { IsSome (get slots.now key) }
    ensures value { pair result key ≡ pair_at (get slots.now) key }
    ensures whole { IsWholeIn (get slots.now key) }
{
    match slots.get(key) {
        Some(object) => {
            // A law, of which nothing is left at run time.
            shape_is_whole(&object.shape);
            box_of(&object.shape)
        }
        None => unreachable!(),
    }
}

// Whether two boxes have the same corners.
fn is_same(first: BBox, second: BBox) -> bool
    ensures { result ≡ true → first ≡ second }
{
    is_at(first.min(), second.min()) && is_at(first.max(), second.max())
}

fn is_at(first: Pt, second: Pt) -> bool
    ensures { result ≡ true → first ≡ second }
{
    first.x() == second.x() && first.y() == second.y()
}
