//! The boxes of the channels of one key.
//!
//! The boxes of a key stand in three trees, one for each reason to be named: the area is near; it is near, and the
//! channel wants `outside`; an object was put, wherever it is. A put asks the first and the third, a deletion the first
//! two, so each channel is found once. Those of the third all have one box.

ghost use Rattle.std.specs.Prelude.{◌≡◌, ◌+◌, ◌≤◌, ◌++◌, ℕ, [], true, length, IfOk, OnOk};
ghost use Rattle.std.specs.List.{sum_by};
ghost use Rattle.rtree.specs.Pairs.{Pair};
ghost use Rattle.rtree.specs.Ledgers.{IsRead};
ghost use Rattle.fence_index.specs.Held.{weight_of};
ghost use Rattle.fence_index.specs.Marks.{mark_of};
ghost use Rattle.fence_index.specs.Reasons.{Reason, box_for};
ghost use Rattle.fence_index.specs.Boxed.{HasRoom, IsFresh, found, part};

use crate::box_sets::BoxSet;
use crate::nearness::{always_box, near_box, spot, wide_box};
use byte_text::{Name, NoMemory};
use planar_geom::BBox;
use rtree::{Ids, Ledger, Steps};
use std::alloc::Global;
use world_data::Channel;

/// The boxes of the channels of a key, by the reason for which a channel is named.
pub(crate) struct KeyBoxes {
    pub(crate) key: Name,
    // Of areas of channels that are named where they are near.
    near: BoxSet,
    // Of areas of channels that want `outside`: a put names them without it, and a del by it.
    wide: BoxSet,
    // Of channels that each put names, all the same.
    always: BoxSet,
}

impl Drop for KeyBoxes {
    fn drop(self) {
        let KeyBoxes {
            key: _,
            near: _,
            wide: _,
            always: _,
        } = self;
    }
}

impl KeyBoxes {
    /// The key of a channel without a box, and room for the channel's.
    pub(crate) fn of(alloc: Global, channel: &Channel) -> Result<KeyBoxes, NoMemory>
        ensures { IfOk result (λ s. IsFresh (mark_of channel.now) s) }
    {
        let mut boxes = KeyBoxes {
            key: channel.fence.key.copy(alloc)?,
            near: BoxSet::new(alloc),
            wide: BoxSet::new(alloc),
            always: BoxSet::new(alloc),
        };
        boxes.reserve(channel)?;
        Ok(boxes)
    }

    /// Takes room for the boxes of one more channel. The boxes stay, and no room is lost.
    pub(crate) fn reserve(&mut self, channel: &Channel) -> Result<(), NoMemory>
        ensures key { self.new.key ≡ self.old.key }
        ensures pairs { (r : Reason) → (part r self.new).pairs ≡ (part r self.old).pairs }
        ensures room { OnOk result (HasRoom (mark_of channel.now) self.new) }
        ensures kept { (r : Reason) → (part r self.old).spare ≤ (part r self.new).spare }
    {
        self.near.reserve(near_box(channel))?;
        self.wide.reserve(wide_box(channel))?;
        self.always.reserve(always_box(channel))
    }

    /// Puts the boxes of a channel beside its number. It takes no memory.
    pub(crate) fn put(&mut self, channel: &Channel, number: usize)
        requires { HasRoom (mark_of channel.now) self.old }
        ensures key { self.new.key ≡ self.old.key }
        ensures pairs { (r : Reason) (w : Pair → ℕ)
            → sum_by w (part r self.new).pairs
            ≡ sum_by w (part r self.old).pairs + weight_of w (box_for r (mark_of channel.now)) number }
    {
        self.near.put(near_box(channel), number);
        self.wide.put(wide_box(channel), number);
        self.always.put(always_box(channel), number);
    }

    /// Takes out the boxes of a channel, which stand here beside its number.
    pub(crate) fn take(&mut self, channel: &Channel, number: usize)
        requires { (r : Reason) (w : Pair → ℕ)
            → weight_of w (box_for r (mark_of channel.now)) number ≤ sum_by w (part r self.old).pairs }
        ensures key { self.new.key ≡ self.old.key }
        ensures pairs { (r : Reason) (w : Pair → ℕ)
            → sum_by w (part r self.new).pairs + weight_of w (box_for r (mark_of channel.now)) number
            ≡ sum_by w (part r self.old).pairs }
        ensures kept { (r : Reason) → (part r self.old).spare ≤ (part r self.new).spare }
    {
        self.near.take(near_box(channel), number);
        self.wide.take(wide_box(channel), number);
        self.always.take(always_box(channel), number);
    }

    /// Whether there is no box.
    pub(crate) fn is_empty(&self) -> bool
        ensures none { result ≡ true → (r : Reason) → (part r self.now).pairs ≡ [] }
        ensures some { ((r : Reason) → (part r self.now).pairs ≡ []) → result ≡ true }
    {
        self.near.is_empty() && self.wide.is_empty() && self.always.is_empty()
    }

    /// Appends the numbers of the channels that a change names: `round` is the box round what it moves, and `put` says
    /// that an object stands there after it. For want of memory some of them are appended.
    pub(crate) fn search<L: Ledger>(
        &self,
        round: &BBox,
        put: bool,
        into: &mut Ids,
        steps: &mut Steps<L>,
    ) -> Result<(), NoMemory>
        ensures found { OnOk result (into.new ≡ into.old ++ found round.now put self.now) }
        ensures longer { length into.old ≤ length into.new }
        ensures read { IsRead (length into.old) (length into.new) steps.old.count steps.new.count }
    {
        self.near.search(round, into, steps)?;
        if put {
            self.always.search(&spot(), into, steps)
        } else {
            self.wide.search(round, into, steps)
        }
    }
}
