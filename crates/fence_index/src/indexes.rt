//! The index: the boxes of channels by key, each under a number that leads to its channel.
//!
//! Boxes alone decide. A channel that roams or wants `outside` is named for every put of its key; a deletion names
//! those whose area's box meets the object's box. What is not named raises nothing, which is a law of its own. One
//! channel is prepared at a time, and a preparation that is not used gives way to the next, so a call that fails after
//! it leaves nothing behind. To replace a channel the new one is prepared, the old one taken out, the new one put.

ghost use Rattle.std.specs.Prelude.{◌≡◌, ℕ, [], List, Option, filter, is_some, length, Some, None, IfOk, OnOk, OnErr};
ghost use Rattle.std.specs.List.{sum_by};
ghost use Rattle.rtree.specs.Ledgers.{IsRead};
ghost use Rattle.fence_index.specs.declared.marks.Mark.{Mark};
ghost use Rattle.fence_index.specs.Marks.{mark_of};
ghost use Rattle.fence_index.specs.Boxed.{AreSame, IsAmong, IsOneMore};
ghost use Rattle.fence_index.specs.Candidates.{is_named, round_of};
ghost use Rattle.fence_index.specs.Numbered.{AreBoxed};

use crate::key_boxes::KeyBoxes;
use crate::key_lists::{numbers_near, put_boxes, reserve_boxes, take_boxes};
use crate::nearness::round_of;
use crate::ready::Ready;
use byte_text::{Name, NoMemory};
use planar_geom::BBox;
use rtree::{Ids, Ledger, Steps};
use std::alloc::Global;
use std::marker::Model;
use world_data::Channel;

/// The boxes of channels, each under the number by which its owner knows it. One channel more may be prepared, which is
/// then put without taking memory.
pub struct FenceIndex {
    // By key, in byte order.
    boxes: Vec<KeyBoxes>,
    // A channel that is still to be put. There is room for it.
    prepared: Option<Ready>,
}

impl Drop for FenceIndex {
    fn drop(self) {
        let FenceIndex {
            boxes: _,
            prepared: _,
        } = self;
    }
}

impl Model for FenceIndex {
    ghost use Rattle.std.specs.Prelude.{◌-◌, option_map, vec_len, vec_capacity};
    ghost use Rattle.fence_index.specs.Numbered.{Indexed, IsKept};

    ghost Value = { Indexed };

    ghost view = { λ f. record { boxes = f.boxes.items; prepared = option_map (λ ready. ready.mark) f.prepared } };

    ghost invariant = { λ f. IsKept f.boxes.items (vec_capacity f.boxes - vec_len f.boxes) f.prepared };
}

impl FenceIndex {
    /// No channel, and none prepared. Room is taken from `alloc`.
    pub fn new(alloc: Global) -> FenceIndex
        ensures boxes { result.boxes ≡ [] }
        ensures prepared { result.prepared ≡ None }
    {
        FenceIndex {
            boxes: Vec::new(alloc),
            prepared: None,
        }
    }

    /// Prepares a channel, in place of the one that was prepared before and not put. For want of memory that one stays
    /// prepared. The channels of the index stay.
    pub fn prepare(&mut self, alloc: Global, channel: &Channel) -> Result<(), NoMemory>
        ensures boxes { AreSame self.old.boxes self.new.boxes }
        ensures ok { OnOk result (self.new.prepared ≡ Some (mark_of channel.now)) }
        ensures err { OnErr result (self.new.prepared ≡ self.old.prepared) }
    {
        let ready = Ready::of(alloc, channel)?;
        reserve_boxes(&mut self.boxes, channel)?;
        self.prepared = Some(ready);
        Ok(())
    }

    /// Puts the channel that was prepared under a number. It takes no memory.
    pub fn put(&mut self, channel: &Channel, number: usize)
        requires { self.old.prepared ≡ Some (mark_of channel.now) }
        ensures boxes { IsOneMore (mark_of channel.now) number self.old.boxes self.new.boxes }
        ensures prepared { self.new.prepared ≡ None }
    {
        let Some(ready) = self.prepared.take() else {
            unreachable!();
        };
        put_boxes(&mut self.boxes, ready.boxes, channel, number);
    }

    /// Takes out a channel, which stands under this number. The one that was prepared stays prepared. It takes no
    /// memory.
    pub fn take_out(&mut self, channel: &Channel, number: usize)
        requires { IsAmong (mark_of channel.now) number self.old.boxes }
        ensures boxes { IsOneMore (mark_of channel.now) number self.new.boxes self.old.boxes }
        ensures prepared { self.new.prepared ≡ self.old.prepared }
    {
        take_boxes(&mut self.boxes, channel, number);
    }

    /// Takes out all channels. The one that was prepared stays prepared. It takes no memory.
    pub fn clear(&mut self)
        ensures boxes { self.new.boxes ≡ [] }
        ensures prepared { self.new.prepared ≡ self.old.prepared }
    {
        self.boxes.clear();
    }

    /// The numbers, in no order, of the channels of the key which a change may concern that moves an object from one
    /// box, where it was there, to another, where it is there after it: where it is, those that roam and those that
    /// want `outside`; and those whose area has a box that meets the least box round what is there of the two. The
    /// steps do not fall, and rise by enough nodes to hold these numbers, at most 16 each.
    pub fn candidates<L: Ledger>(
        &self,
        alloc: Global,
        key: &Name,
        old: Option<BBox>,
        new: Option<BBox>,
        steps: &mut Steps<L>,
    ) -> Result<Ids, NoMemory>
        ensures numbers { IfOk result
            (λ found. (marks : ℕ → Option Mark) (numbers : List ℕ) → AreBoxed marks numbers self.now.boxes
            → (v : ℕ → ℕ)
            → sum_by v found
            ≡ sum_by v (filter (λ n. is_named key.now (round_of old new) (is_some new) (marks n)) numbers)) }
        ensures read { IfOk result (λ found. IsRead 0 (length found) steps.old.count steps.new.count) }
        ensures counted { IsRead 0 0 steps.old.count steps.new.count }
    {
        match round_of(old, new) {
            Some(round) => numbers_near(
                alloc,
                self.boxes.as_slice(),
                key,
                &round,
                new.is_some(),
                steps,
            ),
            None => Ok(Ids::new(alloc)),
        }
    }
}
