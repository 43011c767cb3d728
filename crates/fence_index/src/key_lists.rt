//! The boxes of each key, in byte order of the keys.

ghost use Rattle.std.specs.Prelude.{◌≡◌, ◌<◌, ◌≤◌, true, length, vec_len, vec_capacity, IfOk, IfErr, OnOk};
ghost use Rattle.std.specs.List.{insert};
ghost use Rattle.byte_text.specs.Names.{before};
ghost use Rattle.ordered_lists.specs.Lists.{IsHeld, IsFree};
ghost use Rattle.rtree.specs.Ledgers.{IsRead};
ghost use Rattle.fence_index.specs.declared.marks.Mark.{Mark};
ghost use Rattle.fence_index.specs.Boxed.{AreFound, AreSame, HasRoomIn, IsAmong, IsFresh, IsOneMore, are_by_key};
ghost use Rattle.fence_index.specs.Marks.{mark_of};

use crate::key_boxes::KeyBoxes;
use byte_text::{Name, NoMemory};
use ordered_lists::{is_before, is_same};
use planar_geom::BBox;
use rtree::{Ids, Ledger, Steps};
use std::alloc::Global;
use world_data::Channel;

/// The place of this key, or, where it is not there, the place where it would go.
pub(crate) fn place_of_key(list: &[KeyBoxes], key: &Name) -> Result<usize, usize>
    requires { are_by_key list.now ≡ true }
    ensures held { IfOk result (λ at. IsHeld (λ s. before s.key key.now) (λ s. before key.now s.key) list.now at) }
    ensures free { IfErr result (λ at. IsFree (λ s. before s.key key.now) (λ s. before key.now s.key) list.now at) }
{
    let at = list.partition_point(
        |boxes: &KeyBoxes| -> bool
            ensures { result ≡ before boxes.now.key key.entry.now }
        { is_before(&boxes.key, key) },
    );
    if at == list.len() {
        return Err(at);
    }
    if is_same(&list[at].key, key) {
        Ok(at)
    } else {
        Err(at)
    }
}

/// The numbers of the channels of a key that a change names, in no order: `round` is the box round what it moves, and
/// `put` says that an object stands there after it.
pub(crate) fn numbers_near<L: Ledger>(
    alloc: Global,
    boxes: &[KeyBoxes],
    key: &Name,
    round: &BBox,
    put: bool,
    steps: &mut Steps<L>,
) -> Result<Ids, NoMemory>
    requires { are_by_key boxes.now ≡ true }
    ensures found { IfOk result (λ numbers. AreFound key.now round.now put boxes.now numbers) }
    ensures read { IfOk result (λ numbers. IsRead 0 (length numbers) steps.old.count steps.new.count) }
    ensures counted { IsRead 0 0 steps.old.count steps.new.count }
{
    let mut numbers = Ids::new(alloc);
    match place_of_key(boxes, key) {
        Ok(at) => {
            boxes[at].search(round, put, &mut numbers, steps)?;
            Ok(numbers)
        }
        Err(_) => Ok(numbers),
    }
}

/// Takes room for one key more, and for the boxes of a channel among those of its key, where they are there.
pub(crate) fn reserve_boxes(boxes: &mut Vec<KeyBoxes>, channel: &Channel) -> Result<(), NoMemory>
    requires { are_by_key boxes.old.items ≡ true }
    ensures by_key { are_by_key boxes.new.items ≡ true }
    ensures weights { AreSame boxes.old.items boxes.new.items }
    ensures places { OnOk result (vec_len boxes.new < vec_capacity boxes.new) }
    ensures room { OnOk result (HasRoomIn (mark_of channel.now) boxes.new.items) }
    ensures kept { (m : Mark) → HasRoomIn m boxes.old.items → HasRoomIn m boxes.new.items }
    ensures len { vec_len boxes.new ≡ vec_len boxes.old }
    ensures capacity { vec_capacity boxes.old ≤ vec_capacity boxes.new }
{
    if boxes.reserve(1).is_err() {
        return Err(NoMemory);
    }
    match place_of_key(boxes.as_slice(), &channel.fence.key) {
        Ok(at) => boxes[at].reserve(channel),
        Err(_) => Ok(()),
    }
}

/// Puts the boxes of a channel among those of its key; where there are none, `fresh` are the first.
pub(crate) fn put_boxes(
    boxes: &mut Vec<KeyBoxes>,
    mut fresh: KeyBoxes,
    channel: &Channel,
    number: usize,
)
    requires by_key { are_by_key boxes.old.items ≡ true }
    requires places { vec_len boxes.old < vec_capacity boxes.old }
    requires room { HasRoomIn (mark_of channel.now) boxes.old.items }
    requires fresh { IsFresh (mark_of channel.now) fresh }
    ensures by_key { are_by_key boxes.new.items ≡ true }
    ensures weights { IsOneMore (mark_of channel.now) number boxes.old.items boxes.new.items }
{
    match place_of_key(boxes.as_slice(), &channel.fence.key) {
        Ok(at) => boxes[at].put(channel, number),
        Err(at) => {
            fresh.put(channel, number);
            insert_reserved(boxes, at, fresh);
        }
    }
}

/// Takes out the boxes of a channel, which stand among those of its key; and the key, where it has no more.
pub(crate) fn take_boxes(boxes: &mut Vec<KeyBoxes>, channel: &Channel, number: usize)
    requires by_key { are_by_key boxes.old.items ≡ true }
    requires there { IsAmong (mark_of channel.now) number boxes.old.items }
    ensures by_key { are_by_key boxes.new.items ≡ true }
    ensures weights { IsOneMore (mark_of channel.now) number boxes.new.items boxes.old.items }
    ensures kept { (m : Mark) → HasRoomIn m boxes.old.items → HasRoomIn m boxes.new.items }
    ensures len { vec_len boxes.new ≤ vec_len boxes.old }
    ensures capacity { vec_capacity boxes.new ≡ vec_capacity boxes.old }
{
    if let Ok(at) = place_of_key(boxes.as_slice(), &channel.fence.key) {
        boxes[at].take(channel, number);
        if boxes[at].is_empty() {
            boxes.remove(at);
        }
    }
}

// Puts boxes in at a place, where there is room for one key more.
fn insert_reserved(list: &mut Vec<KeyBoxes>, at: usize, boxes: KeyBoxes)
    requires place { at ≤ vec_len list.old }
    requires room { vec_len list.old < vec_capacity list.old }
    ensures items { list.new.items ≡ insert list.old.items at boxes }
{
    match list.insert(at, boxes) {
        Ok(()) => {}
        Err(_) => unreachable!(),
    }
}
