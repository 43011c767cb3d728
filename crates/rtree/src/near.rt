//! Walks through a tree's pairs by rising distance from a point.

ghost use Rattle.std.specs.Prelude.{◌≡◌, ◌+◌, ◌++◌, ℕ, true, false, OnOk, OnErr, IfOk, IsErr, MatchOption, is_err};
ghost use Rattle.std.specs.BinaryHeap.{heap_items, IsHeap};
ghost use Rattle.std.specs.List.Sorted.{IsPermutation};
ghost use Rattle.rtree.specs.Subtrees.{nodes_of};
ghost use Rattle.rtree.specs.Slots.{slot_entries, IsSlot};
ghost use Rattle.rtree.specs.Near.{nearest_first, met_pairs, met_nodes, pairs_of, nodes_in, IsNear, IsQueue, IsTop};
ghost use Rattle.rtree.specs.Near.{IsUndue, IsAnswer, IsCutOff};

use crate::ids::Ids;
use crate::nodes::{Node, Slot};
use crate::steps::{Ledger, Steps};
use crate::tree::Tree;
use crate::waiting::{Met, Waiting};
use planar_geom::{NoMemory, Pt, box_dist2};
use std::collections::BinaryHeap;
use std::marker::Model;

/// How much a walk waits for before its list grows: what the ten nearest of a large tree want.
const ROOM: usize = 128;

/// A walk through the pairs of a tree by rising distance of their boxes from a point.
pub struct NearWalk<'a> {
    waiting: BinaryHeap<Waiting<'a>>,
    from: Pt,
    given_up: bool,
}

impl<'a> Drop for NearWalk<'a> {
    fn drop(self) {
        let NearWalk {
            waiting: _,
            from: _,
            given_up: _,
        } = self;
    }
}

impl<'a> Model for NearWalk<'a> {
    ghost use Rattle.std.specs.BinaryHeap.{heap_items};
    ghost use Rattle.rtree.specs.Near.{Walk, walk, IsQueue};

    ghost Value = { Walk };

    ghost view = { λ w. walk w.from (heap_items w.waiting) w.given_up };

    ghost invariant = { λ w. IsQueue w.from (heap_items w.waiting) };
}

impl<'a> NearWalk<'a> {
    /// A walk from `p`, which has given nothing yet.
    pub fn of(tree: &'a Tree, p: Pt) -> Result<NearWalk<'a>, NoMemory>
        ensures left { IfOk result (λ w. w.left ≡ tree.now.pairs) }
        ensures from { IfOk result (λ w. w.from ≡ p) }
        ensures given_up { IfOk result (λ w. w.given_up ≡ false) }
    {
        let mut waiting = BinaryHeap::with_capacity(tree.allocator(), ROOM)?;
        if let Some(root) = tree.root() {
            let first = Waiting {
                distance: 0,
                met: Met::Below(root),
            };
            if waiting.push(first).is_err() {
                return Err(NoMemory);
            }
        }
        Ok(NearWalk {
            waiting,
            from: p,
            given_up: false,
        })
    }

    /// Appends the numbers of all pairs at the least squared distance not given yet, and answers it;
    /// `None` exactly where all were given. Where memory wants, some of them stand behind the old ones;
    /// the walk is then given up, and wants memory from then on.
    pub fn next<L: Ledger>(
        &mut self,
        into: &mut Ids,
        steps: &mut Steps<L>,
    ) -> Result<Option<u64>, NoMemory>
        ensures ok { IfOk result (λ d. IsAnswer d self.old.from self.old.left self.new.left into.old into.new) }
        ensures err { OnErr result (IsCutOff self.old.from self.old.left into.old into.new) }
        ensures given_up { self.new.given_up ≡ is_err result }
        ensures from_then_on { self.old.given_up ≡ true → IsErr result }
        ensures from { self.new.from ≡ self.old.from }
    {
        if self.given_up {
            return Err(NoMemory);
        }
        match give(&mut self.waiting, self.from, into, steps) {
            Ok(distance) => Ok(distance),
            Err(NoMemory) => {
                self.waiting.clear();
                self.given_up = true;
                Err(NoMemory)
            }
        }
    }
}

// Gives all that is nearest.
fn give<'a, L: Ledger>(
    waiting: &mut BinaryHeap<Waiting<'a>>,
    from: Pt,
    into: &mut Ids,
    steps: &mut Steps<L>,
) -> Result<Option<u64>, NoMemory>
    requires queue { IsQueue from (heap_items waiting.old) }
    ensures queue { OnOk result (IsQueue from (heap_items waiting.new)) }
    ensures ok { IfOk result
        (λ d. IsAnswer d from (pairs_of (heap_items waiting.old))
        (pairs_of (heap_items waiting.new)) into.old into.new) }
    ensures err { OnErr result (IsCutOff from (pairs_of (heap_items waiting.old)) into.old into.new) }
{
    let mut found = None;
    while let Some(nearest) = take_due(waiting, found) {
        match &nearest.met {
            Met::One(entry) => {
                into.push(entry.id())?;
                found = Some(nearest.distance);
            }
            Met::Below(node) => {
                steps.tick();
                open(node, from, waiting)?;
            }
        }
    }
    Ok(found)
}

// Takes the nearest out, where it is no farther than what was found.
fn take_due<'a>(waiting: &mut BinaryHeap<Waiting<'a>>, found: Option<u64>) -> Option<Waiting<'a>>
    requires heap { IsHeap nearest_first (heap_items waiting.old) }
    ensures { MatchOption result (IsUndue found (heap_items waiting.old) (heap_items waiting.new))
        (λ w. IsTop found w (heap_items waiting.old) (heap_items waiting.new)) }
{
    if let Some(distance) = found {
        let nearest = waiting.peek()?;
        if distance < nearest.distance {
            return None;
        }
    }
    waiting.pop()
}

// Puts what stands right below a node among what waits.
fn open<'a>(node: &'a Node, from: Pt, waiting: &mut BinaryHeap<Waiting<'a>>) -> Result<(), NoMemory>
    requires queue { IsQueue from (heap_items waiting.old) }
    ensures queue { OnOk result (IsQueue from (heap_items waiting.new)) }
    ensures pairs { OnOk result
        (IsPermutation (node.now.entries ++ pairs_of (heap_items waiting.old)) (pairs_of (heap_items waiting.new))) }
    ensures nodes { OnOk result
        (nodes_in (heap_items waiting.new) + 1 ≡ nodes_in (heap_items waiting.old) + node.now.nodes) }
{
    for slot in node.slots() {
        if waiting.push(met(slot, from)).is_err() {
            return Err(NoMemory);
        }
    }
    Ok(())
}

// What a slot holds, as far away as its box.
fn met<'a>(slot: &'a Slot, from: Pt) -> Waiting<'a>
    requires slot { (height : ℕ) × IsSlot height slot.now }
    ensures near { IsNear from result }
    ensures pairs { met_pairs result.met ≡ slot_entries slot.now }
    ensures nodes { met_nodes result.met ≡ nodes_of slot.now.below }
{
    Waiting {
        distance: box_dist2(from, slot.bounds()),
        met: match slot.below() {
            None => Met::One(slot.first()),
            Some(child) => Met::Below(child),
        },
    }
}
