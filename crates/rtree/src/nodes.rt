//! Nodes: each holds its slots in order, at least eight unless it is the root, at most sixteen, and all
//! leaves stand at one depth.
//!
//! Nodes own the nodes below them. Nodes in a slab, named by numbers, would do the same, but every proof would first
//! have to say that no two subtrees share a node. A node but for the root is half full at least: 8 to 16 slots. One
//! that has lost a slot too many takes its neighbour's nearest, or is joined with it where one node holds both, so no
//! list ever holds more than 17.

ghost use Rattle.std.specs.Prelude.{◌≡◌, ℕ, ◌≢◌, ◌≤◌, ◌<◌, ◌+◌, ◌-◌, ◌⊎◌, ◌*◌, ◌^◌, ◌++◌, [], ◌∷◌, Some, None, true};
ghost use Rattle.std.specs.Prelude.{false, min, take, drop, length, All, IfSome, MatchOption, OnOk, OnErr};
ghost use Rattle.std.specs.Prelude.{vec_capacity, vec_len};
ghost use Rattle.planar_geom.specs.Points.{IsBox};
ghost use Rattle.rtree.specs.Pairs.{IsInside, IsOrdered, IsWith, IsPut, IsPart, ids_meeting};
ghost use Rattle.rtree.specs.Ledgers.{IsRead};
ghost use Rattle.rtree.specs.Subtrees.{entries_of, nodes_of, IsFull, IsRoot, IsHalved, IsSplitFull, IsRemoved};

use crate::entries::Entry;
use crate::ids::Ids;
use crate::moves::{even, move_all, move_tail, put};
use crate::pool::Pool;
use crate::steps::{Ledger, Steps};
use planar_geom::{BBox, NoMemory};
use std::marker::Model;

/// The most that a node holds.
pub(crate) const MOST: usize = 16;
/// The least that a node other than the root holds.
pub(crate) const LEAST: usize = 8;
/// The most that a node holds before it is halved.
pub(crate) const ROOM: usize = 17;

/// An entry, or a node with its first entry and the least box round its entries.
#[cycle(node)]
#[derive(Drop)]
pub(crate) struct Slot {
    first: Entry,
    bounds: BBox,
    below: Option<Node>,
}

/// A node: entries in a leaf, whose height is 1, and nodes of one height less above.
#[cycle(node)]
#[derive(Drop)]
pub(crate) struct Node {
    height: usize,
    slots: Vec<Slot>,
}

impl Model for Node {
    ghost use Rattle.rtree.specs.Subtrees.{Subtree};

    ghost Value = { Subtree };

    ghost use Rattle.std.specs.Prelude.{vec_capacity};
    ghost use Rattle.rtree.specs.Slots.{subtree, IsNode};

    ghost view = { λ n. subtree n.height n.slots.items };

    ghost invariant = { λ n. IsNode n.height n.slots.items (vec_capacity n.slots) };

    ghost size = { λ n. n.height };

    ghost use Rattle.rtree.specs.Falls.{no_deeper};
    ghost use Rattle.std.proofs.Common.{arith};

    ghost size_decreases = { λ n h. omega (arith, no_deeper n.height n.slots.items h.each) };
}

impl Slot {
    ghost use Rattle.rtree.specs.Slots.{IsSlot};

    // The slot of an entry.
    fn of(entry: Entry) -> Slot
        ensures slot { IsSlot 1 result }
        ensures first { result.first ≡ entry }
        ensures below { result.below ≡ None }
    {
        Slot {
            first: entry,
            bounds: entry.bounds(),
            below: None,
        }
    }

    /// The first entry, or the one entry.
    pub(crate) fn first(&self) -> &Entry
        ensures { result.now ≡ self.now.first }
    {
        &self.first
    }

    /// The box round all entries.
    pub(crate) fn bounds(&self) -> BBox
        ensures { result ≡ self.now.bounds }
    {
        self.bounds
    }

    /// The node, where it is not one entry.
    pub(crate) fn below(&self) -> Option<&Node>
        ensures { MatchOption result (self.now.below ≡ None) (λ n. self.now.below ≡ Some n.now) }
    {
        self.below.as_ref()
    }
}

impl Node {
    ghost use Rattle.rtree.specs.Slots.{IsSlot, all_entries, all_nodes};

    /// A leaf of one entry.
    pub(crate) fn leaf(mut slots: Vec<Slot>, entry: Entry) -> Node
        requires empty { slots.items ≡ [] }
        requires roomy { 17 ≤ vec_capacity slots }
        ensures entries { result.entries ≡ entry ∷ [] }
        ensures nodes { result.nodes ≡ 1 }
        ensures root { IsRoot result }
    {
        slots.push_reserved(Slot::of(entry));
        Node { height: 1, slots }
    }

    /// A node over two others.
    pub(crate) fn over<L: Ledger>(
        mut slots: Vec<Slot>,
        low: Node,
        high: Node,
        steps: &mut Steps<L>,
    ) -> Node
        requires empty { slots.items ≡ [] }
        requires roomy { 17 ≤ vec_capacity slots }
        requires halves { IsHalved low (Some high) }
        requires ordered { IsOrdered (low.entries ++ high.entries) }
        requires fits { low.height + 1 < 2 ^ 64 }
        ensures entries { result.entries ≡ low.entries ++ high.entries }
        ensures height { result.height ≡ low.height + 1 }
        ensures nodes { result.nodes ≡ low.nodes + high.nodes + 1 }
        ensures root { IsRoot result }
        ensures cost { steps.new.count ≤ steps.old.count + 2 }
    {
        let height = low.height + 1;
        slots.push_reserved(low.into_slot(steps));
        slots.push_reserved(high.into_slot(steps));
        Node { height, slots }
    }

    /// The slots.
    pub(crate) fn slots(&self) -> &[Slot]
        ensures each { All (IsSlot self.now.height) result.now }
        ensures entries { self.now.entries ≡ all_entries result.now }
        ensures nodes { self.now.nodes ≡ all_nodes result.now + 1 }
    {
        self.slots.as_slice()
    }

    // How many slots the node has.
    fn width(&self) -> usize
        ensures { result ≡ self.now.width }
    {
        self.slots.len()
    }

    // The first entry, and the least box round all.
    fn summary<L: Ledger>(&self, steps: &mut Steps<L>) -> (Entry, BBox)
        requires { 1 ≤ self.now.width }
        ensures begins { self.now.entries ≡ result.0 ∷ drop 1 self.now.entries }
        ensures covers { All (λ p. IsInside result.1 p.bounds) self.now.entries }
        ensures full { 8 ≤ self.now.width → self.now.width ≤ 16 → IsFull self.now }
        ensures cost { steps.new.count ≤ steps.old.count + 1 }
    {
        steps.tick();
        let first = &self.slots[0];
        let mut bounds = first.bounds;
        for slot in &self.slots {
            bounds = bounds.with_box(slot.bounds);
        }
        (first.first, bounds)
    }

    // The same after an entry was taken out, where `around` held the entries before: a box that touched
    // no edge leaves the box round all as it was.
    fn summary_without<L: Ledger>(
        &self,
        entry: &Entry,
        around: BBox,
        steps: &mut Steps<L>,
    ) -> (Entry, BBox)
        requires some { 1 ≤ self.now.width }
        requires held { All (λ p. IsInside around p.bounds) self.now.entries }
        ensures begins { self.now.entries ≡ result.0 ∷ drop 1 self.now.entries }
        ensures covers { All (λ p. IsInside result.1 p.bounds) self.now.entries }
        ensures full { 8 ≤ self.now.width → self.now.width ≤ 16 → IsFull self.now }
        ensures cost { steps.new.count ≤ steps.old.count + 1 }
    {
        if touches_edge(around, entry.bounds()) {
            return self.summary(steps);
        }
        (self.slots[0].first, around)
    }

    fn into_slot<L: Ledger>(self, steps: &mut Steps<L>) -> Slot
        requires least { 8 ≤ self.width }
        requires most { self.width ≤ 16 }
        ensures slot { IsSlot (self.height + 1) result }
        ensures below { result.below ≡ Some self }
        ensures cost { steps.new.count ≤ steps.old.count + 1 }
    {
        let (first, bounds) = self.summary(steps);
        Slot {
            first,
            bounds,
            below: Some(self),
        }
    }

    // Hands out the upper half where there are too many slots.
    fn halve(&mut self, pool: &mut Pool) -> Option<Node>
        requires spare { 17 ≤ self.old.width → 1 ≤ pool.old.spare }
        requires most { self.old.width ≤ 17 }
        ensures halved { IsHalved self.new result }
        ensures height { self.new.height ≡ self.old.height }
        ensures width { min 8 self.old.width ≤ self.new.width }
        ensures entries { self.new.entries ++ entries_of result ≡ self.old.entries }
        ensures lists { pool.new.spare + (self.new.nodes + nodes_of result) ≡ pool.old.spare + self.old.nodes }
        ensures few_nodes { IsSplitFull self.new result }
        ensures ordered { IsOrdered self.old.entries }
        ensures room { pool.new.room ≡ pool.old.room }
        ensures full { 8 ≤ self.new.width → self.new.width ≤ 16 → IsFull self.new }
        ensures root { 1 ≤ self.new.width → (1 < self.new.height → 2 ≤ self.new.width) → IsRoot self.new }
    {
        if self.slots.len() <= MOST {
            return None;
        }
        let mut upper = pool.take();
        let keep = self.slots.len() / 2;
        move_tail(&mut self.slots, keep, &mut upper);
        Some(Node {
            height: self.height,
            slots: upper,
        })
    }

    // Takes in what the node behind holds, or hands that node back where it is too much for one: the one
    // that has too little then gets its neighbour's nearest.
    fn join(&mut self, mut other: Node, pool: &mut Pool) -> Option<Node>
        requires level { self.old.height ≡ other.height }
        requires least { 7 ≤ self.old.width }
        requires most { self.old.width ≤ 16 }
        requires other_least { 7 ≤ other.width }
        requires other_most { other.width ≤ 16 }
        requires ordered { IsOrdered (self.old.entries ++ other.entries) }
        requires room { pool.old.spare < pool.old.room }
        ensures halved { IsHalved self.new result }
        ensures height { self.new.height ≡ self.old.height }
        ensures width { 8 ≤ self.new.width }
        ensures entries { self.new.entries ++ entries_of result ≡ self.old.entries ++ other.entries }
        ensures lists { pool.new.spare + (self.new.nodes + nodes_of result)
            ≡ pool.old.spare + (self.old.nodes + other.nodes) }
        ensures room { pool.new.room ≡ pool.old.room }
    {
        if self.slots.len() + other.slots.len() <= MOST {
            let Node {
                slots: mut emptied,
                ..
            } = other;
            move_all(&mut emptied, &mut self.slots);
            pool.give(emptied);
            return None;
        }
        even(&mut self.slots, &mut other.slots, LEAST);
        Some(other)
    }

    /// Puts an entry in its place, and hands out the upper half where the node was full.
    pub(crate) fn insert<L: Ledger>(
        &mut self,
        entry: Entry,
        pool: &mut Pool,
        steps: &mut Steps<L>,
    ) -> Option<Node>
        requires least { 1 ≤ self.old.width }
        requires most { self.old.width ≤ 16 }
        requires spare { length self.old.entries + 3 ≤ 7 * (pool.old.spare + self.old.nodes) + min self.old.width 8 }
        ensures halved { IsHalved self.new result }
        ensures height { self.new.height ≡ self.old.height }
        ensures width { min 8 self.old.width ≤ self.new.width }
        ensures entries { IsPut entry self.old.entries (self.new.entries ++ entries_of result) }
        ensures lists { pool.new.spare + (self.new.nodes + nodes_of result) ≡ pool.old.spare + self.old.nodes }
        ensures ordered { IsOrdered (self.new.entries ++ entries_of result) }
        ensures few_nodes { IsSplitFull self.new result }
        ensures room { pool.new.room ≡ pool.old.room }
        ensures full { 8 ≤ self.new.width → self.new.width ≤ 16 → IsFull self.new }
        ensures root { 1 ≤ self.new.width → (1 < self.new.height → 2 ≤ self.new.width) → IsRoot self.new }
        ensures cost { steps.new.count ≤ steps.old.count + 3 * self.old.height }
    {
        steps.tick();
        let place = place_for(self.slots.as_slice(), &entry);
        if self.height == 1 {
            put(&mut self.slots, place, Slot::of(entry));
            return self.halve(pool);
        }
        let at = place.saturating_sub(1);
        let slot = &mut self.slots[at];
        let child = slot.below.as_mut()?;
        let Some(upper) = child.insert(entry, pool, steps) else {
            slot.first = entry.earlier(slot.first);
            slot.bounds = slot.bounds.with_box(entry.bounds());
            return None;
        };
        let (least, around) = child.summary(steps);
        slot.first = least;
        slot.bounds = around;
        put(&mut self.slots, at + 1, upper.into_slot(steps));
        self.halve(pool)
    }

    /// Takes one entry out that equals the given one; false exactly where there is none.
    pub(crate) fn remove<L: Ledger>(
        &mut self,
        entry: &Entry,
        pool: &mut Pool,
        steps: &mut Steps<L>,
    ) -> bool
        requires least { 1 ≤ self.old.width }
        requires two { 1 < self.old.height → 2 ≤ self.old.width }
        requires most { self.old.width ≤ 16 }
        requires room { pool.old.spare + self.old.nodes ≤ pool.old.room }
        ensures removed { IsRemoved result entry.now self.old self.new }
        ensures height { self.new.height ≡ self.old.height }
        ensures width { self.old.width ≤ self.new.width + 1 }
        ensures no_wider { self.new.width ≤ self.old.width }
        ensures lists { pool.new.spare + self.new.nodes ≡ pool.old.spare + self.old.nodes }
        ensures room { pool.new.room ≡ pool.old.room }
        ensures cost { steps.new.count ≤ steps.old.count + 5 * self.old.height }
    {
        steps.tick();
        let place = place_for(self.slots.as_slice(), entry);
        if place == 0 {
            return false;
        }
        let at = place - 1;
        if self.height == 1 {
            if self.slots[at].first.is_before(entry) {
                return false;
            }
            let _ = self.slots.remove(at);
            return true;
        }
        let slot = &mut self.slots[at];
        let Some(child) = slot.below.as_mut() else {
            unreachable!()
        };
        if !child.remove(entry, pool, steps) {
            return false;
        }
        let (first, bounds) = child.summary_without(entry, slot.bounds, steps);
        let width = child.width();
        slot.first = first;
        slot.bounds = bounds;
        if width >= LEAST {
            return true;
        }
        mend(&mut self.slots, at, pool, steps);
        true
    }

    /// The root that is left of a root: none where it holds nothing, and the one node below it where it
    /// holds no other.
    pub(crate) fn settled(self, pool: &mut Pool) -> Option<Node>
        requires some { 1 < self.height → 1 ≤ self.width }
        requires most { self.width ≤ 16 }
        requires room { pool.old.spare + self.nodes ≤ pool.old.room }
        ensures root { IfSome result IsRoot }
        ensures entries { entries_of result ≡ self.entries }
        ensures lists { pool.new.spare + nodes_of result ≡ pool.old.spare + self.nodes }
        ensures room { pool.new.room ≡ pool.old.room }
    {
        let Node { height, mut slots } = self;
        if slots.len() >= least_of_root(height) {
            return Some(Node { height, slots });
        }
        let only = slots.pop();
        pool.give(slots);
        only?.below
    }

    /// Appends the numbers of the entries whose box meets `b`.
    pub(crate) fn search<L: Ledger>(
        &self,
        b: &BBox,
        into: &mut Ids,
        steps: &mut Steps<L>,
    ) -> Result<(), NoMemory>
        requires most { self.now.width ≤ 16 }
        ensures ok { OnOk result (into.new ≡ into.old ++ ids_meeting b.now self.now.entries) }
        ensures err { OnErr result (IsPart into.old into.new (ids_meeting b.now self.now.entries)) }
        ensures one { min (steps.old.count + 1) (2 ^ 64 - 1) ≤ steps.new.count }
        ensures later { steps.old.count ≤ steps.new.count }
        ensures enough { IsRead (length into.old) (length into.new) steps.old.count steps.new.count }
    {
        steps.tick();
        for slot in &self.slots {
            if slot.bounds.meets(*b) {
                match &slot.below {
                    None => into.push(slot.first.id())?,
                    Some(child) => child.search(b, into, steps)?,
                }
            }
        }
        Ok(())
    }
}

// Whether a box that stands in another reaches one of its edges.
fn touches_edge(outer: BBox, inner: BBox) -> bool {
    inner.min().x() <= outer.min().x()
        || inner.min().y() <= outer.min().y()
        || outer.max().x() <= inner.max().x()
        || outer.max().y() <= inner.max().y()
}

// The least that a root holds.
fn least_of_root(height: usize) -> usize
    ensures above { 1 < height → result ≡ 2 }
    ensures leaf { height ≤ 1 → result ≡ 1 }
{
    if height > 1 { 2 } else { 1 }
}

ghost use Rattle.rtree.specs.Slots.{IsPlaceFor, IsThinAt, IsThinPair, slots_of, all_entries, all_nodes, IsSlot};

// How many slots begin with an entry that is not after the given one.
fn place_for(slots: &[Slot], entry: &Entry) -> usize
    ensures { IsPlaceFor slots.now entry.now result }
{
    let mut low = 0;
    let mut high = slots.len();
    while low < high {
        let middle = low + (high - low) / 2;
        if entry.is_before(&slots[middle].first) {
            high = middle;
        } else {
            low = middle + 1;
        }
    }
    low
}

// The place of a slot, or that before it where no other slot stands behind.
fn first_of_two(at: usize, len: usize) -> usize
    requires within { at < len }
    requires two { 2 ≤ len }
    ensures place { (result ≡ at) ⊎ (result + 1 ≡ at) }
    ensures pair { result + 1 < len }
{
    if at + 1 < len { at } else { at - 1 }
}

// Brings the node at a slot, which has lost a slot too many, together with a neighbour.
fn mend<L: Ledger>(slots: &mut Vec<Slot>, at: usize, pool: &mut Pool, steps: &mut Steps<L>)
    requires thin { (height : ℕ) × IsThinAt height slots.old.items at }
    requires room { pool.old.spare < pool.old.room }
    ensures slots { (height : ℕ) → IsThinAt height slots.old.items at → All (IsSlot height) slots.new.items }
    ensures entries { all_entries slots.new.items ≡ all_entries slots.old.items }
    ensures width { vec_len slots.old ≤ vec_len slots.new + 1 }
    ensures no_wider { vec_len slots.new ≤ vec_len slots.old }
    ensures capacity { vec_capacity slots.old ≤ vec_capacity slots.new }
    ensures lists { pool.new.spare + all_nodes slots.new.items ≡ pool.old.spare + all_nodes slots.old.items }
    ensures room { pool.new.room ≡ pool.old.room }
    ensures cost { steps.new.count ≤ steps.old.count + 3 }
{
    let left = first_of_two(at, slots.len());
    let high = slots.remove(left + 1);
    let low = slots.remove(left);
    let (low, high) = merged(low, high, pool, steps);
    put(slots, left, low);
    if let Some(high) = high {
        put(slots, left + 1, high);
    }
}

// The nodes of two slots together: one node of both, where there is room, or two halves.
fn merged<L: Ledger>(
    low: Slot,
    high: Slot,
    pool: &mut Pool,
    steps: &mut Steps<L>,
) -> (Slot, Option<Slot>)
    requires pair { (height : ℕ) × IsThinPair height low high }
    requires room { pool.old.spare < pool.old.room }
    ensures slots { (height : ℕ) → IsThinPair height low high → All (IsSlot height) (slots_of result.0 result.1) }
    ensures entries { all_entries (slots_of result.0 result.1) ≡ all_entries (low ∷ high ∷ []) }
    ensures lists { pool.new.spare + all_nodes (slots_of result.0 result.1)
        ≡ pool.old.spare + all_nodes (low ∷ high ∷ []) }
    ensures room { pool.new.room ≡ pool.old.room }
    ensures cost { steps.new.count ≤ steps.old.count + 3 }
{
    steps.tick();
    let Some(mut node) = low.below else {
        unreachable!()
    };
    let Some(other) = high.below else {
        unreachable!()
    };
    let upper = node.join(other, pool);
    let low = node.into_slot(steps);
    match upper {
        None => (low, None),
        Some(upper) => (low, Some(upper.into_slot(steps))),
    }
}
