//! Boxes in a tree, each beside a number, and how many there are.

ghost use Rattle.std.specs.Prelude.{◌≡◌, ◌+◌, ◌-◌, ◌≤◌, ◌^◌, ◌++◌, ℕ, [], true, min, length, OnOk};
ghost use Rattle.std.specs.List.{sum_by};
ghost use Rattle.rtree.specs.Pairs.{Pair, ids_meeting};
ghost use Rattle.rtree.specs.Ledgers.{IsRead};
ghost use Rattle.fence_index.specs.Held.{Fits, weight_of};

use byte_text::NoMemory;
use planar_geom::BBox;
use rtree::{Ids, Ledger, NoLedger, Steps, Tree};
use std::alloc::Global;
use std::marker::Model;

/// Boxes, each beside a number, with room for more that was taken beforehand.
#[derive(Drop)]
pub(crate) struct BoxSet {
    tree: Tree,
    len: usize,
}

impl Model for BoxSet {
    ghost use Rattle.std.specs.Prelude.{◌≡◌, ◌-◌, ◌^◌, min, length};
    ghost use Rattle.fence_index.specs.Held.{Held};

    ghost Value = { Held };

    ghost view = { λ s. record { pairs = s.tree.pairs; spare = min s.tree.spare (2 ^ 64 - 1 - s.len) } };

    ghost invariant = { λ s. s.len ≡ length s.tree.pairs };
}

impl BoxSet {
    /// No box, and no room. Room is taken from `alloc`.
    pub(crate) fn new(alloc: Global) -> BoxSet
        ensures { result.pairs ≡ [] }
    {
        BoxSet {
            tree: Tree::new(alloc),
            len: 0,
        }
    }

    /// Takes room for one more box, where one is to come. The boxes stay, and no room is lost.
    pub(crate) fn reserve(&mut self, b: Option<BBox>) -> Result<(), NoMemory>
        ensures pairs { self.new.pairs ≡ self.old.pairs }
        ensures room { OnOk result (Fits b self.new.spare) }
        ensures kept { self.old.spare ≤ self.new.spare }
    {
        if b.is_none() {
            return Ok(());
        }
        if self.len == usize::MAX {
            return Err(NoMemory);
        }
        match self.tree.reserve(1) {
            Ok(()) => Ok(()),
            Err(_) => Err(NoMemory),
        }
    }

    /// Puts a box beside a number, where there is one. It takes no memory.
    pub(crate) fn put(&mut self, b: Option<BBox>, number: usize)
        requires { Fits b self.old.spare }
        ensures { (w : Pair → ℕ) → sum_by w self.new.pairs ≡ sum_by w self.old.pairs + weight_of w b number }
    {
        if let Some(b) = b {
            self.tree.insert(b, number, &mut Steps::new(NoLedger));
            self.len += 1;
        }
    }

    /// Takes out a box beside a number, where there is one: it stands here then. It is room for another.
    pub(crate) fn take(&mut self, b: Option<BBox>, number: usize)
        requires { (w : Pair → ℕ) → weight_of w b number ≤ sum_by w self.old.pairs }
        ensures pairs { (w : Pair → ℕ) → sum_by w self.new.pairs + weight_of w b number ≡ sum_by w self.old.pairs }
        ensures kept { self.old.spare ≤ self.new.spare }
    {
        if let Some(b) = b {
            if self.tree.remove(b, number, &mut Steps::new(NoLedger)) {
                self.len -= 1;
            }
        }
    }

    /// Whether there is no box.
    pub(crate) fn is_empty(&self) -> bool
        ensures none { result ≡ true → self.now.pairs ≡ [] }
        ensures some { self.now.pairs ≡ [] → result ≡ true }
    {
        self.len == 0
    }

    /// Appends the numbers of exactly the boxes that meet `b`. For want of memory some of them are appended.
    pub(crate) fn search<L: Ledger>(
        &self,
        b: &BBox,
        into: &mut Ids,
        steps: &mut Steps<L>,
    ) -> Result<(), NoMemory>
        ensures found { OnOk result (into.new ≡ into.old ++ ids_meeting b.now self.now.pairs) }
        ensures longer { length into.old ≤ length into.new }
        ensures read { IsRead (length into.old) (length into.new) steps.old.count steps.new.count }
    {
        match self.tree.search(b, into, steps) {
            Ok(()) => Ok(()),
            Err(_) => Err(NoMemory),
        }
    }
}
