//! A tree of boxes: a balanced tree in one order, with the least box of each subtree on the way up.
//!
//! Pairs stand in one total order: by the place of a box's centre on a Hilbert curve, then by the box, then by the
//! number. So each pair has one place, removing finds it on one path, and the bound on visited nodes follows from the
//! depth. Nothing that is proved depends on the curve: it keeps the boxes of neighbours small. Pairs at one distance
//! come in no particular order, all in one answer. A pair's number is of the machine's size: beside the place on the
//! curve, which fills 8 bytes, it takes no more memory than 32 bits would.

ghost use Rattle.std.specs.Prelude.{◌≡◌, ◌≤◌, ◌<◌, ◌+◌, ◌-◌, ◌*◌, ◌^◌, ◌++◌, ◌⊎◌, min, [], true, false, length, OnOk};
ghost use Rattle.std.specs.Prelude.{OnErr, IfSome, MatchOption, None, Some, if◌then◌else◌};
ghost use Rattle.rtree.specs.Pairs.{pair, IsWith, IsTaken, IsPart, ids_meeting};
ghost use Rattle.rtree.specs.Ledgers.{IsRead};
ghost use Rattle.rtree.specs.Subtrees.{entries_of, nodes_of, IsRoot};

use crate::entries::Entry;
use crate::ids::Ids;
use crate::nodes::Node;
use crate::pool::Pool;
use crate::steps::{Ledger, Steps};
use planar_geom::{BBox, NoMemory};
use std::alloc::Global;
use std::marker::Model;

/// Pairs of a box and a number, each as often as it was added.
pub struct Tree {
    root: Option<Node>,
    pool: Pool,
    // How many pairs there are.
    len: usize,
    // How many lists there are, in the pool and in nodes.
    lists: usize,
}

impl Drop for Tree {
    fn drop(self) {
        let Tree {
            root: _,
            pool: _,
            len: _,
            lists: _,
        } = self;
    }
}

/// For how many pairs each list is counted on: a node other than the root holds one more at least, and the
/// pairs above are as many as make up for the nodes above leaves.
const PAIRS_A_LIST: usize = 7;

impl Model for Tree {
    ghost use Rattle.rtree.specs.Trees.{Seen, seen, IsTree};

    ghost Value = { Seen };

    ghost view = { λ t. seen t.root t.len t.lists };

    ghost invariant = { λ t. IsTree t.root t.pool t.len t.lists };
}

impl Tree {
    /// No pair yet. What is reserved takes its memory from `alloc`.
    pub fn new(alloc: Global) -> Tree
        ensures pairs { result.pairs ≡ [] }
        ensures spare { result.spare ≡ 0 }
        ensures depth { result.depth ≡ 0 }
    {
        Tree {
            root: None,
            pool: Pool::new(alloc),
            len: 0,
            lists: 0,
        }
    }

    /// Makes room for at least `extra` more pairs.
    pub fn reserve(&mut self, extra: usize) -> Result<(), NoMemory>
        ensures spare { OnOk result (extra ≤ self.new.spare) }
        ensures kept { self.old.spare ≤ self.new.spare }
        ensures pairs { self.new.pairs ≡ self.old.pairs }
        ensures depth { self.new.depth ≡ self.old.depth }
    {
        let Some(pairs) = self.len.checked_add(extra) else {
            return Err(NoMemory);
        };
        let Some(rounded) = pairs.checked_add(PAIRS_A_LIST) else {
            return Err(NoMemory);
        };
        let wanted = rounded / PAIRS_A_LIST;
        self.pool.reserve(wanted)?;
        while self.lists < wanted {
            self.pool.add()?;
            self.lists += 1;
        }
        Ok(())
    }

    /// Adds a pair, for which there is room, so that one less fits then. It visits at most
    /// 40 times one node more than there are levels.
    pub fn insert<L: Ledger>(&mut self, b: BBox, id: usize, steps: &mut Steps<L>)
        requires { 1 ≤ self.old.spare }
        ensures pairs { IsWith (pair b id) self.old.pairs self.new.pairs }
        ensures spare { self.new.spare + 1 ≡ self.old.spare }
        ensures levels { 2 ^ self.old.depth ≤ 2 * length self.old.pairs + 1 }
        ensures cost { steps.new.count ≤ steps.old.count + 40 * (self.old.depth + 1) }
    {
        let entry = Entry::of(b, id);
        self.len += 1;
        let root = match self.root.take() {
            None => Node::leaf(self.pool.take(), entry),
            Some(root) => grown(root, entry, &mut self.pool, steps),
        };
        self.root = Some(root);
    }

    /// Takes one such pair out; false exactly where there is none, and all is then as before. It visits at
    /// most 40 times one node more than there are levels.
    pub fn remove<L: Ledger>(&mut self, b: BBox, id: usize, steps: &mut Steps<L>) -> bool
        ensures taken { IsTaken result (pair b id) self.old.pairs self.new.pairs }
        ensures spare { self.new.spare ≡ (if result then self.old.spare + 1 else self.old.spare) }
        ensures levels { 2 ^ self.old.depth ≤ 2 * length self.old.pairs + 1 }
        ensures cost { steps.new.count ≤ steps.old.count + 40 * (self.old.depth + 1) }
    {
        let Some(root) = self.root.take() else {
            return false;
        };
        let (root, removed) = shrunk(root, &Entry::of(b, id), &mut self.pool, steps);
        self.root = root;
        if removed {
            self.len -= 1;
        }
        removed
    }

    /// Appends the numbers of exactly the pairs whose box meets `b`. Where memory wants, some of them
    /// stand behind the old ones. It visits the node over all others, and enough nodes to hold what it
    /// appends, at most 16 pairs each.
    pub fn search<L: Ledger>(
        &self,
        b: &BBox,
        into: &mut Ids,
        steps: &mut Steps<L>,
    ) -> Result<(), NoMemory>
        ensures ok { OnOk result (into.new ≡ into.old ++ ids_meeting b.now self.now.pairs) }
        ensures err { OnErr result (IsPart into.old into.new (ids_meeting b.now self.now.pairs)) }
        ensures root { self.now.pairs ≡ [] ⊎ min (steps.old.count + 1) (2 ^ 64 - 1) ≤ steps.new.count }
        ensures enough { IsRead (length into.old) (length into.new) steps.old.count steps.new.count }
    {
        match &self.root {
            None => Ok(()),
            Some(root) => root.search(b, into, steps),
        }
    }
}

// A root with an entry more.
fn grown<L: Ledger>(mut root: Node, entry: Entry, pool: &mut Pool, steps: &mut Steps<L>) -> Node
    requires root { IsRoot root }
    requires spare { length root.entries + 2 ≤ 7 * (pool.old.spare + root.nodes) }
    requires fits { root.height + 1 < 2 ^ 64 }
    ensures root { IsRoot result }
    ensures entries { IsWith entry root.entries result.entries }
    ensures lists { pool.new.spare + result.nodes ≡ pool.old.spare + root.nodes }
    ensures room { pool.new.room ≡ pool.old.room }
    ensures cost { steps.new.count ≤ steps.old.count + (3 * root.height + 2) }
{
    match root.insert(entry, pool, steps) {
        None => root,
        Some(upper) => Node::over(pool.take(), root, upper, steps),
    }
}

// What is left of a root without such an entry, and whether there was one.
fn shrunk<L: Ledger>(
    mut root: Node,
    entry: &Entry,
    pool: &mut Pool,
    steps: &mut Steps<L>,
) -> (Option<Node>, bool)
    requires root { IsRoot root }
    requires room { pool.old.spare + root.nodes ≤ pool.old.room }
    ensures root { IfSome result.0 IsRoot }
    ensures taken { IsTaken result.1 entry.now root.entries (entries_of result.0) }
    ensures lists { pool.new.spare + nodes_of result.0 ≡ pool.old.spare + root.nodes }
    ensures room { pool.new.room ≡ pool.old.room }
    ensures same { result.1 ≡ false → result.0 ≡ Some root }
    ensures cost { steps.new.count ≤ steps.old.count + 5 * root.height }
{
    if root.remove(entry, pool, steps) {
        (root.settled(pool), true)
    } else {
        (Some(root), false)
    }
}

impl Tree {
    /// The node over all others, where there is any pair.
    pub(crate) fn root(&self) -> Option<&Node>
        ensures { MatchOption result (self.now.pairs ≡ []) (λ n. n.now.entries ≡ self.now.pairs) }
    {
        self.root.as_ref()
    }

    /// What the tree takes its memory from.
    pub(crate) fn allocator(&self) -> Global {
        self.pool.allocator()
    }
}
