//! Empty nodes that wait for use, so that an insertion takes no memory.
//!
//! Lists wait here until an insertion needs one, so that it takes no memory. Room is counted by the bound on nodes
//! (seven times the nodes are at most the pairs and six): each list is room for seven pairs, and none waits for the
//! depth of the tree.

ghost use Rattle.std.specs.Prelude.{◌≡◌, ◌≤◌, ◌<◌, ◌+◌, [], IsOk, OnOk, OnErr, vec_capacity};

use crate::nodes::{ROOM, Slot};
use planar_geom::NoMemory;
use std::alloc::Global;
use std::marker::Model;

/// Empty lists, each with room for all that a node ever holds.
#[derive(Drop)]
pub(crate) struct Pool {
    alloc: Global,
    lists: Vec<Vec<Slot>>,
}

impl Model for Pool {
    ghost use Rattle.std.specs.Prelude.{◌≡◌, ◌≤◌, [], All, vec_len, vec_capacity};
    ghost use Rattle.rtree.specs.Subtrees.{Stock};

    ghost Value = { Stock };

    ghost view = { λ p. record { spare = vec_len p.lists; room = vec_capacity p.lists } };

    ghost invariant = { λ p. All (λ l. (l.items ≡ []) × (17 ≤ vec_capacity l)) p.lists.items };
}

impl Pool {
    /// No list, and no room for any.
    pub(crate) fn new(alloc: Global) -> Pool
        ensures { result.spare ≡ 0 }
    {
        Pool {
            alloc,
            lists: Vec::new(alloc),
        }
    }

    pub(crate) fn allocator(&self) -> Global {
        self.alloc
    }

    /// Takes one list out.
    pub(crate) fn take(&mut self) -> Vec<Slot>
        requires { 1 ≤ self.old.spare }
        ensures empty { result.items ≡ [] }
        ensures roomy { 17 ≤ vec_capacity result }
        ensures spare { self.new.spare + 1 ≡ self.old.spare }
        ensures room { self.new.room ≡ self.old.room }
    {
        match self.lists.pop() {
            Some(list) => list,
            None => Vec::new(self.alloc),
        }
    }

    /// Gives an empty list back.
    pub(crate) fn give(&mut self, list: Vec<Slot>)
        requires room { self.old.spare < self.old.room }
        requires empty { list.items ≡ [] }
        requires roomy { 17 ≤ vec_capacity list }
        ensures spare { self.new.spare ≡ self.old.spare + 1 }
        ensures room { self.new.room ≡ self.old.room }
    {
        self.lists.push_reserved(list);
    }

    /// Makes room for so many lists, in the pool and outside of it.
    pub(crate) fn reserve(&mut self, extra: usize) -> Result<(), NoMemory>
        ensures spare { self.new.spare ≡ self.old.spare }
        ensures room { OnOk result (self.new.spare + extra ≤ self.new.room) }
        ensures kept { self.old.room ≤ self.new.room }
    {
        self.lists.reserve(extra)?;
        Ok(())
    }

    /// Makes one more list.
    pub(crate) fn add(&mut self) -> Result<(), NoMemory>
        requires { self.old.spare < self.old.room }
        ensures ok { OnOk result (self.new.spare ≡ self.old.spare + 1) }
        ensures err { OnErr result (self.new ≡ self.old) }
        ensures room { self.new.room ≡ self.old.room }
    {
        let list = Vec::with_capacity(self.alloc, ROOM)?;
        self.lists.push_reserved(list);
        Ok(())
    }
}
