//! The requests that one turn carries.

ghost use Rattle.std.specs.Prelude.{◌≡◌, ◌<◌, ◌≤◌, ◌↔◌, [], ◌∷◌, ◌++◌, length, drop, slice_get, Some, IfErr, OnOk};
ghost use Rattle.std.specs.Prelude.{OnErr, IsTrue};

use crate::events::Asked;
use std::alloc::Global;
use std::marker::Model;

/// The most requests of one turn.
pub const MOST_ASKED: usize = 64;

/// Requests that wait for their calls.
#[derive(Drop)]
pub struct AskedList {
    list: Vec<Asked>,
    start: usize,
}

impl Model for AskedList {
    ghost use Rattle.std.specs.Prelude.{List, drop, length, ◌≤◌};
    ghost use Rattle.world_model.specs.declared.events.Asked.{Asked};

    ghost Value = { List Asked };

    ghost view = { λ a. drop a.start a.list.items };

    ghost invariant = { λ a. a.start ≤ length a.list.items };
}

impl AskedList {
    /// No request yet. What is pushed takes its memory from `alloc`.
    pub fn new(alloc: Global) -> AskedList
        ensures { result ≡ [] }
    {
        AskedList {
            list: Vec::new(alloc),
            start: 0,
        }
    }

    /// How many requests wait.
    pub fn len(&self) -> usize
        ensures { result ≡ length self.now }
    {
        self.list.len() - self.start
    }

    /// The request at a place, counted from 0.
    pub fn at(&self, i: usize) -> &Asked
        requires { i < length self.now }
        ensures { slice_get self.now i ≡ Some result.now }
    {
        &self.list[self.start + i]
    }

    /// Puts a request last. For want of memory the list stays as it was.
    pub fn push(&mut self, item: Asked) -> Result<(), Asked>
        ensures ok { OnOk result (self.new ≡ self.old ++ item ∷ []) }
        ensures err { OnErr result (self.new ≡ self.old) }
        ensures back { IfErr result (λ back. back ≡ item) }
    {
        match self.list.push(item) {
            Ok(()) => Ok(()),
            Err(full) => Err(full.value),
        }
    }

    /// Lets the first `count` requests go.
    pub fn pass(&mut self, count: usize)
        requires { count ≤ length self.old }
        ensures { self.new ≡ drop count self.old }
    {
        self.start += count;
    }

    /// Lets all requests go.
    pub fn clear(&mut self)
        ensures { self.new ≡ [] }
    {
        self.start = 0;
        self.list.clear();
    }
}
