//! Lists of roaming pairs.

ghost use Rattle.std.specs.Prelude.{◌≡◌, ◌<◌, ◌++◌, ◌∷◌, [], length, slice_get, IfSome, OnOk, OnErr};

use byte_text::{Name, NoMemory};
use std::alloc::Global;
use std::marker::Model;

/// The ids of the objects that one object came near to (true) or went away from (false), in order.
#[derive(Drop)]
pub struct RoamList {
    list: Vec<(Name, bool)>,
}

impl Model for RoamList {
    ghost use Rattle.std.specs.Prelude.{List, ℕ, Bool};

    ghost Value = { List (List ℕ × Bool) };

    ghost view = { λ r. r.list.items };
}

impl RoamList {
    /// No pair yet. What is pushed takes its memory from `alloc`.
    pub fn new(alloc: Global) -> RoamList
        ensures { result ≡ [] }
    {
        RoamList {
            list: Vec::new(alloc),
        }
    }

    /// How many pairs there are.
    pub fn len(&self) -> usize
        ensures { result ≡ length self.now }
    {
        self.list.len()
    }

    /// The id of the other object of the pair at a place, counted from 0.
    pub fn id(&self, i: usize) -> &Name
        requires { i < length self.now }
        ensures { IfSome (slice_get self.now i) (λ p. result.now ≡ p.0) }
    {
        &self.list[i].0
    }

    /// Whether the objects of the pair at a place are near now.
    pub fn is_near(&self, i: usize) -> bool
        requires { i < length self.now }
        ensures { IfSome (slice_get self.now i) (λ p. result ≡ p.1) }
    {
        self.list[i].1
    }

    // Puts a pair last. For want of memory the list is as before.
    pub(crate) fn push(&mut self, id: Name, near: bool) -> Result<(), NoMemory>
        ensures ok { OnOk result (self.new ≡ self.old ++ (id, near) ∷ []) }
        ensures err { OnErr result (self.new ≡ self.old) }
    {
        match self.list.push((id, near)) {
            Ok(()) => Ok(()),
            Err(_) => Err(NoMemory),
        }
    }
}
