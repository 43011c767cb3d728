//! Changes in the order of their log, each where it was read.

ghost use Rattle.std.specs.Prelude.{◌≡◌, [], ◌++◌, ◌<◌, Some, length, slice_get, option_map, OnOk};

use byte_text::NoMemory;
use std::alloc::Global;
use std::marker::Model;
use world_data::Change;

/// Changes in order, which stand elsewhere.
#[derive(Drop)]
pub(crate) struct InOrder<'a> {
    changes: Vec<&'a Change>,
}

impl<'a> Model for InOrder<'a> {
    ghost use Rattle.std.specs.Prelude.{List, map};
    ghost use Rattle.world_data.specs.declared.worlds.Change.{Change};

    ghost Value = { List Change };

    ghost view = { λ c. map (λ change. change.now) c.changes.items };
}

impl<'a> InOrder<'a> {
    /// No change yet. It takes no memory; what is appended takes it from `alloc`.
    pub(crate) fn new(alloc: Global) -> InOrder<'a>
        ensures { result ≡ [] }
    {
        InOrder {
            changes: Vec::new(alloc),
        }
    }

    /// How many there are.
    pub(crate) fn len(&self) -> usize
        ensures { result ≡ length self.now }
    {
        self.changes.len()
    }

    /// The one that stands there, counted from 0.
    pub(crate) fn at(&self, place: usize) -> &'a Change
        requires { place < length self.now }
        ensures { slice_get self.now place ≡ Some result.now }
    {
        self.changes[place]
    }

    /// The one that stands there, if one does.
    pub(crate) fn get(&self, place: usize) -> Option<&'a Change>
        ensures { option_map (λ change. change.now) result ≡ slice_get self.now place }
    {
        if place < self.changes.len() {
            Some(self.changes[place])
        } else {
            None
        }
    }

    /// Puts others last. For want of memory some of them may be there, behind those that were.
    pub(crate) fn append(&mut self, others: &'a [Change]) -> Result<(), NoMemory>
        ensures { OnOk result (self.new ≡ self.old ++ others.now) }
    {
        for change in others {
            self.changes.push(change)?;
        }
        Ok(())
    }
}
