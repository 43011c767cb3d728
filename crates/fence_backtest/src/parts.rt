//! The changes of a log in the parts in which they were read: none of them is moved, and they are let go side by side.

ghost use Rattle.std.specs.Prelude.{◌≡◌, IfOk, flat_map};

use crate::changes::Changes;
use crate::in_order::InOrder;
use byte_text::NoMemory;
use rayon::prelude::*;
use std::alloc::Global;
use std::marker::Model;
use std::thread::Threads;

/// The changes of a log, in order, part by part.
#[derive(Drop)]
pub(crate) struct Parts {
    parts: Vec<Changes>,
}

impl Model for Parts {
    ghost use Rattle.std.specs.Prelude.{List, flat_map};
    ghost use Rattle.world_data.specs.declared.worlds.Change.{Change};

    ghost Value = { List Change };

    ghost view = { λ p. flat_map (λ part. part) p.parts.items };
}

impl Parts {
    /// These parts, one behind another.
    pub(crate) fn of(parts: Vec<Changes>) -> Parts
        ensures { result ≡ flat_map (λ part. part) parts.items }
    {
        Parts { parts }
    }

    /// One part.
    pub(crate) fn one(alloc: Global, changes: Changes) -> Result<Parts, NoMemory>
        ensures { IfOk result (λ parts. parts ≡ changes) }
    {
        let mut parts = Vec::new(alloc);
        match parts.push(changes) {
            Ok(()) => Ok(Parts { parts }),
            Err(full) => {
                drop(full);
                Err(NoMemory)
            }
        }
    }

    /// The changes, one behind another.
    pub(crate) fn in_order(&self, alloc: Global) -> Result<InOrder, NoMemory>
        ensures { IfOk result (λ changes. changes ≡ self.now) }
    {
        let mut changes = InOrder::new(alloc);
        for part in &self.parts {
            changes.append(part.as_slice())?;
        }
        Ok(changes)
    }

    /// Lets the changes go, side by side: each has memory of its own, and there are many.
    pub(crate) fn let_go<R: Threads + Sync>(self, rt: &R) {
        let Parts { parts } = self;
        parts
            .into_par_iter()
            .for_each(rt, |part: Changes| { drop(part) });
    }
}
