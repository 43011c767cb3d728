//! What a walk by distance has met and not given yet, the nearest first.

ghost use Rattle.std.proofs.Common.{rules};
ghost use Rattle.std.specs.Cmp.{partial_order_from_own_ties};
ghost use Rattle.std.specs.Cmp.Rules.{comparing};
ghost use Rattle.std.specs.Ordering.{nat_cmp, on, flip_args, as_partial_cmp};
ghost use Rattle.std.specs.Prelude.{◌==◌};

use crate::entries::Entry;
use crate::nodes::Node;
use std::cmp::Ordering;

/// An entry, or a node with all below it.
#[derive(Drop)]
pub(crate) enum Met<'a> {
    One(&'a Entry),
    Below(&'a Node),
}

/// What was met, and a squared distance at most that of each entry of it.
#[derive(Drop)]
pub(crate) struct Waiting<'a> {
    pub(crate) distance: u64,
    pub(crate) met: Met<'a>,
}

impl<'a> PartialEq for Waiting<'a> {
    ghost eq = { on (λ w. w.distance) ◌==◌ };

    ghost laws = { Prim.search (comparing, rules) };

    fn eq(&self, other: &Waiting<'a>) -> bool {
        self.distance == other.distance
    }
}

impl<'a> Eq for Waiting<'a> {
    ghost laws = { Prim.search (comparing, rules) };
}

impl<'a> PartialOrd for Waiting<'a> {
    ghost partial_cmp = { as_partial_cmp (flip_args (on (λ w. w.distance) nat_cmp)) };

    ghost laws = { partial_order_from_own_ties (Prim.search (comparing, rules)) (Prim.search (comparing, rules)) };

    fn partial_cmp(&self, other: &Waiting<'a>) -> Option<Ordering> {
        Some(self.cmp(other))
    }
}

// The nearest is the greatest, which a heap gives first.
impl<'a> Ord for Waiting<'a> {
    ghost cmp = { flip_args (on (λ w. w.distance) nat_cmp) };

    ghost total = { Prim.search (comparing, rules) };

    ghost matches_partial_cmp = { Prim.search (comparing, rules) };

    ghost matches_eq = { Prim.search (comparing, rules) };

    fn cmp(&self, other: &Waiting<'a>) -> Ordering {
        other.distance.cmp(&self.distance)
    }
}
