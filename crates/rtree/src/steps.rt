//! The count of nodes that are visited, and what keeps it at run time.
//!
//! A step is a visit of a node. Each function that visits one ticks at its head: the node itself, the neighbour at a
//! join, a summary after a change, a node that a walk opens. Helpers that go on with the same node do not tick again. A
//! ledger of visits is told of each visit and of nothing else, and a count goes on from what its ledger was told
//! before, for which the ledger is asked once.

ghost use Rattle.std.specs.Prelude.{◌≡◌, ◌+◌, ◌-◌, ◌^◌, min, unwrap_or, Some, None};
ghost use Rattle.rtree.specs.Ledgers.{Tells};

/// What is told of each node that is visited.
pub trait Ledger {
    ghost use Rattle.std.specs.Prelude.{ℕ, Option};
    ghost use Rattle.rtree.specs.Ledgers.{told_more};

    // Of how many visits it was told, up to the greatest u64, where it keeps that.
    ghost told: { Self → Option ℕ };

    /// Of how many visits it was told, where it keeps that.
    fn visits(&self) -> Option<u64>
        ensures { result ≡ told self.now };

    /// A node is visited.
    fn visit(&mut self)
        ensures { told self.new ≡ told_more (told self.old) };
}

/// Keeps nothing.
#[derive(Clone, Copy, Drop)]
pub struct NoLedger;

impl Ledger for NoLedger {
    ghost told = { λ l. None };

    fn visits(&self) -> Option<u64> {
        None
    }

    fn visit(&mut self) {}
}

/// Counts the visits, up to the greatest u64.
#[derive(Drop)]
pub struct Visits {
    count: u64,
}

impl Visits {
    /// No visit yet.
    pub fn new() -> Visits
        ensures { result.count ≡ 0 }
    {
        Visits { count: 0 }
    }

    /// The number of visits so far.
    pub fn count(&self) -> u64
        ensures { result ≡ self.now.count }
    {
        self.count
    }
}

impl Ledger for Visits {
    ghost told = { λ v. Some v.count };

    fn visits(&self) -> Option<u64> {
        Some(self.count)
    }

    fn visit(&mut self) {
        self.count = self.count.saturating_add(1);
    }
}

/// A count of nodes visited, up to the greatest u64, and a ledger that is told of each of them and of
/// nothing else. The count begins at what the ledger was told before, so that the two stay equal where
/// the ledger keeps a count.
#[derive(Drop)]
pub struct Steps<L: Ledger> {
    count: u64,
    ledger: L,
    ghost told: { Tells (L.told ledger) count },
}

impl<L: Ledger> Steps<L> {
    /// Goes on from what the ledger was told before, or from 0 where it does not keep that.
    pub fn new(ledger: L) -> Steps<L>
        ensures count { result.count ≡ unwrap_or (L.told ledger) 0 }
        ensures ledger { result.ledger ≡ ledger }
    {
        let count = ledger.visits().unwrap_or(0);
        Steps { count, ledger }
    }

    /// The ledger.
    pub fn ledger(&self) -> &L
        ensures ledger { result.now ≡ self.now.ledger }
        ensures told { Tells (L.told result.now) self.now.count }
    {
        &self.ledger
    }

    /// One more node is visited.
    pub(crate) fn tick(&mut self)
        ensures { self.new.count ≡ min (self.old.count + 1) (2 ^ 64 - 1) }
    {
        self.count = self.count.saturating_add(1);
        self.ledger.visit();
    }
}
