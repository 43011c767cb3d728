//! The numbers of a list, one after the other.

ghost use Rattle.std.specs.Prelude.{◌≡◌, ◌≤◌, length, drop};
ghost use Rattle.std.specs.Iterator.{YieldsFirst, item_count};

use crate::lists::RunList;
use std::marker::Model;

/// The numbers of a list from a place on, seen as the list of those that are left. Each is a look, but for the first of
/// a run, which is found by halving.
#[derive(Drop)]
pub struct Numbers<'a> {
    list: &'a RunList,
    // Those that come next, side by side.
    run: &'a [usize],
    // The place behind them.
    next: usize,
}

impl<'a> Model for Numbers<'a> {
    ghost use Rattle.std.specs.Prelude.{◌≤◌, ◌++◌, List, ℕ, length, drop};

    ghost Value = { List ℕ };

    ghost view = { λ n. n.run.now ++ drop n.next n.list.now.items };

    ghost invariant = { λ n. n.next ≤ length n.list.now.items };
}

impl RunList {
    /// The numbers from a place on, from the front to the back.
    pub fn numbers_from(&self, i: usize) -> Numbers<'_>
        requires { i ≤ length self.now.items }
        ensures { result ≡ drop i self.now.items }
    {
        Numbers {
            list: self,
            run: &[],
            next: i,
        }
    }
}

impl<'a> Iterator for Numbers<'a> {
    type Item = usize;

    ghost next_gives = { YieldsFirst (λ s. s) };

    ghost remaining = { item_count (λ s. s) };

    fn next(&mut self) -> Option<usize> {
        if self.run.is_empty() {
            if self.next >= self.list.len() {
                return None;
            }
            self.run = self.list.run_at(self.next);
            self.next += self.run.len();
        }
        let (first, others) = self.run.split_first()?;
        self.run = others;
        Some(*first)
    }
}
