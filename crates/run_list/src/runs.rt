//! One run of a list: a few numbers side by side.

ghost use Rattle.std.specs.Prelude.{◌≡◌, ◌<◌, ◌≤◌, ◌+◌, ◌++◌, [], length, take, drop, filter, slice_index, vec_len};
ghost use Rattle.std.specs.Prelude.{vec_capacity, IfOk};
ghost use Rattle.std.specs.List.{insert, remove};

use crate::searches::Before;
use byte_text::NoMemory;
use std::alloc::Global;
use std::marker::Model;

/// The most numbers of a run.
pub(crate) const MOST: usize = 1024;

/// How many numbers stay in a full run that is cut in two, and the most numbers of two runs that are joined.
pub(crate) const HALF: usize = 512;

/// A few numbers, with room for all that a run may hold.
#[derive(Drop)]
pub(crate) struct Run {
    numbers: Vec<usize>,
}

impl Model for Run {
    ghost use Rattle.std.specs.Prelude.{◌≤◌, List, ℕ, vec_len, vec_capacity};

    ghost Value = { List ℕ };

    ghost view = { λ r. r.numbers.items };

    ghost invariant = { λ r. (vec_len r.numbers ≤ 1024) × (1024 ≤ vec_capacity r.numbers) };
}

impl Run {
    /// No number, and room for all that a run may hold.
    pub(crate) fn with_room(alloc: Global) -> Result<Run, NoMemory>
        ensures { IfOk result (λ r. r ≡ []) }
    {
        let numbers = Vec::with_capacity(alloc, MOST)?;
        Ok(Run { numbers })
    }

    /// How many numbers there are.
    pub(crate) fn len(&self) -> usize
        ensures count { result ≡ length self.now }
        ensures most { length self.now ≤ 1024 }
    {
        self.numbers.len()
    }

    /// The number at a place.
    pub(crate) fn at(&self, i: usize) -> usize
        requires { i < length self.now }
        ensures { result ≡ slice_index self.now i }
    {
        self.numbers[i]
    }

    /// All numbers.
    pub(crate) fn numbers(&self) -> &[usize]
        ensures { result.now ≡ self.now }
    {
        self.numbers.as_slice()
    }

    /// Puts a number at a place of a run that is not full.
    pub(crate) fn insert(&mut self, i: usize, number: usize)
        requires within { i ≤ length self.old }
        requires room { length self.old < 1024 }
        ensures { self.new ≡ insert self.old i number }
    {
        match self.numbers.insert(i, number) {
            Ok(()) => {}
            Err(_) => unreachable!(),
        }
    }

    /// Takes out the number at a place.
    pub(crate) fn remove(&mut self, i: usize) -> usize
        requires { i < length self.old }
        ensures numbers { self.new ≡ remove self.old i }
        ensures taken { result ≡ slice_index self.old i }
    {
        self.numbers.remove(i)
    }

    /// Takes all numbers out.
    pub(crate) fn clear(&mut self)
        ensures { self.new ≡ [] }
    {
        self.numbers.clear();
    }

    /// Keeps the numbers that pass a test.
    pub(crate) fn retain<B: Before>(&mut self, test: &B)
        ensures { self.new ≡ filter (B.before test.now) self.old }
    {
        retain_numbers(&mut self.numbers, test);
    }

    /// Moves what stands behind the first `keep` numbers to an empty run.
    pub(crate) fn move_tail(&mut self, keep: usize, to: &mut Run)
        requires within { keep ≤ length self.old }
        requires empty { to.old ≡ [] }
        ensures kept { self.new ≡ take keep self.old }
        ensures moved { to.new ≡ drop keep self.old }
    {
        match to.numbers.extend_from_slice(&self.numbers[keep..]) {
            Ok(()) => {}
            Err(_) => unreachable!(),
        }
        self.numbers.truncate(keep);
    }

    /// Moves all numbers of another run behind those of this one.
    pub(crate) fn append(&mut self, other: &mut Run)
        requires { length self.old + length other.old ≤ 1024 }
        ensures numbers { self.new ≡ self.old ++ other.old }
        ensures moved { other.new ≡ [] }
    {
        match self.numbers.append(&mut other.numbers) {
            Ok(()) => {}
            Err(_) => unreachable!(),
        }
    }

    /// Moves numbers from the front of another run behind those of this one, as many as there is room for.
    pub(crate) fn fill_from(&mut self, other: &mut Run)
        ensures numbers { self.new ++ other.new ≡ self.old ++ other.old }
        ensures kept { length self.old ≤ length self.new }
        ensures full { 0 < length other.new → length self.new ≡ 1024 }
    {
        let moved = other.numbers.len().min(MOST - self.numbers.len());
        match self.numbers.extend_from_slice(&other.numbers[..moved]) {
            Ok(()) => {}
            Err(_) => unreachable!(),
        }
        cut_out(&mut other.numbers, 0, moved);
    }

    /// Puts a number at a place of a full run, whose upper half goes to an empty one. A number that goes behind all
    /// goes there alone, so that runs are full where numbers come in order.
    pub(crate) fn insert_halving(&mut self, i: usize, number: usize, upper: &mut Run)
        requires within { i ≤ length self.old }
        requires full { length self.old ≡ 1024 }
        requires empty { upper.old ≡ [] }
        ensures numbers { self.new ++ upper.new ≡ insert self.old i number }
        ensures lower { 0 < length self.new }
        ensures upper { 0 < length upper.new }
    {
        if i == MOST {
            upper.insert(0, number);
            return;
        }
        self.move_tail(HALF, upper);
        if i <= HALF {
            self.insert(i, number);
        } else {
            upper.insert(i - HALF, number);
        }
    }
}

/// Takes out all numbers from a place up to another.
pub(crate) fn cut_out(numbers: &mut Vec<usize>, from: usize, to: usize)
    requires order { from ≤ to }
    requires within { to ≤ vec_len numbers.old }
    ensures numbers { numbers.new.items ≡ take from numbers.old.items ++ drop to numbers.old.items }
    ensures len { vec_len numbers.new ≤ vec_len numbers.old }
    ensures capacity { vec_capacity numbers.new ≡ vec_capacity numbers.old }
{
    drop(numbers.drain(from..to));
}

/// Keeps the numbers that pass a test, in their order.
pub(crate) fn retain_numbers<B: Before>(numbers: &mut Vec<usize>, test: &B)
    ensures numbers { numbers.new.items ≡ filter (B.before test.now) numbers.old.items }
    ensures len { vec_len numbers.new ≤ vec_len numbers.old }
    ensures capacity { vec_capacity numbers.new ≡ vec_capacity numbers.old }
{
    numbers.retain(|number| test.is_before(*number));
}
