//! A list of numbers.

ghost use Rattle.std.specs.Prelude.{◌≡◌, ◌<◌, ◌≤◌, ◌+◌, ◌-◌, ◌++◌, [], true, not, length, take, drop, filter};
ghost use Rattle.std.specs.Prelude.{slice_index, OnOk};
ghost use Rattle.std.specs.List.{insert, remove, list_all};
ghost use Rattle.run_list.specs.Runs.{is_cut};

use crate::large::LargeList;
use crate::runs::{MOST, cut_out, retain_numbers};
use crate::searches::{Before, place_among};
use byte_text::NoMemory;
use std::alloc::Global;
use std::marker::Model;

/// A list of numbers, with room for more that was taken beforehand. A few numbers stand side by side, and many in runs.
pub struct RunList {
    alloc: Global,
    // A few numbers, while there were never many.
    few: Vec<usize>,
    many: Option<LargeList>,
}

impl Drop for RunList {
    fn drop(self) {
        let RunList {
            alloc: _,
            few: _,
            many: _,
        } = self;
    }
}

impl Model for RunList {
    ghost use Rattle.std.specs.Prelude.{◌≤◌, vec_len, vec_capacity};
    ghost use Rattle.run_list.specs.Runs.{Sequence, seen};

    ghost Value = { Sequence };

    ghost view = { λ l. seen l.few.items (vec_capacity l.few) l.many };

    ghost invariant = { λ l. vec_len l.few ≤ 1024 };
}

impl RunList {
    /// No number, and no room. Room is taken from `alloc`.
    pub fn new(alloc: Global) -> RunList
        ensures items { result.items ≡ [] }
        ensures room { result.spare ≡ 0 }
    {
        RunList {
            alloc,
            few: Vec::new(alloc),
            many: None,
        }
    }

    /// How many numbers there are.
    pub fn len(&self) -> usize
        ensures count { result ≡ length self.now.items }
        ensures most { length self.now.items ≤ 4294967295 }
    {
        match &self.many {
            None => self.few.len(),
            Some(many) => many.len(),
        }
    }

    /// Takes room for so many numbers more. The numbers stay, and no room is lost. Where this was called before each
    /// insert, an insert takes steps in the root of the number of all. NoMemory also where there would be room for more
    /// than 4,294,966,272 numbers.
    pub fn reserve(&mut self, extra: usize) -> Result<(), NoMemory>
        ensures items { self.new.items ≡ self.old.items }
        ensures room { OnOk result (extra ≤ self.new.spare) }
        ensures kept { self.old.spare ≤ self.new.spare }
    {
        if let Some(many) = &mut self.many {
            return many.reserve(extra);
        }
        if extra <= MOST - self.few.len() {
            self.few.reserve(extra)?;
            return Ok(());
        }
        self.many = Some(LargeList::of(self.alloc, self.few.as_slice(), extra)?);
        self.few = Vec::new(self.alloc);
        Ok(())
    }

    /// The number at a place.
    pub fn at(&self, i: usize) -> usize
        requires { i < length self.now.items }
        ensures { result ≡ slice_index self.now.items i }
    {
        match &self.many {
            None => self.few[i],
            Some(many) => many.at(i),
        }
    }

    /// The number at a place and some behind it, side by side.
    pub fn run_at(&self, i: usize) -> &[usize]
        requires { i < length self.now.items }
        ensures some { 0 < length result.now }
        ensures within { i + length result.now ≤ length self.now.items }
        ensures numbers { result.now ≡ take (length result.now) (drop i self.now.items) }
    {
        match &self.many {
            None => &self.few[i..],
            Some(many) => many.run_at(i),
        }
    }

    /// How many numbers pass a test that those in front pass alone.
    pub fn place_of<B: Before>(&self, test: &B) -> usize
        requires { is_cut (B.before test.now) self.now.items ≡ true }
        ensures within { result ≤ length self.now.items }
        ensures front { list_all (B.before test.now) (take result self.now.items) ≡ true }
        ensures behind { list_all (λ x. not (B.before test.now x)) (drop result self.now.items) ≡ true }
    {
        match &self.many {
            None => place_among(self.few.as_slice(), test),
            Some(many) => many.place_of(test),
        }
    }

    /// Puts a number at a place, for which there is room. It takes no memory.
    pub fn insert(&mut self, i: usize, number: usize)
        requires within { i ≤ length self.old.items }
        requires room { 1 ≤ self.old.spare }
        ensures items { self.new.items ≡ insert self.old.items i number }
        ensures spare { self.new.spare + 1 ≡ self.old.spare }
    {
        if let Some(many) = &mut self.many {
            many.insert(i, number);
            return;
        }
        match self.few.insert(i, number) {
            Ok(()) => {}
            Err(_) => unreachable!(),
        }
    }

    /// Takes out the number at a place, which is room for another.
    pub fn remove(&mut self, i: usize) -> usize
        requires { i < length self.old.items }
        ensures items { self.new.items ≡ remove self.old.items i }
        ensures taken { result ≡ slice_index self.old.items i }
        ensures spare { self.new.spare ≡ self.old.spare + 1 }
    {
        if let Some(many) = &mut self.many {
            return many.remove(i);
        }
        self.few.remove(i)
    }

    /// Takes out all numbers from a place up to another, which is room for as many. Where that is many, whole runs are
    /// taken out.
    pub fn remove_between(&mut self, from: usize, to: usize)
        requires order { from ≤ to }
        requires within { to ≤ length self.old.items }
        ensures items { self.new.items ≡ take from self.old.items ++ drop to self.old.items }
        ensures spare { self.new.spare ≡ self.old.spare + (to - from) }
    {
        if let Some(many) = &mut self.many {
            many.remove_between(from, to);
            return;
        }
        cut_out(&mut self.few, from, to);
    }

    /// Keeps the numbers that pass a test, in their order. Taking out the others is room for as many.
    pub fn retain<B: Before>(&mut self, test: &B)
        ensures items { self.new.items ≡ filter (B.before test.now) self.old.items }
        ensures spare { self.new.spare + length self.new.items ≡ self.old.spare + length self.old.items }
    {
        match &mut self.many {
            None => retain_numbers(&mut self.few, test),
            Some(many) => many.retain(test),
        }
    }
}
