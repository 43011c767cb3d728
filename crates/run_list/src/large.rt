//! A list of many numbers.

ghost use Rattle.std.specs.Prelude.{◌≡◌, ◌<◌, ◌≤◌, ◌+◌, ◌-◌, ◌++◌, [], length, take, drop, slice_index, OnOk, OnErr};
ghost use Rattle.std.specs.Prelude.{IfOk};
ghost use Rattle.std.specs.List.{insert, remove};

use crate::runs::{MOST, Run};
use crate::store::{add_run, spare_one};
use crate::walks::{find, gap, put, put_in, take_out, take_run};
use byte_text::NoMemory;
use std::alloc::Global;
use std::marker::Model;

/// The most runs of a list. In all but one there is room for 4,294,966,272 numbers.
const MOST_RUNS: usize = 4_194_304;

/// A list of many numbers, with room for more that was taken beforehand.
pub(crate) struct LargeList {
    alloc: Global,
    pub(crate) runs: Vec<Run>,
    // Empty runs.
    pub(crate) spares: Vec<Run>,
    // How many numbers stand before the end of each run.
    pub(crate) ends: Vec<usize>,
    pub(crate) len: usize,
}

impl Drop for LargeList {
    fn drop(self) {
        let LargeList {
            alloc: _,
            runs: _,
            spares: _,
            ends: _,
            len: _,
        } = self;
    }
}

impl Model for LargeList {
    ghost use Rattle.std.specs.Prelude.{◌+◌, vec_len, vec_capacity};
    ghost use Rattle.run_list.specs.Runs.{Sequence, IsList, flat, room_of};

    ghost Value = { Sequence };

    ghost view = { λ l. record {
      items = flat l.runs.items;
      spare = room_of (vec_len l.runs + vec_len l.spares) l.len;
    } };

    ghost invariant = { λ l. IsList l.runs.items l.spares.items l.ends.items l.len (vec_capacity l.runs)
        (vec_capacity l.spares) (vec_capacity l.ends) };
}

impl LargeList {
    /// No number, with memory for one run.
    pub(crate) fn new(alloc: Global) -> Result<LargeList, NoMemory>
        ensures { IfOk result (λ l. l.items ≡ []) }
    {
        let mut runs = Vec::new(alloc);
        let mut spares = Vec::new(alloc);
        let mut ends = Vec::new(alloc);
        add_run(alloc, &mut runs, &mut spares, &mut ends)?;
        Ok(LargeList {
            alloc,
            runs,
            spares,
            ends,
            len: 0,
        })
    }

    /// These numbers, with room for `extra` more.
    pub(crate) fn of(alloc: Global, numbers: &[usize], extra: usize) -> Result<LargeList, NoMemory>
        requires { length numbers.now ≤ 1024 }
        ensures items { IfOk result (λ l. l.items ≡ numbers.now) }
        ensures room { IfOk result (λ l. extra ≤ l.spare) }
    {
        let mut list = LargeList::new(alloc)?;
        if extra > MOST * MOST_RUNS {
            return Err(NoMemory);
        }
        list.reserve(numbers.len() + extra)?;
        list.fill(numbers);
        Ok(list)
    }

    // Puts numbers behind all, for which there is room.
    fn fill(&mut self, numbers: &[usize])
        requires { length numbers.now ≤ self.old.spare }
        ensures items { self.new.items ≡ self.old.items ++ numbers.now }
        ensures spare { self.new.spare + length numbers.now ≡ self.old.spare }
    {
        for number in numbers {
            let end = self.len();
            self.insert(end, *number);
        }
    }

    /// How many numbers there are.
    pub(crate) fn len(&self) -> usize
        ensures count { result ≡ length self.now.items }
        ensures most { length self.now.items ≤ 4294967295 }
    {
        self.len
    }

    /// Takes room for so many numbers more, and for a run in store. The numbers stay, and no room is lost. NoMemory
    /// also where there would be room for more than 4,294,966,272 numbers.
    pub(crate) fn reserve(&mut self, extra: usize) -> Result<(), NoMemory>
        ensures items { self.new.items ≡ self.old.items }
        ensures room { OnOk result (extra ≤ self.new.spare) }
        ensures kept { self.old.spare ≤ self.new.spare }
    {
        if self.spares.is_empty() {
            self.add_run()?;
        }
        while self.room() < extra {
            self.add_run()?;
        }
        Ok(())
    }

    // For how many numbers more there is room.
    fn room(&self) -> usize
        ensures { result ≡ self.now.spare }
    {
        (self.runs.len() + self.spares.len() - 1) * MOST - self.len
    }

    // Takes memory for one more run.
    fn add_run(&mut self) -> Result<(), NoMemory>
        ensures items { self.new.items ≡ self.old.items }
        ensures more { OnOk result (self.new.spare ≡ self.old.spare + 1024) }
        ensures err { OnErr result (self.new.spare ≡ self.old.spare) }
    {
        if self.runs.len() + self.spares.len() >= MOST_RUNS {
            return Err(NoMemory);
        }
        add_run(self.alloc, &mut self.runs, &mut self.spares, &mut self.ends)
    }

    /// The number at a place.
    pub(crate) fn at(&self, i: usize) -> usize
        requires { i < length self.now.items }
        ensures { result ≡ slice_index self.now.items i }
    {
        let spot = find(self.ends.as_slice(), self.runs.as_slice(), i);
        let run = &self.runs[spot.run];
        run.at(spot.at)
    }

    /// The number at a place and some behind it, side by side.
    pub(crate) fn run_at(&self, i: usize) -> &[usize]
        requires { i < length self.now.items }
        ensures some { 0 < length result.now }
        ensures within { i + length result.now ≤ length self.now.items }
        ensures numbers { result.now ≡ take (length result.now) (drop i self.now.items) }
    {
        let spot = find(self.ends.as_slice(), self.runs.as_slice(), i);
        let run = &self.runs[spot.run];
        &run.numbers()[spot.at..]
    }

    /// Puts a number at a place, for which there is room. It takes no memory. Without a run in store it may take steps
    /// in the number of all, where the run is full.
    pub(crate) fn insert(&mut self, i: usize, number: usize)
        requires within { i ≤ length self.old.items }
        requires room { 1 ≤ self.old.spare }
        ensures items { self.new.items ≡ insert self.old.items i number }
        ensures spare { self.new.spare + 1 ≡ self.old.spare }
    {
        if self.runs.is_empty() {
            let mut run = self.spares.take_last();
            run.insert(0, number);
            self.runs.push_reserved(run);
            self.ends.push_reserved(1);
            self.len = 1;
            return;
        }
        let spot = gap(self.ends.as_slice(), self.runs.as_slice(), i, self.len);
        if self.runs[spot.run].len() < MOST {
            put_in(&mut self.runs, &mut self.ends, spot, number);
            self.len += 1;
            return;
        }
        spare_one(&mut self.runs, &mut self.spares, &mut self.ends);
        let spot = gap(self.ends.as_slice(), self.runs.as_slice(), i, self.len);
        put(
            &mut self.runs,
            &mut self.spares,
            &mut self.ends,
            spot,
            number,
        );
        self.len += 1;
    }

    /// Takes out the number at a place, which is room for another.
    pub(crate) fn remove(&mut self, i: usize) -> usize
        requires { i < length self.old.items }
        ensures items { self.new.items ≡ remove self.old.items i }
        ensures taken { result ≡ slice_index self.old.items i }
        ensures spare { self.new.spare ≡ self.old.spare + 1 }
    {
        let spot = find(self.ends.as_slice(), self.runs.as_slice(), i);
        self.len -= 1;
        take_out(&mut self.runs, &mut self.spares, &mut self.ends, spot)
    }

    /// Takes out all numbers from a place up to another, which is room for as many. Where that is many, whole runs are
    /// taken out.
    pub(crate) fn remove_between(&mut self, from: usize, to: usize)
        requires order { from ≤ to }
        requires within { to ≤ length self.old.items }
        ensures items { self.new.items ≡ take from self.old.items ++ drop to self.old.items }
        ensures spare { self.new.spare ≡ self.old.spare + (to - from) }
    {
        let mut left = to - from;
        while left > 0 {
            left -= self.remove_some(from, left);
        }
    }

    // Takes out the number at a place, or all of its run, where that begins there and is not longer than `most`. Tells
    // how many numbers that were.
    fn remove_some(&mut self, i: usize, most: usize) -> usize
        requires some { 0 < most }
        requires within { i + most ≤ length self.old.items }
        ensures items { self.new.items ≡ take i self.old.items ++ drop (i + result) self.old.items }
        ensures some { 0 < result }
        ensures most { result ≤ most }
        ensures spare { self.new.spare ≡ self.old.spare + result }
    {
        let spot = find(self.ends.as_slice(), self.runs.as_slice(), i);
        let run = &self.runs[spot.run];
        let len = run.len();
        if spot.at > 0 || len > most {
            let _ = self.remove(i);
            return 1;
        }
        self.len -= len;
        take_run(&mut self.runs, &mut self.spares, &mut self.ends, spot.run);
        len
    }
}
