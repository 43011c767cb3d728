//! Places in a list of runs.

ghost use Rattle.std.specs.Prelude.{◌≡◌, ◌<◌, ◌≤◌, ◌+◌, ◌-◌, ◌++◌, [], length, take, drop, slice_index, slice_index_or};
ghost use Rattle.std.specs.Prelude.{vec_len, vec_capacity};
ghost use Rattle.std.specs.List.{insert, remove};
ghost use Rattle.run_list.specs.Runs.{flat, start, AreEnds, AreFilled, AreEmpty, IsAt, IsGap};

use crate::ends::{before, lower, raise, recount, runs_up_to};
use crate::runs::{HALF, MOST, Run};

/// A run, by its place among the runs, and a place in it.
#[derive(Clone, Copy)]
pub(crate) struct Spot {
    pub(crate) run: usize,
    pub(crate) at: usize,
}

/// Where a place of the list is found, by the ends of its runs alone. The runs are those that the ends count.
pub(crate) fn find(ends: &[usize], runs: &[Run], i: usize) -> Spot
    requires ends { AreEnds runs.now ends.now }
    requires within { i < length (flat runs.now) }
    ensures { IsAt runs.now i result.run result.at }
{
    let run = runs_up_to(ends, i);
    Spot {
        run,
        at: i - before(ends, run),
    }
}

/// Where a place of the list is found, or where its end is. There are `len` numbers.
pub(crate) fn gap(ends: &[usize], runs: &[Run], i: usize, len: usize) -> Spot
    requires ends { AreEnds runs.now ends.now }
    requires some { 0 < length runs.now }
    requires within { i ≤ length (flat runs.now) }
    requires len { len ≡ length (flat runs.now) }
    ensures { IsGap runs.now i result.run result.at }
{
    if i < len {
        return find(ends, runs, i);
    }
    let last = runs.len() - 1;
    let run = &runs[last];
    Spot {
        run: last,
        at: run.len(),
    }
}

/// Puts a number at a place of a run that is not full.
pub(crate) fn put_in(runs: &mut Vec<Run>, ends: &mut Vec<usize>, spot: Spot, number: usize)
    requires within { spot.run < vec_len runs.old }
    requires inside { spot.at ≤ length (slice_index_or runs.old.items spot.run []) }
    requires room { length (slice_index_or runs.old.items spot.run []) < 1024 }
    requires filled { AreFilled runs.old.items }
    requires ends { AreEnds runs.old.items ends.old.items }
    requires fits { length (flat runs.old.items) < 4294967295 }
    ensures numbers { flat runs.new.items
        ≡ insert (flat runs.old.items) (start runs.old.items spot.run + spot.at) number }
    ensures filled { AreFilled runs.new.items }
    ensures ends { AreEnds runs.new.items ends.new.items }
    ensures len { vec_len runs.new ≡ vec_len runs.old }
    ensures places { vec_capacity runs.new ≡ vec_capacity runs.old }
    ensures marks { vec_capacity ends.new ≡ vec_capacity ends.old }
{
    let run = &mut runs[spot.run];
    run.insert(spot.at, number);
    raise(ends, spot.run);
}

/// Puts a number at a place, where there are room and an empty run for the upper half of a full one.
pub(crate) fn put(
    runs: &mut Vec<Run>,
    spares: &mut Vec<Run>,
    ends: &mut Vec<usize>,
    spot: Spot,
    number: usize,
)
    requires within { spot.run < vec_len runs.old }
    requires inside { spot.at ≤ length (slice_index_or runs.old.items spot.run []) }
    requires room { vec_len runs.old < vec_capacity runs.old }
    requires spare { 0 < vec_len spares.old }
    requires filled { AreFilled runs.old.items }
    requires empty { AreEmpty spares.old.items }
    requires ends { AreEnds runs.old.items ends.old.items }
    requires fits { length (flat runs.old.items) < 4294967295 }
    requires marks { vec_len runs.old < vec_capacity ends.old }
    ensures numbers { flat runs.new.items
        ≡ insert (flat runs.old.items) (start runs.old.items spot.run + spot.at) number }
    ensures filled { AreFilled runs.new.items }
    ensures empty { AreEmpty spares.new.items }
    ensures ends { AreEnds runs.new.items ends.new.items }
    ensures owned { vec_len runs.new + vec_len spares.new ≡ vec_len runs.old + vec_len spares.old }
    ensures places { vec_capacity runs.new ≡ vec_capacity runs.old }
    ensures stores { vec_capacity spares.new ≡ vec_capacity spares.old }
    ensures marks { vec_capacity ends.new ≡ vec_capacity ends.old }
{
    if runs[spot.run].len() < MOST {
        put_in(runs, ends, spot, number);
        return;
    }
    let mut upper = spares.take_last();
    let run = &mut runs[spot.run];
    run.insert_halving(spot.at, number, &mut upper);
    match runs.insert(spot.run + 1, upper) {
        Ok(()) => {}
        Err(_) => unreachable!(),
    }
    recount(runs.as_slice(), ends, spot.run);
}

/// Takes out the number at a place. A run that is empty then goes to the store, and one
/// that is small then is joined with its neighbours.
pub(crate) fn take_out(
    runs: &mut Vec<Run>,
    spares: &mut Vec<Run>,
    ends: &mut Vec<usize>,
    spot: Spot,
) -> usize
    requires within { spot.run < vec_len runs.old }
    requires inside { spot.at < length (slice_index_or runs.old.items spot.run []) }
    requires filled { AreFilled runs.old.items }
    requires empty { AreEmpty spares.old.items }
    requires ends { AreEnds runs.old.items ends.old.items }
    requires fits { length (flat runs.old.items) ≤ 4294967295 }
    requires marks { vec_len runs.old ≤ vec_capacity ends.old }
    requires store { vec_len runs.old + vec_len spares.old ≤ vec_capacity spares.old }
    ensures numbers { flat runs.new.items ≡ remove (flat runs.old.items) (start runs.old.items spot.run + spot.at) }
    ensures taken { result ≡ slice_index (flat runs.old.items) (start runs.old.items spot.run + spot.at) }
    ensures filled { AreFilled runs.new.items }
    ensures empty { AreEmpty spares.new.items }
    ensures ends { AreEnds runs.new.items ends.new.items }
    ensures owned { vec_len runs.new + vec_len spares.new ≡ vec_len runs.old + vec_len spares.old }
    ensures places { vec_capacity runs.new ≡ vec_capacity runs.old }
    ensures stores { vec_capacity spares.new ≡ vec_capacity spares.old }
    ensures marks { vec_capacity ends.new ≡ vec_capacity ends.old }
{
    let number = take_one(runs, spares, ends, spot);
    join(runs, spares, ends, spot.run);
    if spot.run > 0 {
        join(runs, spares, ends, spot.run - 1);
    }
    number
}

/// Takes out a run. It goes to the store.
pub(crate) fn take_run(runs: &mut Vec<Run>, spares: &mut Vec<Run>, ends: &mut Vec<usize>, k: usize)
    requires within { k < vec_len runs.old }
    requires filled { AreFilled runs.old.items }
    requires empty { AreEmpty spares.old.items }
    requires ends { AreEnds runs.old.items ends.old.items }
    requires fits { length (flat runs.old.items) ≤ 4294967295 }
    requires marks { vec_len runs.old ≤ vec_capacity ends.old }
    requires store { vec_len runs.old + vec_len spares.old ≤ vec_capacity spares.old }
    ensures numbers { flat runs.new.items
        ≡ take (start runs.old.items k) (flat runs.old.items) ++ drop
        (start runs.old.items k + length (slice_index_or runs.old.items k [])) (flat runs.old.items) }
    ensures filled { AreFilled runs.new.items }
    ensures empty { AreEmpty spares.new.items }
    ensures ends { AreEnds runs.new.items ends.new.items }
    ensures owned { vec_len runs.new + vec_len spares.new ≡ vec_len runs.old + vec_len spares.old }
    ensures places { vec_capacity runs.new ≡ vec_capacity runs.old }
    ensures stores { vec_capacity spares.new ≡ vec_capacity spares.old }
    ensures marks { vec_capacity ends.new ≡ vec_capacity ends.old }
{
    let mut run = runs.remove(k);
    run.clear();
    keep(spares, run);
    recount(runs.as_slice(), ends, k);
}

// Takes out the number at a place, and its run where that is empty then.
fn take_one(runs: &mut Vec<Run>, spares: &mut Vec<Run>, ends: &mut Vec<usize>, spot: Spot) -> usize
    requires within { spot.run < vec_len runs.old }
    requires inside { spot.at < length (slice_index_or runs.old.items spot.run []) }
    requires filled { AreFilled runs.old.items }
    requires empty { AreEmpty spares.old.items }
    requires ends { AreEnds runs.old.items ends.old.items }
    requires fits { length (flat runs.old.items) ≤ 4294967295 }
    requires marks { vec_len runs.old ≤ vec_capacity ends.old }
    requires store { vec_len runs.old + vec_len spares.old ≤ vec_capacity spares.old }
    ensures numbers { flat runs.new.items ≡ remove (flat runs.old.items) (start runs.old.items spot.run + spot.at) }
    ensures taken { result ≡ slice_index (flat runs.old.items) (start runs.old.items spot.run + spot.at) }
    ensures filled { AreFilled runs.new.items }
    ensures empty { AreEmpty spares.new.items }
    ensures ends { AreEnds runs.new.items ends.new.items }
    ensures owned { vec_len runs.new + vec_len spares.new ≡ vec_len runs.old + vec_len spares.old }
    ensures places { vec_capacity runs.new ≡ vec_capacity runs.old }
    ensures stores { vec_capacity spares.new ≡ vec_capacity spares.old }
    ensures marks { vec_capacity ends.new ≡ vec_capacity ends.old }
{
    let run = &mut runs[spot.run];
    let number = run.remove(spot.at);
    if run.len() > 0 {
        lower(ends, spot.run);
        return number;
    }
    keep(spares, runs.remove(spot.run));
    recount(runs.as_slice(), ends, spot.run);
    number
}

// Joins a run with the next one, where both are small.
fn join(runs: &mut Vec<Run>, spares: &mut Vec<Run>, ends: &mut Vec<usize>, k: usize)
    requires filled { AreFilled runs.old.items }
    requires empty { AreEmpty spares.old.items }
    requires ends { AreEnds runs.old.items ends.old.items }
    requires fits { length (flat runs.old.items) ≤ 4294967295 }
    requires marks { vec_len runs.old ≤ vec_capacity ends.old }
    requires store { vec_len runs.old + vec_len spares.old ≤ vec_capacity spares.old }
    ensures numbers { flat runs.new.items ≡ flat runs.old.items }
    ensures filled { AreFilled runs.new.items }
    ensures empty { AreEmpty spares.new.items }
    ensures ends { AreEnds runs.new.items ends.new.items }
    ensures owned { vec_len runs.new + vec_len spares.new ≡ vec_len runs.old + vec_len spares.old }
    ensures places { vec_capacity runs.new ≡ vec_capacity runs.old }
    ensures stores { vec_capacity spares.new ≡ vec_capacity spares.old }
    ensures marks { vec_capacity ends.new ≡ vec_capacity ends.old }
{
    let len = runs.len();
    if len < 2 || k > len - 2 {
        return;
    }
    if runs[k].len() + runs[k + 1].len() > HALF {
        return;
    }
    let mut upper = runs.remove(k + 1);
    let run = &mut runs[k];
    run.append(&mut upper);
    keep(spares, upper);
    recount(runs.as_slice(), ends, k);
}

/// Keeps an empty run, for which there is a place.
pub(crate) fn keep(spares: &mut Vec<Run>, run: Run)
    requires run { run ≡ [] }
    requires empty { AreEmpty spares.old.items }
    requires store { vec_len spares.old < vec_capacity spares.old }
    ensures empty { AreEmpty spares.new.items }
    ensures spares { vec_len spares.new ≡ vec_len spares.old + 1 }
    ensures stores { vec_capacity spares.new ≡ vec_capacity spares.old }
{
    spares.push_reserved(run);
}
