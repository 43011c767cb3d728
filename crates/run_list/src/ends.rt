//! How many numbers stand before the ends of runs.

ghost use Rattle.std.specs.Prelude.{◌≡◌, ◌<◌, ◌≤◌, ◌+◌, ◌-◌, ℕ, length, slice_index, slice_index_or, vec_len};
ghost use Rattle.std.specs.Prelude.{vec_capacity};
ghost use Rattle.run_list.specs.Runs.{flat, start, AreEnds, IsShifted};

use crate::runs::Run;

/// Counts anew before the ends of the runs from one on.
pub(crate) fn recount(runs: &[Run], ends: &mut Vec<usize>, from: usize)
    requires within { from ≤ length runs.now }
    requires kept_within { from ≤ vec_len ends.old }
    requires kept { (k : ℕ) (d : ℕ) → k < from → slice_index_or ends.old.items k d ≡ start runs.now (k + 1) }
    requires room { length runs.now ≤ vec_capacity ends.old }
    requires fits { length (flat runs.now) ≤ 4294967295 }
    ensures ends { AreEnds runs.now ends.new.items }
    ensures capacity { vec_capacity ends.new ≡ vec_capacity ends.old }
{
    let mut count = before(ends.as_slice(), from);
    ends.truncate(from);
    for k in from..runs.len() {
        let run = &runs[k];
        count += run.len();
        ends.push_reserved(count);
    }
}

/// One number more stands before the end of each run from one on.
pub(crate) fn raise(ends: &mut Vec<usize>, from: usize)
    requires { (k : ℕ) (d : ℕ) → k < vec_len ends.old → slice_index_or ends.old.items k d < 4294967295 }
    ensures ends { IsShifted 0 1 ends.old.items ends.new.items from (vec_len ends.old) }
    ensures capacity { vec_capacity ends.new ≡ vec_capacity ends.old }
{
    for k in from..ends.len() {
        ends[k] += 1;
    }
}

/// One number fewer stands before the end of each run from one on.
pub(crate) fn lower(ends: &mut Vec<usize>, from: usize)
    requires { (k : ℕ) (d : ℕ) → from ≤ k → k < vec_len ends.old → 0 < slice_index_or ends.old.items k d }
    ensures ends { IsShifted 1 0 ends.old.items ends.new.items from (vec_len ends.old) }
    ensures capacity { vec_capacity ends.new ≡ vec_capacity ends.old }
{
    for k in from..ends.len() {
        ends[k] -= 1;
    }
}

/// How many numbers stand before a run.
pub(crate) fn before(ends: &[usize], k: usize) -> usize
    requires { k ≤ length ends.now }
    ensures none { k ≡ 0 → result ≡ 0 }
    ensures some { 0 < k → result ≡ slice_index ends.now (k - 1) }
{
    if k == 0 {
        return 0;
    }
    ends[k - 1]
}

/// How many runs end at a place or before it.
pub(crate) fn runs_up_to(ends: &[usize], i: usize) -> usize
    ensures within { result ≤ length ends.now }
    ensures front { 0 < result → slice_index ends.now (result - 1) ≤ i }
    ensures behind { result < length ends.now → i < slice_index ends.now result }
{
    let mut low = 0;
    let mut high = ends.len();
    while low < high {
        let middle = low + (high - low) / 2;
        if ends[middle] <= i {
            low = middle + 1;
        } else {
            high = middle;
        }
    }
    low
}
