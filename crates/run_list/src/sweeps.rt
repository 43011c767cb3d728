//! Numbers that fail a test, taken out in one pass.

ghost use Rattle.std.specs.Prelude.{◌≡◌, ◌≤◌, ◌+◌, length, map, filter, vec_len, vec_capacity};
ghost use Rattle.run_list.specs.Runs.{flat, AreFilled, AreEmpty};

use crate::ends::{before, recount};
use crate::large::LargeList;
use crate::runs::Run;
use crate::searches::Before;
use crate::walks::keep;

impl LargeList {
    /// Keeps the numbers that pass a test, in their order. Taking out the others is room for as many.
    pub(crate) fn retain<B: Before>(&mut self, test: &B)
        ensures items { self.new.items ≡ filter (B.before test.now) self.old.items }
        ensures spare { self.new.spare + length self.new.items ≡ self.old.spare + length self.old.items }
    {
        retain_in_runs(&mut self.runs, test);
        store_empty(&mut self.runs, &mut self.spares);
        recount(self.runs.as_slice(), &mut self.ends, 0);
        self.len = before(self.ends.as_slice(), self.runs.len());
    }
}

// Keeps the numbers that pass a test, in each run.
fn retain_in_runs<B: Before>(runs: &mut Vec<Run>, test: &B)
    ensures runs { runs.new.items ≡ map (λ run. filter (B.before test.now) run) runs.old.items }
    ensures len { vec_len runs.new ≡ vec_len runs.old }
    ensures places { vec_capacity runs.new ≡ vec_capacity runs.old }
{
    for run in runs.iter_mut() {
        run.retain(test);
    }
}

// Empty runs go to the store.
fn store_empty(runs: &mut Vec<Run>, spares: &mut Vec<Run>)
    requires empty { AreEmpty spares.old.items }
    requires stores { vec_len runs.old + vec_len spares.old ≤ vec_capacity spares.old }
    ensures numbers { flat runs.new.items ≡ flat runs.old.items }
    ensures filled { AreFilled runs.new.items }
    ensures empty { AreEmpty spares.new.items }
    ensures owned { vec_len runs.new + vec_len spares.new ≡ vec_len runs.old + vec_len spares.old }
    ensures places { vec_capacity runs.new ≡ vec_capacity runs.old }
    ensures stores { vec_capacity spares.new ≡ vec_capacity spares.old }
{
    let mut k = 0;
    while k < runs.len() {
        if runs[k].len() > 0 {
            k += 1;
        } else {
            keep(spares, runs.remove(k));
        }
    }
}
