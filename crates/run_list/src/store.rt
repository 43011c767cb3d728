//! Runs in store: more of them, and packing for one.

ghost use Rattle.std.specs.Prelude.{◌≡◌, ◌<◌, ◌≤◌, ◌+◌, ◌*◌, true, false, length, slice_index_or, [], vec_len};
ghost use Rattle.std.specs.Prelude.{vec_capacity, OnOk, OnErr};
ghost use Rattle.run_list.specs.Runs.{flat, start, AreEnds, AreFilled, AreEmpty};

use crate::ends::recount;
use crate::runs::Run;
use crate::walks::keep;
use byte_text::NoMemory;
use std::alloc::Global;

/// Takes memory for one more run, and places for all, in use and in store.
pub(crate) fn add_run(
    alloc: Global,
    runs: &mut Vec<Run>,
    spares: &mut Vec<Run>,
    ends: &mut Vec<usize>,
) -> Result<(), NoMemory>
    requires empty { AreEmpty spares.old.items }
    ensures runs { runs.new.items ≡ runs.old.items }
    ensures ends { ends.new.items ≡ ends.old.items }
    ensures empty { AreEmpty spares.new.items }
    ensures more { OnOk result (vec_len spares.new ≡ vec_len spares.old + 1) }
    ensures err { OnErr result (vec_len spares.new ≡ vec_len spares.old) }
    ensures places { OnOk result (vec_len runs.new + vec_len spares.new ≤ vec_capacity runs.new) }
    ensures stores { OnOk result (vec_len runs.new + vec_len spares.new ≤ vec_capacity spares.new) }
    ensures marks { OnOk result (vec_len runs.new + vec_len spares.new ≤ vec_capacity ends.new) }
    ensures kept_marks { vec_capacity ends.old ≤ vec_capacity ends.new }
    ensures kept_places { vec_capacity runs.old ≤ vec_capacity runs.new }
    ensures kept_stores { vec_capacity spares.old ≤ vec_capacity spares.new }
{
    runs.reserve(spares.len() + 1)?;
    spares.reserve(runs.len() + 1)?;
    // There is an end for each run in use, so that this is room for more than one of each in store.
    ends.reserve(runs.len() + spares.len() + 1)?;
    spares.push_reserved(Run::with_room(alloc)?);
    Ok(())
}

/// Sees to a run in store. Where there is none, the runs are packed: each but the last is full then.
pub(crate) fn spare_one(runs: &mut Vec<Run>, spares: &mut Vec<Run>, ends: &mut Vec<usize>)
    requires filled { AreFilled runs.old.items }
    requires empty { AreEmpty spares.old.items }
    requires ends { AreEnds runs.old.items ends.old.items }
    requires room { length (flat runs.old.items) + 1024 < (vec_len runs.old + vec_len spares.old) * 1024 }
    requires fits { length (flat runs.old.items) ≤ 4294967295 }
    requires places { vec_len runs.old + vec_len spares.old ≤ vec_capacity runs.old }
    requires stores { vec_len runs.old + vec_len spares.old ≤ vec_capacity spares.old }
    requires marks { vec_len runs.old + vec_len spares.old ≤ vec_capacity ends.old }
    ensures numbers { flat runs.new.items ≡ flat runs.old.items }
    ensures filled { AreFilled runs.new.items }
    ensures empty { AreEmpty spares.new.items }
    ensures ends { AreEnds runs.new.items ends.new.items }
    ensures owned { vec_len runs.new + vec_len spares.new ≡ vec_len runs.old + vec_len spares.old }
    ensures places { vec_capacity runs.new ≡ vec_capacity runs.old }
    ensures stores { vec_capacity spares.new ≡ vec_capacity spares.old }
    ensures marks { vec_capacity ends.new ≡ vec_capacity ends.old }
    ensures some { 0 < vec_len runs.old → 0 < vec_len runs.new }
    ensures spare { 0 < vec_len spares.new }
{
    if spares.is_empty() {
        pack(runs, spares);
        recount(runs.as_slice(), ends, 0);
    }
}

// Packs the runs: each but the last is full then.
fn pack(runs: &mut Vec<Run>, spares: &mut Vec<Run>)
    requires filled { AreFilled runs.old.items }
    requires empty { AreEmpty spares.old.items }
    requires room { length (flat runs.old.items) + 1024 < (vec_len runs.old + vec_len spares.old) * 1024 }
    requires places { vec_len runs.old + vec_len spares.old ≤ vec_capacity runs.old }
    requires stores { vec_len runs.old + vec_len spares.old ≤ vec_capacity spares.old }
    ensures numbers { flat runs.new.items ≡ flat runs.old.items }
    ensures filled { AreFilled runs.new.items }
    ensures empty { AreEmpty spares.new.items }
    ensures owned { vec_len runs.new + vec_len spares.new ≡ vec_len runs.old + vec_len spares.old }
    ensures places { vec_capacity runs.new ≡ vec_capacity runs.old }
    ensures stores { vec_capacity spares.new ≡ vec_capacity spares.old }
    ensures some { 0 < vec_len runs.old → 0 < vec_len runs.new }
    ensures spare { 0 < vec_len spares.new }
{
    let mut k = 0;
    while k + 1 < runs.len() {
        if top_up(runs, spares, k) {
            k += 1;
        }
    }
}

// Moves numbers of the next run to this one: whether this one is full then. The next one goes to the store where it is
// empty.
fn top_up(runs: &mut Vec<Run>, spares: &mut Vec<Run>, k: usize) -> bool
    requires within { k + 1 < vec_len runs.old }
    requires filled { AreFilled runs.old.items }
    requires empty { AreEmpty spares.old.items }
    requires places { vec_len runs.old + vec_len spares.old ≤ vec_capacity runs.old }
    requires stores { vec_len runs.old + vec_len spares.old ≤ vec_capacity spares.old }
    ensures numbers { flat runs.new.items ≡ flat runs.old.items }
    ensures start { start runs.new.items k ≡ start runs.old.items k }
    ensures full { result ≡ true → length (slice_index_or runs.new.items k []) ≡ 1024 }
    ensures same { result ≡ true → vec_len runs.new ≡ vec_len runs.old }
    ensures shorter { result ≡ false → vec_len runs.new + 1 ≡ vec_len runs.old }
    ensures filled { AreFilled runs.new.items }
    ensures empty { AreEmpty spares.new.items }
    ensures owned { vec_len runs.new + vec_len spares.new ≡ vec_len runs.old + vec_len spares.old }
    ensures places { vec_capacity runs.new ≡ vec_capacity runs.old }
    ensures stores { vec_capacity spares.new ≡ vec_capacity spares.old }
{
    let mut next = runs.remove(k + 1);
    let run = &mut runs[k];
    run.fill_from(&mut next);
    if next.len() == 0 {
        keep(spares, next);
        return false;
    }
    match runs.insert(k + 1, next) {
        Ok(()) => true,
        Err(_) => unreachable!(),
    }
}
