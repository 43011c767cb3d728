//! The steps of a journal on its disk: a commit, its mirror, and those of a rewriting.

ghost use Rattle.std.specs.Prelude.{◌≡◌, ◌+◌, ◌≤◌, ◌<◌, ◌^◌, ℕ, List, [], Option, None, Some, true, is_some, length, take, drop};
ghost use Rattle.std.specs.Prelude.{Ok, OnOk, OnErr, IfOk};
ghost use Rattle.byte_text.specs.Names.{Bytes};
ghost use Rattle.outside.specs.Causes.{HasCause};
ghost use Rattle.outside.specs.Crashes.{LeavesOnly};
ghost use Rattle.outside.specs.declared.sides.Side.{Side};
ghost use Rattle.outside.specs.Sides.{other_side};
ghost use Rattle.log_sides.specs.Texts.{IsHeading, newest, committed, front_text, written};
ghost use Rattle.log_rewrite.specs.declared.rewriters.Rewriter.{Rewriter};
ghost use Rattle.journal.specs.Logs.{HoldsOf, HoldsOrNew, HoldsRound};
ghost use Rattle.journal.specs.Keeping.{KeptOn, new_gate, next_generation};

use append_log::AppendLog;
use log_rewrite::{NewSide, Rewriter};
use log_sides::Batch;
use outside::{Disk, Failed, Side};

/// Makes the pending batch stand on the side in use.
pub(crate) fn commit_log<D: Disk>(disk: &mut D, log: &mut AppendLog) -> Result<(), Failed>
    ensures idle { log.old.pending ≡ [] → disk.new ≡ disk.old }
    ensures idle_ok { log.old.pending ≡ [] → result ≡ Ok tt }
    ensures idle_gate { log.old.pending ≡ [] → log.new.gate ≡ log.old.gate }
    ensures kept { (rewriter : Option Rewriter) (batches copied : List Bytes)
        → KeptOn D.crashes D.seen D.images disk.old log.old.side log.old.version log.old.generation log.old.gate
        rewriter batches copied
        → OnOk result
        (KeptOn D.crashes D.seen D.images disk.new log.old.side log.old.version log.old.generation log.new.gate
        rewriter (committed batches log.old.pending) copied) }
    ensures leaves { (rewriter : Option Rewriter) (batches copied : List Bytes)
        → KeptOn D.crashes D.seen D.images disk.old log.old.side log.old.version log.old.generation log.old.gate
        rewriter batches copied → D.crashes disk.old ≡ true
        → LeavesOnly D.moment D.left_since disk.old disk.new
        (HoldsRound log.old.version log.old.generation batches (committed batches log.old.pending)) }
    ensures told { D.crashes disk.new ≡ D.crashes disk.old }
    ensures cause { HasCause (D.faults disk.old) (D.faults disk.new) result }
    ensures side { log.new.side ≡ log.old.side }
    ensures version { log.new.version ≡ log.old.version }
    ensures generation { log.new.generation ≡ log.old.generation }
    ensures pending { OnOk result (log.new.pending ≡ []) }
    ensures err { OnErr result (log.new.pending ≡ log.old.pending) }
    ensures last { OnOk result (log.new.last ≡ log.old.pending) }
    ensures gate { OnOk result (log.new.gate ≤ log.old.gate + length log.old.pending + 9) }
{
    log.commit(disk)
}

/// Reads what was committed to the side in use from a place on, as far as there is room.
pub(crate) fn read_front<D: Disk>(
    disk: &mut D,
    log: &AppendLog,
    from: u64,
    into: &mut [u8],
) -> Result<usize, Failed>
    requires { from ≤ log.now.gate }
    ensures bytes { (rewriter : Option Rewriter) (batches copied : List Bytes)
        → KeptOn D.crashes D.seen D.images disk.old log.now.side log.now.version log.now.generation log.now.gate
        rewriter batches copied
        → IfOk result
        (λ n. take n into.new
        ≡ take (length into.old) (drop from (front_text log.now.version log.now.generation batches))) }
    ensures bound { IfOk result (λ n. n ≤ length into.new) }
    ensures kept { (rewriter : Option Rewriter) (batches copied : List Bytes)
        → KeptOn D.crashes D.seen D.images disk.old log.now.side log.now.version log.now.generation log.now.gate
        rewriter batches copied
        → KeptOn D.crashes D.seen D.images disk.new log.now.side log.now.version log.now.generation log.now.gate
        rewriter batches copied }
    ensures leaves { (rewriter : Option Rewriter) (batches copied : List Bytes)
        → KeptOn D.crashes D.seen D.images disk.old log.now.side log.now.version log.now.generation log.now.gate
        rewriter batches copied → D.crashes disk.old ≡ true
        → LeavesOnly D.moment D.left_since disk.old disk.new (HoldsOf log.now.version log.now.generation batches) }
    ensures told { D.crashes disk.new ≡ D.crashes disk.old }
    ensures cause { HasCause (D.faults disk.old) (D.faults disk.new) result }
{
    log.read(disk, from, into)
}

/// Writes what the last commit wrote to the new side, where there is one.
pub(crate) fn mirror_batch<D: Disk>(
    disk: &mut D,
    rewriter: &mut Option<Rewriter>,
    batch: &[u8],
) -> Result<(), Failed>
    requires { new_gate rewriter.old + length batch.now ≤ 2 ^ 62 }
    ensures idle { batch.now ≡ [] → disk.new ≡ disk.old }
    ensures idle_ok { batch.now ≡ [] → result ≡ Ok tt }
    ensures idle_side { batch.now ≡ [] → rewriter.new ≡ rewriter.old }
    ensures alone { rewriter.old ≡ None → disk.new ≡ disk.old }
    ensures kept { (side : Side) (version generation gate : ℕ) (batches copied : List Bytes) (records : Bytes)
        → batch.now ≡ written records
        → KeptOn D.crashes D.seen D.images disk.old side version generation gate rewriter.old batches copied
        → OnOk result
        (KeptOn D.crashes D.seen D.images disk.new side version generation gate rewriter.new batches
        (committed copied records)) }
    ensures leaves { (side : Side) (version generation gate : ℕ) (batches copied : List Bytes)
        → KeptOn D.crashes D.seen D.images disk.old side version generation gate rewriter.old batches copied
        → D.crashes disk.old ≡ true
        → LeavesOnly D.moment D.left_since disk.old disk.new (HoldsOf version generation batches) }
    ensures told { D.crashes disk.new ≡ D.crashes disk.old }
    ensures cause { HasCause (D.faults disk.old) (D.faults disk.new) result }
    ensures goes_on { is_some rewriter.new ≡ is_some rewriter.old }
    ensures generation { (n : ℕ) → next_generation rewriter.new n ≡ next_generation rewriter.old n }
    ensures gate { OnOk result (new_gate rewriter.new ≤ new_gate rewriter.old + length batch.now) }
{
    match rewriter {
        Some(new_side) => new_side.mirror(disk, batch),
        None => Ok(()),
    }
}

/// Begins a new side of the newest version beside the one in use.
pub(crate) fn begin_beside<D: Disk>(disk: &mut D, log: &AppendLog) -> Result<Rewriter, Failed>
    requires { log.now.generation + 1 < 2 ^ 64 }
    ensures kept { (batches copied : List Bytes)
        → KeptOn D.crashes D.seen D.images disk.old log.now.side log.now.version log.now.generation log.now.gate None
        batches copied
        → IfOk result
        (λ r. KeptOn D.crashes D.seen D.images disk.new log.now.side log.now.version log.now.generation log.now.gate
        (Some r) batches []) }
    ensures leaves { (batches copied : List Bytes)
        → KeptOn D.crashes D.seen D.images disk.old log.now.side log.now.version log.now.generation log.now.gate None
        batches copied
        → D.crashes disk.old ≡ true
        → LeavesOnly D.moment D.left_since disk.old disk.new (HoldsOf log.now.version log.now.generation batches) }
    ensures told { D.crashes disk.new ≡ D.crashes disk.old }
    ensures cause { HasCause (D.faults disk.old) (D.faults disk.new) result }
    ensures generation { IfOk result (λ r. r.generation ≡ log.now.generation + 1) }
    ensures gate { IfOk result (λ r. r.gate ≡ 16) }
{
    Rewriter::begin(disk, beside(log.side()), log.generation() + 1)
}

// The other side.
fn beside(side: Side) -> Side
    ensures { result ≡ other_side side }
{
    match side {
        Side::A => Side::B,
        Side::B => Side::A,
    }
}

/// Copies the records of a piece to the new side, where there is one.
pub(crate) fn copy_records<D: Disk>(
    disk: &mut D,
    rewriter: &mut Option<Rewriter>,
    records: &Batch,
) -> Result<(), Failed>
    requires { new_gate rewriter.old + length records.now + 10 ≤ 2 ^ 62 }
    ensures idle { records.now ≡ [] → disk.new ≡ disk.old }
    ensures idle_ok { records.now ≡ [] → result ≡ Ok tt }
    ensures idle_side { records.now ≡ [] → rewriter.new ≡ rewriter.old }
    ensures alone { rewriter.old ≡ None → disk.new ≡ disk.old }
    ensures alone_ok { rewriter.old ≡ None → result ≡ Ok tt }
    ensures alone_side { rewriter.old ≡ None → rewriter.new ≡ None }
    ensures kept { (side : Side) (version generation gate : ℕ) (batches copied : List Bytes)
        → KeptOn D.crashes D.seen D.images disk.old side version generation gate rewriter.old batches copied
        → OnOk result
        (KeptOn D.crashes D.seen D.images disk.new side version generation gate rewriter.new batches
        (committed copied records.now)) }
    ensures leaves { (side : Side) (version generation gate : ℕ) (batches copied : List Bytes)
        → KeptOn D.crashes D.seen D.images disk.old side version generation gate rewriter.old batches copied
        → D.crashes disk.old ≡ true
        → LeavesOnly D.moment D.left_since disk.old disk.new (HoldsOf version generation batches) }
    ensures told { D.crashes disk.new ≡ D.crashes disk.old }
    ensures cause { HasCause (D.faults disk.old) (D.faults disk.new) result }
    ensures goes_on { is_some rewriter.new ≡ is_some rewriter.old }
    ensures generation { (n : ℕ) → next_generation rewriter.new n ≡ next_generation rewriter.old n }
    ensures gate { OnOk result (new_gate rewriter.new ≤ new_gate rewriter.old + length records.now + 10) }
{
    match rewriter {
        Some(new_side) => new_side.copy_piece(disk, records),
        None => Ok(()),
    }
}

/// Opens the new side, which is in use from then on.
pub(crate) fn open_new<D: Disk>(disk: &mut D, rewriter: Rewriter) -> Result<NewSide, Failed>
    ensures kept { (side : Side) (version generation gate : ℕ) (batches copied any : List Bytes)
        → KeptOn D.crashes D.seen D.images disk.old side version generation gate (Some rewriter) batches copied
        → IfOk result
        (λ made. KeptOn D.crashes D.seen D.images disk.new made.side newest made.generation made.gate None copied any) }
    ensures leaves { (side : Side) (version generation gate : ℕ) (batches copied : List Bytes)
        → KeptOn D.crashes D.seen D.images disk.old side version generation gate (Some rewriter) batches copied
        → D.crashes disk.old ≡ true
        → LeavesOnly D.moment D.left_since disk.old disk.new (HoldsOrNew version generation batches copied) }
    ensures told { D.crashes disk.new ≡ D.crashes disk.old }
    ensures cause { HasCause (D.faults disk.old) (D.faults disk.new) result }
    ensures side { IfOk result (λ made. made.side ≡ rewriter.side) }
    ensures generation { IfOk result (λ made. made.generation ≡ rewriter.generation) }
    ensures headed { IfOk result (λ made. IsHeading newest made.generation) }
    ensures gate { IfOk result (λ made. made.gate ≡ rewriter.gate) }
    ensures placed { IfOk result (λ made. made.gate ≤ 2 ^ 62) }
{
    rewriter.finish(disk)
}
