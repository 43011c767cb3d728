//! A batch is made to stand behind the closed gate of a side.
//!
//! Each call here and in `log_rewrite` makes at most four calls of the disk that write, cut or sync, which keeps the
//! proofs small; larger work is put together from their contracts. `has_room` is exact: a caller without room may
//! answer as for want of memory.

ghost use Rattle.std.specs.Prelude.{◌≡◌, ◌+◌, ◌≤◌, ◌^◌, ℕ, List, length, OnOk};
ghost use Rattle.byte_text.specs.Names.{Bytes};
ghost use Rattle.outside.specs.Causes.{HasCause};
ghost use Rattle.log_sides.specs.Texts.{StandsFor, StandsWithin, with_batch, sealed};
ghost use Rattle.log_sides.specs.States.{SafeOn, SideLeads, LogOn};

use outside::{Disk, Failed, Side, write_durably};

/// Makes a batch stand behind the closed gate of a side.
pub(crate) fn append_batch<D: Disk>(
    disk: &mut D,
    side: Side,
    gate: u64,
    batch: &[u8],
) -> Result<(), Failed>
    requires room { gate + length batch.now ≤ 2 ^ 62 }
    requires sealed { 10 ≤ length batch.now }
    ensures stands { (v g : ℕ) (bs : List Bytes) (b : Bytes) → batch.now ≡ sealed b
        → LogOn D.crashes D.seen D.images disk.old side v g gate bs
        → OnOk result (SafeOn D.crashes D.seen D.images disk.new side (StandsFor v g (with_batch bs b))) }
    ensures either { (v g : ℕ) (bs : List Bytes) (b : Bytes) → batch.now ≡ sealed b
        → LogOn D.crashes D.seen D.images disk.old side v g gate bs
        → SideLeads D.crashes D.seen D.images D.moment D.left_since side (StandsWithin v g bs b) disk.old disk.new }
    ensures told { D.crashes disk.new ≡ D.crashes disk.old }
    ensures cause { HasCause (D.faults disk.old) (D.faults disk.new) result }
{
    match write_durably(disk, side, gate + 1, &batch[1..]) {
        Ok(()) => write_durably(disk, side, gate, &[1]),
        Err(Failed) => Err(Failed),
    }
}
