//! A write that is made sure at once.

ghost use Rattle.std.specs.Prelude.{◌≡◌, ◌+◌, ◌≤◌, ◌^◌, length, true, OnOk};
ghost use Rattle.outside.specs.Causes.{HasCause};
ghost use Rattle.outside.specs.Sides.{side_of, with_side, Told, IfTold, On};
ghost use Rattle.outside.specs.Disks.{write_over, Torn, Follows};
ghost use Rattle.outside.specs.Crashes.{IsSettled, LeavesOnly, After};

use crate::disks::Disk;
use crate::failures::Failed;
use crate::sides::Side;

/// Writes a piece and syncs the side. At each moment on the way the write may be torn, and no more; after `Ok` a crash
/// leaves it whole.
#[tactic(auto, using(crate::proofs::Durable::torn_written))]
pub fn write_durably<D: Disk>(disk: &mut D, side: Side, at: u64, piece: &[u8]) -> Result<(), Failed>
    requires { at + length piece.now ≤ 2 ^ 63 }
    ensures written { OnOk result
        (Told (D.seen disk.old) (D.seen disk.new)
        (λ s t. t ≡ with_side s side (write_over at piece.now (side_of s side)))) }
    ensures torn { Told (D.seen disk.old) (D.seen disk.new) (On side (Torn at (length piece.now))) }
    ensures durable { D.crashes disk.old ≡ true
        → OnOk result
        (IfTold (D.seen disk.old)
        (λ s. IsSettled (D.images disk.new) side (write_over at piece.now (side_of s side)))) }
    ensures told { D.crashes disk.new ≡ D.crashes disk.old }
    ensures crash { Follows (On side (Torn at (length piece.now))) (D.images disk.old) (D.images disk.new) }
    ensures moments { LeavesOnly D.moment D.left_since disk.old disk.new
        (After (On side (Torn at (length piece.now))) (D.images disk.old)) }
    ensures cause { HasCause (D.faults disk.old) (D.faults disk.new) result }
{
    match disk.write_at(side, at, piece) {
        Ok(()) => disk.sync(side),
        Err(Failed) => Err(Failed),
    }
}
