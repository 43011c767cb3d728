//! Writes and syncs of the side that is written.

ghost use Rattle.std.specs.Prelude.{◌≡◌, ◌+◌, ◌≤◌, ◌^◌, ℕ, List, length, OnOk};
ghost use Rattle.byte_text.specs.Names.{Bytes};
ghost use Rattle.outside.specs.Causes.{HasCause};
ghost use Rattle.outside.specs.Sides.{side_of, with_side, Told, On};
ghost use Rattle.outside.specs.Disks.{write_over, Torn, Follows};
ghost use Rattle.outside.specs.Crashes.{LeavesOnly, After};
ghost use Rattle.log_sides.specs.States.{HeldOn, SafeOn, SideLeads};
ghost use Rattle.log_sides.specs.Making.{IsShut};
ghost use Rattle.log_rewrite.specs.NewSides.{IsPart, NewSideOn};

use outside::{Disk, Failed, Side};

/// Writes a piece, which may be torn until the side is synced.
#[tactic(auto, using(crate::proofs::Written::told_torn))]
pub(crate) fn write_piece<D: Disk>(
    disk: &mut D,
    side: Side,
    at: u64,
    piece: &[u8],
) -> Result<(), Failed>
    requires { at + length piece.now ≤ 2 ^ 63 }
    ensures written { OnOk result (Told (D.seen disk.old) (D.seen disk.new)
        (λ s t. t ≡ with_side s side (write_over at piece.now (side_of s side)))) }
    ensures torn { Told (D.seen disk.old) (D.seen disk.new) (On side (Torn at (length piece.now))) }
    ensures told { D.crashes disk.new ≡ D.crashes disk.old }
    ensures crash { Follows (On side (Torn at (length piece.now))) (D.images disk.old) (D.images disk.new) }
    ensures moments { LeavesOnly D.moment D.left_since disk.old disk.new
        (After (On side (Torn at (length piece.now))) (D.images disk.old)) }
    ensures cause { HasCause (D.faults disk.old) (D.faults disk.new) result }
{
    disk.write_at(side, at, piece)
}

/// Makes safe what was written of the side.
pub(crate) fn settle<D: Disk>(disk: &mut D, side: Side) -> Result<(), Failed>
    ensures safe { (generation gate : ℕ) (batches : List Bytes)
        → NewSideOn D.crashes D.seen D.images disk.old side generation gate batches
        → OnOk result (SafeOn D.crashes D.seen D.images disk.new side (IsPart generation batches)) }
    ensures same { HeldOn D.crashes D.seen D.images disk.old side IsShut
        → SideLeads D.crashes D.seen D.images D.moment D.left_since side IsShut disk.old disk.new }
    ensures told { D.crashes disk.new ≡ D.crashes disk.old }
    ensures cause { HasCause (D.faults disk.old) (D.faults disk.new) result }
{
    disk.sync(side)
}
