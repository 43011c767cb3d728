//! How the batches of a side end.

ghost use Rattle.std.specs.Prelude.{◌≡◌, ℕ, [], IfOk};
ghost use Rattle.byte_text.specs.Names.{Bytes};
ghost use Rattle.outside.specs.Causes.{HasCause};
ghost use Rattle.log_sides.specs.States.{ReadsAs, SideLeads};

use crate::side_readers::{Gate, Reader};
use outside::{Disk, Failed};

/// How a side ends.
#[derive(Clone, Copy, Debug, PartialEq, Eq)]
pub enum End {
    /// Its closed gate stands at this place.
    Whole(u64),
    /// It is damaged at this place.
    Broken(u64),
}

impl End {
    ghost use Rattle.append_log.specs.Reading.{IsAtGate, IsEndOf};

    /// Passes over the batches of a side, whose gates and lengths alone are read.
    pub fn find<D: Disk>(disk: &mut D, mut reader: Reader) -> Result<End, Failed>
        ensures end { (v g : ℕ) (bytes : Bytes) → ReadsAs D.crashes D.seen D.images disk.old reader.side bytes
            → IsAtGate v g [] reader.len reader.at bytes
            → IfOk result (IsEndOf v g bytes reader.len) }
        ensures safe { (bytes : Bytes) → ReadsAs D.crashes D.seen D.images disk.old reader.side bytes
            → ReadsAs D.crashes D.seen D.images disk.new reader.side bytes }
        ensures same { (bytes : Bytes) → ReadsAs D.crashes D.seen D.images disk.old reader.side bytes
            → SideLeads D.crashes D.seen D.images D.moment D.left_since reader.side (λ x. x ≡ bytes) disk.old disk.new }
        ensures told { D.crashes disk.new ≡ D.crashes disk.old }
        ensures cause { HasCause (D.faults disk.old) (D.faults disk.new) result }
    {
        loop {
            match reader.next_batch(disk) {
                Ok(Gate::Open(_)) => reader.skip(),
                Ok(Gate::Closed) => return Ok(End::Whole(reader.place())),
                Ok(Gate::Damaged(place)) => return Ok(End::Broken(place)),
                Err(Failed) => return Err(Failed),
            }
        }
    }
}
