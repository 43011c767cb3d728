//! The last line of a status.
//!
//! A hall that has stopped is status 5 with the line `disk fault`.

ghost use Rattle.std.specs.Prelude.{◌≡◌, ◌≤◌, ◌⊎◌};
ghost use Rattle.outside.specs.Causes.{Rose};
ghost use Rattle.serve_run.specs.Ends.{IsEnd};

use outside::{Failed, Sink, write_all};

/// The last line of status 5.
pub const DISK_FAULT: &[u8] = b"disk fault\n";

/// The last line of status 7.
pub const OUT_OF_MEMORY: &[u8] = b"out of memory\n";

/// The last line of status 8.
pub const DOOR_FAULT: &[u8] = b"door fault\n";

/// The last line of status 9.
pub const SPENT: &[u8] = b"spent\n";

/// Writes the last line of a status, and answers the status, or that of a write fault.
pub fn end<K: Sink>(sink: &mut K, status: u8, last: &[u8]) -> u8
    ensures told { IsEnd (K.held sink.old) (K.held sink.new) status last.now result }
    ensures few { (result ≡ status) ⊎ (result ≡ 4) }
    ensures later { K.faults sink.old ≤ K.faults sink.new }
    ensures cause { result ≡ 4 → (status ≡ 4) ⊎ Rose (K.faults sink.old) (K.faults sink.new) }
{
    match write_all(sink, last) {
        Ok(()) => status,
        Err(Failed) => 4,
    }
}
