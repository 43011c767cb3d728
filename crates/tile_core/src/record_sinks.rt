//! Who takes the records of what a call changes.

ghost use Rattle.std.specs.Prelude.{OnErr, OnOk};

use byte_text::NoMemory;

/// Who takes the records of what a call changes, before it is changed.
pub trait RecordSink {
    ghost use Rattle.byte_text.specs.Names.{Bytes};

    /// From one to another it took these bytes.
    ghost takes: { Self → Bytes → Self → Type 0 };

    /// It took nothing.
    ghost stays: { Self → Self → Type 0 };

    /// Takes the records of all that a call changes, in order. For want of memory it has taken nothing.
    fn take(&mut self, records: &[u8]) -> Result<(), NoMemory>
        ensures ok { OnOk result (takes self.old records.now self.new) }
        ensures err { OnErr result (stays self.old self.new) };
}

/// A ledger that keeps nothing, for a world without a log.
#[derive(Drop)]
pub struct NoRecords;

impl RecordSink for NoRecords {
    ghost takes = { λ old records new. Unit {0} };

    ghost stays = { λ old new. Unit {0} };

    fn take(&mut self, _records: &[u8]) -> Result<(), NoMemory> {
        Ok(())
    }
}
