//! Who takes the batches of a log: the changes of their records are kept.

ghost use Rattle.std.specs.Prelude.{◌≡◌, []};
ghost use Rattle.log_sides.specs.Texts.{newest};
ghost use Rattle.world_recovery.specs.Recorded.{record_fault};
ghost use Rattle.fence_backtest.specs.Replayed.{Holds};

use crate::changes::Changes;
use crate::records::push_changes;
use byte_text::{NoMemory, Text};
use journal::{Refusal, Replay};
use log_sides::NEWEST;
use std::alloc::Global;
use std::marker::Model;

/// The changes of the batches that were taken so far, and what was taken of the next one.
pub struct LogChanges {
    alloc: Global,
    // The version whose records are read.
    version: u8,
    changes: Changes,
    part: Text,
}

impl Drop for LogChanges {
    fn drop(self) {
        let LogChanges {
            alloc: _,
            version: _,
            changes: _,
            part: _,
        } = self;
    }
}

impl Model for LogChanges {
    ghost use Rattle.fence_backtest.specs.Replayed.{Replayed};

    ghost Value = { Replayed };

    ghost view = { λ r. record { version = r.version; changes = r.changes; part = r.part } };
}

impl LogChanges {
    /// No batch was taken. Records of the newest version are read, until another one is told.
    pub fn new(alloc: Global) -> LogChanges
        ensures { Holds result newest [] [] }
    {
        LogChanges {
            alloc,
            version: NEWEST,
            changes: Changes::new(alloc),
            part: Text::new(alloc),
        }
    }

    /// The changes.
    pub fn into_changes(self) -> Changes
        ensures { result ≡ self.changes }
    {
        let LogChanges {
            alloc: _,
            version: _,
            changes,
            part: _,
        } = self;
        changes
    }
}

impl Replay for LogChanges {
    ghost took = { Holds };

    ghost fault = { record_fault };

    fn begin(&mut self, version: u8) {
        self.version = version;
    }

    fn take(&mut self, piece: &[u8]) -> Result<(), Refusal> {
        match self.part.push(piece) {
            Ok(()) => Ok(()),
            Err(NoMemory) => Err(Refusal::Memory),
        }
    }

    fn end(&mut self) -> Result<(), Refusal> {
        match push_changes(
            self.alloc,
            self.part.bytes(),
            self.version,
            &mut self.changes,
        ) {
            Ok(()) => {
                self.part.truncate(0);
                Ok(())
            }
            Err(refusal) => Err(refusal),
        }
    }
}
