//! Records that are written through a journal, and counted when it is opened.

ghost use Rattle.std.specs.Prelude.{◌≡◌, true, None};

use journal::{Journal, Refusal, Replay};
use outside::PlainDisk;
use std::alloc::Global;

// The record of a point.
const RECORD: &[u8] =
    b"*5\r\n$3\r\nSET\r\n$1\r\nk\r\n$1\r\na\r\n$6\r\nOBJECT\r\n$36\r\n{\"type\":\"Point\",\"coordinates\":[2,1]}\r\n";

/// How much was read.
#[derive(Drop)]
pub(crate) struct Counts {
    pub(crate) bytes: u64,
    pub(crate) batches: u64,
}

impl Replay for Counts {
    ghost took = { λ _ _ _ _. true ≡ true };

    ghost fault = { λ _ _. None };

    fn begin(&mut self, _version: u8) {}

    fn take(&mut self, piece: &[u8]) -> Result<(), Refusal> {
        self.bytes = self.bytes.saturating_add(piece.len() as u64);
        Ok(())
    }

    fn end(&mut self) -> Result<(), Refusal> {
        self.batches = self.batches.saturating_add(1);
        Ok(())
    }
}

/// Opens the log on a disk.
pub(crate) fn open(
    alloc: Global,
    disk: PlainDisk,
    counts: &mut Counts,
) -> Option<Journal<PlainDisk>> {
    match Journal::open(alloc, disk, counts) {
        Ok(opened) => Some(opened.journal),
        Err(_) => None,
    }
}

/// Writes so many records, so many of them in one commit, to a new log.
pub(crate) fn write_all(alloc: Global, records: u64, batch: u64) -> Option<PlainDisk> {
    let mut counts = Counts {
        bytes: 0,
        batches: 0,
    };
    let mut journal = open(alloc, PlainDisk::new(alloc), &mut counts)?;
    let mut waiting = 0u64;
    for _ in 0..records {
        if !journal.has_room(RECORD.len()) || journal.push(RECORD).is_err() {
            return None;
        }
        waiting = waiting.saturating_add(1);
        if waiting >= batch {
            waiting = 0;
            if journal.commit().is_err() {
                return None;
            }
        }
    }
    if journal.commit().is_err() {
        return None;
    }
    Some(journal.retire())
}
