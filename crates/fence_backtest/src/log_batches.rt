//! The batches of a log, taken as they are and read side by side.
//!
//! A batch that is no records is not refused where it is taken: who takes a log so finds it behind the others, and reads
//! the log once more to learn where its first damage is.

ghost use Rattle.std.specs.Prelude.{◌≡◌, [], IfOk, flat_map};
ghost use Rattle.std.specs.List.{AllZip};
ghost use Rattle.log_sides.specs.Texts.{newest};
ghost use Rattle.journal.specs.Openings.{AreWhole};
ghost use Rattle.world_recovery.specs.Recorded.{changes_in, record_fault};
ghost use Rattle.fence_backtest.specs.Replayed.{IsPartOf, TookAs, no_fault};

use crate::changes::Changes;
use crate::parts::Parts;
use crate::records::push_changes;
use byte_text::{NoMemory, Text};
use journal::{Refusal, Replay};
use log_sides::NEWEST;
use rayon::prelude::*;
use std::alloc::{AllocError, Global};
use std::marker::Model;
use std::mem;
use std::thread::Threads;

/// The batches that were taken so far, and what was taken of the next one.
pub(crate) struct LogBatches {
    alloc: Global,
    // The version of their records.
    version: u8,
    batches: Vec<Text>,
    part: Text,
}

impl Drop for LogBatches {
    fn drop(self) {
        let LogBatches {
            alloc: _,
            version: _,
            batches: _,
            part: _,
        } = self;
    }
}

impl Model for LogBatches {
    ghost use Rattle.fence_backtest.specs.Replayed.{Taken};

    ghost Value = { Taken };

    ghost view = { λ r. record { version = r.version; batches = r.batches.items; part = r.part } };
}

impl LogBatches {
    /// No batch was taken. They are of the newest version, until another one is told.
    pub(crate) fn new(alloc: Global) -> LogBatches
        ensures { TookAs result newest [] [] }
    {
        LogBatches {
            alloc,
            version: NEWEST,
            batches: Vec::new(alloc),
            part: Text::new(alloc),
        }
    }

    /// The version of the records.
    pub(crate) fn version(&self) -> u8
        ensures { result ≡ self.now.version }
    {
        self.version
    }

    /// The batches.
    pub(crate) fn as_slice(&self) -> &[Text]
        ensures { result.now ≡ self.now.batches }
    {
        self.batches.as_slice()
    }
}

impl Replay for LogBatches {
    ghost took = { TookAs };

    ghost fault = { no_fault };

    fn begin(&mut self, version: u8) {
        self.version = version;
    }

    fn take(&mut self, piece: &[u8]) -> Result<(), Refusal> {
        match self.part.push(piece) {
            Ok(()) => Ok(()),
            Err(NoMemory) => Err(Refusal::Memory),
        }
    }

    fn end(&mut self) -> Result<(), Refusal> {
        let whole = mem::replace(&mut self.part, Text::new(self.alloc));
        match self.batches.push(whole) {
            Ok(()) => Ok(()),
            Err(full) => {
                drop(full);
                Err(Refusal::Memory)
            }
        }
    }
}

/// The changes of the records of batches of this version, which are read side by side, a part a batch. Why there are
/// none may be another batch than the first that is no records.
pub(crate) fn read_batches<R: Threads + Sync>(
    rt: &R,
    alloc: Global,
    version: u8,
    batches: &[Text],
) -> Result<Parts, Refusal>
    ensures changes { IfOk result (λ parts. parts ≡ flat_map (changes_in version) batches.now) }
    ensures whole { IfOk result (λ _. AreWhole (record_fault version) batches.now) }
{
    match read_each(rt, alloc, version, batches) {
        Ok(Ok(parts)) => Ok(Parts::of(parts)),
        Ok(Err(refusal)) => Err(refusal),
        Err(AllocError) => Err(Refusal::Memory),
    }
}

// The changes of each batch.
fn read_each<R: Threads + Sync>(
    rt: &R,
    alloc: Global,
    version: u8,
    batches: &[Text],
) -> Result<Result<Vec<Changes>, Refusal>, AllocError>
    ensures { IfOk result (λ read. IfOk read (λ parts. AllZip (IsPartOf version) batches.now parts.items)) }
{
    batches
        .par_iter()
        .with_min_len(1)
        .map(
            |batch: &Text| -> Result<Changes, Refusal>
                ensures { IfOk result (IsPartOf version batch.now) }
            { read_batch(alloc, version, batch.bytes()) },
        )
        .collect(rt, alloc)
}

// The changes of the records of a batch of this version.
fn read_batch(alloc: Global, version: u8, batch: &[u8]) -> Result<Changes, Refusal>
    ensures { IfOk result (IsPartOf version batch.now) }
{
    let mut changes = Changes::new(alloc);
    match push_changes(alloc, batch, version, &mut changes) {
        Ok(()) => Ok(changes),
        Err(refusal) => {
            drop(changes);
            Err(refusal)
        }
    }
}
