//! The records of a batch are read as changes.

ghost use Rattle.std.specs.Prelude.{◌≡◌, ◌≤◌, ◌<◌, ◌++◌, ◌∷◌, [], ℕ, List, Some, None, Ok, Err, length, drop};
ghost use Rattle.std.specs.Prelude.{OnOk, IfOk, IfErr, MatchOption};
ghost use Rattle.byte_text.specs.Requests.{IsRequest};
ghost use Rattle.byte_text.specs.Streams.{found, request};
ghost use Rattle.world_data.specs.declared.worlds.Change.{Change};
ghost use Rattle.log_record.specs.Batches.{record_front, records_in};
ghost use Rattle.log_record.specs.Versions.{change_of_version};

use crate::changes::Changes;
use byte_text::{NoMemory, Request};
use journal::Refusal;
use record_reader::{RecordFault, change_of};
use resp_frames::{Fed, FeedFault, Requests};
use std::alloc::Global;

/// Reads a batch of a side of this version, and puts the changes of its records last. NoRecord names the place of the
/// first bytes that are none.
pub(crate) fn push_changes(
    alloc: Global,
    batch: &[u8],
    version: u8,
    changes: &mut Changes,
) -> Result<(), Refusal>
    ensures read { OnOk result ((read : List Change) × (records_in version 0 batch.now ≡ Ok read)
        × (changes.new ≡ changes.old ++ read)) }
    ensures refused { IfErr result (λ refusal. (at : ℕ) → refusal ≡ Refusal.NoRecord at
        → (at ≤ length batch.now) × (records_in version 0 batch.now ≡ Err at)) }
{
    let mut at = 0;
    while at < batch.len() {
        match push_next(alloc, &batch[at..], version, changes, at as u64) {
            Ok(taken) => at += taken,
            Err(refusal) => return Err(refusal),
        }
    }
    Ok(())
}

// Reads the record of this version at the front of some bytes, which stand at this place, and puts its change last.
// How many bytes it has is answered.
fn push_next(
    alloc: Global,
    bytes: &[u8],
    version: u8,
    changes: &mut Changes,
    place: u64,
) -> Result<usize, Refusal>
    requires { 0 < length bytes.now }
    ensures read { IfOk result (λ n. (c : Change) × (record_front version (request bytes.now) ≡ Some (c, drop n bytes.now))
        × (changes.new ≡ changes.old ++ c ∷ [])) }
    ensures some { IfOk result (λ n. 0 < n) }
    ensures within { IfOk result (λ n. n ≤ length bytes.now) }
    ensures refused { IfErr result (λ refusal. (at : ℕ) → refusal ≡ Refusal.NoRecord at
        → (at ≡ place) × (record_front version (request bytes.now) ≡ None)) }
{
    let (words, taken) = match first_words(alloc, bytes) {
        Ok(Some(first)) => first,
        Ok(None) => return Err(Refusal::NoRecord(place)),
        Err(NoMemory) => return Err(Refusal::Memory),
    };
    match push_change(alloc, &words, version, changes) {
        Ok(()) => Ok(taken),
        Err(RecordFault::NotRecord) => Err(Refusal::NoRecord(place)),
        Err(RecordFault::Version) => Err(Refusal::NoRecord(place)),
        Err(RecordFault::Memory) => Err(Refusal::Memory),
    }
}

// The request at the front of some bytes, and how many bytes it has; none where no whole one stands there.
fn first_words(alloc: Global, bytes: &[u8]) -> Result<Option<(Request, usize)>, NoMemory>
    requires { 0 < length bytes.now }
    ensures { IfOk result (λ first. MatchOption first ((v : ℕ) → record_front v (request bytes.now) ≡ None)
        (λ f. (request bytes.now ≡ found f.0 (drop f.1 bytes.now)) × (0 < f.1) × (f.1 ≤ length bytes.now)
        × IsRequest f.0)) }
{
    let mut reader = Requests::new(alloc);
    let (taken, request) = match reader.feed(bytes) {
        Ok(Fed { taken, request }) => (taken, request),
        Err(FeedFault::Memory) => return Err(NoMemory),
        Err(FeedFault::Broken(_)) => return Ok(None),
        Err(FeedFault::Dead) => return Ok(None),
    };
    let Some(words) = request else {
        return Ok(None);
    };
    Ok(Some((words, taken)))
}

// Puts the change whose record of this version the words are last.
fn push_change(
    alloc: Global,
    words: &Request,
    version: u8,
    changes: &mut Changes,
) -> Result<(), RecordFault>
    requires { IsRequest words.now }
    ensures read { OnOk result ((c : Change) × (change_of_version version words.now ≡ Some c)
        × (changes.new ≡ changes.old ++ c ∷ [])) }
    ensures refused { IfErr result
        (λ why. why ≡ RecordFault.NotRecord → change_of_version version words.now ≡ None) }
    ensures later { IfErr result
        (λ why. why ≡ RecordFault.Version → change_of_version version words.now ≡ None) }
{
    let change = change_of(alloc, words, version)?;
    match changes.push(change) {
        Ok(()) => Ok(()),
        Err(change) => {
            drop(change);
            Err(RecordFault::Memory)
        }
    }
}
