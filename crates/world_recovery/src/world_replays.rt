//! Who takes the batches of a journal: each record is read as its change, which is folded into the world.

ghost use Rattle.std.specs.Prelude.{◌≡◌, ◌+◌, ◌≤◌, ◌<◌, ◌++◌, ◌∷◌, ℕ, List, [], true, length, take, None, Some, OnOk};
ghost use Rattle.std.specs.Prelude.{IfOk, IfErr, IfSome};
ghost use Rattle.byte_text.specs.Names.{Bytes};
ghost use Rattle.byte_text.specs.Requests.{IsRequest};
ghost use Rattle.world_data.specs.Worlds.{after, empty_world};
ghost use Rattle.world_data.specs.declared.worlds.Change.{Change};
ghost use Rattle.log_sides.specs.Texts.{newest};
ghost use Rattle.log_record.specs.Versions.{change_of_version};
ghost use Rattle.world_recovery.specs.Recorded.{record_fault};
ghost use Rattle.world_recovery.specs.Replayed.{StandsFor, IsRefused};

use byte_text::{NoMemory, Request, requests_are_read};
use journal::{Refusal, Replay};
use log_sides::NEWEST;
use record_reader::{RecordFault, change_of};
use resp_frames::{Fed, FeedFault, Requests};
use std::alloc::Global;
use std::marker::Model;
use world_store::StoredWorld;

/// The world of the batches that were taken so far, and what was taken of the next one. The beginning of a record waits
/// for the bytes that end it.
pub struct WorldReplay {
    alloc: Global,
    // The version whose records are read.
    version: u8,
    records: Requests,
    world: StoredWorld,
    // How many bytes of the batch were taken.
    taken: u64,
    // The place in it behind the last whole record.
    place: u64,
}

impl Drop for WorldReplay {
    fn drop(self) {
        let WorldReplay {
            alloc: _,
            version: _,
            records: _,
            world: _,
            taken: _,
            place: _,
        } = self;
    }
}

impl Model for WorldReplay {
    ghost use Rattle.world_recovery.specs.Replayed.{Replayed, Begins};

    ghost Value = { Replayed };

    ghost view = { λ r. record {
      version = r.version;
      world = r.world;
      waiting = r.records;
      taken = r.taken;
      place = r.place;
    } };

    ghost invariant = { λ r. Begins r.records };
}

impl WorldReplay {
    /// No batch was taken: the world is empty. Records of the newest version are read, until another one is told.
    pub fn new(alloc: Global) -> WorldReplay
        ensures { StandsFor result newest [] [] }
    {
        WorldReplay {
            alloc,
            version: NEWEST,
            records: Requests::new(alloc),
            world: StoredWorld::new(alloc),
            taken: 0,
            place: 0,
        }
    }

    /// The world of the whole records that were taken.
    pub fn world(&self) -> &StoredWorld
        ensures { result.now ≡ self.now.world }
    {
        &self.world
    }

    /// The world.
    pub fn into_world(self) -> StoredWorld
        ensures { result ≡ self.world }
    {
        let WorldReplay {
            alloc: _,
            version: _,
            records: _,
            world,
            taken: _,
            place: _,
        } = self;
        world
    }

    // Takes bytes up to the end of the next record, or all where none ends in them. How many were taken is answered.
    fn take_next(&mut self, bytes: &[u8]) -> Result<usize, Refusal>
        requires { 0 < length bytes.now }
        ensures took { (v : ℕ) (batches : List Bytes) (part : Bytes) → StandsFor self.old v batches part
            → IfOk result (λ n. StandsFor self.new v batches (part ++ take n bytes.now)) }
        ensures refused { (v : ℕ) (batches : List Bytes) (part : Bytes) → StandsFor self.old v batches part
            → IfErr result (IsRefused v (part ++ bytes.now)) }
        ensures some { IfOk result (λ n. 0 < n) }
        ensures within { IfOk result (λ n. n ≤ length bytes.now) }
    {
        // The law that a refusal stands on: behind a broken request nothing mends it.
        requests_are_read();
        let (taken, request) = match self.records.feed(bytes) {
            Ok(Fed { taken, request }) => (taken, request),
            Err(FeedFault::Memory) => return Err(Refusal::Memory),
            Err(FeedFault::Broken(_)) => return Err(Refusal::NoRecord(self.place)),
            Err(FeedFault::Dead) => return Err(Refusal::NoRecord(self.place)),
        };
        // No batch has more bytes than can be counted.
        let Some(end) = self.taken.checked_add(taken as u64) else {
            return Err(Refusal::Memory);
        };
        let Some(words) = request else {
            self.taken = end;
            return Ok(taken);
        };
        match take_record(
            self.alloc,
            &mut self.world,
            &words,
            self.version,
            self.place,
        ) {
            Ok(()) => {
                self.taken = end;
                self.place = end;
                Ok(taken)
            }
            Err(refusal) => Err(refusal),
        }
    }
}

// Folds the change whose record of this version the words are, which begins at this place.
fn take_record(
    alloc: Global,
    world: &mut StoredWorld,
    words: &Request,
    version: u8,
    place: u64,
) -> Result<(), Refusal>
    requires { IsRequest words.now }
    ensures folded { OnOk result
        ((c : Change) × (change_of_version version words.now ≡ Some c) × (world.new ≡ after world.old c)) }
    ensures refused { IfErr result
        (λ refusal. (at : ℕ) → refusal ≡ Refusal.NoRecord at
        → (at ≡ place) × (change_of_version version words.now ≡ None)) }
{
    match change_of(alloc, words, version) {
        Ok(change) => match world.fold(change) {
            Ok(()) => Ok(()),
            Err(NoMemory) => Err(Refusal::Memory),
        },
        Err(RecordFault::NotRecord) => Err(Refusal::NoRecord(place)),
        Err(RecordFault::Version) => Err(Refusal::NoRecord(place)),
        Err(RecordFault::Memory) => Err(Refusal::Memory),
    }
}

impl Replay for WorldReplay {
    ghost took = { StandsFor };

    ghost fault = { record_fault };

    fn begin(&mut self, version: u8) {
        self.version = version;
    }

    fn take(&mut self, piece: &[u8]) -> Result<(), Refusal> {
        let mut at = 0;
        while at < piece.len() {
            match self.take_next(&piece[at..]) {
                Ok(taken) => at += taken,
                Err(refusal) => return Err(refusal),
            }
        }
        Ok(())
    }

    fn end(&mut self) -> Result<(), Refusal> {
        // The batch ends within a record.
        if self.place < self.taken {
            return Err(Refusal::NoRecord(self.place));
        }
        self.taken = 0;
        self.place = 0;
        Ok(())
    }
}
