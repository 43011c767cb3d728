//! A journal over a disk: changes are pushed, and a commit makes them stand, also while the log is rewritten.
//!
//! A commit during a rewriting makes five calls of the disk: four that make the batch stand on the side in use, and the
//! mirror behind them, which is not synced: until the new side is opened the old one decides, and `finish` syncs first.
//! A journal whose call failed keeps its disk and gives it back; it makes no further call, since nothing is known of
//! what its last one did.

ghost use Rattle.std.specs.Prelude.{◌≡◌, ◌+◌, ◌≤◌, ◌<◌, ◌^◌, ◌++◌, ◌⊎◌, ℕ, true, false, List, [], Some, None, is_some};
ghost use Rattle.std.specs.Prelude.{length, max, take, drop, Decides, Ok, OnOk, OnErr, IfOk, IfErr};
ghost use Rattle.byte_text.specs.Names.{Bytes};
ghost use Rattle.outside.specs.Causes.{HasCause, Rose};
ghost use Rattle.outside.specs.declared.sides.Side.{Side};
ghost use Rattle.outside.specs.Sides.{Sides};
ghost use Rattle.outside.specs.Crashes.{LeavesOnly};
ghost use Rattle.log_sides.specs.Texts.{newest, committed, front_text};
ghost use Rattle.journal.specs.Logs.{HoldsOf, HoldsOrNew, HoldsRound};
ghost use Rattle.journal.specs.Keeping.{new_gate, next_generation};

use crate::disk_steps::{
    begin_beside, commit_log, copy_records, mirror_batch, open_new, read_front,
};
use crate::openings::{BLOCK, OpenFault, Unopened, UsedLog, open_log};
use crate::pieces::Piece;
use crate::replays::Replay;
use append_log::AppendLog;
use byte_text::NoMemory;
use log_rewrite::Rewriter;
use log_sides::NEWEST;
use outside::{Disk, Failed};
use std::alloc::Global;

/// A log on a disk, the records that wait for the next commit, and the new side where the log is rewritten.
pub struct Journal<D> {
    disk: D,
    log: AppendLog,
    rewriter: Option<Rewriter>,
    failed: bool,
    ghost fits: { 0 < length log.pending → new_gate rewriter + length log.pending + 10 ≤ 2 ^ 62 },
    ghost next: { next_generation rewriter log.generation ≡ log.generation + 1 },
}

impl<D: Drop> Drop for Journal<D> {
    fn drop(self) {
        let Journal {
            disk: _,
            log: _,
            rewriter: _,
            failed: _,
        } = self;
    }
}

/// A journal that was opened.
#[derive(Drop)]
pub struct Opened<D> {
    pub journal: Journal<D>,
    /// How many bytes the side in use has.
    pub len: u64,
}

/// Why a journal did not do what was asked.
#[derive(Clone, Copy, Debug, PartialEq, Eq)]
pub enum JournalFault {
    /// A call of the disk failed in this call. The journal has failed.
    Disk,
    /// An earlier call failed. Nothing was done.
    Failed,
}

impl<D: Disk> Journal<D> {
    ghost use Rattle.journal.specs.Journals.{Keeps, HasRoom, SameBut, Ends, pending, log_bytes, disk_of};
    ghost use Rattle.journal.specs.Openings.{AllSafeOn, IsDamaged, IsLeftByOpening, IsUnopened};
    ghost use Rattle.journal.specs.Openings.{opened_version, opened_generation, opened_len};
    ghost use Rattle.journal.specs.Opened.{IsReplayed};

    /// Opens the log on a disk: both sides are synced, and the batches of the side in use are replayed. On a fresh disk
    /// a log of the newest version is begun. A disk that is answered as damaged is so behind a crash, too.
    pub fn open<R: Replay>(alloc: Global, disk: D, replay: &mut R) -> Result<Opened<D>, Unopened<D>>
        requires { R.took replay.old newest [] [] }
        ensures opened { IfOk result
            (λ o. IsReplayed R.took R.fault D.crashes D.seen D.moment D.left_since disk o.journal.disk replay.new
            o.journal.log.version
            (λ batches. Keeps D.crashes D.seen D.images o.journal batches [])) }
        ensures leaves { (s : Sides) → D.seen disk ≡ Some s → D.crashes disk ≡ true
            → LeavesOnly D.moment D.left_since disk (disk_of result) (IsLeftByOpening (D.images disk) s) }
        ensures same { (s : Sides) → D.seen disk ≡ Some s → IfErr result (λ u. IsUnopened (D.seen u.disk) s u.why) }
        ensures damaged { (s : Sides) → D.seen disk ≡ Some s
            → IfErr result
            (λ u. (side : Side) (place : ℕ) → u.why ≡ OpenFault.Damaged side place → IsDamaged R.fault s side place) }
        ensures settled { (s : Sides) → D.seen disk ≡ Some s
            → IfErr result
            (λ u. (side : Side) (place : ℕ) → u.why ≡ OpenFault.Damaged side place
            → AllSafeOn D.crashes D.seen D.images u.disk s) }
        ensures told { D.crashes (disk_of result) ≡ D.crashes disk }
        ensures later { D.faults disk ≤ D.faults (disk_of result) }
        ensures cause { IfErr result (λ u. u.why ≡ OpenFault.Disk → Rose (D.faults disk) (D.faults u.disk)) }
        ensures version { (s : Sides) → D.seen disk ≡ Some s
            → IfOk result (λ o. o.journal.log.version ≡ opened_version s) }
        ensures generation { (s : Sides) → D.seen disk ≡ Some s
            → IfOk result (λ o. o.journal.log.generation ≡ opened_generation s) }
        ensures len { (s : Sides) → D.seen disk ≡ Some s → IfOk result (λ o. o.len ≡ opened_len s) }
        ensures short { IfOk result (λ o. o.len ≤ 2 ^ 62) }
        ensures gate { IfOk result (λ o. o.journal.log.gate ≤ o.len) }
        ensures pending { IfOk result (λ o. pending o.journal ≡ []) }
        ensures idle { IfOk result (λ o. is_some o.journal.rewriter ≡ false) }
        ensures works { IfOk result (λ o. o.journal.failed ≡ false) }
    {
        let Ok(mut block) = vec![in alloc; 0u8; BLOCK] else {
            return Err(Unopened {
                disk,
                why: OpenFault::Memory,
            });
        };
        let mut disk = disk;
        match open_log(alloc, &mut disk, replay, &mut block) {
            Ok(UsedLog { log, len }) => Ok(Opened {
                journal: Journal {
                    disk,
                    log,
                    rewriter: None,
                    failed: false,
                },
                len,
            }),
            Err(why) => Err(Unopened { disk, why }),
        }
    }

    /// Whether an earlier call failed.
    pub fn has_failed(&self) -> bool
        ensures { result ≡ self.now.failed }
    {
        self.failed
    }

    /// Whether the log is rewritten.
    pub fn is_rewriting(&self) -> bool
        ensures { result ≡ is_some self.now.rewriter }
    {
        self.rewriter.is_some()
    }

    /// How many bytes are pending.
    pub fn pending(&self) -> u64
        ensures { result ≡ length (pending self.now) }
    {
        self.log.pending()
    }

    /// How many bytes the side in use has in front of its last gate, and those that are pending with them.
    pub fn log_bytes(&self) -> u64
        ensures { result ≡ log_bytes self.now }
    {
        self.log.bytes()
    }

    /// The version of the side in use.
    pub fn version(&self) -> u8
        ensures { result ≡ self.now.log.version }
    {
        self.log.version()
    }

    /// The generation of the side in use.
    pub fn generation(&self) -> u64
        ensures { result ≡ self.now.log.generation }
    {
        self.log.generation()
    }

    /// The place of the closed gate of the side in use, behind all that was committed.
    pub fn gate(&self) -> u64
        ensures { result ≡ self.now.log.gate }
    {
        self.log.gate()
    }

    /// Reads what was committed to the side in use, its header and gates with it, from a place on, as far as there is
    /// room, and answers how many bytes. What is pending is not among them.
    pub fn read(&mut self, from: u64, into: &mut [u8]) -> Result<usize, JournalFault>
        requires { from ≤ self.old.log.gate }
        ensures bytes { (batches copied : List Bytes) → Keeps D.crashes D.seen D.images self.old batches copied
            → IfOk result
            (λ n. take n into.new
            ≡ take (length into.old) (drop from (front_text self.old.log.version self.old.log.generation batches))) }
        ensures bound { IfOk result (λ n. n ≤ length into.new) }
        ensures kept { (batches copied : List Bytes) → Keeps D.crashes D.seen D.images self.old batches copied
            → OnOk result (Keeps D.crashes D.seen D.images self.new batches copied) }
        ensures leaves { (batches copied : List Bytes) → Keeps D.crashes D.seen D.images self.old batches copied
            → D.crashes self.old.disk ≡ true
            → LeavesOnly D.moment D.left_since self.old.disk self.new.disk
            (HoldsOf self.old.log.version self.old.log.generation batches) }
        ensures ends { Ends D.faults self.old self.new result }
        ensures told { D.crashes self.new.disk ≡ D.crashes self.old.disk }
        ensures log { self.new.log ≡ self.old.log }
        ensures rewriter { self.new.rewriter ≡ self.old.rewriter }
    {
        if self.failed {
            return Err(JournalFault::Failed);
        }
        match read_front(&mut self.disk, &self.log, from, into) {
            Ok(count) => Ok(count),
            Err(Failed) => {
                self.failed = true;
                Err(JournalFault::Disk)
            }
        }
    }

    /// Whether so many bytes more may be pushed: the log is of the newest version, and both sides have room for them in
    /// the pending batch.
    pub fn has_room(&self, bytes: usize) -> bool
        ensures { Decides result (HasRoom self.now bytes) }
    {
        self.version() == NEWEST && self.both_have_room(bytes)
    }

    // Whether both sides have room for them.
    fn both_have_room(&self, bytes: usize) -> bool
        ensures { Decides result
            (max self.now.log.gate (new_gate self.now.rewriter) + length self.now.log.pending + bytes + 10 ≤ 2 ^ 62) }
    {
        self.log.has_room(bytes) && self.new_has_room(bytes)
    }

    // Whether the new side has, where there is one.
    fn new_has_room(&self, bytes: usize) -> bool
        requires { self.now.log.gate + length self.now.log.pending + bytes + 10 ≤ 2 ^ 62 }
        ensures { Decides result (new_gate self.now.rewriter + length self.now.log.pending + bytes + 10 ≤ 2 ^ 62) }
    {
        match &self.rewriter {
            Some(rewriter) => rewriter.has_room(bytes + self.log.pending() as usize),
            None => true,
        }
    }

    /// Puts the record of one change last into the pending batch of a log of the newest version. At want of memory the
    /// batch is as before.
    pub fn push(&mut self, entry: &[u8]) -> Result<(), NoMemory>
        requires { HasRoom self.old (length entry.now) }
        ensures ok { OnOk result (pending self.new ≡ pending self.old ++ entry.now) }
        ensures err { OnErr result (pending self.new ≡ pending self.old) }
        ensures same { SameBut self.old self.new }
        ensures kept { (batches copied : List Bytes) → Keeps D.crashes D.seen D.images self.old batches copied
            → Keeps D.crashes D.seen D.images self.new batches copied }
    {
        self.log.push(entry)
    }

    /// Makes the pending batch stand, with two syncs; where the log is rewritten it is written to the new side, too,
    /// which is not synced. With nothing pending nothing is done. At each moment inside a crash leaves the committed
    /// batches, or those with the pending one.
    pub fn commit(&mut self) -> Result<(), JournalFault>
        ensures idle { pending self.old ≡ [] → SameBut self.old self.new }
        ensures kept { (batches copied : List Bytes) → Keeps D.crashes D.seen D.images self.old batches copied
            → OnOk result
            (Keeps D.crashes D.seen D.images self.new (committed batches (pending self.old))
            (committed copied (pending self.old))) }
        ensures leaves { (batches copied : List Bytes) → Keeps D.crashes D.seen D.images self.old batches copied
            → D.crashes self.old.disk ≡ true
            → LeavesOnly D.moment D.left_since self.old.disk self.new.disk
            (HoldsRound self.old.log.version self.old.log.generation batches (committed batches (pending self.old))) }
        ensures ends { Ends D.faults self.old self.new result }
        ensures told { D.crashes self.new.disk ≡ D.crashes self.old.disk }
        ensures pending { OnOk result (pending self.new ≡ []) }
        ensures side { self.new.log.side ≡ self.old.log.side }
        ensures version { self.new.log.version ≡ self.old.log.version }
        ensures generation { self.new.log.generation ≡ self.old.log.generation }
        ensures rewriting { is_some self.new.rewriter ≡ is_some self.old.rewriter }
        ensures gate { OnOk result (self.new.log.gate ≤ self.old.log.gate + length (pending self.old) + 9) }
        ensures new_gate { OnOk result
            (new_gate self.new.rewriter ≤ new_gate self.old.rewriter + length (pending self.old) + 10) }
    {
        if self.failed {
            return Err(JournalFault::Failed);
        }
        match self.commit_both() {
            Ok(()) => Ok(()),
            Err(Failed) => {
                self.failed = true;
                Err(JournalFault::Disk)
            }
        }
    }

    // The commit on the side in use, and then on the new one.
    fn commit_both(&mut self) -> Result<(), Failed>
        ensures idle { pending self.old ≡ [] → SameBut self.old self.new }
        ensures idle_ok { pending self.old ≡ [] → result ≡ Ok tt }
        ensures kept { (batches copied : List Bytes) → Keeps D.crashes D.seen D.images self.old batches copied
            → OnOk result
            (Keeps D.crashes D.seen D.images self.new (committed batches (pending self.old))
            (committed copied (pending self.old))) }
        ensures leaves { (batches copied : List Bytes) → Keeps D.crashes D.seen D.images self.old batches copied
            → D.crashes self.old.disk ≡ true
            → LeavesOnly D.moment D.left_since self.old.disk self.new.disk
            (HoldsRound self.old.log.version self.old.log.generation batches (committed batches (pending self.old))) }
        ensures pending { OnOk result (pending self.new ≡ []) }
        ensures told { D.crashes self.new.disk ≡ D.crashes self.old.disk }
        ensures cause { HasCause (D.faults self.old.disk) (D.faults self.new.disk) result }
        ensures failed { self.new.failed ≡ self.old.failed }
        ensures side { self.new.log.side ≡ self.old.log.side }
        ensures version { self.new.log.version ≡ self.old.log.version }
        ensures generation { self.new.log.generation ≡ self.old.log.generation }
        ensures rewriting { is_some self.new.rewriter ≡ is_some self.old.rewriter }
        ensures gate { OnOk result (self.new.log.gate ≤ self.old.log.gate + length (pending self.old) + 9) }
        ensures new_gate { OnOk result
            (new_gate self.new.rewriter ≤ new_gate self.old.rewriter + length (pending self.old) + 10) }
    {
        match commit_log(&mut self.disk, &mut self.log) {
            Ok(()) => mirror_batch(&mut self.disk, &mut self.rewriter, self.log.last_batch()),
            Err(Failed) => Err(Failed),
        }
    }

    /// Begins to rewrite the log: a new side of the next generation and the newest version, which holds nothing yet. It
    /// is not open, whatever a crash leaves.
    pub fn begin(&mut self) -> Result<(), JournalFault>
        requires idle { is_some self.old.rewriter ≡ false }
        requires committed { pending self.old ≡ [] }
        requires generation { self.old.log.generation + 1 < 2 ^ 64 }
        ensures kept { (batches copied : List Bytes) → Keeps D.crashes D.seen D.images self.old batches copied
            → OnOk result (Keeps D.crashes D.seen D.images self.new batches []) }
        ensures leaves { (batches copied : List Bytes) → Keeps D.crashes D.seen D.images self.old batches copied
            → D.crashes self.old.disk ≡ true
            → LeavesOnly D.moment D.left_since self.old.disk self.new.disk
            (HoldsOf self.old.log.version self.old.log.generation batches) }
        ensures ends { Ends D.faults self.old self.new result }
        ensures told { D.crashes self.new.disk ≡ D.crashes self.old.disk }
        ensures pending { pending self.new ≡ [] }
        ensures version { self.new.log.version ≡ self.old.log.version }
        ensures generation { self.new.log.generation ≡ self.old.log.generation }
        ensures rewriting { OnOk result (is_some self.new.rewriter ≡ true) }
        ensures gate { self.new.log.gate ≡ self.old.log.gate }
        ensures new_gate { OnOk result (new_gate self.new.rewriter ≡ 16) }
    {
        if self.failed {
            return Err(JournalFault::Failed);
        }
        match begin_beside(&mut self.disk, &self.log) {
            Ok(rewriter) => {
                self.rewriter = Some(rewriter);
                Ok(())
            }
            Err(Failed) => {
                self.failed = true;
                Err(JournalFault::Disk)
            }
        }
    }

    /// Whether the new side has room for a piece. It has where there is none.
    pub fn has_room_for(&self, piece: &Piece) -> bool
        ensures { Decides result (new_gate self.now.rewriter + length piece.now.records + 10 ≤ 2 ^ 62) }
    {
        match &self.rewriter {
            Some(rewriter) => rewriter.has_room(piece.len()),
            None => piece.len() <= (1 << 62) - 10,
        }
    }

    /// Copies a piece to the new side, which is not synced. Where the piece has no record, or the log is not rewritten,
    /// nothing is done.
    pub fn copy(&mut self, piece: &Piece) -> Result<(), JournalFault>
        requires committed { pending self.old ≡ [] }
        requires room { new_gate self.old.rewriter + length piece.now.records + 10 ≤ 2 ^ 62 }
        ensures idle { piece.now.records ≡ [] → SameBut self.old self.new }
        ensures alone { self.old.rewriter ≡ None → SameBut self.old self.new }
        ensures kept { (batches copied : List Bytes) → Keeps D.crashes D.seen D.images self.old batches copied
            → OnOk result (Keeps D.crashes D.seen D.images self.new batches (committed copied piece.now.records)) }
        ensures leaves { (batches copied : List Bytes) → Keeps D.crashes D.seen D.images self.old batches copied
            → D.crashes self.old.disk ≡ true
            → LeavesOnly D.moment D.left_since self.old.disk self.new.disk
            (HoldsOf self.old.log.version self.old.log.generation batches) }
        ensures ends { Ends D.faults self.old self.new result }
        ensures told { D.crashes self.new.disk ≡ D.crashes self.old.disk }
        ensures pending { pending self.new ≡ [] }
        ensures version { self.new.log.version ≡ self.old.log.version }
        ensures generation { self.new.log.generation ≡ self.old.log.generation }
        ensures rewriting { is_some self.new.rewriter ≡ is_some self.old.rewriter }
        ensures gate { self.new.log.gate ≡ self.old.log.gate }
        ensures new_gate { OnOk result
            (new_gate self.new.rewriter ≤ new_gate self.old.rewriter + length piece.now.records + 10) }
    {
        if self.failed {
            return Err(JournalFault::Failed);
        }
        match copy_records(&mut self.disk, &mut self.rewriter, piece.records()) {
            Ok(()) => Ok(()),
            Err(Failed) => {
                self.failed = true;
                Err(JournalFault::Disk)
            }
        }
    }

    /// Ends a rewriting: the new side is made safe and then opened, and is the one in use from then on. At each moment
    /// inside a crash leaves the committed batches, or those that were copied.
    pub fn finish(&mut self) -> Result<(), JournalFault>
        requires going { is_some self.old.rewriter ≡ true }
        requires committed { pending self.old ≡ [] }
        ensures kept { (batches copied any : List Bytes) → Keeps D.crashes D.seen D.images self.old batches copied
            → OnOk result (Keeps D.crashes D.seen D.images self.new copied any) }
        ensures leaves { (batches copied : List Bytes) → Keeps D.crashes D.seen D.images self.old batches copied
            → D.crashes self.old.disk ≡ true
            → LeavesOnly D.moment D.left_since self.old.disk self.new.disk
            (HoldsOrNew self.old.log.version self.old.log.generation batches copied) }
        ensures ends { Ends D.faults self.old self.new result }
        ensures told { D.crashes self.new.disk ≡ D.crashes self.old.disk }
        ensures pending { pending self.new ≡ [] }
        ensures version { OnOk result (self.new.log.version ≡ newest) }
        ensures generation { OnOk result (self.new.log.generation ≡ self.old.log.generation + 1) }
        ensures rewriting { OnOk result (is_some self.new.rewriter ≡ false) }
        ensures gate { OnOk result (self.new.log.gate ≡ new_gate self.old.rewriter) }
    {
        if self.failed {
            return Err(JournalFault::Failed);
        }
        match self.rewriter.take() {
            Some(rewriter) => match open_new(&mut self.disk, rewriter) {
                Ok(made) => {
                    self.log.turn_to(made.side, made.generation, made.gate);
                    Ok(())
                }
                Err(Failed) => {
                    self.failed = true;
                    Err(JournalFault::Disk)
                }
            },
            None => unreachable!(),
        }
    }

    /// Gives the disk back. What is pending is forgotten.
    pub fn retire(self) -> D
        ensures { result ≡ self.disk }
    {
        let Journal {
            disk,
            log: _,
            rewriter: _,
            failed: _,
        } = self;
        disk
    }
}
