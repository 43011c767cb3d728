//! A disk in memory that remembers its calls, and so tells what a crash may leave.

ghost use Rattle.std.specs.Prelude.{◌≡◌, ◌+◌, ◌-◌, ◌≤◌, ◌^◌, ◌++◌, [], ◌∷◌, Some, true, length, take, drop, min};
ghost use Rattle.std.specs.Prelude.{reverse, unwrap_or, IsErr, IsTrue, IfOk, OnOk, OnErr};
ghost use Rattle.outside.specs.Causes.{HasCause, next_count};
ghost use Rattle.outside.specs.Sides.{side_of, AreBytes};
ghost use Rattle.outside.specs.Memory.{fails_at};
ghost use Rattle.outside.specs.DiskCalls.{Remembered, done, read_after, reads_as, remembers, refuses, IsImage};
ghost use Rattle.outside.specs.DiskCalls.{LeftSince, calls_until, chosen};
ghost use Rattle.outside.specs.declared.disk_calls.Call.TheVariants.{Look, Write, Cut, Sync};

use crate::crash_images;
use crate::disk_calls::{Call, Piece};
use crate::disk_contents::Contents;
use crate::disks::Disk;
use crate::failures::Failed;
use crate::sides::Side;
use memory::NoMemory;
use std::alloc::{AllocError, Global};
use std::marker::Model;

/// Two sides of bytes in memory, and every call that was made: it tells what a crash may leave at each moment.
pub struct MemoryDisk {
    alloc: Global,
    first: Contents,
    // What it reads as, once that is another thing than the first contents.
    changed: Option<Contents>,
    calls: Vec<Call>,
    failing: Vec<u64>,
    made: u64,
    faults: u64,
}

impl Drop for MemoryDisk {
    fn drop(self) {
        let MemoryDisk {
            alloc: _,
            first: _,
            changed: _,
            calls: _,
            failing: _,
            made: _,
            faults: _,
        } = self;
    }
}

impl Model for MemoryDisk {
    ghost Value = { Remembered };

    ghost view = { λ d. record {
      start = d.first;
      calls = reverse d.calls.items;
      failing = d.failing.items;
      made = d.made;
      faults = d.faults;
    } };

    ghost invariant = { λ d. unwrap_or d.changed d.first ≡ read_after d.first (reverse d.calls.items) };
}

impl MemoryDisk {
    /// A disk with these bytes on its sides, all of them safe. The calls whose numbers are in `failing`, counted
    /// from 1, fail.
    pub fn new(alloc: Global, a: Vec<u8>, b: Vec<u8>, failing: Vec<u64>) -> MemoryDisk
        ensures { result
            ≡ record {
              start = record { a = a.items; b = b.items };
              calls = [];
              failing = failing.items;
              made = 0;
              faults = 0;
            } }
    {
        MemoryDisk::over(alloc, Contents::of(a, b), failing)
    }

    fn over(alloc: Global, first: Contents, failing: Vec<u64>) -> MemoryDisk
        ensures { result ≡ record { start = first; calls = []; failing = failing.items; made = 0; faults = 0 } }
    {
        MemoryDisk {
            alloc,
            first,
            changed: None,
            calls: Vec::new(alloc),
            failing,
            made: 0,
            faults: 0,
        }
    }

    /// The disk's clock: how many calls it has answered otherwise than by `Failed`.
    pub fn moment(&self) -> u64
        ensures { result ≡ length self.now.calls }
    {
        self.calls.len() as u64
    }

    /// A disk with what a crash at a past moment may have left. `choice` says what became of the writes and cuts
    /// that had been made then and that no sync of their side had followed. In base 3, its lowest digit belongs to
    /// the oldest of them: 0, it did not happen; 1, it happened; 2, a cut happened, and a write left bytes 1 in its
    /// range.
    pub fn image(&self, moment: u64, choice: u64) -> Result<MemoryDisk, NoMemory>
        requires { moment ≤ length self.now.calls }
        ensures chosen { IfOk result
            (λ d. d ≡ record {
              start = chosen self.now.start (reverse (calls_until moment self.now.calls)) choice;
              calls = [];
              failing = [];
              made = 0;
              faults = 0;
            }) }

        // It is one of the images that the disk tells.
        ensures image { IfOk result (λ d. IsImage self.now.start (calls_until moment self.now.calls) d.start) }
        ensures since { IfOk result (λ d. LeftSince self.now.start self.now.calls moment d.start) }
    {
        let contents = crash_images::crashed(
            self.alloc,
            &self.first,
            &self.calls[..moment as usize],
            choice,
        )?;
        Ok(MemoryDisk::over(self.alloc, contents, Vec::new(self.alloc)))
    }

    // What it reads as.
    fn contents(&self) -> &Contents
        ensures { result.now ≡ reads_as self.now }
    {
        match &self.changed {
            Some(changed) => changed,
            None => &self.first,
        }
    }

    // Makes a call, unless it is one that is to fail.
    fn make(&mut self, call: Call) -> Result<(), Failed>
        ensures fails { IsTrue (fails_at (next_count self.old.made) self.old.failing) → IsErr result }
        ensures ok { OnOk result (self.new ≡ remembers call self.old) }
        ensures err { OnErr result (self.new ≡ refuses self.old) }
        ensures cause { HasCause self.old.faults self.new.faults result }
    {
        self.made = self.made.saturating_add(1);
        if self.failing.contains(&self.made)
            || remember(
                self.alloc,
                &self.first,
                &mut self.changed,
                &mut self.calls,
                call,
            )
            .is_err()
        {
            self.faults = self.faults.saturating_add(1);
            return Err(Failed);
        }
        Ok(())
    }

    // Fails for want of memory.
    fn refuse(&mut self) -> Result<(), Failed>
        ensures err { IsErr result }
        ensures refused { self.new ≡ refuses self.old }
        ensures cause { HasCause self.old.faults self.new.faults result }
    {
        self.made = self.made.saturating_add(1);
        self.faults = self.faults.saturating_add(1);
        Err(Failed)
    }
}

impl Disk for MemoryDisk {
    ghost use Rattle.outside.specs.DiskCalls.{longest_after};
    ghost use Rattle.outside.specs.DiskCallLaws.{read_is_image, image_within, left_now, only_left_now};
    ghost use Rattle.outside.specs.DiskCallLaws.{left_from_earlier};

    ghost seen = { λ d. Some (reads_as d) };

    ghost crashes = { λ _. true };

    ghost images = { λ d. IsImage d.start d.calls };

    ghost longest = { λ d. longest_after d.start d.calls };

    ghost moment = { λ d. length d.calls };

    ghost left_since = { λ d. LeftSince d.start d.calls };

    ghost faults = { λ d. d.faults };

    fn len(&mut self, side: Side) -> Result<u64, Failed>
        ensures value { IfOk result (λ n. n ≡ length (side_of (reads_as self.old) side)) }
        ensures sound { OnOk result (AreBytes (side_of (reads_as self.old) side)) }
        ensures fails { IsTrue (fails_at (next_count self.old.made) self.old.failing) → IsErr result }
        ensures ok { OnOk result (self.new ≡ remembers Look self.old) }
        ensures err { OnErr result (self.new ≡ refuses self.old) }
        ensures cause { HasCause self.old.faults self.new.faults result }
    {
        match self.make(Call::Look) {
            Ok(()) => Ok(self.contents().len(side) as u64),
            Err(Failed) => Err(Failed),
        }
    }

    fn read(&mut self, side: Side, at: u64, into: &mut [u8]) -> Result<usize, Failed>
        ensures count { IfOk result (λ n. n ≡ min (length into.old) (length (side_of (reads_as self.old) side) - at)) }
        ensures bytes { IfOk result
            (λ n. into.new ≡ take n (drop at (side_of (reads_as self.old) side)) ++ drop n into.old) }
        ensures sound { OnOk result (AreBytes (side_of (reads_as self.old) side)) }
        ensures into_err { OnErr result (into.new ≡ into.old) }
        ensures fails { IsTrue (fails_at (next_count self.old.made) self.old.failing) → IsErr result }
        ensures ok { OnOk result (self.new ≡ remembers Look self.old) }
        ensures err { OnErr result (self.new ≡ refuses self.old) }
        ensures cause { HasCause self.old.faults self.new.faults result }
    {
        match self.make(Call::Look) {
            Ok(()) => Ok(self.contents().read(side, at as usize, into)),
            Err(Failed) => Err(Failed),
        }
    }

    fn write_at(&mut self, side: Side, at: u64, piece: &[u8]) -> Result<(), Failed>
        requires { at + length piece.now ≤ 2 ^ 63 }
        ensures fails { IsTrue (fails_at (next_count self.old.made) self.old.failing) → IsErr result }
        ensures ok { OnOk result (self.new ≡ remembers (Write side at piece.now) self.old) }
        ensures err { OnErr result (self.new ≡ refuses self.old) }
        ensures cause { HasCause self.old.faults self.new.faults result }
    {
        match Piece::of(self.alloc, piece) {
            Ok(piece) => self.make(Call::Write { side, at, piece }),
            Err(_) => self.refuse(),
        }
    }

    fn cut(&mut self, side: Side, len: u64) -> Result<(), Failed>
        ensures fails { IsTrue (fails_at (next_count self.old.made) self.old.failing) → IsErr result }
        ensures ok { OnOk result (self.new ≡ remembers (Cut side len) self.old) }
        ensures err { OnErr result (self.new ≡ refuses self.old) }
        ensures cause { HasCause self.old.faults self.new.faults result }
    {
        self.make(Call::Cut { side, len })
    }

    fn sync(&mut self, side: Side) -> Result<(), Failed>
        ensures fails { IsTrue (fails_at (next_count self.old.made) self.old.failing) → IsErr result }
        ensures ok { OnOk result (self.new ≡ remembers (Sync side) self.old) }
        ensures err { OnErr result (self.new ≡ refuses self.old) }
        ensures cause { HasCause self.old.faults self.new.faults result }
    {
        self.make(Call::Sync { side })
    }

    ghost as_read = { λ d. read_is_image d.start d.calls };

    ghost no_longer = { λ d c side _ image. image_within d.start d.calls c side image };

    ghost counts_now = { λ d. left_now d.start d.calls };

    ghost only_now = { λ d. only_left_now d.start d.calls };

    ghost from_earlier = { λ d t u c earlier _ left. left_from_earlier d.start d.calls t u c earlier left };
}

// Makes a call on what the disk reads as, and writes it down.
fn remember(
    alloc: Global,
    first: &Contents,
    changed: &mut Option<Contents>,
    calls: &mut Vec<Call>,
    call: Call,
) -> Result<(), AllocError>
    ensures changed { OnOk result (unwrap_or changed.new first.now ≡ done call (unwrap_or changed.old first.now)) }
    ensures changed_err { OnErr result (unwrap_or changed.new first.now ≡ unwrap_or changed.old first.now) }
    ensures calls { OnOk result (calls.new.items ≡ calls.old.items ++ call ∷ []) }
    ensures calls_err { OnErr result (calls.new.items ≡ calls.old.items) }
{
    calls.reserve(1)?;
    change(alloc, first, changed, &call)?;
    calls.push_reserved(call);
    Ok(())
}

fn change(
    alloc: Global,
    first: &Contents,
    changed: &mut Option<Contents>,
    call: &Call,
) -> Result<(), AllocError>
    ensures ok { OnOk result (unwrap_or changed.new first.now ≡ done call.now (unwrap_or changed.old first.now)) }
    ensures err { OnErr result (unwrap_or changed.new first.now ≡ unwrap_or changed.old first.now) }
{
    let mut contents = match changed.take() {
        Some(contents) => contents,
        None => first.copy(alloc)?,
    };
    let applied = call.apply(&mut contents);
    *changed = Some(contents);
    applied
}
