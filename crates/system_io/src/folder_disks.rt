//! The disk of the program: two files in a folder.

ghost use Rattle.std.specs.Prelude.{◌≡◌, ◌+◌, ◌≤◌, ◌^◌, None, true, false, length, IsOk, OnErr};
ghost use Rattle.std.specs.Io.{ReadsAtMost};
ghost use Rattle.outside.specs.Causes.{Rose};

use crate::positioned::{read_whole, write_whole};
use outside::{Disk, Failed, Side};
use std::fs::{self, File};
use std::io::{self, ErrorKind};
use std::rt::Files;

/// The folder of both files, from the current folder.
const FOLDER: &str = "tile-data";

/// The file of side A.
const LOG_A: &str = "tile-data/a.log";

/// The file of side B.
const LOG_B: &str = "tile-data/b.log";

/// The first byte of a log in use.
const OPEN: u8 = 1;

/// As many bytes as a side has before it is first opened: its first byte, a header, and the byte behind it. What has
/// more was opened.
const BEGUN: u64 = 17;

/// Two sides in the files `a.log` and `b.log` of the folder `tile-data` in the current folder. The first call makes
/// what is not there and syncs both folders, so that the names are as sure as what is synced later. The files stay open
/// from then on, and `a.log` is locked: each call of another disk over the folder fails until this one is dropped, or
/// its process has ended.
///
/// A call that the system interrupted is made again. Where opening or a sync has failed each later sync fails too: the
/// system may have let go of what it could not write, and would not tell of it a second time.
///
/// A longer `a.log` whose first byte is not 1 beside an empty `b.log` is what the program never leaves on a disk that
/// keeps its bytes, and a log would be begun anew in its place: each call over such files fails, leaves them as they
/// are, and says so on standard error.
#[derive(Drop)]
pub struct FolderDisk<R: Files<File = File> + Eprint + Copy + Drop> {
    folder: Folder<R>,
    pub(crate) faults: u64,
}

// The folder, which opens its files at the first call.
#[derive(Drop)]
struct Folder<R: Files<File = File> + Eprint + Copy + Drop> {
    rt: R,
    logs: Option<Logs>,
    // Whether opening or a sync has failed.
    is_unsure: bool,
}

// The files of both sides, open.
#[derive(Drop)]
struct Logs {
    a: File,
    b: File,
}

impl Logs {
    fn open<R: Files<File = File> + Eprint>(rt: &R) -> io::Result<Logs> {
        make_folder(rt)?;
        let mut logs = Logs {
            a: open_log(rt, LOG_A)?,
            b: open_log(rt, LOG_B)?,
        };
        // Another process over the same files would write over what this one acknowledged. The system gives the lock
        // back with the file.
        logs.a.try_lock()?;
        if let Some(first) = logs.rotten_byte()? {
            tell_of_rot(rt, first);
            return Err(io::Error::from(ErrorKind::InvalidData));
        }
        // Also where all was there: an earlier process may have ended between making a name and syncing it.
        File::open(rt, FOLDER)?.sync_all()?;
        File::open(rt, ".")?.sync_all()?;
        Ok(logs)
    }

    fn of(&mut self, side: Side) -> &mut File {
        match side {
            Side::A => &mut self.a,
            Side::B => &mut self.b,
        }
    }

    // The first byte of side A, where it can't be one that the program left there: A was opened, for it has more than a
    // log that is being begun, and is shut only while B is in use.
    fn rotten_byte(&mut self) -> io::Result<Option<u8>> {
        if len_of(&self.a)? <= BEGUN || len_of(&self.b)? > 0 {
            return Ok(None);
        }
        let mut first = [OPEN];
        read_whole(&mut self.a, 0, &mut first)?;
        let [byte] = first;
        Ok(if byte == OPEN { None } else { Some(byte) })
    }
}

// Says which byte keeps the log shut, and what to do. Where standard error can't be written nobody is told.
fn tell_of_rot<R: Eprint>(rt: &R, byte: u8) {
    let _ = eprintln!(rt;
        "{LOG_A}: byte 0 is {byte} in place of {OPEN}, though the file holds a log and {LOG_B} is empty."
    );
    let _ = eprintln!(rt;
        "Opened, it would be emptied, so nothing was changed. Copy the folder, and then write the byte {OPEN} there"
    );
    let _ = eprintln!(rt; "or put a backup in its place: docs/OPERATING.md says how.");
}

fn make_folder<R: Files>(rt: &R) -> io::Result<()> {
    match fs::create_dir(rt, FOLDER) {
        Err(error) if error.kind() != ErrorKind::AlreadyExists => Err(error),
        _ => Ok(()),
    }
}

fn open_log<R: Files<File = File>>(rt: &R, path: &str) -> io::Result<File> {
    File::options()
        .read(true)
        .write(true)
        .create(true)
        .open(rt, path)
}

fn len_of(file: &File) -> io::Result<u64> {
    Ok(file.metadata()?.len())
}

impl<R: Files<File = File> + Eprint + Copy + Drop> Folder<R> {
    fn file(&mut self, side: Side) -> io::Result<&mut File> {
        let logs = match self.logs.take() {
            Some(logs) => logs,
            None => {
                let opened = Logs::open(&self.rt);
                self.is_unsure |= opened.is_err();
                opened?
            }
        };
        Ok(self.logs.insert(logs).of(side))
    }

    fn len(&mut self, side: Side) -> io::Result<u64> {
        len_of(self.file(side)?)
    }

    fn read(&mut self, side: Side, at: u64, into: &mut [u8]) -> io::Result<usize>
        ensures { ReadsAtMost result into.new }
    {
        read_whole(self.file(side)?, at, into)
    }

    fn write_at(&mut self, side: Side, at: u64, piece: &[u8]) -> io::Result<()>
        requires { at + length piece.now ≤ 2 ^ 63 }
    {
        let file = self.file(side)?;
        if !piece.is_empty() {
            return write_whole(file, at, piece);
        }
        // A write of nothing reaches its place too, and the system makes no file longer for it.
        if len_of(file)? < at {
            file.set_len(at)?;
        }
        Ok(())
    }

    fn cut(&mut self, side: Side, len: u64) -> io::Result<()> {
        let file = self.file(side)?;
        if len < len_of(file)? {
            file.set_len(len)?;
        }
        Ok(())
    }

    fn sync(&mut self, side: Side) -> io::Result<()>
        ensures sure { IsOk result → self.old.is_unsure ≡ false }
        ensures unsure { OnErr result (self.new.is_unsure ≡ true) }
    {
        if self.is_unsure {
            return Err(io::Error::from(ErrorKind::Other));
        }
        let synced = match self.file(side) {
            Ok(file) => file.sync_data(),
            Err(error) => Err(error),
        };
        self.is_unsure |= synced.is_err();
        synced
    }
}

impl<R: Files<File = File> + Eprint + Copy + Drop> FolderDisk<R> {
    /// The disk in the current folder of this runtime. No file is opened yet.
    pub fn new(rt: R) -> FolderDisk<R>
        ensures { result.faults ≡ 0 }
    {
        FolderDisk {
            folder: Folder {
                rt,
                logs: None,
                is_unsure: false,
            },
            faults: 0,
        }
    }

    // Counts a failure.
    fn fail(&mut self) -> Failed
        ensures rose { Rose self.old.faults self.new.faults }
        ensures later { self.old.faults ≤ self.new.faults }
    {
        self.faults = self.faults.saturating_add(1);
        Failed
    }
}

impl<R: Files<File = File> + Eprint + Copy + Drop> Disk for FolderDisk<R> {
    ghost use Rattle.std.proofs.Common.{rules};

    ghost seen = { λ _. None };

    ghost crashes = { λ _. false };

    ghost images = { λ _ _. Unit {0} };

    ghost longest = { λ _ _. 0 };

    ghost moment = { λ _. 0 };

    ghost left_since = { λ _ _ _. Unit {0} };

    ghost faults = { λ d. d.faults };

    fn len(&mut self, side: Side) -> Result<u64, Failed> {
        match self.folder.len(side) {
            Ok(len) => Ok(len),
            Err(_) => Err(self.fail()),
        }
    }

    fn read(&mut self, side: Side, at: u64, into: &mut [u8]) -> Result<usize, Failed> {
        match self.folder.read(side, at, into) {
            Ok(count) => Ok(count),
            Err(_) => Err(self.fail()),
        }
    }

    fn write_at(&mut self, side: Side, at: u64, piece: &[u8]) -> Result<(), Failed> {
        match self.folder.write_at(side, at, piece) {
            Ok(()) => Ok(()),
            Err(_) => Err(self.fail()),
        }
    }

    fn cut(&mut self, side: Side, len: u64) -> Result<(), Failed> {
        match self.folder.cut(side, len) {
            Ok(()) => Ok(()),
            Err(_) => Err(self.fail()),
        }
    }

    fn sync(&mut self, side: Side) -> Result<(), Failed> {
        match self.folder.sync(side) {
            Ok(()) => Ok(()),
            Err(_) => Err(self.fail()),
        }
    }

    ghost as_read = { λ _. tt };

    ghost no_longer = { λ _ _ _ told. Prim.search rules };

    ghost counts_now = { λ _ _ _ _ _. tt };

    ghost only_now = { λ _ _ _. tt };

    ghost from_earlier = { λ _ _ _ _ _ _ _. tt };
}
