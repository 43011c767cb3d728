//! Tests of a journal over a disk in memory: each call fails once, each image is opened.

ghost use Rattle.std.specs.Prelude.{◌≡◌, true, None};

use journal::{Journal, JournalFault, OpenFault, PIECE, Piece, Refusal, Replay};
use outside::{Disk, MemoryDisk, Side};
use std::alloc::Global;
use std::test::Fail;

// The version that was told, how many batches were taken, and the sum of their bytes.
#[derive(Drop)]
struct Counts {
    version: u8,
    batches: i64,
    sum: i64,
}

impl Replay for Counts {
    ghost took = { λ _ _ _ _. true ≡ true };

    ghost fault = { λ _ _. None };

    fn begin(&mut self, version: u8) {
        self.version = version;
    }

    fn take(&mut self, piece: &[u8]) -> Result<(), Refusal> {
        for byte in piece {
            self.sum = self.sum.saturating_add(i64::from(*byte));
        }
        Ok(())
    }

    fn end(&mut self) -> Result<(), Refusal> {
        self.batches = self.batches.saturating_add(1);
        Ok(())
    }
}

fn no_counts() -> Counts {
    Counts {
        version: 0,
        batches: 0,
        sum: 0,
    }
}

// Opens a disk: a journal, and a number for what it holds.
fn open(
    alloc: Global,
    disk: MemoryDisk,
) -> (Result<Journal<MemoryDisk>, (MemoryDisk, OpenFault)>, i64) {
    let mut counts = no_counts();
    match Journal::open(alloc, disk, &mut counts) {
        Ok(opened) => (
            Ok(opened.journal),
            counts
                .batches
                .saturating_mul(1000)
                .saturating_add(counts.sum),
        ),
        Err(unopened) => (Err((unopened.disk, unopened.why)), -1),
    }
}

fn disk_failing(alloc: Global, a: &[u8], b: &[u8], failing: &[u64]) -> Result<MemoryDisk, Fail> {
    Ok(MemoryDisk::new(
        alloc,
        a.to_vec(alloc)?,
        b.to_vec(alloc)?,
        failing.to_vec(alloc)?,
    ))
}

fn write(journal: &mut Journal<MemoryDisk>, entry: &[u8]) -> bool {
    if !journal.has_room(entry.len()) || journal.push(entry).is_err() {
        return false;
    }
    journal.commit().is_ok()
}

fn begins(journal: &mut Journal<MemoryDisk>) -> bool {
    if journal.is_rewriting() || journal.pending() > 0 || journal.generation() == u64::MAX {
        return false;
    }
    journal.begin().is_ok()
}

fn copies(journal: &mut Journal<MemoryDisk>, piece: &Piece) -> bool {
    if journal.pending() > 0 || !journal.has_room_for(piece) {
        return false;
    }
    journal.copy(piece).is_ok()
}

fn finishes(journal: &mut Journal<MemoryDisk>) -> bool {
    if !journal.is_rewriting() || journal.pending() > 0 {
        return false;
    }
    journal.finish().is_ok()
}

// The bytes of the committed batches from a place on.
fn reads(journal: &mut Journal<MemoryDisk>, from: u64, into: &mut [u8]) -> i64 {
    if from > journal.gate() {
        return -1;
    }
    match journal.read(from, into) {
        Ok(count) => i64::try_from(count).unwrap_or(-2),
        Err(JournalFault::Disk) => -3,
        Err(JournalFault::Failed) => -4,
    }
}

#[test]
fn bytes_of_the_committed_batches(rt: HostRuntime) -> Result<(), Fail> {
    let alloc = rt.alloc();
    let disk = disk_failing(alloc, b"", b"", &[])?;
    let (Ok(mut journal), _) = open(alloc, disk) else {
        return Err(Fail::from("not opened"));
    };
    assert!(rt; write(&mut journal, b"xyz"));
    assert_eq!(rt; journal.gate(), 28);
    let mut bytes = [b'.'; 13];
    assert_eq!(rt; reads(&mut journal, 16, &mut bytes), 12);
    assert_eq!(rt; bytes.as_slice(), b"\x01\0\0\0\0\0\0\0\x03xyz.".as_slice());
    assert_eq!(rt; reads(&mut journal, 28, &mut bytes), 0);
    assert_eq!(rt; reads(&mut journal, 29, &mut bytes), -1);
    Ok(())
}

// Three writes, with a whole rewriting round the second. Answers how many were acknowledged.
fn script(journal: &mut Journal<MemoryDisk>, piece: &Piece) -> i64 {
    if !write(journal, b"a") {
        return 0;
    }
    if !begins(journal) || !copies(journal, piece) || !write(journal, b"b") {
        return 1;
    }
    if !finishes(journal) || !write(journal, b"c") {
        return 2;
    }
    3
}

// What the first writes make.
fn worth(writes: i64) -> i64 {
    match writes {
        0 => 0,
        1 => 1097,
        2 => 2195,
        _ => 3294,
    }
}

#[test]
fn each_call_fails_once_and_nothing_acknowledged_is_lost(rt: HostRuntime) -> Result<(), Fail> {
    let alloc = rt.alloc();
    let mut piece = Piece::new(alloc)?;
    assert!(rt; !piece.is_full());
    piece.push(b"a")?;
    // The opening makes 14 calls, the rest 22.
    for failing in 1u64..38 {
        let disk = disk_failing(alloc, b"", b"", &[failing])?;
        let (disk, acked) = match open(alloc, disk).0 {
            Ok(mut journal) => {
                let acked = script(&mut journal, &piece);
                assert_eq!(rt; journal.has_failed(), failing < 37);
                (journal.retire(), acked)
            }
            Err((disk, why)) => {
                assert_eq!(rt; why, OpenFault::Disk);
                (disk, 0)
            }
        };
        assert_eq!(rt; acked == 3, failing == 37);
        for choice in 0u64..27 {
            let image = disk.image(disk.moment(), choice)?;
            let found = open(alloc, image).1;
            assert!(rt;
                found == worth(acked) || found == worth(acked.saturating_add(1)),
                "{failing} {choice} {found}"
            );
        }
    }
    Ok(())
}

#[test]
fn a_log_is_rewritten(rt: HostRuntime) -> Result<(), Fail> {
    let alloc = rt.alloc();
    let mut piece = Piece::new(alloc)?;
    piece.push(b"a")?;
    assert_eq!(rt; (piece.items(), piece.len()), (1, 1));
    let (opened, held) = open(alloc, disk_failing(alloc, b"", b"", &[])?);
    assert_eq!(rt; held, 0);
    let Ok(mut journal) = opened else {
        return Err(Fail::from("not opened"));
    };
    assert_eq!(rt; script(&mut journal, &piece), 3);
    assert_eq!(rt; journal.generation(), 2);
    assert!(rt; journal.has_room(1));
    assert_eq!(rt; journal.push(b"d"), Ok(()));
    assert_eq!(rt; journal.pending(), 1);
    assert_eq!(rt; journal.commit(), Ok(()));
    let mut disk = journal.retire();
    let mut bytes = [b'.'; 60];
    assert_eq!(rt; disk.read(Side::B, 0, &mut bytes), Ok(57));
    assert_eq!(rt;
        bytes.as_slice(),
        b"\x01TFL\x03\0\0\0\0\0\0\0\0\0\0\x02\x01\0\0\0\0\0\0\0\x01a\x01\0\0\0\0\0\0\0\x01b\x01\0\0\0\0\0\0\0\x01c\x01\0\0\0\0\0\0\0\x01d\0...".as_slice()
    );
    assert_eq!(rt; open(alloc, disk).1, 4394);
    Ok(())
}

#[test]
fn a_journal_that_has_failed_says_so(rt: HostRuntime) -> Result<(), Fail> {
    let alloc = rt.alloc();
    let Ok(mut journal) = open(alloc, disk_failing(alloc, b"", b"", &[15])?).0 else {
        return Err(Fail::from("not opened"));
    };
    assert!(rt; journal.has_room(1));
    assert_eq!(rt; journal.push(b"a"), Ok(()));
    assert_eq!(rt; journal.commit(), Err(JournalFault::Disk));
    assert_eq!(rt; journal.commit(), Err(JournalFault::Failed));
    Ok(())
}

#[test]
fn damage_is_found_where_it_stands(rt: HostRuntime) -> Result<(), Fail> {
    let alloc = rt.alloc();
    let cases: [(&[u8], &[u8], Side, u64); 4] = [
        (
            b"\x01TFL\x01\0\0\0\0\0\0\0\0\0\0\x01\x01\0\0\0\0\0\0\0\x01a",
            b"",
            Side::A,
            26,
        ),
        (
            b"\x01TFL\x01\0\0\0\0\0\0\0\0\0\0\x01\x01\0\0\0\0\0\0\0\x03a\0",
            b"",
            Side::A,
            17,
        ),
        (b"\x01TFL\x04\0\0\0\0\0\0\0\0\0\0\x01\0", b"", Side::A, 4),
        (b"", b"x", Side::A, 0),
    ];
    for (a, b, side, place) in cases {
        match open(alloc, disk_failing(alloc, a, b, &[])?).0 {
            Ok(_) => return Err(Fail::from("opened")),
            Err((_, why)) => assert_eq!(rt; why, OpenFault::Damaged { side, place }),
        }
    }
    assert_eq!(rt; PIECE, 256);
    Ok(())
}

#[test]
fn the_length_of_the_side_in_use_is_told(rt: HostRuntime) -> Result<(), Fail> {
    let alloc = rt.alloc();
    let text: &[u8] = b"\x01TFL\x01\0\0\0\0\0\0\0\0\0\0\x07\x01\0\0\0\0\0\0\0\x01a\0";
    let cases: [(&[u8], u64, u64); 2] = [(b"", 17, 1), (text, 27, 7)];
    for (b, len, generation) in cases {
        let mut counts = no_counts();
        match Journal::open(alloc, disk_failing(alloc, b"", b, &[])?, &mut counts) {
            Ok(opened) => {
                assert_eq!(rt;
                    (opened.len, opened.journal.generation()),
                    (len, generation)
                );
            }
            Err(_) => return Err(Fail::from("not opened")),
        }
    }
    Ok(())
}

// A side of this version and generation, with a batch.
fn side_of(version: u8, generation: u64) -> [u8; 27] {
    let mut side = *b"\x01TFL\0\0\0\0\0\0\0\0\0\0\0\0\x01\0\0\0\0\0\0\0\x01a\0";
    side[4] = version;
    side[8..16].copy_from_slice(&generation.to_be_bytes());
    side
}

#[test]
fn a_replay_is_told_the_version_of_the_side_in_use(rt: HostRuntime) -> Result<(), Fail> {
    let alloc = rt.alloc();
    let (first, second, third) = (side_of(1, 7), side_of(2, 7), side_of(3, 7));
    // Where there is no log, none is told, and one of the newest version is made.
    let cases: [(&[u8], u8, u8); 4] = [
        (b"", 0, 3),
        (&first, 1, 1),
        (&second, 2, 2),
        (&third, 3, 3),
    ];
    for (a, told, version) in cases {
        let mut counts = no_counts();
        match Journal::open(alloc, disk_failing(alloc, a, b"", &[])?, &mut counts) {
            Ok(opened) => {
                assert_eq!(rt; (counts.version, opened.journal.version()), (told, version));
            }
            Err(_) => return Err(Fail::from("not opened")),
        }
    }
    Ok(())
}

// Rewrites a log as one of the newest version: whether all was done.
fn renews(journal: &mut Journal<MemoryDisk>, piece: &Piece) -> bool {
    begins(journal) && copies(journal, piece) && finishes(journal)
}

#[test]
fn a_log_of_an_older_version_is_rewritten_as_one_of_the_newest(
    rt: HostRuntime,
) -> Result<(), Fail> {
    let alloc = rt.alloc();
    let mut piece = Piece::new(alloc)?;
    piece.push(b"a")?;
    let last = u64::MAX;
    for (version, generation, next) in [
        (1u8, 1u64, 2u64),
        (1, 1 << 63, (1 << 63) + 1),
        (2, 1, 2),
        (2, last - 1, last),
    ] {
        let old = side_of(version, generation);
        let Ok(mut journal) = open(alloc, disk_failing(alloc, &old, b"", &[])?).0 else {
            return Err(Fail::from("not opened"));
        };
        assert_eq!(rt;
            (journal.version(), journal.generation()),
            (version, generation)
        );
        // No record goes to the old side.
        assert!(rt; !journal.has_room(1));
        assert_eq!(rt; journal.commit(), Ok(()));
        assert!(rt; renews(&mut journal, &piece));
        assert_eq!(rt; (journal.version(), journal.generation()), (3, next));
        assert!(rt; write(&mut journal, b"b"));
        let mut disk = journal.retire();
        let mut new = side_of(3, next);
        let mut bytes = [b'.'; 27];
        assert_eq!(rt; disk.read(Side::A, 0, &mut bytes), Ok(27));
        assert_eq!(rt; bytes, old);
        assert_eq!(rt; disk.read(Side::B, 0, &mut bytes), Ok(27));
        new[26] = 1;
        assert_eq!(rt; bytes, new);
        let (again, held) = open(alloc, disk);
        assert_eq!(rt; held, 2195);
        let Ok(journal) = again else {
            return Err(Fail::from("not opened again"));
        };
        assert_eq!(rt; (journal.version(), journal.generation()), (3, next));
    }
    Ok(())
}

#[test]
fn each_image_of_a_rewriting_of_an_older_log_holds_its_batches(
    rt: HostRuntime,
) -> Result<(), Fail> {
    let alloc = rt.alloc();
    let mut piece = Piece::new(alloc)?;
    piece.push(b"a")?;
    let old = side_of(2, 2);
    for failing in 1u64..100 {
        let disk = disk_failing(alloc, &old, b"", &[failing])?;
        let (disk, done) = match open(alloc, disk).0 {
            Ok(mut journal) => {
                let done = renews(&mut journal, &piece);
                assert_eq!(rt; journal.has_failed(), !done);
                (journal.retire(), done)
            }
            Err((disk, why)) => {
                assert_eq!(rt; why, OpenFault::Disk);
                (disk, false)
            }
        };
        // Where no call failed, each moment.
        let from = if done { 0 } else { disk.moment() };
        for moment in from..=disk.moment() {
            for choice in 0u64..27 {
                let (image, found) = open(alloc, disk.image(moment, choice)?);
                assert_eq!(rt; found, 1097, "{failing} {moment} {choice}");
                match image {
                    Ok(journal) => {
                        assert_eq!(rt; u64::from(journal.version()), journal.generation());
                    }
                    Err(_) => return Err(Fail::from("an image is damaged")),
                }
            }
        }
        if done {
            assert_eq!(rt; failing, 19);
            return Ok(());
        }
    }
    Err(Fail::from("a call failed each time"))
}
