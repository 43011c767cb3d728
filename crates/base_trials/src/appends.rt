//! Tests of a log over a disk in memory: each call fails once, each crash is opened.

use append_log::{AppendLog, Gate, LogFault, Reader, Start, start_log};
use log_sides::NEWEST;
use outside::{Disk, MemoryDisk, PlainDisk, Side};
use std::alloc::Global;
use std::process::Abort;
use std::test::Fail;

// A disk of which these calls fail.
fn disk_failing(alloc: Global, failing: &[u64]) -> Result<MemoryDisk, Fail> {
    let failing = failing.to_vec(alloc)?;
    Ok(MemoryDisk::new(alloc, Vec::new(alloc), Vec::new(alloc), failing))
}

// What a disk holds: how many batches, the sum of their lengths and where the last gate is, or a negative number.
fn held<D: Disk>(disk: &mut D) -> i64 {
    let Ok(start) = start_log(disk) else {
        return -1
    };
    match start {
        Start::Fresh => 0,
        Start::Damaged { .. } => -2,
        Start::Standing { side, len, .. } => {
            if len > 1000 {
                return -3;
            }
            batches(disk, Reader::new(side, len))
        }
    }
}

fn batches<D: Disk>(disk: &mut D, mut reader: Reader) -> i64 {
    let mut all = 0i64;
    let mut piece = [0u8; 2];
    for _ in 0..100 {
        match reader.next_batch(disk) {
            Ok(Gate::Open(_)) => {
                all = all.saturating_add(1000);
                for _ in 0..100 {
                    if reader.left() == 0 {
                        break;
                    }
                    match reader.next_piece(disk, &mut piece) {
                        Ok(count) => {
                            for byte in piece.iter().take(count) {
                                all = all.saturating_add(i64::from(*byte));
                            }
                        }
                        Err(_) => return -4,
                    }
                }
            }
            Ok(Gate::Closed) => return all.saturating_add(1),
            Ok(Gate::Damaged(_)) => return -5,
            Err(_) => return -6,
        }
    }
    -7
}

#[test]
fn a_fresh_side_and_two_batches(rt: HostRuntime) -> Result<(), Fail> {
    let alloc = rt.alloc();
    let mut disk = disk_failing(alloc, &[])?;
    let Ok(mut log) = AppendLog::make(alloc, &mut disk, Side::A, 1) else {
        return Err(Fail::from("no log"));
    };
    assert!(rt; log.has_room(3));
    assert_eq!(rt; log.push(b"xyz"), Ok(()));
    assert_eq!(rt; log.commit(&mut disk), Ok(()));
    assert_eq!(rt; log.last_batch(), b"\x01\0\0\0\0\0\0\0\x03xyz\0".as_slice());
    assert!(rt; log.has_room(1));
    assert_eq!(rt; log.push(b"a"), Ok(()));
    assert_eq!(rt; log.pending(), 1);
    assert_eq!(rt; log.commit(&mut disk), Ok(()));
    assert_eq!(rt; log.commit(&mut disk), Ok(()));
    assert_eq!(rt; log.last_batch(), b"".as_slice());
    let mut bytes = [b'.'; 41];
    assert_eq!(rt; disk.read(Side::A, 0, &mut bytes), Ok(39));
    assert_eq!(rt;
        bytes.as_slice(),
        b"\x01TFL\x03\0\0\0\0\0\0\0\0\0\0\x01\x01\0\0\0\0\0\0\0\x03xyz\x01\0\0\0\0\0\0\0\x01a\0..".as_slice()
    );
    assert_eq!(rt; held(&mut disk), 2461);
    Ok(())
}

// The bytes in front of the closed gate, from places on.
#[test]
fn bytes_in_front_of_the_gate(rt: HostRuntime) -> Result<(), Fail> {
    let alloc = rt.alloc();
    let mut disk = disk_failing(alloc, &[])?;
    let Ok(mut log) = AppendLog::make(alloc, &mut disk, Side::A, 1) else {
        return Err(Fail::from("no log"));
    };
    assert!(rt; put(&mut log, &mut disk, b"xyz"));
    assert_eq!(rt; log.gate(), 28);
    let mut bytes = [b'.'; 13];
    if log.gate() >= 16 {
        assert_eq!(rt; log.read(&mut disk, 16, &mut bytes), Ok(12));
    }
    assert_eq!(rt; bytes.as_slice(), b"\x01\0\0\0\0\0\0\0\x03xyz.".as_slice());
    let mut few = [b'.'; 2];
    if log.gate() >= 25 {
        assert_eq!(rt; log.read(&mut disk, 25, &mut few), Ok(2));
    }
    assert_eq!(rt; few.as_slice(), b"xy".as_slice());
    Ok(())
}

// Commits a batch.
fn put(log: &mut AppendLog, disk: &mut MemoryDisk, batch: &[u8]) -> bool {
    log.version() == NEWEST
        && log.has_room(batch.len())
        && log.push(batch).is_ok()
        && log.commit(disk).is_ok()
}

// Makes a side and commits a batch and then another: whether the second commit did.
fn commits(alloc: Global, disk: &mut MemoryDisk) -> Result<bool, Fail> {
    let Ok(mut log) = AppendLog::make(alloc, disk, Side::A, 1) else {
        return Err(Fail::from("no log"));
    };
    if !put(&mut log, disk, b"xyz") {
        return Err(Fail::from("no first commit"));
    }
    Ok(put(&mut log, disk, b"abcd"))
}

// What an image of the disk holds.
fn held_at(disk: &MemoryDisk, moment: u64, choice: u64) -> Result<i64, Fail> {
    if moment > disk.moment() {
        return Err(Fail::from("a moment to come"));
    }
    let mut image = disk.image(moment, choice)?;
    Ok(held(&mut image))
}

// Each image from a moment on holds what stood before or what stands after, and of the last moment what stands after where all was done.
fn each_holds(
    rt: &impl Abort,
    disk: &MemoryDisk,
    from: u64,
    (before, after): (i64, i64),
    done: bool,
) -> Result<(), Fail> {
    for moment in from..=disk.moment() {
        for choice in 0u64..9 {
            let found = held_at(disk, moment, choice)?;
            let last = done && moment == disk.moment();
            assert!(rt;
                found == after || !last && found == before,
                "{moment} {choice} {found}"
            );
        }
    }
    Ok(())
}

#[test]
fn each_image_of_a_commit_holds_the_batches_before_or_after(rt: HostRuntime) -> Result<(), Fail> {
    let alloc = rt.alloc();
    // Making the side takes 8 calls, the first commit 4. Of the second one the first to the last fails, or none.
    for failing in 13u64..18 {
        let mut disk = disk_failing(alloc, &[failing])?;
        let done = commits(alloc, &mut disk)?;
        assert_eq!(rt; done, failing == 17);
        each_holds(&rt, &disk, 12, (1364, 2758), done)?;
    }
    Ok(())
}

// Makes a side: whether that was done, and failed for the disk alone.
fn makes(alloc: Global, disk: &mut MemoryDisk) -> Result<bool, Fail> {
    match AppendLog::make(alloc, disk, Side::A, 1) {
        Ok(_) => Ok(true),
        Err(LogFault::Disk) => Ok(false),
        Err(_) => Err(Fail::from("another fault")),
    }
}

#[test]
fn each_image_of_a_new_side_is_fresh_or_stands(rt: HostRuntime) -> Result<(), Fail> {
    let alloc = rt.alloc();
    for failing in 1u64..10 {
        let mut disk = disk_failing(alloc, &[failing])?;
        let made = makes(alloc, &mut disk)?;
        assert_eq!(rt; made, failing == 9);
        each_holds(&rt, &disk, 0, (0, 1), made)?;
    }
    Ok(())
}

#[test]
fn a_log_over_a_plain_disk(rt: HostRuntime) -> Result<(), Fail> {
    let alloc = rt.alloc();
    let mut disk = PlainDisk::new(alloc);
    let Ok(mut log) = AppendLog::make(alloc, &mut disk, Side::B, 7) else {
        return Err(Fail::from("no log"));
    };
    assert!(rt; log.has_room(1));
    assert_eq!(rt; log.push(b"a"), Ok(()));
    assert_eq!(rt; log.commit(&mut disk), Ok(()));
    assert_eq!(rt; (log.version(), log.generation()), (NEWEST, 7));
    assert_eq!(rt;
        start_log(&mut disk),
        Ok(Start::Standing {
            side: Side::B,
            version: NEWEST,
            generation: 7,
            len: 27
        })
    );
    assert_eq!(rt; held(&mut disk), 1098);
    assert_eq!(rt; disk.cut(Side::B, 26), Ok(()));
    assert_eq!(rt; held(&mut disk), -5);
    Ok(())
}

// A side of this version and generation, without a batch.
fn side_of(version: u8, generation: u64) -> [u8; 17] {
    let mut side = *b"\x01TFL\0\0\0\0\0\0\0\0\0\0\0\0\0";
    side[4] = version;
    side[8..16].copy_from_slice(&generation.to_be_bytes());
    side
}

// What stands on a disk with these sides.
fn start_of(alloc: Global, a: &[u8], b: &[u8]) -> Result<Start, Fail> {
    let mut disk = MemoryDisk::new(alloc, a.to_vec(alloc)?, b.to_vec(alloc)?, Vec::new(alloc));
    match start_log(&mut disk) {
        Ok(start) => Ok(start),
        Err(_) => Err(Fail::from("no start")),
    }
}

fn standing(side: Side, version: u8, generation: u64) -> Start {
    Start::Standing {
        side,
        version,
        generation,
        len: 17,
    }
}

fn damaged(side: Side, place: u64) -> Start {
    Start::Damaged { side, place }
}

#[test]
fn a_header_has_a_version_and_a_generation_of_it(rt: HostRuntime) -> Result<(), Fail> {
    let alloc = rt.alloc();
    let last = u64::MAX;
    let rows: [(u8, u64, Start); 18] = [
        (1, 1, standing(Side::A, 1, 1)),
        (2, 1, standing(Side::A, 2, 1)),
        (3, 1, standing(Side::A, 3, 1)),
        (0, 1, damaged(Side::A, 4)),
        (4, 1, damaged(Side::A, 4)),
        (255, 1, damaged(Side::A, 4)),
        (0, 0, damaged(Side::A, 4)),
        (4, last, damaged(Side::A, 4)),
        (1, 0, damaged(Side::A, 8)),
        (2, 0, damaged(Side::A, 8)),
        (3, 0, damaged(Side::A, 8)),
        (1, last, damaged(Side::A, 8)),
        (2, last, damaged(Side::A, 8)),
        (3, last, standing(Side::A, 3, last)),
        (1, last - 1, standing(Side::A, 1, last - 1)),
        (2, last - 1, standing(Side::A, 2, last - 1)),
        (1, 1 << 63, standing(Side::A, 1, 1 << 63)),
        (3, 1 << 63, standing(Side::A, 3, 1 << 63)),
    ];
    for (version, generation, start) in rows {
        let found = start_of(alloc, &side_of(version, generation), b"")?;
        assert_eq!(rt; found, start, "{version} {generation}");
    }
    Ok(())
}

#[test]
fn sides_of_two_versions_stand_beside_each_other(rt: HostRuntime) -> Result<(), Fail> {
    let alloc = rt.alloc();
    let rows: [((u8, u64), (u8, u64), Start); 9] = [
        ((1, 5), (1, 4), standing(Side::A, 1, 5)),
        ((1, 5), (2, 4), standing(Side::A, 1, 5)),
        ((1, 5), (3, 6), standing(Side::B, 3, 6)),
        ((3, 5), (1, 6), standing(Side::B, 1, 6)),
        ((2, 5), (3, 4), standing(Side::A, 2, 5)),
        ((1, 5), (3, 5), damaged(Side::B, 8)),
        ((1, 5), (4, 4), damaged(Side::B, 4)),
        ((4, 5), (3, 6), damaged(Side::A, 4)),
        ((0, 5), (4, 6), damaged(Side::A, 4)),
    ];
    for ((version, generation), (other, later), start) in rows {
        let found = start_of(alloc, &side_of(version, generation), &side_of(other, later))?;
        assert_eq!(rt; found, start, "{version} {generation} {other} {later}");
    }
    Ok(())
}

#[test]
fn the_first_wrong_byte_of_a_header_is_told(rt: HostRuntime) -> Result<(), Fail> {
    let alloc = rt.alloc();
    // Each place, and what it tells, with all behind it wrong, too.
    for (at, place) in [(3, 1), (4, 4), (7, 5), (15, 8)] {
        let mut side = side_of(1, 1);
        side[at] = 0;
        for byte in side[at..15].iter_mut() {
            *byte = 9;
        }
        if at == 15 {
            side[15] = 0;
        }
        assert_eq!(rt;
            start_of(alloc, &side, b"")?,
            damaged(Side::A, place),
            "{at}"
        );
    }
    Ok(())
}
