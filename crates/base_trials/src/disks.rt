//! Disks in memory: images after crashes, and calls that fail.

use crate::tables::{Answers, are_answered};
use byte_text::{Text, read_u64};
use outside::{Disk, Failed, MemoryDisk, PlainDisk, Side, write_durably};
use std::alloc::Global;
use std::test::Fail;

// In each line steps on a disk that holds `abc` on side A and nothing on side B, a moment and behind it what the images of that moment hold,
// by choice: side A, a colon and side B. A step is a side and a write (`A1XY`), a cut (`A2`) or a sync (`A`); of bytes `.` is a zero, and `?`
// stands for a byte of value 1, which was lost.
const CRASHES: &str = "
    A1XY A2 @2 9 => abc: aXY: a??: ab: aX: a?: ab: aX: a?:
    A0X A A4Z @3 3 => Xbc: Xbc.Z: Xbc.?:
    A0P A1Q A @3 4 => PQc: PQc: PQc: PQc:
    A0P A1Q A @2 9 => abc: Pbc: ?bc: aQc: PQc: ?Qc: a?c: P?c: ??c:
    B0Y A1 A @3 3 => a: a:Y a:?
    A0 A0Z @2 9 => abc: : : Zbc: Z: Z: ?bc: ?: ?:
    ";

fn side_of(letter: u8) -> Side {
    if letter == b'B' { Side::B } else { Side::A }
}

// A write of at most eight bytes at one of the first places.
fn write(disk: &mut MemoryDisk, side: Side, place: u64, piece: &[u8]) -> Result<(), Failed> {
    if place > 9 || piece.len() > 8 {
        return Err(Failed);
    }
    disk.write_at(side, place, piece)
}

// The number of a digit.
fn digit(letter: u8) -> u64 {
    u64::from(letter.wrapping_sub(b'0'))
}

// A sync, a cut or a write.
fn step(disk: &mut MemoryDisk, word: &[u8]) -> Result<(), Failed> {
    match word {
        [letter] => disk.sync(side_of(*letter)),
        [letter, len] => disk.cut(side_of(*letter), digit(*len)),
        [letter, place, piece @ ..] => write(disk, side_of(*letter), digit(*place), piece),
        [] => Err(Failed),
    }
}

fn steps(disk: &mut MemoryDisk, words: &str) -> Result<(), Failed> {
    for word in words.split(' ') {
        step(disk, word.as_bytes())?;
    }
    Ok(())
}

// Appends the bytes of a side, of which there are at most 16, and `!` where it has another length.
fn push_side<D: Disk>(out: &mut Text, disk: &mut D, side: Side) -> Result<(), Fail> {
    let mut into = [0u8; 16];
    let count = disk.read(side, 0, &mut into)?;
    for byte in into.iter().take(count) {
        let shown = match *byte {
            0 => b'.',
            1 => b'?',
            other => other,
        };
        out.push(&[shown])?;
    }
    if disk.len(side) != Ok(count as u64) {
        out.push(b"!")?;
    }
    Ok(())
}

// Appends what an image holds.
fn push_image(out: &mut Text, disk: &MemoryDisk, moment: u64, choice: u64) -> Result<(), Fail> {
    if moment > disk.moment() {
        return Err(Fail::from("a moment to come"));
    }
    let mut image = disk.image(moment, choice)?;
    push_side(out, &mut image, Side::A)?;
    out.push(b":")?;
    push_side(out, &mut image, Side::B)
}

// What so many images of a moment hold, by choice.
fn images(alloc: Global, disk: &MemoryDisk, moment: u64, count: u64) -> Result<Text, Fail> {
    let mut text = Text::new(alloc);
    for choice in 0..count {
        if choice > 0 {
            text.push(b" ")?;
        }
        push_image(&mut text, disk, moment, choice)?;
    }
    Ok(text)
}

struct Crashes;

impl Answers for Crashes {
    fn answer(alloc: Global, case: &str) -> Result<Text, Fail> {
        let (words, behind) = case.split_once(" @").ok_or("a moment")?;
        let (moment, count) = behind.split_once(' ').ok_or("a count")?;
        let moment = read_u64(moment.as_bytes())?;
        let count = read_u64(count.as_bytes())?;
        let abc = b"abc".to_vec(alloc)?;
        let mut disk = MemoryDisk::new(alloc, abc, Vec::new(alloc), Vec::new(alloc));
        steps(&mut disk, words)?;
        images(alloc, &disk, moment, count)
    }
}

#[test]
fn a_crash_leaves_what_the_rule_says(rt: HostRuntime) -> Result<(), Fail> {
    are_answered::<Crashes>(&rt, rt.alloc(), CRASHES)
}

// What the sides of a disk hold.
fn held<D: Disk>(alloc: Global, disk: &mut D) -> Result<Text, Fail> {
    let mut text = Text::new(alloc);
    push_side(&mut text, disk, Side::A)?;
    text.push(b":")?;
    push_side(&mut text, disk, Side::B)?;
    Ok(text)
}

#[test]
fn a_call_that_is_to_fail_changes_nothing(rt: HostRuntime) -> Result<(), Fail> {
    let alloc = rt.alloc();
    let failing = [1, 4, 6, 8, 10u64].to_vec(alloc)?;
    let mut disk = MemoryDisk::new(alloc, b"abc".to_vec(alloc)?, b"d".to_vec(alloc)?, failing);
    assert_eq!(rt; disk.write_at(Side::B, 1, b"e"), Err(Failed));
    let mut into = [0; 2];
    assert_eq!(rt; disk.read(Side::B, 0, &mut into), Ok(1));
    assert_eq!(rt; into, *b"d\0");
    assert_eq!(rt; disk.len(Side::B), Ok(1));
    assert_eq!(rt; disk.len(Side::A), Err(Failed));
    assert_eq!(rt; disk.sync(Side::A), Ok(()));
    assert_eq!(rt; disk.cut(Side::A, 0), Err(Failed));
    assert_eq!(rt; disk.cut(Side::A, 5), Ok(()));
    assert_eq!(rt; disk.sync(Side::A), Err(Failed));
    assert_eq!(rt; disk.read(Side::A, 1, &mut into), Ok(2));
    assert_eq!(rt; into, *b"bc");
    assert_eq!(rt; disk.read(Side::A, 0, &mut into), Err(Failed));
    assert_eq!(rt; disk.read(Side::A, 9, &mut into), Ok(0));
    assert_eq!(rt; disk.moment(), 6);
    Ok(())
}

// The choice is that no write happened which a crash may undo.
fn crashed(alloc: Global, disk: &MemoryDisk) -> Result<Text, Fail> {
    images(alloc, disk, disk.moment(), 1)
}

#[test]
fn a_durable_write_outlives_a_crash(rt: HostRuntime) -> Result<(), Fail> {
    let alloc = rt.alloc();
    let abc = b"abc".to_vec(alloc)?;
    let failing = [4u64].to_vec(alloc)?;
    let mut disk = MemoryDisk::new(alloc, abc, Vec::new(alloc), failing);
    assert_eq!(rt; write_durably(&mut disk, Side::A, 1, b"XY"), Ok(()));
    assert_eq!(rt; crashed(alloc, &disk)?.bytes(), b"aXY:".as_slice());
    assert_eq!(rt; write_durably(&mut disk, Side::B, 0, b"Z"), Err(Failed));
    Ok(())
}

#[test]
fn a_plain_disk_holds_its_bytes(rt: HostRuntime) -> Result<(), Fail> {
    let alloc = rt.alloc();
    let mut disk = PlainDisk::new(alloc);
    assert_eq!(rt; disk.write_at(Side::B, 2, b"xyz"), Ok(()));
    assert_eq!(rt; disk.cut(Side::B, 4), Ok(()));
    assert_eq!(rt; disk.sync(Side::B), Ok(()));
    assert_eq!(rt; held(alloc, &mut disk)?.bytes(), b":..xy".as_slice());
    let mut into = [b'.'; 5];
    assert_eq!(rt; disk.read(Side::B, 1, &mut into), Ok(3));
    assert_eq!(rt; into, *b"\0xy..");
    Ok(())
}
