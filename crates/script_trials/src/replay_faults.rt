//! A script that the program's one call plays over a disk that fails at each call in turn.

use crate::cases::Case;
use crate::crashes::{CHOICES, choice};
use crate::disks::{crashed, disk_failing};
use crate::faults::Fault;
use crate::plays::{asked, words_of};
use crate::texts::push_line;
use crate::turns::{MOST_CALLS, push_made};
use byte_text::{Text, push_u64};
use outside::{Disk, MemoryDisk};
use std::alloc::Global;
use std::sync::Wait;
use std::thread::Threads;
use tile_top::Ended;

// How many lines of an output begin so.
fn count(output: &[u8], begin: &[u8]) -> u64 {
    let mut count: u64 = 0;
    for line in output.split(|byte| *byte == b'\n') {
        if line.starts_with(begin) {
            count = count.saturating_add(1);
        }
    }
    count
}

// The beginning of the line of a world of so many objects.
fn objects_line(alloc: Global, objects: u64) -> Result<Text, Fault> {
    let mut line = Text::of(alloc, b"objects ")?;
    push_u64(&mut line, objects)?;
    line.push(b" ")?;
    Ok(line)
}

// Whether an output begins with the line of so many objects, or of one more.
fn has_objects(alloc: Global, output: &[u8], objects: u64) -> Result<bool, Fault> {
    let least = objects_line(alloc, objects)?;
    let most = objects_line(alloc, objects.saturating_add(1))?;
    Ok(output.starts_with(least.bytes()) || output.starts_with(most.bytes()))
}

// Asks for what a word says, with the script of a case and over this disk.
fn asked_by<R: Wait + Threads + Sync>(
    rt: &R,
    alloc: Global,
    word: &str,
    case: &Case,
    disk: MemoryDisk,
) -> Result<(Ended<MemoryDisk>, Text), Fault> {
    let words = words_of(alloc, word)?;
    asked(rt, alloc, words.as_slice(), case, disk)
}

// Looks at a disk: what was acknowledged stands, and no more than was asked for. Another thing is told of.
fn check<R: Wait + Threads + Sync>(
    rt: &R,
    alloc: Global,
    out: &mut Text,
    case: &Case,
    disk: MemoryDisk,
    acknowledged: u64,
) -> Result<(), Fault> {
    let (ended, text) = asked_by(rt, alloc, "check", case, disk)?;
    if ended.status != 0 || !has_objects(alloc, text.bytes(), acknowledged)? {
        push_u64(out, acknowledged)?;
        push_line(out, b" acknowledged, and then")?;
        out.push(text.bytes())?;
    }
    Ok(())
}

// Looks at a disk that failed, and at whatever a crash leaves of it then.
fn look<R: Wait + Threads + Sync>(
    rt: &R,
    alloc: Global,
    out: &mut Text,
    case: &Case,
    disk: Option<MemoryDisk>,
    acknowledged: u64,
) -> Result<(), Fault> {
    let Some(disk) = disk else {
        return push_line(out, b"no disk");
    };
    for pick in 0..CHOICES {
        let image = crashed(&disk, disk.moment(), choice(pick))?;
        check(rt, alloc, out, case, image, acknowledged)?;
    }
    check(rt, alloc, out, case, disk, acknowledged)
}

// Plays the script on a disk whose call of this number fails, and looks at what is left. Whether the call was made.
fn fail_at<R: Wait + Threads + Sync>(
    rt: &R,
    alloc: Global,
    out: &mut Text,
    case: &Case,
    failing: u64,
) -> Result<bool, Fault> {
    let disk = disk_failing(alloc, failing)?;
    let (ended, text) = asked_by(rt, alloc, "replay", case, disk)?;
    let Ended {
        status,
        disk,
        front: _front,
    } = ended;
    if status == 0 {
        return Ok(false);
    }
    if !text.bytes().ends_with(b"disk fault\nstatus 5\n") {
        push_u64(out, failing)?;
        push_line(out, b" failed, and then")?;
        out.push(text.bytes())?;
    }
    let acknowledged = count(text.bytes(), b"frame ");
    look(rt, alloc, out, case, disk, acknowledged)?;
    Ok(true)
}

/// Plays a script on a disk that fails at each call in turn, until there is none. Then whether they were more than the
/// words say.
pub(crate) fn play_replay_faults<R: Wait + Threads + Sync>(
    rt: &R,
    alloc: Global,
    case: &Case,
) -> Result<Text, Fault> {
    let mut out = Text::new(alloc);
    let mut made: u64 = 0;
    for failing in 1..MOST_CALLS {
        if !fail_at(rt, alloc, &mut out, case, failing)? {
            break;
        }
        made = failing;
    }
    push_made(case, &mut out, made)?;
    Ok(out)
}
