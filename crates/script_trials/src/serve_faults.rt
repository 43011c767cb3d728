//! Callers who are served over a disk that fails at each call in turn: each was told a beginning of what it is told
//! otherwise, and whatever a crash leaves then holds the changes that were acknowledged.
//!
//! The script is never read. Its lines have the callers' changes in order, and the world behind each, as in `worlds`.

use crate::cases::Case;
use crate::crashes::{Between, crash};
use crate::disks::fresh_disk_failing;
use crate::faults::Fault;
use crate::plays::{asked, words_of};
use crate::texts::push_line;
use crate::turns::{MOST_CALLS, push_made};
use byte_text::{Text, push_u64};
use outside::{Disk, MemoryDisk};
use std::alloc::Global;
use std::sync::Wait;
use std::thread::Threads;
use tile_top::Ended;

// What stands before and behind these lines of what came.
fn parts<'a>(came: &'a Text, lines: &str) -> Result<(&'a str, &'a str), Fault> {
    let Ok(came) = str::from_utf8(came.bytes()) else {
        return Err(Fault::Line);
    };
    match came.split_once(lines) {
        Some(parts) => Ok(parts),
        None => Err(Fault::Step),
    }
}

// Whether each line is a beginning of the one in its place.
fn are_begun(lines: &str, begun: &str) -> bool {
    let mut others = begun.lines();
    for line in lines.lines() {
        if !line.starts_with(others.next().unwrap_or("none")) {
            return false;
        }
    }
    others.next().is_none()
}

// Serves the callers over a disk whose call of this number fails; none where it is 0.
fn served<R: Wait + Threads + Sync>(
    rt: &R,
    alloc: Global,
    case: &Case,
    failing: u64,
) -> Result<(Option<MemoryDisk>, Text), Fault> {
    let words = words_of(alloc, "serve door")?;
    let disk = fresh_disk_failing(alloc, case, failing)?;
    let (ended, came) = asked(rt, alloc, words.as_slice(), case, disk)?;
    let Ended {
        status: _status,
        disk,
        front: _front,
    } = ended;
    Ok((disk, came))
}

// How many changes were acknowledged, where the server ended as the disk failed, and all went on up to there as over a
// disk that doesn't fail.
fn acknowledged(whole: &Text, came: &Text) -> Option<usize> {
    let (printed, told) = parts(whole, "status 0\n").ok()?;
    let (begun, so_far) = parts(came, "disk fault\nstatus 5\n").ok()?;
    let is_whole = begun.is_empty() || begun.ends_with('\n');
    if is_whole && printed.starts_with(begun) && are_begun(told, so_far) {
        Some(so_far.split("+OK").count().saturating_sub(1))
    } else {
        None
    }
}

// Looks at what a crash leaves of the disk that failed.
fn look(
    alloc: Global,
    out: &mut Text,
    case: &Case,
    disk: Option<MemoryDisk>,
    stand: usize,
) -> Result<(), Fault> {
    let Some(disk) = disk else {
        return push_line(out, b"no disk");
    };
    let script = case.lines()?;
    let between = Between {
        least: stand,
        most: script.lines().count(),
    };
    crash(alloc, out, script, &disk, disk.moment(), between)
}

// Serves the callers over a disk whose call of this number fails, and looks at what it leaves. Whether the call was made.
fn fail_at<R: Wait + Threads + Sync>(
    rt: &R,
    alloc: Global,
    out: &mut Text,
    case: &Case,
    whole: &Text,
    failing: u64,
) -> Result<bool, Fault> {
    let (disk, came) = served(rt, alloc, case, failing)?;
    if came.bytes() == whole.bytes() {
        return Ok(false);
    }
    match acknowledged(whole, &came) {
        Some(stand) => look(alloc, out, case, disk, stand)?,
        None => {
            push_u64(out, failing)?;
            push_line(out, b" failed, and then")?;
            out.push(came.bytes())?;
        }
    }
    Ok(true)
}

/// What comes of the callers, who are then served with each call of the disk failing in turn, until there is none.
/// Behind what is printed: whether they were more than the words say.
pub(crate) fn play_serve_faults<R: Wait + Threads + Sync>(
    rt: &R,
    alloc: Global,
    case: &Case,
) -> Result<Text, Fault> {
    let (_disk, whole) = served(rt, alloc, case, 0)?;
    let (printed, told) = parts(&whole, "status 0\n")?;
    let mut out = Text::of(alloc, printed.as_bytes())?;
    let mut made: u64 = 0;
    for failing in 1..MOST_CALLS {
        if !fail_at(rt, alloc, &mut out, case, &whole, failing)? {
            break;
        }
        made = failing;
    }
    push_made(case, &mut out, made)?;
    push_line(&mut out, b"status 0")?;
    out.push(told.as_bytes())?;
    Ok(out)
}
