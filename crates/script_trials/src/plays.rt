//! Cases are played, and what comes of them is written down.

use crate::bent_sides::play_bent;
use crate::cases::{Case, Over, Play};
use crate::cores::{play_drive, play_visits};
use crate::crashes::{play_crashes, play_disk_faults};
use crate::disks::{crashed, fresh_disk};
use crate::faults::Fault;
use crate::looks::push_seen;
use crate::openings::play_opening;
use crate::replay_faults::play_replay_faults;
use crate::serve_faults::play_serve_faults;
use crate::stream_faults::play_stream_faults;
use crate::texts::{push_escaped, push_last_line, push_line};
use crate::upgrades::play_upgrade;
use crate::web_plays::play_web;
use crate::workloads::play_workload;
use byte_text::{Text, push_u64};
use outside::{
    BytesSink, BytesSource, CallerScript, DoorScript, HandClock, MemoryDisk, Named, ScriptedDoor,
    ScriptedLink, ScriptedWait, Visit,
};
use std::alloc::Global;
use std::sync::Wait;
use std::thread::Threads;
use tile_top::{Ended, top};

/// So many bytes of the script are read at once.
pub(crate) const READ_AT_ONCE: usize = 7;

/// So many bytes of the output are written at once.
pub(crate) const WRITTEN_AT_ONCE: usize = 5;

/// What came of a case, and the disk that it left.
#[derive(Drop)]
pub(crate) struct Came {
    pub(crate) text: Text,
    pub(crate) disk: Option<MemoryDisk>,
}

// What a caller does, once more.
fn copied_caller(alloc: Global, caller: &CallerScript) -> Result<CallerScript, Fault> {
    Ok(CallerScript {
        sends: caller.sends.as_slice().to_vec(alloc)?,
        stays: caller.stays,
        reads: caller.reads.as_slice().to_vec(alloc)?,
        writes: caller.writes.as_slice().to_vec(alloc)?,
    })
}

// The door of a case.
fn door_of(alloc: Global, case: &Case) -> Result<ScriptedDoor, Fault> {
    let mut visits = Vec::new(alloc);
    for visit in case.door.visits.iter() {
        visits.push(match visit {
            Visit::Comes(caller) => Visit::Comes(copied_caller(alloc, caller)?),
            Visit::Nobody => Visit::Nobody,
            Visit::Fails => Visit::Fails,
        })?;
    }
    let script = DoorScript {
        visits,
        stays: case.door.stays,
        opens: case.door.opens,
    };
    Ok(ScriptedDoor::new(alloc, script))
}

// The one that waits in a case.
fn wait_of(alloc: Global, case: &Case) -> Result<ScriptedWait, Fault> {
    let mut waits: Vec<Vec<Named>> = Vec::new(alloc);
    for names in case.waits.iter() {
        waits.push(names.as_slice().to_vec(alloc)?)?;
    }
    Ok(ScriptedWait::new(alloc, waits)?)
}

// The disk over which a case is played.
fn disk_of(alloc: Global, case: &Case, left: Option<MemoryDisk>) -> Result<MemoryDisk, Fault> {
    match (case.over, left) {
        (Over::Fresh, _) => fresh_disk(alloc, case),
        (Over::Again, Some(disk)) => Ok(disk),
        (Over::Crash(moment, choice), Some(disk)) => crashed(&disk, moment, choice),
        (_, None) => Err(Fault::Line),
    }
}

/// The words of a line, as words of the program.
pub(crate) fn words_of(alloc: Global, line: &str) -> Result<Vec<String>, Fault> {
    let mut all = Vec::new(alloc);
    if line.is_empty() {
        return Ok(all);
    }
    for word in line.split(' ') {
        all.push(word.to_string(alloc)?)?;
    }
    Ok(all)
}

// What the caller of this number was written, whose link was shut; nothing where none was.
fn written_to(links: &[ScriptedLink], caller: u64) -> &[u8] {
    for link in links.iter() {
        if link.caller() == caller {
            return link.written();
        }
    }
    b""
}

// Appends what each of so many callers was written.
fn push_told(
    alloc: Global,
    out: &mut Text,
    wait: &ScriptedWait,
    callers: u64,
) -> Result<(), Fault> {
    for caller in 0..callers {
        out.push(b"told ")?;
        push_escaped(alloc, out, written_to(wait.shut_links(), caller))?;
        out.push(b"\n")?;
    }
    Ok(())
}

/// Asks for what the words say: the script is read and its output written in small pieces. How it ended, what was
/// written, and what each caller was.
pub(crate) fn asked<R: Wait + Threads + Sync>(
    rt: &R,
    alloc: Global,
    words: &[String],
    case: &Case,
    disk: MemoryDisk,
) -> Result<(Ended<MemoryDisk>, Text), Fault> {
    let fails = &case.fails;
    let script = case.script.bytes().to_vec(alloc)?;
    let mut source = BytesSource::new(script, READ_AT_ONCE, fails.source.as_slice().to_vec(alloc)?);
    let mut sink = BytesSink::new(alloc, WRITTEN_AT_ONCE, fails.sink.as_slice().to_vec(alloc)?);
    let mut door = door_of(alloc, case)?;
    let mut wait = wait_of(alloc, case)?;
    let clock = HandClock::at(7);
    let ended = top(
        rt,
        alloc,
        words,
        &mut source,
        &mut sink,
        disk,
        &mut door,
        &clock,
        &mut wait,
    );
    let came = written(alloc, case, &sink, &wait, ended.status)?;
    Ok((ended, came))
}

// Appends which caller's link was shut last, where a case asks for it.
fn push_last(out: &mut Text, case: &Case, wait: &ScriptedWait) -> Result<(), Fault> {
    match (case.last, wait.shut_links().last()) {
        (Some(_), Some(link)) => push_last_line(out, link.caller()),
        _ => Ok(()),
    }
}

// What was written, the status, and what each caller was written.
fn written(
    alloc: Global,
    case: &Case,
    sink: &BytesSink,
    wait: &ScriptedWait,
    status: u8,
) -> Result<Text, Fault> {
    let mut text = Text::of(alloc, sink.written())?;
    text.push(b"status ")?;
    push_u64(&mut text, u64::from(status))?;
    text.push(b"\n")?;
    push_told(alloc, &mut text, wait, case.told.len() as u64)?;
    push_last(&mut text, case, wait)?;
    Ok(text)
}

// Appends what is seen on the disk at the end.
fn push_looks(
    alloc: Global,
    out: &mut Text,
    case: &Case,
    disk: &mut MemoryDisk,
) -> Result<(), Fault> {
    for (look, _) in case.looks.iter() {
        let mut seen = Text::new(alloc);
        push_seen(alloc, &mut seen, disk, *look)?;
        out.push(b"seen ")?;
        push_line(out, seen.bytes())?;
    }
    Ok(())
}

// The program's one call is asked for what the words say, and what is left is looked at.
fn play_top<R: Wait + Threads + Sync>(
    rt: &R,
    alloc: Global,
    case: &Case,
    disk: MemoryDisk,
) -> Result<Came, Fault> {
    let words = match &case.words {
        Some(_) => words_of(alloc, case.asked()?)?,
        None => words_of(alloc, "replay")?,
    };
    let (ended, text) = asked(rt, alloc, words.as_slice(), case, disk)?;
    seen_behind(alloc, case, ended, text)
}

/// What came, and what is seen on the disk behind it.
pub(crate) fn seen_behind(
    alloc: Global,
    case: &Case,
    ended: Ended<MemoryDisk>,
    text: Text,
) -> Result<Came, Fault> {
    let mut text = text;
    let Ended {
        status: _status,
        disk,
        front: _front,
    } = ended;
    let Some(mut disk) = disk else {
        push_line(&mut text, b"no disk")?;
        return Ok(Came { text, disk: None });
    };
    push_looks(alloc, &mut text, case, &mut disk)?;
    Ok(Came {
        text,
        disk: Some(disk),
    })
}

// What came of a case that has no status of its own: the lines, and status 0.
fn came_of(lines: Text, disk: Option<MemoryDisk>) -> Result<Came, Fault> {
    let mut text = lines;
    push_line(&mut text, b"status 0")?;
    Ok(Came { text, disk })
}

fn without_disk(lines: Text) -> Result<Came, Fault> {
    came_of(lines, None)
}

// A core is asked for the workload, and leaves the disk with its log.
fn recorded(alloc: Global, case: &Case, disk: MemoryDisk) -> Result<Came, Fault> {
    let (lines, disk) = play_workload(alloc, case, disk)?;
    came_of(lines, Some(disk))
}

/// Plays a case over the disk that it asks for, where the case before left this one.
pub(crate) fn play<R: Wait + Threads + Sync>(
    rt: &R,
    alloc: Global,
    case: &Case,
    left: Option<MemoryDisk>,
) -> Result<Came, Fault> {
    match case.play {
        Play::Top => play_top(rt, alloc, case, disk_of(alloc, case, left)?),
        Play::Opening => without_disk(play_opening(alloc, disk_of(alloc, case, left)?)?),
        Play::Crashes => without_disk(play_crashes(alloc, case)?),
        Play::DiskFaults => without_disk(play_disk_faults(alloc, case)?),
        Play::ReplayFaults => without_disk(play_replay_faults(rt, alloc, case)?),
        Play::StreamFaults(stream) => without_disk(play_stream_faults(rt, alloc, case, stream)?),
        Play::ServeFaults => Ok(Came {
            text: play_serve_faults(rt, alloc, case)?,
            disk: None,
        }),
        Play::Web => play_web(rt, alloc, case, disk_of(alloc, case, left)?),
        Play::Bent(side, bend) => without_disk(play_bent(rt, alloc, case, side, bend)?),
        Play::Upgrade => without_disk(play_upgrade(alloc, case)?),
        Play::Visits => without_disk(play_visits(alloc, case)?),
        Play::Drive => without_disk(play_drive(alloc, case)?),
        Play::Workload => recorded(alloc, case, disk_of(alloc, case, left)?),
    }
}
