//! A script over a disk that fails at each call in turn, and one that a crash ends at each moment: what was
//! acknowledged is there when the disk is opened again.

use crate::cases::Case;
use crate::disks::{crashed, disk_failing};
use crate::durables::{called, does_nothing, enter, open};
use crate::faults::Fault;
use crate::texts::push_line;
use crate::turns::{MOST_CALLS, push_made};
use crate::worlds::{NOTHING, Played, is_between, play_lines, world_of};
use byte_text::{Text, push_u64};
use durable_core::DurableCore;
use journal::OpenFault;
use outside::{Disk, MemoryDisk};
use std::alloc::Global;
use world_model::CallOutcome;

/// So many choices of what a crash leaves are tried at each moment.
pub(crate) const CHOICES: u64 = 27;

/// A choice whose digits in base 3 are those of a number under 27, again and again.
pub(crate) fn choice(pick: u64) -> u64 {
    pick.saturating_mul(1 + 27 + 729 + 19683)
}

// Appends the line of a world that is none of those that there may be.
fn push_wrong(out: &mut Text, moment: u64, pick: u64, world: &Text) -> Result<(), Fault> {
    out.push(b"at ")?;
    push_u64(out, moment)?;
    out.push(b" by ")?;
    push_u64(out, pick)?;
    out.push(b": ")?;
    push_line(out, world.bytes())
}

/// What a script may leave: the worlds behind some of its changes, at least so many and at most so many.
#[derive(Clone, Copy)]
pub(crate) struct Between {
    pub(crate) least: usize,
    pub(crate) most: usize,
}

/// A crash at this moment, whatever it leaves, is opened to a world that there may be. Others are told of.
pub(crate) fn crash(
    alloc: Global,
    out: &mut Text,
    script: &str,
    disk: &MemoryDisk,
    moment: u64,
    between: Between,
) -> Result<(), Fault> {
    for pick in 0..CHOICES {
        let world = world_of(alloc, crashed(disk, moment, choice(pick))?)?;
        if !is_between(script, between.least, between.most, world.bytes()) {
            push_wrong(out, moment, pick, &world)?;
        }
    }
    Ok(())
}

// The first lines of a script over a core: how far it was played, and the disk.
fn played_by(
    alloc: Global,
    core: DurableCore<MemoryDisk>,
    script: &str,
    lines: usize,
) -> Result<(Played, MemoryDisk), Fault> {
    let mut core = core;
    let played = play_lines(alloc, &mut core, script, lines);
    let disk = core.into_disk();
    match played {
        Ok(played) => Ok((played, disk)),
        Err(fault) => Err(fault),
    }
}

fn played_anew(alloc: Global, script: &str, lines: usize) -> Result<(Played, MemoryDisk), Fault> {
    let core = open(alloc, disk_failing(alloc, 0)?)?;
    played_by(alloc, core, script, lines)
}

// Crashes at each moment of a disk from one on.
fn crash_from(
    alloc: Global,
    out: &mut Text,
    script: &str,
    disk: &MemoryDisk,
    begun: u64,
    between: Between,
) -> Result<(), Fault> {
    for moment in begun..disk.moment().saturating_add(1) {
        crash(alloc, out, script, disk, moment, between)?;
    }
    Ok(())
}

fn generation(alloc: Global, disk: MemoryDisk) -> Result<u64, Fault> {
    let core = open(alloc, disk)?;
    Ok(core.generation())
}

// Appends how far a script was played, and the generation of its log.
fn push_end(out: &mut Text, played: Played, generation: u64) -> Result<(), Fault> {
    out.push(b"asked ")?;
    push_u64(out, played.asked as u64)?;
    out.push(b" stand ")?;
    push_u64(out, played.stand as u64)?;
    out.push(b" generation ")?;
    push_u64(out, generation)?;
    out.push(b"\n")?;
    Ok(())
}

/// Plays a script line by line, and has a crash at each moment of each line: it leaves the changes that were
/// acknowledged before the line, and no more than were asked for by its end. Then how far it was played.
pub(crate) fn play_crashes(alloc: Global, case: &Case) -> Result<Text, Fault> {
    let script = case.lines()?;
    let mut out = Text::new(alloc);
    let mut before = NOTHING;
    let mut begun = 0;
    for lines in 0..script.lines().count().saturating_add(1) {
        let (now, disk) = played_anew(alloc, script, lines)?;
        let between = Between {
            least: before.stand,
            most: now.asked,
        };
        crash_from(alloc, &mut out, script, &disk, begun, between)?;
        before = now;
        begun = disk.moment();
    }
    let (_, disk) = played_anew(alloc, script, usize::MAX)?;
    push_end(&mut out, before, generation(alloc, disk)?)?;
    Ok(out)
}

// The whole script, or up to where the disk fails, behind which the hall does nothing. Another thing is told of.
fn play_on(
    alloc: Global,
    out: &mut Text,
    core: &mut DurableCore<MemoryDisk>,
    script: &str,
) -> Result<Played, Fault> {
    let played = play_lines(alloc, core, script, usize::MAX)?;
    if core.is_stopped() != played.failed {
        push_line(out, b"the hall has stopped, or has not")?;
    }
    if played.failed && !does_nothing(alloc, core)? {
        push_line(out, b"a hall that has stopped goes on")?;
    }
    Ok(played)
}

fn played_on(
    alloc: Global,
    out: &mut Text,
    core: DurableCore<MemoryDisk>,
    script: &str,
) -> Result<(Played, MemoryDisk), Fault> {
    let mut core = core;
    let played = play_on(alloc, out, &mut core, script);
    let disk = core.into_disk();
    match played {
        Ok(played) => Ok((played, disk)),
        Err(fault) => Err(fault),
    }
}

// The same over a disk whose call of this number fails.
fn played_failing(
    alloc: Global,
    out: &mut Text,
    script: &str,
    failing: u64,
) -> Result<(Played, MemoryDisk), Fault> {
    match DurableCore::open(alloc, disk_failing(alloc, failing)?) {
        Ok(core) => played_on(alloc, out, core, script),
        Err(unopened) => {
            if unopened.why != OpenFault::Disk {
                push_line(out, b"the disk is not opened for another reason")?;
            }
            let failed = Played {
                failed: true,
                ..NOTHING
            };
            Ok((failed, unopened.disk))
        }
    }
}

// A step of rewriting is done.
fn step(core: &mut DurableCore<MemoryDisk>) -> Result<(), Fault> {
    match core.step_rewrite() {
        CallOutcome::Ok => Ok(()),
        _ => Err(Fault::Step),
    }
}

// A whole rewriting: its beginning, one piece where there is an item, and its end. How much the generation has grown.
fn rewrite(alloc: Global, core: &mut DurableCore<MemoryDisk>) -> Result<u64, Fault> {
    let before = core.generation();
    enter(core)?;
    if called(alloc, core, "AOFSHRINK")? != CallOutcome::Ok {
        return Err(Fault::Step);
    }
    for _ in 0..3 {
        step(core)?;
    }
    Ok(core.generation().saturating_sub(before))
}

fn rewritten(alloc: Global, out: &mut Text, disk: MemoryDisk) -> Result<MemoryDisk, Fault> {
    let mut core = open(alloc, disk)?;
    let grown = rewrite(alloc, &mut core);
    let disk = core.into_disk();
    if grown != Ok(1) {
        push_line(out, b"the log is not rewritten")?;
    }
    Ok(disk)
}

// Plays the script on a disk whose call of this number fails: what was acknowledged stands, whatever a crash leaves
// then, and also where the disk is opened as it is and its log is rewritten again. Whether the call was made.
fn fail_at(alloc: Global, out: &mut Text, script: &str, failing: u64) -> Result<bool, Fault> {
    let (played, disk) = played_failing(alloc, out, script, failing)?;
    let between = Between {
        least: played.stand,
        most: played.asked,
    };
    crash(alloc, out, script, &disk, disk.moment(), between)?;
    if !played.failed {
        return Ok(false);
    }
    let world = world_of(alloc, rewritten(alloc, out, disk)?)?;
    if !is_between(script, played.stand, played.asked, world.bytes()) {
        push_wrong(out, failing, CHOICES, &world)?;
    }
    Ok(true)
}

/// Plays a script on a disk that fails at each call in turn, until there is none. Then whether they were more than the
/// words say.
pub(crate) fn play_disk_faults(alloc: Global, case: &Case) -> Result<Text, Fault> {
    let script = case.lines()?;
    let mut out = Text::new(alloc);
    let mut made: u64 = 0;
    for failing in 1..MOST_CALLS {
        if !fail_at(alloc, &mut out, script, failing)? {
            break;
        }
        made = failing;
    }
    push_made(case, &mut out, made)?;
    Ok(out)
}
