//! A log of an older version, which is rewritten when it is opened: over a disk that fails at each call in turn, and with
//! a crash at each moment. Each opens to the same world.

use crate::cases::Case;
use crate::crashes::{CHOICES, choice};
use crate::disks::{crashed, fresh_disk_failing};
use crate::durables::open;
use crate::faults::Fault;
use crate::texts::push_line;
use crate::turns::{MOST_CALLS, push_made};
use crate::worlds::world_of;
use byte_text::Text;
use durable_core::DurableCore;
use outside::{Disk, MemoryDisk};
use std::alloc::Global;

// Tells of a disk that opens to another world.
fn compare(alloc: Global, out: &mut Text, world: &Text, disk: MemoryDisk) -> Result<(), Fault> {
    let seen = world_of(alloc, disk)?;
    if seen.bytes() == world.bytes() {
        return Ok(());
    }
    out.push(b"another world: ")?;
    push_line(out, seen.bytes())
}

// Whether the opening was answered a fault, where the call of this number fails.
fn fail_at(
    alloc: Global,
    out: &mut Text,
    case: &Case,
    world: &Text,
    failing: u64,
) -> Result<bool, Fault> {
    match DurableCore::open(alloc, fresh_disk_failing(alloc, case, failing)?) {
        Ok(core) => {
            drop(core);
            Ok(false)
        }
        Err(unopened) => {
            compare(alloc, out, world, unopened.disk)?;
            Ok(true)
        }
    }
}

// How many calls failed in turn before one opening was done.
fn fail_each(alloc: Global, out: &mut Text, case: &Case, world: &Text) -> Result<u64, Fault> {
    for failing in 1..MOST_CALLS {
        if !fail_at(alloc, out, case, world, failing)? {
            return Ok(failing.saturating_sub(1));
        }
    }
    Ok(MOST_CALLS)
}

// Whatever a crash leaves at any moment of an opened disk.
fn crash_each(alloc: Global, out: &mut Text, world: &Text, disk: &MemoryDisk) -> Result<(), Fault> {
    for moment in 0..disk.moment().saturating_add(1) {
        for pick in 0..CHOICES {
            compare(alloc, out, world, crashed(disk, moment, choice(pick))?)?;
        }
    }
    Ok(())
}

/// What the world of a disk reads as, which is opened with each call failing in turn, and crashed at each moment.
pub(crate) fn play_upgrade(alloc: Global, case: &Case) -> Result<Text, Fault> {
    let mut out = Text::new(alloc);
    let world = world_of(alloc, fresh_disk_failing(alloc, case, 0)?)?;
    push_line(&mut out, world.bytes())?;
    let made = fail_each(alloc, &mut out, case, &world)?;
    let disk = open(alloc, fresh_disk_failing(alloc, case, 0)?)?.into_disk();
    crash_each(alloc, &mut out, &world, &disk)?;
    push_made(case, &mut out, made)?;
    Ok(out)
}
