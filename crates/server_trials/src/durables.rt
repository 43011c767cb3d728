//! Each call of a core over a disk in memory, once.

use crate::requests::asked;
use durable_core::{DurableCore, PENDING};
use outside::{Disk, MemoryDisk, Side};
use std::alloc::Global;
use std::test::Fail;
use world_model::{CallOutcome, ChangedSessions, Frames, Taken};

// The records that are pending where the next call or tick commits first: 4 MiB.
#[test]
fn so_much_may_be_pending(rt: HostRuntime) {
    assert_eq!(rt; PENDING, 4_194_304);
}

// How the call of session 1 with a line at moment 0 is answered.
fn called(alloc: Global, core: &mut DurableCore<MemoryDisk>, line: &str) -> Option<CallOutcome> {
    let asked = asked(alloc, line).ok()?;
    let mut touched = ChangedSessions::new(alloc).ok()?;
    Some(core.call(1, 0, &asked, &mut touched))
}

fn ticked(alloc: Global, core: &mut DurableCore<MemoryDisk>) -> Option<CallOutcome> {
    let mut touched = ChangedSessions::new(alloc).ok()?;
    Some(core.tick(5, &mut touched))
}

fn taken(alloc: Global, core: &mut DurableCore<MemoryDisk>) -> Option<Taken> {
    let mut frames = Frames::new(alloc).ok()?;
    Some(core.take(1, &mut frames))
}

// A write waits until it is taken, or until a step makes it stand.
fn write_twice(alloc: Global, core: &mut DurableCore<MemoryDisk>) -> Result<(), &'static str> {
    if core.enter() != Ok(1) || core.enter() != Ok(2) {
        return Err("two sessions enter");
    }
    if called(alloc, core, "SET k a POINT 1 2") != Some(CallOutcome::Ok) || !core.has_pending() {
        return Err("a write waits");
    }
    if taken(alloc, core) != Some(Taken::Some(1)) || core.has_pending() {
        return Err("a take makes it stand");
    }
    if called(alloc, core, "SETCHAN f NEARBY k FENCE POINT 1 2 300") != Some(CallOutcome::Ok) {
        return Err("a channel is set");
    }
    if core.step_rewrite() != CallOutcome::Ok || core.has_pending() {
        return Err("a step makes it stand");
    }
    Ok(())
}

fn end(alloc: Global, core: &mut DurableCore<MemoryDisk>) -> Result<(), &'static str> {
    core.close_session(1);
    core.remove_session(2);
    if ticked(alloc, core) != Some(CallOutcome::Ok) {
        return Err("a tick is done");
    }
    if (core.objects(), core.channels(), core.generation()) != (1, 1, 1) {
        return Err("there are an object and a channel, in the first log");
    }
    if core.is_stopped() || core.retire() != CallOutcome::Ok || !core.is_stopped() {
        return Err("the hall stops when it is retired");
    }
    Ok(())
}

fn use_core(alloc: Global, core: &mut DurableCore<MemoryDisk>) -> Result<(), &'static str> {
    write_twice(alloc, core)?;
    end(alloc, core)
}

// What is done with a core over an empty disk, and how many bytes its first side has then.
fn used(alloc: Global) -> Option<(Result<(), &'static str>, bool)> {
    let disk = MemoryDisk::new(alloc, Vec::new(alloc), Vec::new(alloc), Vec::new(alloc));
    let mut core = DurableCore::open(alloc, disk).ok()?;
    let used = use_core(alloc, &mut core);
    let mut disk = core.into_disk();
    let length = disk.len(Side::A).ok()?;
    Some((used, length > 17))
}

#[test]
fn each_call_of_a_core_over_a_disk(rt: HostRuntime) -> Result<(), Fail> {
    let (used, stands) = used(rt.alloc()).unwrap_or((Err("the disk is opened"), false));
    assert_eq!(rt; used, Ok(()));
    assert!(rt; stands);
    Ok(())
}
