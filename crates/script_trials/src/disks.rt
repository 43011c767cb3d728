//! Disks in memory over which cases are played.

use crate::cases::Case;
use crate::faults::Fault;
use outside::{Disk, MemoryDisk, Side};
use std::alloc::Global;

/// A disk of the sides that a case tells.
pub(crate) fn fresh_disk(alloc: Global, case: &Case) -> Result<MemoryDisk, Fault> {
    let a = case.side(Side::A).to_vec(alloc)?;
    let b = case.side(Side::B).to_vec(alloc)?;
    let failing = case.fails.disk.as_slice().to_vec(alloc)?;
    Ok(MemoryDisk::new(alloc, a, b, failing))
}

/// A disk of the sides that a case tells, at which the call of this number fails; none where it is 0.
pub(crate) fn fresh_disk_failing(
    alloc: Global,
    case: &Case,
    failing: u64,
) -> Result<MemoryDisk, Fault> {
    let a = case.side(Side::A).to_vec(alloc)?;
    let b = case.side(Side::B).to_vec(alloc)?;
    let fails = [failing].to_vec(alloc)?;
    Ok(MemoryDisk::new(alloc, a, b, fails))
}

/// An empty disk at which the call of this number fails; none where it is 0.
pub(crate) fn disk_failing(alloc: Global, failing: u64) -> Result<MemoryDisk, Fault> {
    let fails = [failing].to_vec(alloc)?;
    Ok(MemoryDisk::new(alloc, Vec::new(alloc), Vec::new(alloc), fails))
}

/// What a crash at a moment may leave of a disk by a choice.
pub(crate) fn crashed(disk: &MemoryDisk, moment: u64, choice: u64) -> Result<MemoryDisk, Fault> {
    if moment > disk.moment() {
        return Err(Fault::Step);
    }
    Ok(disk.image(moment, choice)?)
}
