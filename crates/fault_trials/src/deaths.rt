//! What a leader leaves of its disk when it dies, and leaders over that.

use crate::faults::Fault;
use crate::leaders::Leader;
use durable_core::DurableCore;
use journal::{OpenFault, Unopened};
use outside::{Disk, Failed, MemoryDisk, Side};
use std::alloc::Global;

// So many choices of what a death leaves are tried.
const CHOICES: u64 = 27;

// By these each write and cut happened, or each write left bytes 1.
const ALL_HAPPENED: u64 = 13;

const ALL_ONES: u64 = 26;

/// The bytes of both sides of a disk.
#[derive(Drop)]
pub(crate) struct Sides {
    a: Vec<u8>,
    b: Vec<u8>,
}

// The bytes of a side.
fn side_of(alloc: Global, disk: &mut MemoryDisk, side: Side) -> Result<Vec<u8>, Fault> {
    let Ok(len) = disk.len(side) else {
        return Err(Fault::Memory);
    };
    let mut bytes = vec![in alloc; 0u8; len as usize]?;
    match disk.read(side, 0, &mut bytes) {
        Ok(_) => Ok(bytes),
        Err(Failed) => Err(Fault::Memory),
    }
}

impl Sides {
    /// An empty disk.
    pub(crate) fn new(alloc: Global) -> Sides {
        Sides {
            a: Vec::new(alloc),
            b: Vec::new(alloc),
        }
    }

    /// A disk with these bytes, at which the call of a number fails; none where that is 0.
    pub(crate) fn disk(&self, alloc: Global, failing: u64) -> Result<MemoryDisk, Fault> {
        let a = self.a.as_slice().to_vec(alloc)?;
        let b = self.b.as_slice().to_vec(alloc)?;
        let failing = [failing].to_vec(alloc)?;
        Ok(MemoryDisk::new(alloc, a, b, failing))
    }

    // Whether both have the same bytes.
    fn is_same(&self, other: &Sides) -> bool {
        self.a.as_slice() == other.a.as_slice() && self.b.as_slice() == other.b.as_slice()
    }

    /// A leader over these bytes. No call of its disk fails.
    pub(crate) fn start(&self, alloc: Global) -> Result<Leader, Fault> {
        match DurableCore::open(alloc, self.disk(alloc, 0)?) {
            Ok(core) => Ok(Leader::new(alloc, core)),
            Err(unopened) => {
                let Unopened { disk: _, why } = unopened;
                match why {
                    OpenFault::Memory => Err(Fault::Memory),
                    _ => Err(Fault::Step),
                }
            }
        }
    }

    /// A leader over these bytes, or the disk where it failed while it was opened. The call of a number fails.
    pub(crate) fn start_failing(
        &self,
        alloc: Global,
        failing: u64,
    ) -> Result<Result<Leader, MemoryDisk>, Fault> {
        match DurableCore::open(alloc, self.disk(alloc, failing)?) {
            Ok(core) => Ok(Ok(Leader::new(alloc, core))),
            Err(unopened) => {
                let Unopened { disk, why } = unopened;
                match why {
                    OpenFault::Disk => Ok(Err(disk)),
                    OpenFault::Memory => Err(Fault::Memory),
                    _ => Err(Fault::Step),
                }
            }
        }
    }
}

// What a death now may leave of a disk by a choice.
fn left_by(alloc: Global, disk: &MemoryDisk, pick: u64) -> Result<Sides, Fault> {
    // Its digits in base 3 are those of the number under 27, again and again.
    let choice = pick.saturating_mul(1 + 27 + 729 + 19683);
    let mut image = disk.image(disk.moment(), choice)?;
    Ok(Sides {
        a: side_of(alloc, &mut image, Side::A)?,
        b: side_of(alloc, &mut image, Side::B)?,
    })
}

// Whether writes are left that no sync followed: it matters whether all of them happened, or left ones, or none.
fn is_open(alloc: Global, disk: &MemoryDisk, none: &Sides) -> Result<bool, Fault> {
    for pick in [ALL_HAPPENED, ALL_ONES] {
        if !left_by(alloc, disk, pick)?.is_same(none) {
            return Ok(true);
        }
    }
    Ok(false)
}

/// All that a death now may leave of a disk by the choices, each once.
pub(crate) fn left_of(alloc: Global, disk: &MemoryDisk) -> Result<Vec<Sides>, Fault> {
    let mut left: Vec<Sides> = Vec::new(alloc);
    let none = left_by(alloc, disk, 0)?;
    let is_open = is_open(alloc, disk, &none)?;
    left.push(none)?;
    if !is_open {
        return Ok(left);
    }
    for pick in 1..CHOICES {
        let sides = left_by(alloc, disk, pick)?;
        if !left.iter().any(|other| other.is_same(&sides)) {
            left.push(sides)?;
        }
    }
    Ok(left)
}
