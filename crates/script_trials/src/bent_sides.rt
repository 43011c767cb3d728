//! Logs of which one side is bent at each of its places in turn: the program is asked for what the words say over each.

use crate::cases::Case;
use crate::faults::Fault;
use crate::plays::{asked, words_of};
use byte_text::{Text, push_u64};
use outside::{MemoryDisk, Side};
use std::alloc::Global;
use std::sync::Wait;
use std::thread::Threads;

/// How a side is bent at a place.
#[derive(Clone, Copy, PartialEq, Eq)]
pub(crate) enum Bend {
    /// It ends there.
    Cut,
    /// The highest bit of the byte there is turned.
    Turned,
}

// The bytes of a side that is bent at a place.
fn bent(alloc: Global, side: &[u8], bend: Bend, place: usize) -> Result<Vec<u8>, Fault> {
    let mut bytes = Vec::new(alloc);
    for (at, byte) in side.iter().enumerate() {
        match bend {
            Bend::Cut if at == place => break,
            Bend::Turned if at == place => bytes.push(*byte ^ 0x80)?,
            _ => bytes.push(*byte)?,
        }
    }
    Ok(bytes)
}

// A disk of the sides that a case tells, one of which is bent at a place.
fn bent_disk(
    alloc: Global,
    case: &Case,
    side: Side,
    bend: Bend,
    place: usize,
) -> Result<MemoryDisk, Fault> {
    let bytes = bent(alloc, case.side(side), bend, place)?;
    let (a, b) = match side {
        Side::A => (bytes, case.side(Side::B).to_vec(alloc)?),
        Side::B => (case.side(Side::A).to_vec(alloc)?, bytes),
    };
    Ok(MemoryDisk::new(alloc, a, b, Vec::new(alloc)))
}

// How many places there are: a side may also end behind all its bytes.
fn places(case: &Case, side: Side, bend: Bend) -> usize {
    let bytes = case.side(side).len();
    match bend {
        Bend::Cut => bytes.saturating_add(1),
        Bend::Turned => bytes,
    }
}

/// For each place of a side, what comes of the words over the disk that is bent there.
pub(crate) fn play_bent<R: Wait + Threads + Sync>(
    rt: &R,
    alloc: Global,
    case: &Case,
    side: Side,
    bend: Bend,
) -> Result<Text, Fault> {
    let words = words_of(alloc, case.asked()?)?;
    let mut out = Text::new(alloc);
    for place in 0..places(case, side, bend) {
        let disk = bent_disk(alloc, case, side, bend, place)?;
        let (_ended, came) = asked(rt, alloc, words.as_slice(), case, disk)?;
        push_u64(&mut out, place as u64)?;
        out.push(b": ")?;
        out.push(came.bytes())?;
    }
    Ok(out)
}
