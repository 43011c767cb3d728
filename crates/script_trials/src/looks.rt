//! What is looked at on a disk.

use crate::faults::Fault;
use crate::texts::push_escaped;
use byte_text::{Text, push_u64};
use outside::{Disk, MemoryDisk, Side};
use std::alloc::Global;

/// What is looked at.
#[derive(Clone, Copy, PartialEq, Eq)]
pub(crate) enum Look {
    /// The bytes of a side.
    Bytes(Side),
    /// How many they are.
    Length(Side),
    /// Whether they are fewer than so many.
    Under(Side, u64),
}

/// The side of a letter.
pub(crate) fn side_of(letter: &str) -> Result<Side, Fault> {
    match letter {
        "A" => Ok(Side::A),
        "B" => Ok(Side::B),
        _ => Err(Fault::Line),
    }
}

fn length(disk: &mut MemoryDisk, side: Side) -> Result<u64, Fault> {
    match disk.len(side) {
        Ok(length) => Ok(length),
        Err(_) => Err(Fault::Step),
    }
}

// Appends the bytes of a side.
fn push_side(
    alloc: Global,
    out: &mut Text,
    disk: &mut MemoryDisk,
    side: Side,
) -> Result<(), Fault> {
    let length = length(disk, side)?;
    let mut bytes = vec![in alloc; 0u8; length as usize]?;
    match disk.read(side, 0, &mut bytes) {
        Ok(_) => push_escaped(alloc, out, &bytes),
        Err(_) => Err(Fault::Step),
    }
}

fn push_length(out: &mut Text, disk: &mut MemoryDisk, side: Side) -> Result<(), Fault> {
    let length = length(disk, side)?;
    push_u64(out, length)?;
    Ok(())
}

/// Appends what is seen on a disk.
pub(crate) fn push_seen(
    alloc: Global,
    out: &mut Text,
    disk: &mut MemoryDisk,
    look: Look,
) -> Result<(), Fault> {
    match look {
        Look::Bytes(side) => push_side(alloc, out, disk, side),
        Look::Length(side) => push_length(out, disk, side),
        Look::Under(side, bound) => {
            if length(disk, side)? < bound {
                out.push(b"fewer")?;
                Ok(())
            } else {
                push_length(out, disk, side)
            }
        }
    }
}
