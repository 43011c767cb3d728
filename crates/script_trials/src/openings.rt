//! Disks that are opened as worlds.

use crate::faults::Fault;
use byte_text::{Text, push_u64};
use journal::OpenFault;
use outside::{MemoryDisk, Side};
use std::alloc::Global;
use world_recovery::open_world;

// Appends a word and a number.
fn push_count(out: &mut Text, word: &[u8], number: u64) -> Result<(), Fault> {
    out.push(word)?;
    push_u64(out, number)?;
    Ok(())
}

// Appends the line of a world: how many objects and channels, what they weigh, and the least deadline.
fn push_counts(
    out: &mut Text,
    objects: (u64, u64),
    channels: (u64, u64),
    due_from: u64,
) -> Result<(), Fault> {
    push_count(out, b"objects ", objects.0)?;
    push_count(out, b" weight ", objects.1)?;
    push_count(out, b" channels ", channels.0)?;
    push_count(out, b" weight ", channels.1)?;
    if due_from < u64::MAX {
        push_count(out, b" due ", due_from)?;
    }
    out.push(b"\n")?;
    Ok(())
}

fn push_damage(out: &mut Text, side: Side, place: u64) -> Result<(), Fault> {
    let word: &[u8] = match side {
        Side::A => b"damaged A ",
        Side::B => b"damaged B ",
    };
    push_count(out, word, place)?;
    out.push(b"\n")?;
    Ok(())
}

// Appends why a disk was not opened.
fn push_why(out: &mut Text, why: OpenFault) -> Result<(), Fault> {
    match why {
        OpenFault::Disk => {
            out.push(b"disk fault\n")?;
            Ok(())
        }
        OpenFault::Damaged { side, place } => push_damage(out, side, place),
        _ => Err(Fault::Memory),
    }
}

/// What a disk is opened as, or why it is not.
pub(crate) fn play_opening(alloc: Global, disk: MemoryDisk) -> Result<Text, Fault> {
    let mut out = Text::new(alloc);
    match open_world(alloc, disk) {
        Ok(opened) => {
            let counts = (opened.world.objects(), opened.world.channels());
            let parts = opened.world.into_parts();
            let (objects, channels) = (parts.weight, parts.channel_weight);
            let due_from = parts.due_from;
            // By calls, so that the parts of a world are not proved to be dropped here.
            drop(parts);
            drop(opened.journal);
            push_counts(
                &mut out,
                (counts.0 as u64, objects),
                (counts.1 as u64, channels),
                due_from,
            )?;
        }
        Err(unopened) => push_why(&mut out, unopened.why)?,
    }
    Ok(out)
}
