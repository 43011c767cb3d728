//! What is seen of a core: its objects and its channels as their records, its clock, and the bytes of its log.

use crate::faults::Fault;
use byte_text::{Name, Text, push_u64};
use std::alloc::Global;
use tile_core::{Core, push_channel, push_object};

// Appends the record of each object, and how many they are.
fn push_objects(alloc: Global, seen: &mut Text, core: &Core) -> Result<(), Fault> {
    let mut last: Option<(Name, Name)> = None;
    for _ in 0..core.objects() {
        let after = match &last {
            Some((key, id)) => Some((key, id)),
            None => None,
        };
        let Some(object) = core.next_object(after) else {
            return Err(Fault::Step);
        };
        push_object(seen, object)?;
        last = Some((object.key.copy(alloc)?, object.id.copy(alloc)?));
    }
    push_u64(seen, core.objects())?;
    Ok(())
}

// Appends the record of each channel, and how many they are.
fn push_channels(alloc: Global, seen: &mut Text, core: &Core) -> Result<(), Fault> {
    let mut last: Option<Name> = None;
    for _ in 0..core.channels() {
        let Some(channel) = core.next_channel(last.as_ref()) else {
            return Err(Fault::Step);
        };
        push_channel(seen, channel)?;
        last = Some(channel.name.copy(alloc)?);
    }
    push_u64(seen, core.channels())?;
    Ok(())
}

/// What is seen of a core.
pub(crate) fn seen_of(alloc: Global, core: &Core) -> Result<Text, Fault> {
    let mut seen = Text::new(alloc);
    push_objects(alloc, &mut seen, core)?;
    push_channels(alloc, &mut seen, core)?;
    for number in [core.clock(), core.logged()] {
        seen.push(b" ")?;
        push_u64(&mut seen, number)?;
    }
    Ok(seen)
}
