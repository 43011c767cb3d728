//! What a leader is asked for: changes that a seed determines.

use crate::draws::Draws;
use crate::faults::Fault;
use std::alloc::Global;

// So many keys there are, so many ids of each, and so many channels.
const KEYS: u64 = 3;

const IDS: u64 = 24;

const CHANNELS: u64 = 4;

// No note is longer, so that its object is one that a request may have.
const MOST_NOTE: u64 = 60_000;

// Some key and some id.
fn object_words(alloc: Global, draws: &mut Draws) -> Result<String, Fault> {
    let key = draws.below(KEYS);
    let id = draws.below(IDS);
    Ok(format!(in alloc; "k{} o{}", key, id)?)
}

// A SET of a point, with these words in front of it.
fn set_point(alloc: Global, draws: &mut Draws, options: &str) -> Result<String, Fault> {
    let object = object_words(alloc, draws)?;
    let latitude = draws.below(90);
    let longitude = draws.below(180);
    Ok(format!(in alloc;
        "SET {} {}POINT {} {}",
        object, options, latitude, longitude
    )?)
}

// A SET of a point whose text has a note of fewer bytes than these.
fn set_noted(alloc: Global, draws: &mut Draws, most: u64) -> Result<String, Fault> {
    let object = object_words(alloc, draws)?;
    let longitude = draws.below(180);
    let mut note = String::new(alloc);
    for _ in 0..draws.below(most.min(MOST_NOTE)) / 8 {
        note.push_str("long-ish")?;
    }
    Ok(format!(in alloc;
        "SET {} OBJECT {{\"type\":\"Point\",\"coordinates\":[{},5],\"note\":\"{}\"}}",
        object, longitude, note
    )?)
}

// A SETCHAN of a fence, with these words in front of it.
fn set_channel(alloc: Global, draws: &mut Draws, options: &str) -> Result<String, Fault> {
    let channel = draws.below(CHANNELS);
    let key = draws.below(KEYS);
    let low = draws.below(50);
    Ok(format!(in alloc;
        "SETCHAN c{} {}WITHIN k{} FENCE BOUNDS {} {} {} {}",
        channel,
        options,
        key,
        low,
        low,
        low.saturating_add(30),
        low.saturating_add(40)
    )?)
}

// An FSET of a number or a text.
fn set_field(alloc: Global, draws: &mut Draws) -> Result<String, Fault> {
    let object = object_words(alloc, draws)?;
    let number = draws.below(9);
    if draws.is_once_in(2) {
        Ok(format!(in alloc; "FSET {} load {}", object, number)?)
    } else {
        Ok(format!(in alloc; "FSET {} state to-{}", object, number)?)
    }
}

// Something that takes many out, or writes the log anew.
fn wide_words(alloc: Global, draws: &mut Draws) -> Result<String, Fault> {
    let number = draws.below(KEYS);
    match draws.below(12) {
        0 => Ok(format!(in alloc; "FLUSHDB")?),
        1 | 2 => Ok(format!(in alloc; "DROP k{}", number)?),
        3 | 4 => Ok(format!(in alloc; "PDEL k{} o1*", number)?),
        5 | 6 => Ok(format!(in alloc; "DELCHAN c{}", number)?),
        _ => Ok(format!(in alloc; "AOFSHRINK")?),
    }
}

/// The words of the next change. Texts of objects have notes of fewer bytes than these.
pub(crate) fn drawn_words(alloc: Global, draws: &mut Draws, most: u64) -> Result<String, Fault> {
    match draws.below(24) {
        0..=5 => set_point(alloc, draws, ""),
        6 | 7 => set_point(alloc, draws, "FIELD load 7 FIELD state new "),
        8 => set_point(alloc, draws, "EX 2 "),
        9 => set_point(alloc, draws, "FIELD load 3 EX 5 "),
        10..=13 => set_noted(alloc, draws, most),
        14 | 15 => {
            let object = object_words(alloc, draws)?;
            Ok(format!(in alloc; "DEL {}", object)?)
        }
        16 | 17 => set_field(alloc, draws),
        18 => {
            let object = object_words(alloc, draws)?;
            Ok(format!(in alloc; "EXPIRE {} 3", object)?)
        }
        19 => set_channel(alloc, draws, ""),
        20 => set_channel(alloc, draws, "EX 4 "),
        _ => wide_words(alloc, draws),
    }
}
