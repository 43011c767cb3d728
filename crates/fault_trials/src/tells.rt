//! What the two sessions of a script were given.

use crate::faults::Fault;
use byte_text::Text;
use durable_core::DurableCore;
use outside::MemoryDisk;
use std::alloc::Global;
use world_model::{Frames, Taken};

/// What each of the two sessions was given so far.
pub(crate) struct Told {
    pub(crate) first: Text,
    pub(crate) second: Text,
}

impl Drop for Told {
    fn drop(self) {
        let Told {
            first: _,
            second: _,
        } = self;
    }
}

// Appends a line of a frame as a word, unless it is the head of a list or of a text.
fn push_frame_word(told: &mut Text, line: &[u8]) -> Result<(), Fault> {
    match line {
        [] | [b'*', ..] => {}
        [b'$', other, ..] if *other != b'-' => {}
        [word @ .., b'\r'] => {
            told.push(b" ")?;
            told.push(word)?;
        }
        word => {
            told.push(b" ")?;
            told.push(word)?;
        }
    }
    Ok(())
}

// Appends the line of a frame.
fn push_frame(told: &mut Text, session: u8, frame: &[u8]) -> Result<(), Fault> {
    told.push(&[session, b':'])?;
    for line in frame.split(|byte| *byte == b'\n') {
        push_frame_word(told, line)?;
    }
    told.push(b"\n")?;
    Ok(())
}

// Appends each frame that a take gives.
fn push_frames(told: &mut Text, session: u8, frames: &Frames) -> Result<(), Fault> {
    for place in 0..frames.len() {
        push_frame(told, session, frames.at(place))?;
    }
    Ok(())
}

impl Told {
    /// Nothing was given yet.
    pub(crate) fn new(alloc: Global) -> Told {
        Told {
            first: Text::new(alloc),
            second: Text::new(alloc),
        }
    }

    /// Whether the same was given.
    pub(crate) fn is_same(&self, other: &Told) -> bool {
        self.first.bytes() == other.first.bytes() && self.second.bytes() == other.second.bytes()
    }

    /// A session takes, and is given frames or none.
    pub(crate) fn take(
        &mut self,
        alloc: Global,
        core: &mut DurableCore<MemoryDisk>,
        session: u32,
    ) -> Result<(), Fault> {
        let mut frames = Frames::new(alloc)?;
        match core.take(session, &mut frames) {
            Taken::Some(_) if session == 1 => push_frames(&mut self.first, b'1', &frames),
            Taken::Some(_) => push_frames(&mut self.second, b'2', &frames),
            // The disk itself takes memory.
            Taken::LogFault => Err(Fault::Memory),
            _ => Ok(()),
        }
    }
}
