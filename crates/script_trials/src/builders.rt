//! Sides of a log that are built byte by byte.

use crate::faults::Fault;
use crate::texts::{push_text, push_words};
use byte_text::{Text, push_array_head};
use std::alloc::Global;

/// A side that is built: what stands so far, the batch behind it that has not ended, and the record behind that.
pub(crate) struct Builder {
    alloc: Global,
    side: Text,
    batch: Text,
    is_in_batch: bool,
    record: Text,
    words: usize,
}

impl Drop for Builder {
    fn drop(self) {
        let Builder {
            alloc: _,
            side: _,
            batch: _,
            is_in_batch: _,
            record: _,
            words: _,
        } = self;
    }
}

impl Builder {
    pub(crate) fn new(alloc: Global) -> Builder {
        Builder {
            alloc,
            side: Text::new(alloc),
            batch: Text::new(alloc),
            is_in_batch: false,
            record: Text::new(alloc),
            words: 0,
        }
    }

    fn end_record(&mut self) -> Result<(), Fault> {
        if self.words > 0 {
            push_array_head(&mut self.batch, self.words)?;
            self.batch.push(self.record.bytes())?;
        }
        self.record.truncate(0);
        self.words = 0;
        Ok(())
    }

    fn end_batch(&mut self) -> Result<(), Fault> {
        self.end_record()?;
        if self.is_in_batch {
            self.side.push(&[1])?;
            self.side.push(&(self.batch.len() as u64).to_be_bytes())?;
            self.side.push(self.batch.bytes())?;
        }
        self.batch.truncate(0);
        self.is_in_batch = false;
        Ok(())
    }

    /// The open gate and the header of a log of this version and generation.
    pub(crate) fn push_head(&mut self, version: u8, generation: u64) -> Result<(), Fault> {
        self.side.push(b"\x01TFL")?;
        self.side.push(&[version, 0, 0, 0])?;
        self.side.push(&generation.to_be_bytes())?;
        Ok(())
    }

    /// A batch begins.
    pub(crate) fn begin_batch(&mut self) -> Result<(), Fault> {
        self.end_batch()?;
        self.is_in_batch = true;
        Ok(())
    }

    /// A record of these words begins.
    pub(crate) fn begin_record(&mut self, words: &str) -> Result<(), Fault> {
        self.end_record()?;
        self.push_more(words)
    }

    /// The record has these words, too.
    pub(crate) fn push_more(&mut self, words: &str) -> Result<(), Fault> {
        let more = push_words(self.alloc, &mut self.record, words)?;
        self.words = self.words.saturating_add(more);
        Ok(())
    }

    /// The bytes of a text.
    pub(crate) fn push_bytes(&mut self, written: &str) -> Result<(), Fault> {
        self.end_record()?;
        if self.is_in_batch {
            push_text(&mut self.batch, written)
        } else {
            push_text(&mut self.side, written)
        }
    }

    /// The closed gate behind the last batch.
    pub(crate) fn shut(&mut self) -> Result<(), Fault> {
        self.end_batch()?;
        self.side.push(&[0])?;
        Ok(())
    }

    /// The side, behind which another one is begun.
    pub(crate) fn take_side(&mut self) -> Result<Text, Fault> {
        self.end_batch()?;
        let side = self.side.copy()?;
        self.side.truncate(0);
        Ok(side)
    }
}
