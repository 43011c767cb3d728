//! What came of a follower, counted.

use crate::faults::Fault;
use byte_text::{Text, push_u64};

/// How often each thing came, and how often something differed.
#[derive(Clone, Copy)]
pub(crate) struct Tally {
    /// Changes that a leader was asked for.
    pub(crate) changes: u64,
    /// Parts that were heard.
    pub(crate) heard: u64,
    /// Parts behind which the world was published.
    pub(crate) published: u64,
    /// Parts behind which the log went on.
    pub(crate) cut: u64,
    /// Parts that were not heard, or not at once.
    pub(crate) lost: u64,
    /// Parts that were heard twice.
    pub(crate) twice: u64,
    /// Parts that were heard behind later ones.
    pub(crate) late: u64,
    /// Logs that the published world came to, each of a later generation.
    pub(crate) logs: u64,
    /// Leaders that died.
    pub(crate) deaths: u64,
    /// Calls of the disk that failed while a part was read.
    pub(crate) reads: u64,
    /// What a death may leave, each time with a leader over it that is followed on.
    pub(crate) lives: u64,
    /// What is not as it has to be.
    pub(crate) differences: u64,
}

impl Tally {
    /// Nothing came yet.
    pub(crate) fn new() -> Tally {
        Tally {
            changes: 0,
            heard: 0,
            published: 0,
            cut: 0,
            lost: 0,
            twice: 0,
            late: 0,
            logs: 0,
            deaths: 0,
            reads: 0,
            lives: 0,
            differences: 0,
        }
    }

    /// Something has to be so.
    pub(crate) fn expect(&mut self, is_so: bool) {
        if !is_so {
            count(&mut self.differences);
        }
    }

    /// Appends a line of all counts.
    pub(crate) fn push(&self, out: &mut Text) -> Result<(), Fault> {
        for (word, number) in [
            ("changes ", self.changes),
            (", parts heard ", self.heard),
            (" published ", self.published),
            (" cut ", self.cut),
            (" lost ", self.lost),
            (" twice ", self.twice),
            (" late ", self.late),
            (", logs ", self.logs),
            (", deaths ", self.deaths),
            (" reads that failed ", self.reads),
            (" lives ", self.lives),
            (", differences ", self.differences),
        ] {
            out.push(word.as_bytes())?;
            push_u64(out, number)?;
        }
        out.push(b"\n")?;
        Ok(())
    }
}

/// Something came once more.
pub(crate) fn count(number: &mut u64) {
    *number = number.saturating_add(1);
}
