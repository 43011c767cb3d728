//! A leader: a core over a disk in memory, that is asked for changes and for parts of its log.

use crate::changes::drawn_words;
use crate::draws::Draws;
use crate::faults::Fault;
use crate::requests::asked_of;
use crate::shown_worlds::Shown;
use byte_text::Text;
use durable_core::DurableCore;
use outside::MemoryDisk;
use repl_stream::{Ask, Part, PartAnswer, PartBytes};
use std::alloc::Global;
use world_model::{CallOutcome, ChangedSessions, Frames, Taken};

/// A part with its bytes, and the leader's world when it was read.
#[derive(Drop)]
pub(crate) struct Answer {
    pub(crate) part: Part,
    pub(crate) bytes: Text,
    pub(crate) shown: Shown,
}

/// What becomes of an ask.
#[derive(Drop)]
pub(crate) enum Answered {
    Given(Answer),
    /// A call of the disk failed: while the part was read, or before.
    Failed { is_read: bool },
}

/// A core over a disk in memory.
#[derive(Drop)]
pub(crate) struct Leader {
    alloc: Global,
    core: DurableCore<MemoryDisk>,
    moment: u32,
}

// Whether a call was done; it was not where the disk failed.
fn is_done(outcome: CallOutcome) -> Result<bool, Fault> {
    match outcome {
        CallOutcome::Ok => Ok(true),
        CallOutcome::LogFault => Ok(false),
        CallOutcome::Memory => Err(Fault::Memory),
        _ => Err(Fault::Step),
    }
}

impl Leader {
    /// A leader over a core that was opened now.
    pub(crate) fn new(alloc: Global, core: DurableCore<MemoryDisk>) -> Leader {
        Leader {
            alloc,
            core,
            moment: 0,
        }
    }

    /// Whether its disk failed.
    pub(crate) fn is_stopped(&self) -> bool {
        self.core.is_stopped()
    }

    /// It dies: its disk is left, as it stands.
    pub(crate) fn into_disk(self) -> MemoryDisk {
        let Leader {
            alloc: _,
            core,
            moment: _,
        } = self;
        core.into_disk()
    }

    // A session asks for words, and goes. Whether that was done.
    fn call(&mut self, words: &str) -> Result<bool, Fault> {
        let Ok(session) = self.core.enter() else {
            return Err(Fault::Step);
        };
        let asked = asked_of(self.alloc, words)?;
        let mut touched = ChangedSessions::new(self.alloc)?;
        let moment = u64::from(self.moment);
        let outcome = self.core.call(session, moment, &asked, &mut touched);
        self.core.remove_session(session);
        is_done(outcome)
    }

    // A session asks for PING and takes the answer, and so makes all that is pending stand. Whether that was done.
    fn make_stand(&mut self) -> Result<bool, Fault> {
        let Ok(session) = self.core.enter() else {
            return Err(Fault::Step);
        };
        let asked = asked_of(self.alloc, "PING")?;
        let mut touched = ChangedSessions::new(self.alloc)?;
        let moment = u64::from(self.moment);
        let outcome = self.core.call(session, moment, &asked, &mut touched);
        let mut frames = Frames::new(self.alloc)?;
        let taken = self.core.take(session, &mut frames);
        self.core.remove_session(session);
        Ok(is_done(outcome)? && !matches!(taken, Taken::LogFault))
    }

    // The clock goes on. Whether that was done.
    fn tick(&mut self, milliseconds: u32) -> Result<bool, Fault> {
        self.moment = self.moment.saturating_add(milliseconds);
        let mut touched = ChangedSessions::new(self.alloc)?;
        is_done(self.core.tick(u64::from(self.moment), &mut touched))
    }

    /// Does what is drawn: mostly a change. Whether the disk did not fail.
    pub(crate) fn work(&mut self, draws: &mut Draws, most: u64) -> Result<bool, Fault> {
        match draws.below(12) {
            0 => self.tick(700),
            1 => is_done(self.core.step_rewrite()),
            2 => self.make_stand(),
            _ => {
                let words = drawn_words(self.alloc, draws, most)?;
                self.call(words.as_str())
            }
        }
    }

    /// Answers an ask.
    pub(crate) fn answer(&mut self, ask: Ask, place: &mut PartBytes) -> Result<Answered, Fault> {
        // Where nothing is pending and nothing is rewritten, the disk is called to read alone.
        let is_read = !self.core.has_pending() && !self.core.is_rewriting();
        match self.core.log_part(ask, place) {
            PartAnswer::Given(part) => Ok(Answered::Given(Answer {
                part,
                bytes: Text::of(self.alloc, place.bytes())?,
                shown: Shown::of(self.alloc, self.core.core())?,
            })),
            PartAnswer::LogFault => Ok(Answered::Failed { is_read }),
            PartAnswer::Memory => Err(Fault::Memory),
            PartAnswer::Stopped => Err(Fault::Step),
        }
    }

    /// Whether an ask is answered that the hall has stopped.
    pub(crate) fn answers_stopped(&mut self, ask: Ask, place: &mut PartBytes) -> bool {
        matches!(self.core.log_part(ask, place), PartAnswer::Stopped)
    }
}
