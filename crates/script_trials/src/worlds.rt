//! Scripts of calls of a core over a disk, and the worlds behind them.
//!
//! A line of a script is `take`, `step`, or the words that the first session asks for. Where the call changes the
//! world, ` => ` and what the world reads as then stand behind the words.

use crate::durables::{answer, called, enter, open, taken};
use crate::faults::Fault;
use byte_text::Text;
use durable_core::DurableCore;
use outside::MemoryDisk;
use std::alloc::Global;
use world_model::{CallOutcome, Taken};

// What an empty world reads as: no object, no channel, and no deadline.
const EMPTY: &str = ":0 :-2";

/// How far a script was played: how many of its changes were asked for, how many of these were acknowledged, and
/// whether the disk failed.
#[derive(Clone, Copy)]
pub(crate) struct Played {
    pub(crate) asked: usize,
    pub(crate) stand: usize,
    pub(crate) failed: bool,
}

/// Nothing was played so far.
pub(crate) const NOTHING: Played = Played {
    asked: 0,
    stand: 0,
    failed: false,
};

impl Played {
    // All that was asked for stands, or the disk failed.
    fn note(&mut self, called: CallOutcome) -> Result<(), Fault> {
        match called {
            CallOutcome::Ok => self.stand = self.asked,
            CallOutcome::LogFault => self.failed = true,
            _ => return Err(Fault::Step),
        }
        Ok(())
    }
}

// Takes the frames that wait.
fn play_take(
    alloc: Global,
    core: &mut DurableCore<MemoryDisk>,
    played: &mut Played,
) -> Result<(), Fault> {
    match taken(alloc, core, &mut Text::new(alloc))? {
        Taken::Some(_) => played.note(CallOutcome::Ok),
        Taken::LogFault => played.note(CallOutcome::LogFault),
        _ => Err(Fault::Step),
    }
}

// Asks for what the words of a line say.
fn play_call(
    alloc: Global,
    core: &mut DurableCore<MemoryDisk>,
    words: &str,
    played: &mut Played,
) -> Result<(), Fault> {
    match called(alloc, core, words)? {
        CallOutcome::Ok => Ok(()),
        CallOutcome::LogFault => played.note(CallOutcome::LogFault),
        _ => Err(Fault::Step),
    }
}

fn play_line(
    alloc: Global,
    core: &mut DurableCore<MemoryDisk>,
    line: &str,
    played: &mut Played,
) -> Result<(), Fault> {
    match line {
        "take" => play_take(alloc, core, played),
        "step" => played.note(core.step_rewrite()),
        _ => match line.split_once(" => ") {
            Some((words, _)) => {
                played.asked = played.asked.saturating_add(1);
                play_call(alloc, core, words, played)
            }
            None => play_call(alloc, core, line, played),
        },
    }
}

/// Plays the first lines of a script, up to one where the disk fails.
pub(crate) fn play_lines(
    alloc: Global,
    core: &mut DurableCore<MemoryDisk>,
    script: &str,
    lines: usize,
) -> Result<Played, Fault> {
    let mut played = NOTHING;
    enter(core)?;
    for line in script.lines().take(lines) {
        play_line(alloc, core, line, &mut played)?;
        if played.failed {
            break;
        }
    }
    Ok(played)
}

// Whether a text is what the world reads as behind so many changes.
fn is_world(script: &str, changes: usize, text: &[u8]) -> bool {
    if changes == 0 {
        return text == EMPTY.as_bytes();
    }
    let mut behind = 0usize;
    for line in script.lines() {
        if let Some((_, world)) = line.split_once(" => ") {
            behind = behind.saturating_add(1);
            if behind == changes {
                return text == world.as_bytes();
            }
        }
    }
    false
}

/// Whether a text is what the world reads as behind some changes of the script, at least so many and at most so many.
pub(crate) fn is_between(script: &str, least: usize, most: usize, text: &[u8]) -> bool {
    for changes in least..most.saturating_add(1) {
        if is_world(script, changes, text) {
            return true;
        }
    }
    false
}

// Appends what a line is answered, behind a space where there is something.
fn push_answer(
    alloc: Global,
    core: &mut DurableCore<MemoryDisk>,
    line: &str,
    world: &mut Text,
) -> Result<(), Fault> {
    let told = answer(alloc, core, line)?;
    if world.len() > 0 && told.len() > 0 {
        world.push(b" ")?;
    }
    world.push(told.bytes())?;
    Ok(())
}

// What a core's world reads as: where its objects are, its channels, and a deadline.
fn look(alloc: Global, core: &mut DurableCore<MemoryDisk>) -> Result<Text, Fault> {
    let mut world = Text::new(alloc);
    enter(core)?;
    push_answer(alloc, core, "SCAN k POINTS", &mut world)?;
    push_answer(alloc, core, "CHANS *", &mut world)?;
    push_answer(alloc, core, "TTL k d", &mut world)?;
    Ok(world)
}

/// What the world reads as that a disk is opened to.
pub(crate) fn world_of(alloc: Global, disk: MemoryDisk) -> Result<Text, Fault> {
    let mut core = open(alloc, disk)?;
    look(alloc, &mut core)
}
