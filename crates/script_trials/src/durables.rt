//! Calls of a core over a disk in memory that are asked for by lines of words.

ghost use Rattle.std.specs.Prelude.{◌≡◌, IfOk, true};
ghost use Rattle.world_model.specs.Outcomes.{is_proper};

use crate::faults::Fault;
use crate::texts::push_request;
use byte_text::{NoMemory, Text};
use durable_core::DurableCore;
use outside::MemoryDisk;
use resp_frames::Requests;
use std::alloc::Global;
use world_model::{Asked, CallOutcome, ChangedSessions, EnterFault, Frames, Taken};

/// What a session asks for by the words of a line.
pub(crate) fn asked_of(alloc: Global, line: &str) -> Result<Asked, Fault>
    ensures { IfOk result (λ a. is_proper a ≡ true) }
{
    let mut text = Text::new(alloc);
    push_request(alloc, &mut text, line)?;
    let Ok(fed) = Requests::new(alloc).feed(text.bytes()) else {
        return Err(Fault::Line);
    };
    match fed.request {
        Some(words) if words.words() > 0 => Ok(Asked::Words(words)),
        _ => Err(Fault::Line),
    }
}

/// How the call of the first session at moment 0 is answered.
pub(crate) fn answered(
    alloc: Global,
    core: &mut DurableCore<MemoryDisk>,
    asked: &Asked,
) -> Result<CallOutcome, Fault>
    requires { is_proper asked.now ≡ true }
{
    let mut touched = ChangedSessions::new(alloc)?;
    Ok(core.call(1, 0, asked, &mut touched))
}

/// How the call of the first session with a line at moment 0 is answered.
pub(crate) fn called(
    alloc: Global,
    core: &mut DurableCore<MemoryDisk>,
    line: &str,
) -> Result<CallOutcome, Fault> {
    let asked = asked_of(alloc, line)?;
    answered(alloc, core, &asked)
}

// How a tick of moment 5 is answered.
fn ticked(alloc: Global, core: &mut DurableCore<MemoryDisk>) -> Result<CallOutcome, Fault> {
    let mut touched = ChangedSessions::new(alloc)?;
    Ok(core.tick(5, &mut touched))
}

// Puts a line of a frame last in a text, behind a space where there is something, unless it is the head of a list or of
// a bulk string.
fn push_frame_word(told: &mut Text, line: &[u8]) -> Result<(), NoMemory> {
    match line {
        [] | [b'*', ..] => Ok(()),
        [b'$', other, ..] if *other != b'-' => Ok(()),
        [word @ .., b'\r'] => {
            if told.len() > 0 {
                told.push(b" ")?;
            }
            told.push(word)
        }
        other => told.push(other),
    }
}

/// How a take of the first session ends. The words of the frames that it gives are put last in a text.
pub(crate) fn taken(
    alloc: Global,
    core: &mut DurableCore<MemoryDisk>,
    told: &mut Text,
) -> Result<Taken, Fault> {
    let mut frames = Frames::new(alloc)?;
    let end = core.take(1, &mut frames);
    for place in 0..frames.len() {
        for line in frames.at(place).split(|byte| *byte == b'\n') {
            push_frame_word(told, line)?;
        }
    }
    Ok(end)
}

/// What a line is answered: the words of the frames that a take behind the call gives.
pub(crate) fn answer(
    alloc: Global,
    core: &mut DurableCore<MemoryDisk>,
    line: &str,
) -> Result<Text, Fault> {
    let mut told = Text::new(alloc);
    if called(alloc, core, line)? != CallOutcome::Ok {
        return Err(Fault::Step);
    }
    match taken(alloc, core, &mut told)? {
        Taken::Some(_) => Ok(told),
        _ => Err(Fault::Step),
    }
}

/// The first session enters.
pub(crate) fn enter(core: &mut DurableCore<MemoryDisk>) -> Result<(), Fault> {
    match core.enter() {
        Ok(1) => Ok(()),
        _ => Err(Fault::Step),
    }
}

/// A core over a disk that can be opened.
pub(crate) fn open(alloc: Global, disk: MemoryDisk) -> Result<DurableCore<MemoryDisk>, Fault> {
    match DurableCore::open(alloc, disk) {
        Ok(core) => Ok(core),
        Err(_) => Err(Fault::Step),
    }
}

// Whether each call that changes nothing for sessions says that the hall has stopped.
fn is_still(core: &mut DurableCore<MemoryDisk>) -> bool {
    core.enter() == Err(EnterFault::Stopped)
        && core.step_rewrite() == CallOutcome::Stopped
        && core.retire() == CallOutcome::Stopped
}

/// Whether a hall says at each call that it has stopped.
pub(crate) fn does_nothing(
    alloc: Global,
    core: &mut DurableCore<MemoryDisk>,
) -> Result<bool, Fault> {
    let call = called(alloc, core, "SET k a POINT 1 2")?;
    let tick = ticked(alloc, core)?;
    let take = taken(alloc, core, &mut Text::new(alloc))?;
    let is_still = is_still(core);
    core.close_session(1);
    core.remove_session(1);
    Ok(
        core.is_stopped()
            && is_still
            && call == CallOutcome::Stopped
            && tick == CallOutcome::Stopped
            && take == Taken::Stopped,
    )
}
