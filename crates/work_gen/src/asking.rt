//! One request, and the frames that follow it.

ghost use Rattle.std.specs.Prelude.{◌≡◌, ◌<◌, [], ◌∷◌, true, false, length, OnOk, IfOk, IfSome};
ghost use Rattle.world_data.specs.Limits.{take_frames};
ghost use Rattle.world_model.specs.Outcomes.{is_proper};
ghost use Rattle.world_model.specs.declared.events.Asked.TheVariants.{Words};
ghost use Rattle.work_gen.specs.Asking.{TakesOn, Drained, waiting};
ghost use Rattle.work_gen.specs.Rounds.{CallsBy, Goes};

use crate::lines::Line;
use crate::machines::Machine;
use crate::pairs::{Pair, asker};
use crate::tallies::Tally;
use byte_text::{NoMemory, Request};
use world_model::{Asked, CallOutcome, Frames, Taken};

// Makes the call of a request, whatever its answer.
fn call_one<M: Machine>(machine: &mut M, session: u32, words: Request) -> Result<(), NoMemory>
    requires proper { is_proper (Words words) ≡ true }
    requires goes { (M.hall machine.old).stopped ≡ false }
    ensures goes { (M.hall machine.new).stopped ≡ false }
    ensures ok { OnOk result (CallsBy session words (M.hall machine.old) (M.hall machine.new)) }
{
    let asked = Asked::Words(words);
    match machine.call(session, &asked) {
        CallOutcome::Memory => Err(NoMemory),
        // Only a log that fails stops the machine.
        CallOutcome::LogFault => unreachable!(),
        CallOutcome::Stopped => unreachable!(),
        CallOutcome::Ok => Ok(()),
        CallOutcome::Full => Ok(()),
        CallOutcome::Gone => Ok(()),
        CallOutcome::Spent => Ok(()),
    }
}

// Takes once. What the frames come to; none where there was no frame.
fn take_turn<M: Machine>(machine: &mut M, session: u32, frames: &mut Frames) -> Option<Tally>
    requires empty { frames.old ≡ record { list = []; places = take_frames } }
    requires goes { (M.hall machine.old).stopped ≡ false }
    ensures empty { frames.new ≡ record { list = []; places = take_frames } }
    ensures goes { (M.hall machine.new).stopped ≡ false }
    ensures takes { TakesOn result session (M.hall machine.old) (M.hall machine.new) }
    ensures fewer { IfSome result
        (λ _. length (waiting session (M.hall machine.new)) < length (waiting session (M.hall machine.old))) }
{
    match machine.take(session, frames) {
        Taken::Some(_) => {
            let given = Tally::of(frames);
            frames.clear();
            Some(given)
        }
        Taken::Empty => {
            frames.clear();
            None
        }
        Taken::Ended => {
            frames.clear();
            None
        }
        Taken::LogFault => unreachable!(),
        Taken::Stopped => unreachable!(),
    }
}

// Takes a session's frames until there is none. What they come to.
fn drain<M: Machine>(machine: &mut M, session: u32, frames: &mut Frames) -> Tally
    requires empty { frames.old ≡ record { list = []; places = take_frames } }
    requires goes { (M.hall machine.old).stopped ≡ false }
    ensures empty { frames.new ≡ record { list = []; places = take_frames } }
    ensures goes { (M.hall machine.new).stopped ≡ false }
    ensures drained { Drained session (M.hall machine.old) (M.hall machine.new) result }
{
    let mut tally = Tally::new();
    'taking: loop {
        match take_turn(machine, session, frames) {
            Some(more) => tally = tally.plus(more),
            None => return tally,
        }
    }
}

/// Makes the call of a request, takes the frames of both sessions, and counts them: the messages of the listener's, and
/// the bytes of all.
pub(crate) fn ask<M: Machine>(
    machine: &mut M,
    pair: &Pair,
    line: Line,
    frames: &mut Frames,
    tally: Tally,
) -> Result<Tally, NoMemory>
    requires empty { frames.old ≡ record { list = []; places = take_frames } }
    requires goes { (M.hall machine.old).stopped ≡ false }
    requires proper { is_proper (Words line.words) ≡ true }
    ensures empty { IfOk result (λ _. frames.new ≡ record { list = []; places = take_frames }) }
    ensures goes { (M.hall machine.new).stopped ≡ false }
    ensures ok { IfOk result (λ t. Goes pair.now (line ∷ []) (M.hall machine.old) (M.hall machine.new) tally t) }
{
    let session = asker(pair, line.role);
    call_one(machine, session, line.words)?;
    let heard = drain(machine, pair.listener, frames);
    let told = drain(machine, pair.sender, frames);
    let first = tally.plus(heard);
    let bytes = told.unheard();
    Ok(first.plus(bytes))
}
