//! The caller that drives a machine with the workload.
//!
//! The workload goes on however a call is answered, and takes until a take finds no frame. So the machine's steps
//! decide the whole summary, and no answer but want of memory breaks it off.

ghost use Rattle.std.specs.Prelude.{◌≡◌, [], false, IfOk};
ghost use Rattle.world_data.specs.Limits.{take_frames};
ghost use Rattle.world_data.specs.Worlds.{empty_world};
ghost use Rattle.world_model.specs.Histories.{opening_hall};
ghost use Rattle.work_gen.specs.Rounds.{Goes};
ghost use Rattle.work_gen.specs.Workload.{lines};
ghost use Rattle.work_gen.specs.Drives.{Enters, Drives};

use crate::asking::ask;
use crate::machines::Machine;
use crate::pairs::Pair;
use crate::summaries::Summary;
use crate::tallies::Tally;
use crate::workloads::Workload;
use byte_text::NoMemory;
use std::alloc::Global;
use world_model::{EnterFault, Frames};

// Enters the two sessions.
fn enter_both<M: Machine>(machine: &mut M) -> Result<Pair, NoMemory>
    requires opening { M.hall machine.old ≡ opening_hall empty_world 0 }
    ensures goes { (M.hall machine.new).stopped ≡ false }
    ensures ok { IfOk result (λ p. Enters p (M.hall machine.old) (M.hall machine.new)) }
{
    let listener = match machine.enter() {
        Ok(number) => number,
        Err(EnterFault::Memory) => return Err(NoMemory),
        // A hall without sessions has not stopped, and has room for two.
        Err(EnterFault::TooMany) => unreachable!(),
        Err(EnterFault::Stopped) => unreachable!(),
    };
    match machine.enter() {
        Ok(sender) => Ok(Pair { listener, sender }),
        Err(EnterFault::Memory) => Err(NoMemory),
        Err(EnterFault::TooMany) => unreachable!(),
        Err(EnterFault::Stopped) => unreachable!(),
    }
}

// Asks for all of the workload, in order.
fn send_all<M: Machine>(
    alloc: Global,
    machine: &mut M,
    pair: &Pair,
    n: u32,
    seed: u64,
    frames: &mut Frames,
) -> Result<Tally, NoMemory>
    requires empty { frames.old ≡ record { list = []; places = take_frames } }
    requires goes { (M.hall machine.old).stopped ≡ false }
    ensures ok { IfOk result
        (λ t. Goes pair.now (lines n seed) (M.hall machine.old) (M.hall machine.new)
        (record { messages = 0; bytes = 0 }) t) }
{
    let mut tally = Tally::new();
    let mut left = Workload::new(n, seed);
    'sending: loop {
        let Some(line) = left.next_line(alloc)? else {
            return Ok(tally);
        };
        tally = ask(machine, pair, line, frames, tally)?;
    }
}

/// Drives a machine of an empty world with the workload of so many commands from a seed: two sessions are entered, the
/// first subscribes to all channels, the second sets them and sends the commands, all at moment 0, and after each
/// request both take their frames until there is none. The sessions stay.
pub fn drive<M: Machine>(
    alloc: Global,
    machine: &mut M,
    n: u32,
    seed: u64,
) -> Result<Summary, NoMemory>
    requires { M.hall machine.old ≡ opening_hall empty_world 0 }
    ensures { IfOk result (λ s. Drives n seed (M.hall machine.old) (M.hall machine.new) s) }
{
    let mut frames = Frames::new(alloc)?;
    let pair = enter_both(machine)?;
    let tally = send_all(alloc, machine, &pair, n, seed, &mut frames)?;
    Ok(Summary {
        commands: n,
        objects: machine.objects(),
        messages: tally.messages,
        bytes: tally.bytes,
    })
}
