//! The command `load`: a machine is driven with the workload, and what that came to is written.
//!
//! The workload drives a core of its own and no shared hall: the contract of a shared hall lets entries of others come
//! between a seat's own, which would leave the four lines open.

ghost use Rattle.std.specs.Prelude.{◌≡◌, ◌≤◌, ◌⊎◌, IfOk};
ghost use Rattle.outside.specs.Causes.{Rose};
ghost use Rattle.world_data.specs.Worlds.{empty_world};
ghost use Rattle.world_model.specs.Histories.{opening_hall};
ghost use Rattle.work_gen.specs.Outs.{IsLoadOut};
ghost use Rattle.tile_top.specs.Loads.{Loads};

use crate::CoreMachine;
use crate::workloads::LoadWords;
use byte_text::{NoMemory, Text};
use outside::Sink;
use serve_run::{OUT_OF_MEMORY, end};
use std::alloc::Global;
use work_gen::{Machine, drive, push_summary};

// The lines of the workload's summary.
fn lines_of<M: Machine>(alloc: Global, machine: &mut M, asked: LoadWords) -> Result<Text, NoMemory>
    requires { M.hall machine.old ≡ opening_hall empty_world 0 }
    ensures { IfOk result (λ t. IsLoadOut asked.commands asked.seed t) }
{
    let summary = drive(alloc, machine, asked.commands, asked.seed)?;
    let mut text = Text::new(alloc);
    push_summary(&mut text, &summary)?;
    Ok(text)
}

// Drives a machine of an empty world with the workload that the words ask for, writes the lines of its summary, and
// answers the status.
fn load<M: Machine, K: Sink>(alloc: Global, machine: &mut M, asked: LoadWords, sink: &mut K) -> u8
    requires { M.hall machine.old ≡ opening_hall empty_world 0 }
    ensures loads { Loads asked (K.held sink.old) (K.held sink.new) result }
    ensures few { (result ≡ 0) ⊎ ((result ≡ 4) ⊎ (result ≡ 7)) }
    ensures sink { K.faults sink.old ≤ K.faults sink.new }
    ensures write { result ≡ 4 → Rose (K.faults sink.old) (K.faults sink.new) }
{
    match lines_of(alloc, machine, asked) {
        Ok(lines) => end(sink, 0, lines.bytes()),
        Err(NoMemory) => end(sink, 7, OUT_OF_MEMORY),
    }
}

/// Makes a core and drives it with the workload that the words ask for. The status.
pub(crate) fn load_core<K: Sink>(alloc: Global, asked: LoadWords, sink: &mut K) -> u8
    ensures loads { Loads asked (K.held sink.old) (K.held sink.new) result }
    ensures few { (result ≡ 0) ⊎ ((result ≡ 4) ⊎ (result ≡ 7)) }
    ensures sink { K.faults sink.old ≤ K.faults sink.new }
    ensures write { result ≡ 4 → Rose (K.faults sink.old) (K.faults sink.new) }
{
    match CoreMachine::new(alloc) {
        Ok(mut machine) => load(alloc, &mut machine, asked, sink),
        Err(_) => end(sink, 7, OUT_OF_MEMORY),
    }
}
