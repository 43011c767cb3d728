//! The generated workload is asked of a core over a disk in memory, and so stands in a log.

ghost use Rattle.std.specs.Prelude.{◌≡◌, true};
ghost use Rattle.world_model.specs.Outcomes.{is_proper};
ghost use Rattle.world_model.specs.declared.events.Asked.TheVariants.{Words};

use crate::cases::Case;
use crate::cores::{objects_line, two_numbers};
use crate::durables::{answered, enter, open, taken};
use crate::faults::Fault;
use byte_text::{Request, Text};
use durable_core::DurableCore;
use outside::MemoryDisk;
use std::alloc::Global;
use work_gen::{Role, Workload};
use world_model::{Asked, CallOutcome, Taken};

// The first session asks for this, and takes the reply.
fn ask(alloc: Global, core: &mut DurableCore<MemoryDisk>, words: Request) -> Result<(), Fault>
    requires { is_proper (Words words) ≡ true }
{
    let asked = Asked::Words(words);
    if answered(alloc, core, &asked)? != CallOutcome::Ok {
        return Err(Fault::Step);
    }
    match taken(alloc, core, &mut Text::new(alloc))? {
        Taken::Some(_) => Ok(()),
        _ => Err(Fault::Step),
    }
}

// The first session asks for all that the sender of a workload does. What its listener asks for changes no world.
fn ask_all(
    alloc: Global,
    core: &mut DurableCore<MemoryDisk>,
    workload: Workload,
) -> Result<(), Fault> {
    let mut left = workload;
    enter(core)?;
    for _ in 0..u64::MAX {
        let Some(line) = left.next_line(alloc)? else {
            return Ok(());
        };
        if line.role == Role::Sender {
            ask(alloc, core, line.words)?;
        }
    }
    Ok(())
}

// The workload of the words, a number of commands and a seed.
fn workload_of(case: &Case) -> Result<Workload, Fault> {
    let (commands, seed) = two_numbers(case.asked()?)?;
    match u32::try_from(commands) {
        Ok(commands) => Ok(Workload::new(commands, seed)),
        Err(_) => Err(Fault::Line),
    }
}

/// A core over a disk is asked for the workload of the words. How many objects there are in the end, and the disk with
/// the log.
pub(crate) fn play_workload(
    alloc: Global,
    case: &Case,
    disk: MemoryDisk,
) -> Result<(Text, MemoryDisk), Fault> {
    let workload = workload_of(case)?;
    let mut core = open(alloc, disk)?;
    let asked = ask_all(alloc, &mut core, workload);
    let objects = core.objects();
    let disk = core.into_disk();
    match asked {
        Ok(()) => Ok((objects_line(alloc, objects)?, disk)),
        Err(fault) => Err(fault),
    }
}
