//! A look at the world of a disk, and its status.

ghost use Rattle.std.specs.Prelude.{◌≡◌, ◌≤◌, ◌++◌, codes, decimal, IfOk};
ghost use Rattle.outside.specs.Causes.{Rose};
ghost use Rattle.replay_run.specs.HandedBack.{IsBackAt};
ghost use Rattle.replay_run.specs.Checks.{IsLookedAt};
ghost use Rattle.tile_top.specs.Checks.{Checks};

use crate::halt_ends::end_halt;
use crate::replays::Scripted;
use byte_text::{NoMemory, Text, push_u64};
use outside::{Disk, Sink};
use replay_run::{check, halt_of};
use serve_run::{DISK_FAULT, OUT_OF_MEMORY, end};
use std::alloc::Global;
use world_model::CallOutcome;

/// The line of a world, and of the generation of its log.
pub(crate) fn check_text(
    alloc: Global,
    objects: u64,
    channels: u64,
    generation: u64,
) -> Result<Text, NoMemory>
    ensures { IfOk result
        (λ t. t ≡ codes "objects " ++ decimal objects ++ codes " channels " ++ decimal channels ++ codes " generation "
        ++ decimal generation ++ codes "\n") }
{
    let mut text = Text::new(alloc);
    text.push(b"objects ")?;
    push_u64(&mut text, objects)?;
    text.push(b" channels ")?;
    push_u64(&mut text, channels)?;
    text.push(b" generation ")?;
    push_u64(&mut text, generation)?;
    text.push(b"\n")?;
    Ok(text)
}

/// Opens the world on a disk and retires it, and writes what it has.
pub(crate) fn check_disk<K: Sink, D: Disk>(alloc: Global, sink: &mut K, disk: D) -> Scripted<D>
    ensures told { Checks (D.seen disk) (IsBackAt D.crashes D.seen D.images D.moment D.left_since disk result.disk)
        (IsLookedAt D.crashes D.seen D.images D.moment D.left_since disk result.disk)
        (K.held sink.old) (K.held sink.new) result.status }
    ensures sink { K.faults sink.old ≤ K.faults sink.new }
    ensures later { D.faults disk ≤ D.faults result.disk }
    ensures write { result.status ≡ 4 → Rose (K.faults sink.old) (K.faults sink.new) }
    ensures disk { result.status ≡ 5 → Rose (D.faults disk) (D.faults result.disk) }
{
    match check(alloc, disk) {
        Ok(found) => {
            let text = check_text(alloc, found.objects, found.channels, found.generation);
            let status = match (found.answer, text) {
                (CallOutcome::Ok, Ok(text)) => end(sink, 0, text.bytes()),
                (CallOutcome::Ok, Err(NoMemory)) => end(sink, 7, OUT_OF_MEMORY),
                _ => end(sink, 5, DISK_FAULT),
            };
            Scripted {
                status,
                disk: found.disk,
            }
        }
        Err(unopened) => {
            let status = end_halt(alloc, sink, halt_of(unopened.why));
            Scripted {
                status,
                disk: unopened.disk,
            }
        }
    }
}
