//! A script on the world of a disk, and its status.

ghost use Rattle.std.specs.Prelude.{◌≡◌, ◌≤◌, ◌∷◌, Some, true, is_some};
ghost use Rattle.outside.specs.Causes.{Rose};
ghost use Rattle.outside.specs.Sides.{Sides};
ghost use Rattle.replay_run.specs.HandedBack.{HoldsWorld, IsBackAt};
ghost use Rattle.replay_run.specs.Traces.{opens};
ghost use Rattle.replay_run.specs.Standing.{IsSafeFor};
ghost use Rattle.tile_top.specs.Tops.{Replays};

use crate::halt_ends::end_replay;
use outside::{Disk, Sink, Source};
use replay_run::replay;
use std::alloc::Global;

/// The status of a script, and its disk.
#[derive(Drop)]
pub(crate) struct Scripted<D> {
    pub(crate) status: u8,
    pub(crate) disk: D,
}

/// Plays the script on the world of the disk, and writes the last line of its status.
pub(crate) fn replay_script<S: Source, K: Sink, D: Disk>(
    alloc: Global,
    source: &mut S,
    sink: &mut K,
    disk: D,
) -> Scripted<D>
    ensures told { Replays (D.seen disk) (IsBackAt D.crashes D.seen D.images D.moment D.left_since disk result.disk)
        (λ w. is_some (D.seen disk) ≡ true → HoldsWorld (D.seen result.disk) w)
        (λ w logged deeds. (s : Sides) → D.seen disk ≡ Some s → D.crashes disk ≡ true
        → IsSafeFor D.images D.left_since result.disk (opens w logged ∷ deeds))
        (Rose (S.faults source.old) (S.faults source.new)) (S.left source.old) (S.left source.new) (K.held sink.old)
        (K.held sink.new) result.status }
    ensures source { S.faults source.old ≤ S.faults source.new }
    ensures sink { K.faults sink.old ≤ K.faults sink.new }
    ensures later { D.faults disk ≤ D.faults result.disk }
    ensures read { result.status ≡ 3 → Rose (S.faults source.old) (S.faults source.new) }
    ensures write { result.status ≡ 4 → Rose (K.faults sink.old) (K.faults sink.new) }
    ensures disk { result.status ≡ 5 → Rose (D.faults disk) (D.faults result.disk) }
{
    let replayed = replay(alloc, source, sink, disk);
    let status = end_replay(alloc, sink, replayed.end);
    Scripted {
        status,
        disk: replayed.disk,
    }
}
