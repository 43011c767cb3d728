//! What a fence would have told of a disk's log, and its status.

ghost use Rattle.std.specs.Prelude.{◌≡◌, ◌≤◌, ◌⊎◌, None, true};
ghost use Rattle.byte_text.specs.Globs.{is_sound_glob};
ghost use Rattle.outside.specs.Causes.{Rose};
ghost use Rattle.fence_model.specs.Fences.{roams_over};
ghost use Rattle.fence_backtest.specs.declared.asked.AskFault.TheVariants as ask_fault;
ghost use Rattle.tile_top.specs.Backtests.{Backtests, IsReadAlone, IsUnasked, Tells};

use crate::halt_ends::{READ_FAULT, end_halt};
use crate::replays::Scripted;
use fence_backtest::{AskFault, backtest_log, read_fence};
use outside::{Disk, Sink, Source};
use replay_run::halt_of;
use serve_run::{OUT_OF_MEMORY, end};
use std::alloc::Global;
use std::thread::Threads;
use world_data::Channel;

const BAD_FENCE: &[u8] = b"bad fence\n";

// The last line where it is not known which fence is asked for.
fn end_unasked<K: Sink>(sink: &mut K, why: AskFault) -> u8
    ensures told { IsUnasked (K.held sink.old) (K.held sink.new) result }
    ensures few { (result ≡ 3) ⊎ ((result ≡ 4) ⊎ (result ≡ 7)) }
    ensures later { K.faults sink.old ≤ K.faults sink.new }
    ensures read { result ≡ 3 → why ≡ ask_fault.Read }
    ensures write { result ≡ 4 → Rose (K.faults sink.old) (K.faults sink.new) }
{
    match why {
        AskFault::Read => end(sink, 3, READ_FAULT),
        AskFault::Memory => end(sink, 7, OUT_OF_MEMORY),
    }
}

// Writes what the channel would have raised over the changes of the disk's log.
fn tell_disk<K: Sink, D: Disk, R: Threads + Sync>(
    rt: &R,
    alloc: Global,
    sink: &mut K,
    disk: D,
    channel: &Channel,
) -> Scripted<D>
    requires sound { is_sound_glob channel.now.fence.glob ≡ true }
    requires zone { roams_over channel.now.fence.watch ≡ None }
    ensures told { Tells (D.seen disk) channel.now (K.held sink.old) (K.held sink.new) result.status }
    ensures alone { IsReadAlone D.crashes D.seen D.images D.moment D.left_since disk result.disk result.status }
    ensures sink { K.faults sink.old ≤ K.faults sink.new }
    ensures later { D.faults disk ≤ D.faults result.disk }
    ensures read { result.status ≡ 3 → ⊥ }
    ensures write { result.status ≡ 4 → Rose (K.faults sink.old) (K.faults sink.new) }
    ensures disk { result.status ≡ 5 → Rose (D.faults disk) (D.faults result.disk) }
{
    let mut disk = disk;
    let status = match backtest_log(rt, alloc, &mut disk, channel) {
        Ok(text) => end(sink, 0, text.bytes()),
        Err(why) => end_halt(alloc, sink, halt_of(why)),
    };
    Scripted { status, disk }
}

/// Reads the fence that the source asks for, and writes what it would have raised over the changes of the disk's log.
pub(crate) fn backtest_disk<S: Source, K: Sink, D: Disk, R: Threads + Sync>(
    rt: &R,
    alloc: Global,
    source: &mut S,
    sink: &mut K,
    disk: D,
) -> Scripted<D>
    ensures told { Backtests (D.seen disk) (S.left source.old) (S.left source.new) (K.held sink.old) (K.held sink.new)
        result.status }
    ensures alone { IsReadAlone D.crashes D.seen D.images D.moment D.left_since disk result.disk result.status }
    ensures source { S.faults source.old ≤ S.faults source.new }
    ensures sink { K.faults sink.old ≤ K.faults sink.new }
    ensures later { D.faults disk ≤ D.faults result.disk }
    ensures read { result.status ≡ 3 → Rose (S.faults source.old) (S.faults source.new) }
    ensures write { result.status ≡ 4 → Rose (K.faults sink.old) (K.faults sink.new) }
    ensures disk { result.status ≡ 5 → Rose (D.faults disk) (D.faults result.disk) }
{
    match read_fence(alloc, source) {
        Ok(Some(channel)) => tell_disk(rt, alloc, sink, disk, &channel),
        Ok(None) => Scripted {
            status: end(sink, 11, BAD_FENCE),
            disk,
        },
        Err(why) => Scripted {
            status: end_unasked(sink, why),
            disk,
        },
    }
}
