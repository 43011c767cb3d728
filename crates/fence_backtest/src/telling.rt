//! What is told of each stretch of changes, and of all of them.

ghost use Rattle.std.specs.Prelude.{◌≡◌, ◌<◌, ◌≤◌, ◌+◌, ◌^◌, ℕ, List, true, flat_map, length, IfOk};
ghost use Rattle.std.specs.List.{All, AllZip, range_with_len};
ghost use Rattle.byte_text.specs.Globs.{is_sound_glob};
ghost use Rattle.planar_geom.specs.Points.{Bounds};
ghost use Rattle.world_data.specs.Worlds.{empty_world};
ghost use Rattle.world_data.specs.declared.channels.Channel.{Channel};
ghost use Rattle.world_data.specs.declared.worlds.Change.{Change};
ghost use Rattle.fence_backtest.specs.Outcomes.{IsTally};
ghost use Rattle.fence_backtest.specs.Standing.{AreStretches};
ghost use Rattle.fence_backtest.specs.declared.telling.Told.{Told};
ghost use Rattle.fence_backtest.specs.Telling.{AreTold, IsTold, IsToldAt, outcome_lines};

use crate::grids::tally_of;
use crate::in_order::InOrder;
use crate::lines::push_lines;
use crate::outcomes::{Outcome, outcomes};
use crate::standing::Stretches;
use crate::sums::{add_each, sum_of};
use byte_text::{NoMemory, Text};
use planar_geom::BBox;
use rayon::prelude::*;
use std::alloc::{AllocError, Global};
use std::thread::Threads;
use world_data::Channel;

/// What is told of changes: the lines of their items, how many these are, and how many puts are in each part of the
/// grid, row by row.
#[derive(Drop)]
pub(crate) struct Told {
    pub(crate) text: Text,
    pub(crate) total: u64,
    pub(crate) counts: Vec<u64>,
}

/// What is told of each stretch, side by side.
pub(crate) fn tell_each<R: Threads + Sync>(
    rt: &R,
    alloc: Global,
    channel: &Channel,
    area: BBox,
    changes: &InOrder,
    stretches: &Stretches,
) -> Result<Vec<Told>, NoMemory>
    requires sound { is_sound_glob channel.now.fence.glob ≡ true }
    requires are { AreStretches channel.now.fence.key changes.now stretches.now.size stretches.now.list.items }
    ensures { IfOk result (λ told. AreTold channel.now area changes.now stretches.now.size told.items) }
{
    match told_side_by_side(rt, alloc, channel, area, changes, stretches) {
        Ok(Ok(told)) => Ok(told),
        Ok(Err(NoMemory)) => Err(NoMemory),
        Err(AllocError) => Err(NoMemory),
    }
}

// The same.
fn told_side_by_side<R: Threads + Sync>(
    rt: &R,
    alloc: Global,
    channel: &Channel,
    area: BBox,
    changes: &InOrder,
    stretches: &Stretches,
) -> Result<Result<Vec<Told>, NoMemory>, AllocError>
    requires sound { is_sound_glob channel.now.fence.glob ≡ true }
    requires are { AreStretches channel.now.fence.key changes.now stretches.now.size stretches.now.list.items }
    ensures { IfOk result (λ all. IfOk all (λ told.
        AllZip (IsToldAt channel.now area changes.now stretches.now.size)
        (range_with_len 0 (length stretches.now.list.items)) told.items)) }
{
    (0..stretches.list.len())
        .into_par_iter()
        .with_min_len(1)
        .map(
            |at: usize| -> Result<Told, NoMemory>
                requires { (is_sound_glob channel.now.fence.glob ≡ true)
                    × AreStretches channel.now.fence.key changes.now stretches.now.size stretches.now.list.items
                    × (at < length stretches.now.list.items) }
                ensures { IfOk result (IsToldAt channel.entry.now area changes.entry.now stretches.entry.now.size at) }
            { tell(alloc, channel, area, changes, stretches, at) },
        )
        .collect(rt, alloc)
}

// What is told of the stretch of this number.
fn tell(
    alloc: Global,
    channel: &Channel,
    area: BBox,
    changes: &InOrder,
    stretches: &Stretches,
    at: usize,
) -> Result<Told, NoMemory>
    requires sound { is_sound_glob channel.now.fence.glob ≡ true }
    requires are { AreStretches channel.now.fence.key changes.now stretches.now.size stretches.now.list.items }
    requires here { at < length stretches.now.list.items }
    ensures { IfOk result (IsToldAt channel.now area changes.now stretches.now.size at) }
{
    let stretch = &stretches.list[at];
    let found = outcomes(
        alloc,
        channel,
        area,
        changes,
        &stretches.list[..at],
        stretch,
    )?;
    told_of(alloc, changes, stretch.from(), found.as_slice())
}

// What is told of what changes came to, from a place on.
fn told_of(
    alloc: Global,
    changes: &InOrder,
    from: usize,
    outcomes: &[Outcome],
) -> Result<Told, NoMemory>
    requires within { from + length outcomes.now ≤ length changes.now }
    requires fits { from + length outcomes.now < 2 ^ 64 }
    ensures text { IfOk result (λ t. t.text ≡ flat_map (λ line. line) (outcome_lines changes.now from outcomes.now)) }
    ensures total { IfOk result (λ t. t.total ≡ length (outcome_lines changes.now from outcomes.now)) }
    ensures counts { IfOk result (λ t. IsTally outcomes.now t.counts.items) }
{
    let mut text = Text::new(alloc);
    let total = push_lines(&mut text, changes, from, outcomes)?;
    let counts = tally_of(alloc, outcomes)?;
    Ok(Told {
        text,
        total,
        counts,
    })
}

/// What is told of stretches, one behind another.
pub(crate) fn joined(alloc: Global, told: &[Told]) -> Result<Told, NoMemory>
    requires { All (λ (t : Told). length t.counts.items ≡ 64) told.now }
    ensures long { IfOk result (λ all. length all.counts.items ≡ 64) }
    ensures told { (c : Channel) (area : Bounds) (all : List Change) (size : ℕ) → AreTold c area all size told.now
        → IfOk result (IsTold c area 1 empty_world all) }
{
    let mut text = Text::new(alloc);
    let mut total = 0;
    let mut counts = vec![in alloc; 0u64; 64]?;
    for next in told {
        text.push(next.text.bytes())?;
        total = sum_of(total, next.total)?;
        add_each(&mut counts, next.counts.as_slice())?;
    }
    Ok(Told {
        text,
        total,
        counts,
    })
}
