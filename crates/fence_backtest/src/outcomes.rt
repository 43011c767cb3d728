//! What each change comes to: what it raises, and in which part of the grid it puts.

ghost use Rattle.std.specs.Prelude.{◌≡◌, ◌<◌, ◌≤◌, ◌+◌, ◌^◌, [], None, true, length, IfOk, option_map};
ghost use Rattle.byte_text.specs.Globs.{is_sound_glob};
ghost use Rattle.fence_table.specs.Pairs.{items};
ghost use Rattle.world_data.specs.declared.worlds.Change.TheVariants as changes_of;
ghost use Rattle.world_data.specs.declared.worlds.World.{World};
ghost use Rattle.fence_backtest.specs.Cuts.{part};
ghost use Rattle.fence_backtest.specs.Reports.{raised_by as raised_by_change};
ghost use Rattle.fence_backtest.specs.Outcomes.{IsOutcome, cell_at as cell_at_change, object_put as object_put_at};
ghost use Rattle.fence_backtest.specs.Standing.{AreStood, nowhere, places_behind};
ghost use Rattle.fence_backtest.specs.Telling.{AreOutcomes, IsOutcomeAt};

use crate::grids::{Cell, cell_of};
use crate::in_order::InOrder;
use crate::standing::{Stretch, old_place};
use byte_text::{Name, NoMemory};
use fence_table::{Pair, raised};
use ordered_lists::is_same;
use planar_geom::{BBox, box_of, centre};
use std::alloc::Global;
use world_data::{Change, Channel, Object, Raised};

/// What a change comes to.
#[derive(Clone, Copy, Debug, PartialEq, Eq)]
pub(crate) struct Outcome {
    pub(crate) raised: Pair,
    pub(crate) cell: Option<Cell>,
}

fn nothing() -> Pair
    ensures { items result.first result.second ≡ [] }
{
    Pair {
        first: None,
        second: None,
    }
}

// What the drop of a key raises.
fn raised_by_drop(channel: &Channel, key: &Name) -> Pair
    ensures { items result.first result.second ≡ raised_by_change channel.now None (changes_of.Drop key.now) }
{
    if is_same(key, &channel.fence.key) && channel.fence.wanted.drop {
        Pair {
            first: Some(Raised::Drop),
            second: None,
        }
    } else {
        nothing()
    }
}

// What a change raises where this object stood.
fn raised_by(channel: &Channel, old: Option<&Object>, change: &Change) -> Pair
    requires { is_sound_glob channel.now.fence.glob ≡ true }
    ensures { items result.first result.second
        ≡ raised_by_change channel.now (option_map (λ o. o.now) old.entry) change.now }
{
    match change {
        Change::Put(object) if is_same(&object.key, &channel.fence.key) => {
            raised(channel, old, Some(object))
        }
        Change::Del(key, _) if is_same(key, &channel.fence.key) => raised(channel, old, None),
        Change::Drop(key) => raised_by_drop(channel, key),
        _ => nothing(),
    }
}

// The part of the grid in which a change of this key puts an object.
fn cell_at(key: &Name, area: BBox, change: &Change) -> Option<Cell>
    ensures { result ≡ cell_at_change key.now area change.now }
{
    match change {
        Change::Put(object) if is_same(&object.key, key) => {
            cell_of(area, centre(box_of(&object.shape)))
        }
        _ => None,
    }
}

// The object of the put at a place, if a place is named.
fn object_put<'a>(changes: &InOrder<'a>, place: Option<usize>) -> Option<&'a Object>
    ensures { option_map (λ o. o.now) result ≡ object_put_at changes.now place }
{
    match changes.get(place?) {
        Some(Change::Put(object)) => Some(object),
        _ => None,
    }
}

// What a change comes to where this object stood.
fn outcome_of(channel: &Channel, area: BBox, old: Option<&Object>, change: &Change) -> Outcome
    requires { is_sound_glob channel.now.fence.glob ≡ true }
    ensures { IsOutcome channel.now area (option_map (λ o. o.now) old.entry) change.now result }
{
    Outcome {
        raised: raised_by(channel, old, change),
        cell: cell_at(&channel.fence.key, area, change),
    }
}

// What the change at a place of a stretch comes to, behind these.
fn outcome_at(
    channel: &Channel,
    area: BBox,
    changes: &InOrder,
    before: &[Stretch],
    stretch: &Stretch,
    at: usize,
) -> Outcome
    requires sound { is_sound_glob channel.now.fence.glob ≡ true }
    requires within { stretch.now.from + length stretch.now.olds ≤ length changes.now }
    requires fits { stretch.now.from + length stretch.now.olds < 2 ^ 64 }
    requires here { at < length stretch.now.olds }
    ensures { IsOutcomeAt channel.now area changes.now before.now stretch.now at result }
{
    let change = changes.at(stretch.from() + at);
    let old = old_place(before, change, stretch.old(at));
    outcome_of(channel, area, object_put(changes, old), change)
}

/// What each change of a stretch comes to, behind these.
pub(crate) fn outcomes(
    alloc: Global,
    channel: &Channel,
    area: BBox,
    changes: &InOrder,
    before: &[Stretch],
    stretch: &Stretch,
) -> Result<Vec<Outcome>, NoMemory>
    requires sound { is_sound_glob channel.now.fence.glob ≡ true }
    requires within { stretch.now.from + length stretch.now.olds ≤ length changes.now }
    requires fits { stretch.now.from + length stretch.now.olds < 2 ^ 64 }
    ensures long { IfOk result (λ found. length found.items ≡ length stretch.now.olds) }
    ensures are { (w : World) → AreStood channel.now.fence.key changes.now (places_behind nowhere before.now) w
        (part changes.now stretch.now.from (length stretch.now.olds)) stretch.now.olds
        → IfOk result (λ found. AreOutcomes channel.now area w
        (part changes.now stretch.now.from (length stretch.now.olds)) found.items) }
{
    let mut found = Vec::with_capacity(alloc, stretch.len())?;
    for at in 0..stretch.len() {
        found.push(outcome_at(channel, area, changes, before, stretch, at))?;
    }
    Ok(found)
}
