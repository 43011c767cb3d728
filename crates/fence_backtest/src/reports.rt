//! The report of what a fence would have told.

ghost use Rattle.std.specs.Prelude.{◌≡◌, ◌++◌, None, true, Some, IfOk, length};
ghost use Rattle.byte_text.specs.Globs.{is_sound_glob};
ghost use Rattle.fence_model.specs.Fences.{roams_over};
ghost use Rattle.fence_backtest.specs.Outcomes.{count_at};
ghost use Rattle.fence_backtest.specs.Reports.{grid_text, report, total_line, watch_box};

use crate::changes::Changes;
use crate::grids::push_counts;
use crate::in_order::InOrder;
use crate::lines::push_total;
use crate::standing::all_stretches;
use crate::telling::{Told, joined, tell_each};
use byte_text::{NoMemory, Text};
use planar_geom::{BBox, area_box};
use std::alloc::Global;
use std::thread::Threads;
use world_data::{Channel, Watch};

// The box of the area that is watched.
fn watched_box(watch: &Watch) -> BBox
    requires { roams_over watch.now ≡ None }
    ensures { watch_box watch.now ≡ Some result }
{
    match watch {
        Watch::Zone(_, area) => area_box(area),
        Watch::Roam(_, _, _, _) => unreachable!(),
    }
}

// The report of what is told of changes.
fn report_of(told: Told) -> Result<Text, NoMemory>
    requires { length told.counts.items ≡ 64 }
    ensures { IfOk result (λ text. text ≡ told.text ++ (total_line told.total ++ grid_text (count_at told.counts.items))) }
{
    let Told {
        mut text,
        total,
        counts,
    } = told;
    push_total(&mut text, total)?;
    push_counts(&mut text, counts.as_slice())?;
    Ok(text)
}

/// The report of changes.
pub(crate) fn report_changes<R: Threads + Sync>(
    rt: &R,
    alloc: Global,
    changes: &InOrder,
    channel: &Channel,
) -> Result<Text, NoMemory>
    requires sound { is_sound_glob channel.now.fence.glob ≡ true }
    requires zone { roams_over channel.now.fence.watch ≡ None }
    ensures { IfOk result (λ text. text ≡ report channel.now changes.now) }
{
    let area = watched_box(&channel.fence.watch);
    let stretches = all_stretches(rt, alloc, &channel.fence.key, changes)?;
    let told = tell_each(rt, alloc, channel, area, changes, &stretches)?;
    let all = joined(alloc, told.as_slice())?;
    report_of(all)
}

/// The report of what the channel would have raised over the changes of a log: the line of each item, with the number
/// of its record; the number of these lines; and how many puts of the channel's key had their place in each part of
/// the grid over its area. The work is done side by side, and the report is that of one thread, however it is cut.
pub fn backtest<R: Threads + Sync>(
    rt: &R,
    alloc: Global,
    changes: &Changes,
    channel: &Channel,
) -> Result<Text, NoMemory>
    requires sound { is_sound_glob channel.now.fence.glob ≡ true }
    requires zone { roams_over channel.now.fence.watch ≡ None }
    ensures { IfOk result (λ text. text ≡ report channel.now changes.now) }
{
    let mut all = InOrder::new(alloc);
    all.append(changes.as_slice())?;
    report_changes(rt, alloc, &all, channel)
}
