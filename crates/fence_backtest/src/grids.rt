//! The grid: in which of eight by eight equal parts of a box a point stands, and how many stand in each.

ghost use Rattle.std.specs.Prelude.{◌≡◌, ◌++◌, ◌∷◌, ◌+◌, ◌^◌, ◌<◌, length, take, IfOk, OnOk, decimal};
ghost use Rattle.planar_geom.specs.Points.{in_box, in_range};
ghost use Rattle.fence_backtest.specs.Reports.{eighth as eighth_of, grid_text, row_text};
ghost use Rattle.fence_backtest.specs.Outcomes.{IsTally, cell_of as cell_of_point, cells_in, count_at};

use crate::outcomes::Outcome;
use byte_text::{NoMemory, Text, push_u64};
use planar_geom::{BBox, Pt};
use std::alloc::{AllocError, Global};

/// One of eight by eight equal parts of a box: its row from the south, and its column from the west, from 0 on.
#[derive(Clone, Copy, Debug, PartialEq, Eq)]
pub(crate) struct Cell {
    pub(crate) row: u64,
    pub(crate) column: u64,
}

// In which of eight equal parts of a range a number of it stands.
fn eighth(low: i32, high: i32, at: i32) -> u64
    ensures { result ≡ eighth_of low high at }
{
    u64::from(at.abs_diff(low)) * 8 / (u64::from(high.abs_diff(low)) + 1)
}

fn is_between(low: i32, high: i32, at: i32) -> bool
    ensures { result ≡ in_range low high at }
{
    low <= at && at <= high
}

// Whether a point stands between the west and the east end of a box.
fn is_in_width(area: BBox, place: Pt) -> bool
    ensures { result ≡ in_range area.min.x area.max.x place.x }
{
    is_between(area.min().x(), area.max().x(), place.x())
}

// Whether a point stands between the south and the north end of a box.
fn is_in_height(area: BBox, place: Pt) -> bool
    ensures { result ≡ in_range area.min.y area.max.y place.y }
{
    is_between(area.min().y(), area.max().y(), place.y())
}

// Whether a point stands in a box.
fn holds(area: BBox, place: Pt) -> bool
    ensures { result ≡ in_box area place }
{
    is_in_width(area, place) && is_in_height(area, place)
}

/// The part of a box in which a point stands, if it stands in the box.
pub(crate) fn cell_of(area: BBox, place: Pt) -> Option<Cell>
    ensures { result ≡ cell_of_point area place }
{
    if !holds(area, place) {
        return None;
    }
    let low = area.min();
    let high = area.max();
    Some(Cell {
        row: eighth(low.y(), high.y(), place.y()),
        column: eighth(low.x(), high.x(), place.x()),
    })
}

// Counts what a change came to, if it is a put in a part of the grid. Here `seen` of the outcomes were counted.
fn count_next(counts: &mut [u64], outcomes: &[Outcome], seen: usize)
    requires here { seen < length outcomes.now }
    requires fits { seen + 1 < 2 ^ 64 }
    requires so_far { IsTally (take seen outcomes.now) counts.old }
    ensures { IsTally (take (seen + 1) outcomes.now) counts.new }
{
    match outcomes[seen].cell {
        Some(cell) if cell.row < 8 && cell.column < 8 => {
            let place = (cell.row * 8 + cell.column) as usize;
            counts[place] += 1;
        }
        _ => {}
    }
}

/// How many of some outcomes are puts in each part, row by row.
pub(crate) fn tally_of(alloc: Global, outcomes: &[Outcome]) -> Result<Vec<u64>, AllocError>
    ensures { IfOk result (λ counts. IsTally outcomes.now counts.items) }
{
    let mut counts = vec![in alloc; 0u64; 64]?;
    for seen in 0..outcomes.len() {
        count_next(&mut counts, outcomes, seen);
    }
    Ok(counts)
}

// Appends how many puts are in a part, behind a space.
fn push_later(into: &mut Text, counts: &[u64], row: usize, column: usize) -> Result<(), NoMemory>
    requires long { length counts.now ≡ 64 }
    requires row { row < 8 }
    requires column { column < 8 }
    ensures { OnOk result (into.new ≡ into.old ++ 32 ∷ decimal (count_at counts.now row column)) }
{
    into.push(b" ")?;
    push_u64(into, counts[row * 8 + column])
}

// Appends a row of the grid.
fn push_row(into: &mut Text, counts: &[u64], row: usize) -> Result<(), NoMemory>
    requires long { length counts.now ≡ 64 }
    requires row { row < 8 }
    ensures { OnOk result (into.new ≡ into.old ++ row_text (count_at counts.now row)) }
{
    push_u64(into, counts[row * 8])?;
    for later in 0..7 {
        push_later(into, counts, row, later + 1)?;
    }
    into.push(b"\n")
}

/// Appends the grid of these numbers, row by row.
pub(crate) fn push_counts(into: &mut Text, counts: &[u64]) -> Result<(), NoMemory>
    requires { length counts.now ≡ 64 }
    ensures { OnOk result (into.new ≡ into.old ++ grid_text (count_at counts.now)) }
{
    for row in 0..8 {
        push_row(into, counts, row)?;
    }
    Ok(())
}
