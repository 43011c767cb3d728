//! The lines of a report.

ghost use Rattle.std.specs.Prelude.{◌≡◌, ◌++◌, ◌+◌, ◌<◌, ◌≤◌, ◌^◌, length, flat_map, OnOk, IfOk};
ghost use Rattle.fence_model.specs.Messages.{detect_name as name_of_detect};
ghost use Rattle.fence_backtest.specs.Reports.{id_word, item_line, raised_name as name_of_raised, total_line};
ghost use Rattle.fence_backtest.specs.Outcomes.{any_item, raised_in};
ghost use Rattle.fence_backtest.specs.Telling.{outcome_lines};

use crate::in_order::InOrder;
use crate::outcomes::Outcome;
use byte_text::{NoMemory, Text, push_u64};
use script_text::push_escaped;
use world_data::{Change, Detect, Raised};

fn detect_name(detect: Detect) -> &'static [u8]
    ensures { result.now ≡ name_of_detect detect }
{
    match detect {
        Detect::Inside => b"inside",
        Detect::Outside => b"outside",
        Detect::Enter => b"enter",
        Detect::Exit => b"exit",
        Detect::Cross => b"cross",
        Detect::Near => b"roam",
        Detect::Far => b"roam",
    }
}

fn raised_name(item: Raised) -> &'static [u8]
    ensures { result.now ≡ name_of_raised item }
{
    match item {
        Raised::Set(detect) => detect_name(detect),
        Raised::Del => b"del",
        Raised::Drop => b"drop",
    }
}

// Appends the id of the object that a change puts or deletes.
fn push_id(into: &mut Text, change: &Change) -> Result<(), NoMemory>
    ensures { OnOk result (into.new ≡ into.old ++ id_word change.now) }
{
    let id = match change {
        Change::Put(object) => &object.id,
        Change::Del(_, id) => id,
        _ => return Ok(()),
    };
    into.push(b" ")?;
    push_escaped(into, id.bytes())
}

// Appends the line of an item.
fn push_item(into: &mut Text, number: u64, change: &Change, item: Raised) -> Result<(), NoMemory>
    ensures { OnOk result (into.new ≡ into.old ++ item_line number change.now item) }
{
    push_u64(into, number)?;
    into.push(b" ")?;
    into.push(raised_name(item))?;
    push_id(into, change)?;
    into.push(b"\n")
}

// Appends the line of an item, if there is one. How many lines these are.
fn push_any(
    into: &mut Text,
    number: u64,
    change: &Change,
    item: Option<Raised>,
) -> Result<u64, NoMemory>
    ensures text { OnOk result (into.new ≡ into.old ++ flat_map (item_line number change.now) (any_item item)) }
    ensures count { IfOk result (λ n. n ≡ length (any_item item)) }
    ensures few { IfOk result (λ n. n ≤ 1) }
{
    match item {
        Some(item) => {
            push_item(into, number, change, item)?;
            Ok(1)
        }
        None => Ok(0),
    }
}

// Appends the lines of what a change came to. How many these are.
fn push_outcome(
    into: &mut Text,
    number: u64,
    change: &Change,
    outcome: &Outcome,
) -> Result<u64, NoMemory>
    ensures text { OnOk result (into.new ≡ into.old ++ flat_map (item_line number change.now) (raised_in outcome.now)) }
    ensures count { IfOk result (λ n. n ≡ length (raised_in outcome.now)) }
    ensures few { IfOk result (λ n. n ≤ 2) }
{
    let first = push_any(into, number, change, outcome.raised.first)?;
    let second = push_any(into, number, change, outcome.raised.second)?;
    Ok(first + second)
}

/// Appends the lines of what changes came to, from a place on. How many these are.
pub(crate) fn push_lines(
    into: &mut Text,
    changes: &InOrder,
    from: usize,
    outcomes: &[Outcome],
) -> Result<u64, NoMemory>
    requires within { from + length outcomes.now ≤ length changes.now }
    requires fits { from + length outcomes.now < 2 ^ 64 }
    ensures text { OnOk result (into.new ≡ into.old
        ++ flat_map (λ line. line) (outcome_lines changes.now from outcomes.now)) }
    ensures count { IfOk result (λ n. n ≡ length (outcome_lines changes.now from outcomes.now)) }
{
    let mut total = 0;
    for at in 0..outcomes.len() {
        let place = from + at;
        let count = push_outcome(into, place as u64 + 1, changes.at(place), &outcomes[at])?;
        total += count;
    }
    Ok(total)
}

/// Appends the line of the number of lines.
pub(crate) fn push_total(into: &mut Text, total: u64) -> Result<(), NoMemory>
    ensures { OnOk result (into.new ≡ into.old ++ total_line total) }
{
    into.push(b"total ")?;
    push_u64(into, total)?;
    into.push(b"\n")
}
