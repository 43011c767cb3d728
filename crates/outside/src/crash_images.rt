//! What a crash makes of the contents of a disk in memory.

ghost use Rattle.std.specs.Prelude.{◌≡◌, ◌∷◌, IfOk, OnOk};
ghost use Rattle.outside.specs.DiskCalls.{chosen, done_by};

use crate::disk_calls::Call;
use crate::disk_contents::Contents;
use std::alloc::{AllocError, Global};

/// What a crash makes of the contents and the calls behind them, the oldest first, by the choice.
pub(crate) fn crashed(
    alloc: Global,
    first: &Contents,
    calls: &[Call],
    choice: u64,
) -> Result<Contents, AllocError>
    ensures { IfOk result (λ contents. contents ≡ chosen first.now calls.now choice) }
{
    let mut contents = first.copy(alloc)?;
    let mut rest = calls;
    let mut digits = choice;
    while let [call, later @ ..] = rest {
        digits = crash_by(alloc, &mut contents, call, later, digits)?;
        rest = later;
    }
    Ok(contents)
}

// What a crash makes of one call; the rest of the choice is for the later ones.
fn crash_by(
    alloc: Global,
    contents: &mut Contents,
    call: &Call,
    later: &[Call],
    choice: u64,
) -> Result<u64, AllocError>
    ensures { IfOk result
        (λ rest. chosen contents.new later.now rest ≡ chosen contents.old (call.now ∷ later.now) choice) }
{
    if !call.is_open(later) {
        call.apply(contents)?;
        return Ok(choice);
    }
    apply_by(alloc, contents, call, choice % 3)?;
    Ok(choice / 3)
}

fn apply_by(
    alloc: Global,
    contents: &mut Contents,
    call: &Call,
    digit: u64,
) -> Result<(), AllocError>
    ensures { OnOk result (contents.new ≡ done_by digit call.now contents.old) }
{
    match digit {
        0 => Ok(()),
        1 => call.apply(contents),
        _ => call.apply_ones(alloc, contents),
    }
}
