//! How many calls of a disk failed in turn.

use crate::cases::Case;
use crate::faults::Fault;
use byte_text::{Text, push_u64};

/// No script here makes so many calls of its disk.
pub(crate) const MOST_CALLS: u64 = 400;

// The number that the words of a case are.
fn bound_of(case: &Case) -> Result<u64, Fault> {
    match case.asked()?.parse::<u64>() {
        Ok(bound) => Ok(bound),
        Err(_) => Err(Fault::Line),
    }
}

/// Appends how many calls failed, each once, as far as that is told: that they were all, and more than the words of the
/// case say.
pub(crate) fn push_made(case: &Case, out: &mut Text, made: u64) -> Result<(), Fault> {
    let bound = bound_of(case)?;
    if made <= bound || made.saturating_add(1) >= MOST_CALLS {
        push_u64(out, made)?;
        out.push(b" calls failed\n")?;
        return Ok(());
    }
    out.push(b"each of more than ")?;
    push_u64(out, bound)?;
    out.push(b" calls failed once\n")?;
    Ok(())
}
