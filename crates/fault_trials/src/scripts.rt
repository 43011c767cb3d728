//! Scripts and their steps.

use crate::faults::Fault;

/// What a line of a script says.
#[derive(Clone, Copy)]
pub(crate) enum Step<'a> {
    /// A session asks for these words at a moment.
    Ask(u32, u32, &'a str),
    /// The clock goes on to a moment.
    Tick(u32),
    /// A step of rewriting is done.
    Rewrite,
    /// A session takes.
    Take(u32),
    /// The step before asked for memory so often or more.
    Asks(u64),
    /// Nothing.
    Nothing,
}

fn number(word: &str) -> Result<u32, Fault> {
    match word.parse::<u32>() {
        Ok(number) => Ok(number),
        Err(_) => Err(Fault::Line),
    }
}

// A session asks.
fn ask<'a>(session: &str, rest: &'a str) -> Result<Step<'a>, Fault> {
    match rest.split_once(' ') {
        Some((moment, words)) => Ok(Step::Ask(number(session)?, number(moment)?, words)),
        None => Err(Fault::Line),
    }
}

/// The step of a line.
pub(crate) fn step_of(line: &str) -> Result<Step<'_>, Fault> {
    if line.is_empty() || line.starts_with('#') {
        return Ok(Step::Nothing);
    }
    match line.split_once(' ') {
        Some(("tick", moment)) => Ok(Step::Tick(number(moment)?)),
        Some(("take", session)) => Ok(Step::Take(number(session)?)),
        Some(("asks", least)) => Ok(Step::Asks(u64::from(number(least)?))),
        Some((session, rest)) => ask(session, rest),
        None if line == "rewrite" => Ok(Step::Rewrite),
        None => Err(Fault::Line),
    }
}
