//! Scripts of followers: each line has a node follow a leader.

use crate::faults::Fault;
use crate::follows::follow;
use byte_text::Text;
use std::alloc::Global;

// With what such a line begins.
const FOLLOW: &str = "follow ";

/// Whether a script has such lines.
pub(crate) fn has_follows(script: &str) -> bool {
    script.lines().any(|line| line.starts_with(FOLLOW))
}

fn number(word: Option<&str>) -> Result<u64, Fault> {
    match word {
        Some(word) => match word.parse::<u64>() {
            Ok(number) => Ok(number),
            Err(_) => Err(Fault::Line),
        },
        None => Err(Fault::Line),
    }
}

// Plays a line, and appends what came of it.
fn push_follow(alloc: Global, out: &mut Text, line: &str) -> Result<(), Fault> {
    let mut words = line.split(' ');
    if words.next() != Some("follow") {
        return Err(Fault::Line);
    }
    let seed = number(words.next())?;
    let steps = number(words.next())?;
    let most = number(words.next())?;
    follow(alloc, seed, steps, most)?.push(out)
}

/// Appends what comes of the lines of a script; nothing where they are not to be played.
pub(crate) fn push_follows(
    alloc: Global,
    out: &mut Text,
    name: &str,
    script: &str,
    is_passed: bool,
) -> Result<(), Fault> {
    out.push(name.as_bytes())?;
    out.push(b"\n")?;
    if is_passed {
        return Ok(());
    }
    for line in script.lines() {
        if !line.is_empty() && !line.starts_with('#') {
            push_follow(alloc, out, line)?;
        }
    }
    Ok(())
}
