//! Scripts are played, and memory is refused at each place in turn.

use crate::faults::Fault;
use crate::follow_lines::{has_follows, push_follows};
use crate::growths::RefuseNth;
use crate::scripts::{Step, step_of};
use crate::stages::{Counts, Stage};
use crate::tells::Told;
use byte_text::{Text, push_u64};
use std::alloc::Global;

// No call here asks for memory so often.
const MOST_ASKED: u64 = 1000;

// Which time that the step of a place asks for memory it is refused; none where that is 0.
#[derive(Clone, Copy)]
struct Refusal {
    place: usize,
    number: u64,
}

// What came of a script.
#[derive(Drop)]
struct Played {
    told: Told,
    counts: Counts,
}

// Plays each step of a script.
fn play_steps(stage: &mut Stage, script: &str, refusal: Refusal) -> Result<Counts, Fault> {
    let mut all = Counts {
        wanted: 0,
        differences: 0,
    };
    for (place, line) in script.lines().enumerate() {
        let number = if place == refusal.place {
            refusal.number
        } else {
            0
        };
        let step = step_of(line)?;
        let counts = stage.play_step(script, place, step, &mut RefuseNth::new(number))?;
        all.wanted = all.wanted.saturating_add(counts.wanted);
        all.differences = all.differences.saturating_add(counts.differences);
    }
    Ok(all)
}

// Plays a script from the beginning.
fn play(alloc: Global, script: &str, refusal: Refusal) -> Result<Played, Fault> {
    let mut stage = Stage::begun(alloc)?;
    let counts = play_steps(&mut stage, script, refusal);
    let told = stage.into_told();
    match counts {
        Ok(counts) => Ok(Played { told, counts }),
        Err(fault) => Err(fault),
    }
}

// Refuses memory each time that a step asks for it: how often it did, and how often something differed.
fn refuse_step(alloc: Global, script: &str, place: usize, plain: &Told) -> Result<Counts, Fault> {
    let mut differences: u64 = 0;
    for number in 1..MOST_ASKED {
        let played = play(alloc, script, Refusal { place, number })?;
        if played.counts.wanted == 0 {
            return Ok(Counts {
                wanted: number - 1,
                differences,
            });
        }
        differences = differences.saturating_add(played.counts.differences);
        if !played.told.is_same(plain) {
            differences = differences.saturating_add(1);
        }
    }
    Err(Fault::Step)
}

// Appends a line of a word and a number.
fn push_counted(out: &mut Text, word: &[u8], number: u64) -> Result<(), Fault> {
    out.push(word)?;
    push_u64(out, number)?;
    out.push(b"\n")?;
    Ok(())
}

// Appends that a step asked so often or more; else how often it did.
fn push_asked(out: &mut Text, asked: u64, least: u64) -> Result<(), Fault> {
    if asked >= least {
        push_counted(out, b"asked for memory at least ", least)
    } else {
        push_counted(out, b"asked for memory ", asked)
    }
}

// Refuses memory each time that any step asks for it: how often something differed.
fn refuse_each(alloc: Global, out: &mut Text, script: &str, plain: &Told) -> Result<u64, Fault> {
    let mut differences: u64 = 0;
    let mut asked: u64 = 0;
    for (place, line) in script.lines().enumerate() {
        if let Step::Asks(least) = step_of(line)? {
            push_asked(out, asked, least)?;
        } else {
            let counts = refuse_step(alloc, script, place, plain)?;
            asked = counts.wanted;
            differences = differences.saturating_add(counts.differences);
        }
    }
    Ok(differences)
}

// Plays a script, once or once more for each refusal, and appends what came of it.
fn play_script(
    alloc: Global,
    out: &mut Text,
    name: &str,
    script: &str,
    is_once: bool,
) -> Result<(), Fault> {
    let nothing = Refusal {
        place: 0,
        number: 0,
    };
    let plain = play(alloc, script, nothing)?;
    out.push(name.as_bytes())?;
    out.push(b"\n")?;
    out.push(plain.told.first.bytes())?;
    out.push(plain.told.second.bytes())?;
    if is_once {
        return push_counted(out, b"differences ", plain.counts.differences);
    }
    let differences = refuse_each(alloc, out, script, &plain.told)?;
    push_counted(out, b"differences ", differences)
}

/// What is printed of the scripts of a text.
pub(crate) fn play_all(alloc: Global, text: &[u8]) -> Result<Text, Fault> {
    let Ok(text) = str::from_utf8(text) else {
        return Err(Fault::Line);
    };
    let mut out = Text::new(alloc);
    let mut is_once = false;
    let mut is_first = true;
    for part in text.split("script ") {
        if is_first {
            is_once = part.lines().any(|line| line == "once");
        } else if let Some((name, script)) = part.split_once('\n') {
            if has_follows(script) {
                push_follows(alloc, &mut out, name, script, is_once)?;
            } else {
                play_script(alloc, &mut out, name, script, is_once)?;
            }
        }
        is_first = false;
    }
    Ok(out)
}
