//! A core of an empty world, and the nodes of trees that it visits.

use crate::cases::Case;
use crate::durables::asked_of;
use crate::faults::Fault;
use crate::texts::push_line;
use byte_text::{Text, push_u64};
use std::alloc::Global;
use tile_top::CoreMachine;
use work_gen::{Machine, drive};
use world_model::{CallOutcome, Frames};

// How many nodes two stretches of a script visited, the last one and the one before it, and how many there were when
// the last one began.
#[derive(Clone, Copy)]
struct Stretches {
    begun: u64,
    last: u64,
    before: u64,
}

impl Stretches {
    // A stretch ends, when so many nodes were visited in all.
    fn end(&mut self, visited: u64) {
        self.before = self.last;
        self.last = visited.saturating_sub(self.begun);
    }

    // By how many the last one visited more.
    fn more(&self) -> u64 {
        self.last.saturating_sub(self.before)
    }
}

// Session 1 asks for what a line says, and takes the reply.
fn ask(alloc: Global, machine: &mut CoreMachine, line: &str) -> Result<(), Fault> {
    let asked = asked_of(alloc, line)?;
    let mut frames = Frames::new(alloc)?;
    if machine.call(1, &asked) != CallOutcome::Ok {
        return Err(Fault::Step);
    }
    machine.take(1, &mut frames);
    Ok(())
}

/// Two numbers of a line.
pub(crate) fn two_numbers(words: &str) -> Result<(u64, u64), Fault> {
    let Some((first, second)) = words.split_once(' ') else {
        return Err(Fault::Line);
    };
    match (first.parse::<u64>(), second.parse::<u64>()) {
        (Ok(first), Ok(second)) => Ok((first, second)),
        _ => Err(Fault::Line),
    }
}

// Appends whether a number is within bounds, or else the number.
fn push_within(out: &mut Text, number: u64, words: &str) -> Result<(), Fault> {
    let (least, most) = two_numbers(words)?;
    if least <= number && number <= most {
        push_line(out, b"within")
    } else {
        push_u64(out, number)?;
        push_line(out, b"")
    }
}

// A line of the script: `begin` begins a stretch, and `end` ends it; `more A B` asks whether the last one visited so
// many nodes more than the one before, and `visits A B` whether it visited so many. All else is asked of the core.
fn play_line(
    alloc: Global,
    out: &mut Text,
    machine: &mut CoreMachine,
    stretches: &mut Stretches,
    line: &str,
) -> Result<(), Fault> {
    match line.split_once(' ') {
        None if line == "begin" => {
            stretches.begun = machine.visited();
            Ok(())
        }
        None if line == "end" => {
            stretches.end(machine.visited());
            Ok(())
        }
        Some(("more", words)) => push_within(out, stretches.more(), words),
        Some(("visits", words)) => push_within(out, stretches.last, words),
        _ => ask(alloc, machine, line),
    }
}

fn enter(machine: &mut CoreMachine) -> Result<(), Fault> {
    match machine.enter() {
        Ok(1) => Ok(()),
        _ => Err(Fault::Step),
    }
}

// The lines of a case are played by a core.
fn play_lines(
    alloc: Global,
    out: &mut Text,
    machine: &mut CoreMachine,
    script: &str,
) -> Result<(), Fault> {
    let mut stretches = Stretches {
        begun: 0,
        last: 0,
        before: 0,
    };
    enter(machine)?;
    for line in script.lines() {
        play_line(alloc, out, machine, &mut stretches, line)?;
    }
    Ok(())
}

/// Plays the lines of a case, and says what they ask of the nodes that are visited.
pub(crate) fn play_visits(alloc: Global, case: &Case) -> Result<Text, Fault> {
    let mut out = Text::new(alloc);
    let mut machine = CoreMachine::new(alloc)?;
    play_lines(alloc, &mut out, &mut machine, case.lines()?)?;
    Ok(out)
}

// The words of a case: so many commands, a seed, and how many nodes there may be at most.
fn drive_of(case: &Case) -> Result<(u32, u64, u64), Fault> {
    let Some((commands, rest)) = case.asked()?.split_once(' ') else {
        return Err(Fault::Line);
    };
    let (seed, most) = two_numbers(rest)?;
    match commands.parse::<u32>() {
        Ok(commands) => Ok((commands, seed, most)),
        Err(_) => Err(Fault::Line),
    }
}

/// The line of how many objects there are.
pub(crate) fn objects_line(alloc: Global, objects: u64) -> Result<Text, Fault> {
    let mut line = Text::of(alloc, b"objects ")?;
    push_u64(&mut line, objects)?;
    push_line(&mut line, b"")?;
    Ok(line)
}

/// Drives a core with the workload of the words. How many objects are left, and whether few nodes were visited.
pub(crate) fn play_drive(alloc: Global, case: &Case) -> Result<Text, Fault> {
    let (commands, seed, most) = drive_of(case)?;
    let mut machine = CoreMachine::new(alloc)?;
    // No way out while the machine is held: the parts of a core would be proved to be dropped at each.
    let driven = drive(alloc, &mut machine, commands, seed);
    let visited = machine.visited();
    drop(machine);
    let summary = driven?;
    let mut out = objects_line(alloc, summary.objects)?;
    if visited <= most {
        push_line(&mut out, b"few nodes are visited")?;
    }
    Ok(out)
}
