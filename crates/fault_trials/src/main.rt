//! Plays what fails on a core over a disk in memory: memory that is refused, and a leader that dies while it is followed.
//!
//! A script of steps is played anew with memory refused at each place where it may be. Told that memory is wanted, the
//! program compares the core with one that was asked for the steps before and no more: the objects, the channels, the
//! clock, the bytes of the log, and what a take of either session gives. Then it asks again. So what it prints is the
//! same whatever is refused, and nothing differs.
//!
//! | line | what it says |
//! |---|---|
//! | empty, `# ..` | nothing |
//! | `script NAME` | a script begins |
//! | `SESSION MOMENT WORDS` | session 1 or 2 asks for these words at a moment |
//! | `tick MOMENT` | the clock goes on |
//! | `rewrite` | a step of rewriting is done |
//! | `take SESSION` | a session takes |
//! | `asks LEAST` | the step before asked for memory so often or more |
//! | `once` | from here on scripts are played once, and nothing but the system refuses memory: `bench/refused.sh` |
//! | `follow SEED STEPS NOTE` | a node follows a leader, in a script that has such lines alone |
//!
//! Of each script it prints what the two sessions were given, frame by frame; whether a step asked as often as it has to;
//! and how many cores differed.
//!
//! `follow` draws all from the seed. In each of so many steps the leader changes its world (texts of objects have notes
//! of fewer bytes than NOTE), rewrites its log, lets time pass, or dies; and the node mostly asks it. The part that
//! comes is heard, lost, heard twice, or heard later. Wherever the node publishes a world, this is compared with the
//! leader's at the moment of the answer: how many objects and channels there are, and each object. It goes to no earlier
//! log, and in one log to no earlier place; and no part is refused. A leader dies when it is killed, and when a call of
//! its disk fails, which may be that of the read of a part. Of all 27 choices of what this leaves a leader is started,
//! which a node that heard the same goes on to follow; with one of them, and the node itself, the script goes on. A line
//! says how often each thing came. Where scripts are played once, nobody is followed.
#![tactic(auto)]

mod changes;
mod deaths;
mod draws;
mod faults;
mod follow_lines;
mod follows;
mod growths;
mod hearers;
mod leaders;
mod looks;
mod plays;
mod requests;
mod scripts;
mod shown_worlds;
mod stages;
mod tallies;
mod tells;

use crate::faults::Fault;
use crate::plays::play_all;
use byte_text::Text;
use std::alloc::Global;
use std::io::{self, Read, Write};

// Puts bytes last in a text; once more where memory is wanted.
fn push_again(text: &mut Text, bytes: &[u8]) -> io::Result<()> {
    if text.push(bytes).is_err() && text.push(bytes).is_err() {
        return Err(io::Error::from(io::ErrorKind::OutOfMemory));
    }
    Ok(())
}

// All of the input.
fn read_all(alloc: Global, input: &mut impl Read) -> io::Result<Text> {
    let mut text = Text::new(alloc);
    let mut piece = [0u8; 4096];
    for _ in 0..u64::MAX {
        let count = input.read(&mut piece)?;
        if count == 0 {
            break;
        }
        push_again(&mut text, piece.get(..count).unwrap_or(&[]))?;
    }
    Ok(text)
}

// What is printed of the scripts: they are played anew where the program itself wanted memory.
fn played(alloc: Global, text: &Text) -> Result<Text, Fault> {
    match play_all(alloc, text.bytes()) {
        Err(Fault::Memory) => play_all(alloc, text.bytes()),
        other => other,
    }
}

fn main(rt: HostRuntime) -> io::Result<()> {
    let alloc = rt.alloc();
    let text = read_all(alloc, &mut rt.reader())?;
    let mut out = io::writer(&rt);
    match played(alloc, &text) {
        Ok(told) => out.write_all(told.bytes()),
        Err(Fault::Memory) => out.write_all(b"no memory\n"),
        Err(Fault::Line) => out.write_all(b"a line is none\n"),
        Err(Fault::Step) => out.write_all(b"a step is not done\n"),
    }
}
