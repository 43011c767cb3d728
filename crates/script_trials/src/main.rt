//! Plays the cases that standard input tells, and prints for each group how many were as they should be.
//!
//! A line of the input is one of these. Of its texts, `~` stands for the end of a line of the protocol, `%` with two
//! hexadecimal digits for a byte, and `{N*TEXT}` for the text so often. Words are separated by spaces.
//!
//! | line | what it says |
//! |---|---|
//! | empty, `# ..` | nothing |
//! | `group NAME`, `case NAME` | a group, or a case of it, begins |
//! | `words WORDS` | what the program is asked for; `replay` where nothing is said |
//! | `plays HOW` | the case is played otherwise: see `cases` |
//! | `each A B LINE; LINE ..` | the lines for each number from A to B, for which `@` stands |
//! | `< LINE`, `last TEXT` | a line of the script; the text without the end of its line |
//! | `N> WORDS`, `N! WORDS` | session N asks, and `ok` is printed, or what the next line says |
//! | `N? WORDS`, `> WORDS` | session N, or 1, asks, and takes behind it; `ok` is printed |
//! | `at M` | the moment at which sessions ask from now on |
//! | `feed N TEXT` | a line that feeds session N the bytes |
//! | `cut N SIZE TEXT` | lines that feed them in pieces of a size |
//! | `= LINE`, `- FRAME`, `part TEXT` | a line that is printed, or a frame; or the text without its end |
//! | `status N` | the status; 0 where nothing is said |
//! | `fails WHICH N ..` | these calls of the `disk`, `source` or `sink` fail |
//! | `again` | the disk is what the case before left |
//! | `crash M C` | the disk is what a crash at moment M leaves of that, by choice C |
//! | `caller` | a caller comes at the next look for one |
//! | `door nobody`, `door fails` | at the next look nobody comes yet, or the door fails |
//! | `door closed` | the door can't be opened |
//! | `names WHO ..` | the next wait names these: `door`, `waker`, or the number of a link's place; behind all these lines it names all |
//! | `sends WORDS`, `sent TEXT` | the last caller sends a request, or bytes |
//! | `reads HOW ..`, `writes HOW ..` | its link's next reads or writes move by N bytes at most, answer `later`, or it `fails`; behind these as much as may be |
//! | `told FRAME` | it is written the frame |
//! | `lasts` | its link is shut behind all others |
//! | `says WORDS`, `said TEXT` | where the case `plays web`, the last caller's next message is a request, or these bytes, and each `told FRAME` is a message |
//! | `hears HOW ..` | its WebSocket's next listenings bring a `text` message, nothing that concerns the listener (`quiet`), answer `later`, or it `fails` |
//! | `log N`, `batch`, `shut` | a side is built: its head with generation N, a batch, the closed gate at its end |
//! | `record WORDS`, `more WORDS`, `bytes TEXT` | a record, more words of it, bytes |
//! | `begins S`, `leaves S` | what was built stands on side A or B at first, or at the end |
//! | `length S N`, `under S N` | the side has so many bytes at the end, or fewer |
#![tactic(auto)]

mod bent_sides;
mod builders;
mod cases;
mod cores;
mod crashes;
mod disks;
mod durables;
mod faults;
mod lines;
mod looks;
mod openings;
mod players;
mod plays;
mod replay_faults;
mod serve_faults;
mod stream_faults;
mod texts;
mod turns;
mod upgrades;
mod web_doors;
mod web_plays;
mod workloads;
mod worlds;

use crate::players::Player;
use std::alloc::Global;
use std::io::{self, BufRead, BufReader, Write};
use std::sync::Wait;
use std::thread::Threads;

// Writes what was reported since the last time.
fn write_report(out: &mut impl Write, player: &mut Player) -> io::Result<()> {
    if !player.report().is_empty() {
        out.write_all(player.report())?;
        player.clear_report();
    }
    Ok(())
}

// Plays each line of the input, and writes what is reported behind it.
fn play_lines<B: BufRead + Drop, R: Wait + Threads + Sync>(
    rt: &R,
    alloc: Global,
    input: B,
    out: &mut impl Write,
    player: &mut Player,
) -> io::Result<()> {
    for line in input.lines(alloc) {
        player.hear(rt, line?.as_str());
        write_report(out, player)?;
    }
    player.end_group(rt);
    write_report(out, player)
}

fn main(rt: HostRuntime) -> io::Result<()> {
    let alloc = rt.alloc();
    let mut out = io::writer(&rt);
    let input = BufReader::new(alloc, rt.reader())?;
    let mut player = Player::new(alloc);
    let played = play_lines(&rt, alloc, input, &mut out, &mut player);
    // By a call, so that the parts of a case are not proved to be dropped here.
    drop(player);
    played
}
