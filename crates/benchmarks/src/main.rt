//! A program to measure by, on one thread and in memory. Without words it does nothing.
//!
//! `core KIND IDS COUNT` sends requests through reader and core: the kind is `set`, `fields` (a SET with two number
//! fields), `get`, `ping` or `setchan` (a fence that ends), the requests go over so many ids, and so many of them are
//! made, each called and taken. It prints how many were answered and the nanoseconds that each took.
//! `journal RECORDS BATCH` writes so many records through a journal over a disk in memory, so many of them in one
//! commit, and opens the log again. It prints how many records were found again, and the nanoseconds that each took to
//! be written and to be opened.
//! `tree COUNT SEED` puts so many places, which the seed determines, into a tree of boxes, searches a tenth as many
//! windows of ten places, seeks the ten nearest as often, and takes a tenth out again. It prints for each how many
//! pairs that were, the sum of their numbers, and the nanoseconds that one operation took; behind the first the bytes
//! that one place takes in memory.
//! `bench/core.sh`, `bench/journal.sh` and `bench/tree.sh` run them.
#![tactic(auto)]

mod drivers;
mod places;
mod requests;
mod trees;
mod writings;

use crate::requests::request_each;
use crate::trees::{Tally, insert_places, remove_places, search_windows, seek_nearest};
use crate::writings::{Counts, open, write_all};
use rtree::Tree;
use std::rt::Files;
use std::time::{CpuClock, Duration, Instant};
use std::{env, fs, io};

fn number(word: Option<String>) -> u64 {
    match word {
        Some(word) => word.parse::<u64>().unwrap_or(0),
        None => 0,
    }
}

fn measure_core(rt: HostRuntime, kind: &str, ids: u64, count: u64) -> io::Result<()> {
    let Some(requested) = request_each(rt.alloc(), &rt, kind, ids, count)? else {
        return Ok(());
    };
    println!(rt;
        "{} {} {} {}",
        kind, ids, requested.answered, requested.each
    )?;
    Ok(())
}

fn measure_journal(rt: HostRuntime, records: u64, batch: u64) -> io::Result<()> {
    let alloc = rt.alloc();
    let begun = Instant::now(&rt)?;
    let Some(disk) = write_all(alloc, records, batch) else {
        return Ok(());
    };
    let wrote = begun.elapsed(&rt)?.as_nanos();
    let mut counts = Counts {
        bytes: 0,
        batches: 0,
    };
    let begun = Instant::now(&rt)?;
    let opened = open(alloc, disk, &mut counts).is_some();
    let read = begun.elapsed(&rt)?.as_nanos();
    let each = u128::from(records);
    println!(rt;
        "{} {} {} {} {}",
        opened,
        counts.batches,
        counts.bytes,
        wrote.checked_div(each).unwrap_or(0),
        read.checked_div(each).unwrap_or(0)
    )?;
    Ok(())
}

// The bytes of one page of memory.
const PAGE: u64 = 4096;

// The bytes of this process that are in memory.
fn resident(rt: &(impl Files + AllocGlobal)) -> io::Result<u64> {
    let sizes = fs::read_to_string(rt, "/proc/self/statm")?;
    let pages = match sizes.split(' ').nth(1) {
        Some(word) => word.parse::<u64>().unwrap_or(0),
        None => 0,
    };
    Ok(pages.saturating_mul(PAGE))
}

// Prints what so many operations came to since a moment of processor time, and the nanoseconds of each.
fn tell(
    rt: &(impl CpuClock + Print),
    kind: &str,
    count: u64,
    tally: Tally,
    begun: Duration,
) -> io::Result<()> {
    let took = rt.process_cpu_time()?.saturating_sub(begun).as_nanos();
    println!(rt;
        "{} {} {} {}",
        kind,
        tally.pairs,
        tally.sum,
        took.checked_div(u128::from(count)).unwrap_or(0)
    )
}

fn measure_tree(rt: HostRuntime, count: u64, seed: u64) -> io::Result<()> {
    let alloc = rt.alloc();
    let mut tree = Tree::new(alloc);
    let empty = resident(&rt)?;
    let begun = rt.process_cpu_time()?;
    let tally = insert_places(&mut tree, count, seed);
    tell(&rt, "insert", count, tally, begun)?;
    let bytes = resident(&rt)?.saturating_sub(empty);
    println!(rt; "memory {}", bytes.checked_div(count).unwrap_or(0))?;

    let searches = count / 10;
    let begun = rt.process_cpu_time()?;
    let tally = search_windows(alloc, &tree, count, searches, seed.wrapping_add(1));
    tell(&rt, "window", searches, tally, begun)?;
    let begun = rt.process_cpu_time()?;
    let tally = seek_nearest(alloc, &tree, searches, seed.wrapping_add(2));
    tell(&rt, "nearest", searches, tally, begun)?;

    let begun = rt.process_cpu_time()?;
    let tally = remove_places(&mut tree, searches, seed);
    tell(&rt, "remove", searches, tally, begun)
}

fn main(rt: HostRuntime) -> io::Result<()> {
    let mut words = env::args(&rt)?.skip(1);
    let Some(what) = words.next() else {
        return Ok(());
    };
    match what.as_str() {
        "core" => {
            let Some(kind) = words.next() else {
                return Ok(());
            };
            let ids = number(words.next());
            let count = number(words.next());
            measure_core(rt, kind.as_str(), ids, count)
        }
        "journal" => {
            let records = number(words.next());
            let batch = number(words.next());
            if records == 0 {
                return Ok(());
            }
            measure_journal(rt, records, batch)
        }
        "tree" => {
            let count = number(words.next());
            let seed = number(words.next());
            measure_tree(rt, count, seed)
        }
        _ => Ok(()),
    }
}
