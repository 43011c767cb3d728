//! The words of the command line that ask for the generated workload.

ghost use Rattle.std.specs.Prelude.{◌≡◌, map, true, string_bytes, codes, IfOk, OnErr};
ghost use Rattle.clap.specs.Words.{app_of, found_of, rows_of};
ghost use Rattle.serve_run.specs.Options.{begins_with, word_of};
ghost use Rattle.tile_top.specs.LoadWords.{commands_of, load_app, load_in, load_of, load_with, seed_of};

use byte_text::{NoMemory, read_u64};
use clap::{ArgMatches, Command};
use serve_run::{begins_with, matched, with_needed, word_in};
use std::alloc::Global;

/// At most so many commands are sent.
const MOST_COMMANDS: u64 = 1_000_000;

/// What the words ask for where they ask for the workload.
#[derive(Clone, Copy, Debug, PartialEq, Eq)]
pub struct LoadWords {
    /// How many commands are sent.
    pub commands: u32,
    /// What they are drawn from.
    pub seed: u64,
}

// `load N SEED`
fn load_command<'a>(alloc: Global) -> Result<Command<'a>, NoMemory>
    ensures { IfOk result (λ c. app_of c ≡ load_app) }
{
    let command = with_needed(alloc, Command::new(alloc, "load"), "n")?;
    with_needed(alloc, command, "seed")
}

// The number of commands that the word names.
fn commands_in(word: &str) -> Option<u32>
    ensures { result ≡ commands_of word.now }
{
    match read_u64(word.as_bytes()) {
        Ok(number) if number >= 1 && number <= MOST_COMMANDS => Some(number as u32),
        _ => None,
    }
}

// The seed that the word names.
fn seed_in(word: &str) -> Option<u64>
    ensures { result ≡ seed_of word.now }
{
    match read_u64(word.as_bytes()) {
        Ok(seed) => Some(seed),
        Err(_) => None,
    }
}

// Both numbers, where both words name one.
fn numbers_in(commands: &str, seed: &str) -> Option<LoadWords>
    ensures { result ≡ load_with (commands_of commands.now) (seed_of seed.now) }
{
    match (commands_in(commands), seed_in(seed)) {
        (Some(commands), Some(seed)) => Some(LoadWords { commands, seed }),
        _ => None,
    }
}

// What was found, where both words are there and name a number.
fn asked_in(matches: &ArgMatches<'_>) -> Option<LoadWords>
    ensures { result ≡ load_in (rows_of (found_of matches.now)) }
{
    match (word_in(matches, "n"), word_in(matches, "seed")) {
        (Some(commands), Some(seed)) => numbers_in(commands, seed),
        _ => None,
    }
}

/// What the words ask for, if they ask for the workload. Memory is wanted only where their first is `load`.
pub fn load_words(alloc: Global, words: &[String]) -> Result<Option<LoadWords>, NoMemory>
    ensures asked { IfOk result (λ r. r ≡ load_of (map string_bytes words.now)) }
    ensures begun { OnErr result (begins_with (codes "load") (map string_bytes words.now) ≡ true) }
{
    if !begins_with(words, "load") {
        return Ok(None);
    }
    match matched(load_command(alloc)?, words)? {
        Some(matches) => Ok(asked_in(&matches)),
        None => Ok(None),
    }
}
