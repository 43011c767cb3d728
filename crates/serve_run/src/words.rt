//! The words of the command line that ask to serve.
//!
//! `clap` reads them: options come in any order, and `--sessions=5` is as good as two words. Numbers are read as words,
//! and have to be canonical.

ghost use Rattle.std.specs.Prelude.{◌≡◌, map, true, option_map, string_bytes, IfOk, OnErr};
ghost use Rattle.clap.specs.Words.{app_of, found_of, rows_of};
ghost use Rattle.serve_run.specs.Options.{word_of};
ghost use Rattle.serve_run.specs.Words.{asked_of, begins_to_serve, is_given, kinds_of, link_app, number_of, origins_of};
ghost use Rattle.serve_run.specs.Words.{serve_app, serve_in, serve_of, serve_taken, ws_app, ws_taken};

use crate::options::{begins_with, matched, with_flag, with_needed, with_option, word_in};
use byte_text::{NoMemory, read_u64};
use clap::{ArgMatches, Command};
use outside::{Kinds, Port};
use std::alloc::Global;

/// So many callers are served where the words say nothing else, and at most.
const MOST_LINKS: u32 = 1_000_000_000;

/// So many seconds a link may be idle at most, where that is asked for.
const MOST_IDLE: u32 = 1_000_000_000;

/// At most so many per cent more may be in the log than was there behind its last rewriting.
const MOST_SHRINK_AT: u32 = 1_000_000;

/// Where the words say nothing else, the log is rewritten when it has grown by so many per cent.
const SHRINK_AT: u32 = 100;

/// So many sessions may be followers at a time, at most.
const MOST_FOLLOWERS: u32 = 64;

/// What the words ask for where they ask to serve.
#[derive(Clone, Copy)]
pub struct ServeWords<'a> {
    /// Where to listen, for which kinds of links, and for pages of which origins.
    pub port: Port<'a>,
    /// How many callers are served.
    pub limit: u32,
    /// Behind so many seconds without a request a link is ended; 0 for never.
    pub idle: u32,
    /// By so many per cent the log grows until it is rewritten; 0 for never.
    pub shrink_at: u32,
    /// How many sessions may be followers at a time.
    pub followers: u32,
    /// Whether the end of standard input asks for the end.
    pub until_end: bool,
}

// `NAME ADDR [--sessions N] [--idle SECONDS] [--shrink-at PERCENT] [--followers N] [--until-stdin-ends]
// [--origin LIST]`
fn link_command<'a>(alloc: Global, name: &'a str) -> Result<Command<'a>, NoMemory>
    ensures { IfOk result (λ c. app_of c ≡ link_app name.now) }
{
    let command = with_needed(alloc, Command::new(alloc, name), "addr")?;
    let command = with_option(alloc, command, "sessions")?;
    let command = with_option(alloc, command, "idle")?;
    let command = with_option(alloc, command, "shrink-at")?;
    let command = with_option(alloc, command, "followers")?;
    let command = with_flag(alloc, command, "until-stdin-ends")?;
    with_option(alloc, command, "origin")
}

// `serve ADDR [..] [--ws]`
fn serve_command<'a>(alloc: Global) -> Result<Command<'a>, NoMemory>
    ensures { IfOk result (λ c. app_of c ≡ serve_app) }
{
    with_flag(alloc, link_command(alloc, "serve")?, "ws")
}

// `ws ADDR [..]`
fn ws_command<'a>(alloc: Global) -> Result<Command<'a>, NoMemory>
    ensures { IfOk result (λ c. app_of c ≡ ws_app) }
{
    link_command(alloc, "ws")
}

// The number that the word names, within bounds, or the one that stands for no word.
fn number_in(word: Option<&str>, least: u32, most: u32, unsaid: u32) -> Option<u32>
    ensures { result ≡ number_of least most unsaid (word_of word.entry) }
{
    let Some(word) = word else {
        return Some(unsaid);
    };
    match read_u64(word.as_bytes()) {
        Ok(number) if number >= least as u64 && number <= most as u64 => Some(number as u32),
        _ => None,
    }
}

/// Whether a flag was given, by the word that was found under its name.
pub fn is_given(word: Option<&str>) -> bool
    ensures { result ≡ is_given (word_of word.entry) }
{
    match word {
        Some(word) => word == "true",
        None => false,
    }
}

// The list of origins, where one is given.
fn origins_in(word: Option<&str>) -> &str
    ensures { result.now ≡ origins_of (word_of word.entry) }
{
    match word {
        Some(list) => list,
        None => "",
    }
}

// Which kinds of links `serve` asks for.
fn kinds_in(matches: &ArgMatches<'_>) -> Kinds
    ensures { result ≡ kinds_of (rows_of (found_of matches.now)) }
{
    if is_given(word_in(matches, "ws")) {
        Kinds::Both
    } else {
        Kinds::Plain
    }
}

// What was found, where each number is one.
fn asked_in<'a>(matches: &ArgMatches<'a>, kinds: Kinds) -> Option<ServeWords<'a>>
    ensures { option_map asked_of result ≡ serve_in kinds (rows_of (found_of matches.now)) }
{
    Some(ServeWords {
        port: Port {
            addr: word_in(matches, "addr")?,
            kinds,
            origins: origins_in(word_in(matches, "origin")),
        },
        limit: number_in(word_in(matches, "sessions"), 1, MOST_LINKS, MOST_LINKS)?,
        idle: number_in(word_in(matches, "idle"), 1, MOST_IDLE, 0)?,
        shrink_at: number_in(word_in(matches, "shrink-at"), 0, MOST_SHRINK_AT, SHRINK_AT)?,
        followers: number_in(word_in(matches, "followers"), 0, MOST_FOLLOWERS, 0)?,
        until_end: is_given(word_in(matches, "until-stdin-ends")),
    })
}

// What was found behind `serve`, where each number is one.
fn serve_asked<'a>(matches: &ArgMatches<'a>) -> Option<ServeWords<'a>>
    ensures { option_map asked_of result
        ≡ serve_in (kinds_of (rows_of (found_of matches.now))) (rows_of (found_of matches.now)) }
{
    asked_in(matches, kinds_in(matches))
}

// What the words of `serve` ask for.
fn of_serve(alloc: Global, words: &[String]) -> Result<Option<ServeWords<'_>>, NoMemory>
    ensures { IfOk result (λ r. option_map asked_of r ≡ serve_taken (map string_bytes words.now)) }
{
    match matched(serve_command(alloc)?, words)? {
        Some(matches) => Ok(serve_asked(&matches)),
        None => Ok(None),
    }
}

// What the words of `ws` ask for.
fn of_ws(alloc: Global, words: &[String]) -> Result<Option<ServeWords<'_>>, NoMemory>
    ensures { IfOk result (λ r. option_map asked_of r ≡ ws_taken (map string_bytes words.now)) }
{
    match matched(ws_command(alloc)?, words)? {
        Some(matches) => Ok(asked_in(&matches, Kinds::Web)),
        None => Ok(None),
    }
}

/// What the words ask for, if they ask to serve: plain links or both kinds behind `serve`, WebSockets alone behind
/// `ws`. Memory is wanted only where their first is one of the two.
pub fn serve_words(alloc: Global, words: &[String]) -> Result<Option<ServeWords<'_>>, NoMemory>
    ensures asked { IfOk result (λ r. option_map asked_of r ≡ serve_of (map string_bytes words.now)) }
    ensures begun { OnErr result (begins_to_serve (map string_bytes words.now) ≡ true) }
{
    if begins_with(words, "serve") {
        return of_serve(alloc, words);
    }
    if begins_with(words, "ws") {
        return of_ws(alloc, words);
    }
    Ok(None)
}
