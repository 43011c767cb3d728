//! The words of the command line that ask to follow a leader.

ghost use Rattle.std.specs.Prelude.{◌≡◌, map, true, option_map, string_bytes, codes, IfOk, OnErr};
ghost use Rattle.clap.specs.Words.{app_of, found_of, rows_of};
ghost use Rattle.serve_run.specs.Options.{begins_with};
ghost use Rattle.tile_top.specs.FollowWords.{follow_app, follow_asked, follow_in, follow_of};

use byte_text::NoMemory;
use clap::{ArgMatches, Command};
use serve_run::{begins_with, is_given, matched, with_flag, with_needed, word_in};
use std::alloc::Global;

/// How a leader is followed.
#[derive(Clone, Copy, Debug, PartialEq, Eq)]
pub struct FollowTerms {
    /// Whether it is followed on and on.
    pub watch: bool,
    /// Whether the end of standard input asks for the end.
    pub until_end: bool,
}

/// What the words ask for where they ask to follow a leader.
#[derive(Clone, Copy)]
pub struct FollowWords<'a> {
    /// Where the leader listens.
    pub addr: &'a str,
    /// How it is followed.
    pub terms: FollowTerms,
}

// `follow ADDR [--watch] [--until-stdin-ends]`
fn follow_command<'a>(alloc: Global) -> Result<Command<'a>, NoMemory>
    ensures { IfOk result (λ c. app_of c ≡ follow_app) }
{
    let command = with_needed(alloc, Command::new(alloc, "follow"), "addr")?;
    let command = with_flag(alloc, command, "watch")?;
    with_flag(alloc, command, "until-stdin-ends")
}

// What was found. Who follows once ends by itself, and is not asked to.
fn asked_in<'a>(matches: &ArgMatches<'a>) -> Option<FollowWords<'a>>
    ensures { option_map follow_asked result ≡ follow_in (rows_of (found_of matches.now)) }
{
    let addr = word_in(matches, "addr")?;
    let watch = is_given(word_in(matches, "watch"));
    let until_end = is_given(word_in(matches, "until-stdin-ends"));
    if until_end && !watch {
        return None;
    }
    let terms = FollowTerms { watch, until_end };
    Some(FollowWords { addr, terms })
}

/// What the words ask for, if they ask to follow a leader. Memory is wanted only where their first is `follow`.
pub fn follow_words(alloc: Global, words: &[String]) -> Result<Option<FollowWords<'_>>, NoMemory>
    ensures asked { IfOk result (λ r. option_map follow_asked r ≡ follow_of (map string_bytes words.now)) }
    ensures begun { OnErr result (begins_with (codes "follow") (map string_bytes words.now) ≡ true) }
{
    if !begins_with(words, "follow") {
        return Ok(None);
    }
    match matched(follow_command(alloc)?, words)? {
        Some(matches) => Ok(asked_in(&matches)),
        None => Ok(None),
    }
}
