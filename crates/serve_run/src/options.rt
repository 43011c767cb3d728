//! What `clap` makes of a command line: a command is a name, words that have to be there, options with a value and
//! flags, which come in any order.

ghost use Rattle.std.specs.Prelude.{◌≡◌, map, true, option_map, string_bytes, IfOk};
ghost use Rattle.clap.specs.Words.{app_of, found_of, is_simple_and_free, rows_of, with_rule};
ghost use Rattle.clap.specs.Walk.{first_of};
ghost use Rattle.serve_run.specs.Options.{begins_with, flag_rule, needed_rule, option_rule, rows_taken, word_of};

use byte_text::NoMemory;
use clap::error::ErrorKind;
use clap::{Arg, ArgAction, ArgMatches, Command};
use std::alloc::Global;

/// The command with one more word that has to be there.
pub fn with_needed<'a>(
    alloc: Global,
    command: Command<'a>,
    id: &'a str,
) -> Result<Command<'a>, NoMemory>
    ensures { IfOk result (λ c. app_of c ≡ with_rule (app_of command.entry) (needed_rule id.now)) }
{
    Ok(command.arg(Arg::new(alloc, id).required(true))?)
}

/// The command with one more option that has a value.
pub fn with_option<'a>(
    alloc: Global,
    command: Command<'a>,
    name: &'a str,
) -> Result<Command<'a>, NoMemory>
    ensures { IfOk result (λ c. app_of c ≡ with_rule (app_of command.entry) (option_rule name.now)) }
{
    Ok(command.arg(Arg::new(alloc, name).long(name))?)
}

/// The command with one more flag.
pub fn with_flag<'a>(
    alloc: Global,
    command: Command<'a>,
    name: &'a str,
) -> Result<Command<'a>, NoMemory>
    ensures { IfOk result (λ c. app_of c ≡ with_rule (app_of command.entry) (flag_rule name.now)) }
{
    let flag = Arg::new(alloc, name).long(name).action(ArgAction::SetTrue);
    Ok(command.arg(flag)?)
}

/// Whether the first word is this one.
pub fn begins_with(words: &[String], name: &str) -> bool
    ensures { result ≡ begins_with name.now (map string_bytes words.now) }
{
    match words {
        [first, ..] => first.as_str() == name,
        [] => false,
    }
}

/// What a command finds in the words, where it takes them. The first word is its own name.
pub fn matched<'a>(
    command: Command<'a>,
    words: &'a [String],
) -> Result<Option<ArgMatches<'a>>, NoMemory>
    requires { is_simple_and_free (app_of command) ≡ true }
    ensures { IfOk result (λ r. option_map (λ m. rows_of (found_of m)) r
        ≡ rows_taken (app_of command.entry) (map string_bytes words.now)) }
{
    match command.try_get_matches_from(words) {
        Ok(matches) => Ok(Some(matches)),
        Err(error) if error.kind() == ErrorKind::OutOfMemory => Err(NoMemory),
        Err(_) => Ok(None),
    }
}

/// The first value that was found under this name.
pub fn word_in<'a>(matches: &ArgMatches<'a>, name: &str) -> Option<&'a str>
    ensures { word_of result ≡ first_of name.now (rows_of (found_of matches.now)) }
{
    matches.get_str(name)
}
