//! How words are refused.

ghost use Rattle.std.specs.Prelude.{◌≡◌, take, IfOk, IfErr};
ghost use Rattle.std.specs.Str.{str_to_ascii_lowercase};
ghost use Rattle.world_model.specs.Commands.{shown_of};
ghost use Rattle.world_model.specs.declared.faults.WordFault.TheVariants as fault;
ghost use Rattle.cmd_words.specs.Progress.{IsFault, IsText};

use byte_text::{NoMemory, Text};
use std::alloc::Global;
use world_model::WordFault;

/// Why words gave no command.
#[derive(Drop)]
pub enum CommandFault {
    /// The words are refused.
    Refused(WordFault),
    /// Want of memory, whatever the words are.
    Memory,
}

/// How many bytes of a word a refusal shows.
const SHOWN: usize = 64;

/// A text of these bytes.
pub(crate) fn text(alloc: Global, bytes: &[u8]) -> Result<Text, CommandFault>
    ensures { IsText bytes.now result }
{
    let mut text = Text::new(alloc);
    match text.push(bytes) {
        Ok(()) => Ok(text),
        Err(NoMemory) => Err(CommandFault::Memory),
    }
}

// The first bytes of a word.
fn front(word: &[u8]) -> &[u8]
    ensures { result.now ≡ shown_of word.now }
{
    if word.len() > SHOWN {
        &word[..SHOWN]
    } else {
        word
    }
}

/// The word is not the one that is due.
pub(crate) fn invalid(alloc: Global, word: &[u8]) -> CommandFault
    ensures { IsFault (fault.Invalid (shown_of word.now)) result }
{
    match text(alloc, front(word)) {
        Ok(shown) => CommandFault::Refused(WordFault::Invalid(shown)),
        Err(want) => want,
    }
}

/// A coordinate is due, and the word is one with a fraction.
pub(crate) fn fraction(alloc: Global, word: &[u8]) -> CommandFault
    ensures { IsFault (fault.Fraction (shown_of word.now)) result }
{
    match text(alloc, front(word)) {
        Ok(shown) => CommandFault::Refused(WordFault::Fraction(shown)),
        Err(want) => want,
    }
}

/// The word is no command's name.
pub(crate) fn unknown(alloc: Global, word: &[u8]) -> CommandFault
    ensures { IsFault (fault.Unknown (shown_of word.now)) result }
{
    match text(alloc, front(word)) {
        Ok(shown) => CommandFault::Refused(WordFault::Unknown(shown)),
        Err(want) => want,
    }
}

/// The command of this name takes another number of words.
pub(crate) fn wrong_count(alloc: Global, called: &[u8]) -> CommandFault
    ensures { IsFault (fault.WrongCount (str_to_ascii_lowercase called.now)) result }
{
    let Ok(lower) = called.to_ascii_lowercase(alloc) else {
        return CommandFault::Memory;
    };
    match text(alloc, lower.as_slice()) {
        Ok(name) => CommandFault::Refused(WordFault::WrongCount(name)),
        Err(want) => want,
    }
}
