//! The lists of DETECT and COMMANDS: names in one word, between commas, in any case of their ASCII letters.

ghost use Rattle.std.specs.Prelude.{◌≡◌};
ghost use Rattle.std.specs.List.{list_all};
ghost use Rattle.world_model.specs.Grammar.{a_word};
ghost use Rattle.world_model.specs.Kinds.{pieces, is_in};
ghost use Rattle.world_model.specs.Commands.{detect_names, command_names};
ghost use Rattle.cmd_words.specs.Progress.{IsOne};
ghost use Rattle.cmd_words.specs.FenceWords.{names_of, list_in};

use crate::faults::{CommandFault, invalid, text};
use byte_text::Text;
use std::alloc::Global;
use std::marker::Model;

/// What a list tells: which changes of an object a fence detects, or which commands it listens to.
#[derive(Clone, Copy)]
pub(crate) enum ListKind {
    Detect,
    Commands,
}

impl ListKind {
    // Whether a list of this kind may have the name.
    fn may_have(self, name: &[u8]) -> bool
        ensures { result ≡ is_in (names_of self) name.now }
    {
        match self {
            ListKind::Detect => is_detect_name(name),
            ListKind::Commands => is_command_name(name),
        }
    }
}

// Whether this is a name of a DETECT list.
fn is_detect_name(name: &[u8]) -> bool
    ensures { result ≡ is_in detect_names name.now }
{
    name == b"inside".as_slice()
        || name == b"outside".as_slice()
        || name == b"enter".as_slice()
        || name == b"exit".as_slice()
        || name == b"cross".as_slice()
}

// Whether this is a name of a COMMANDS list.
fn is_command_name(name: &[u8]) -> bool
    ensures { result ≡ is_in command_names name.now }
{
    name == b"set".as_slice() || name == b"del".as_slice() || name == b"drop".as_slice()
}

/// The names of a list, as they stand in its word, in lower case.
#[derive(Drop)]
pub(crate) struct ListedNames {
    text: Text,
}

impl Model for ListedNames {
    ghost use Rattle.std.specs.Prelude.{List, ℕ};
    ghost use Rattle.world_model.specs.Kinds.{pieces};

    ghost Value = { List (List ℕ) };

    ghost view = { λ l. pieces l.text };
}

impl ListedNames {
    /// The list of this kind that the word is.
    pub(crate) fn of(
        alloc: Global,
        word: &[u8],
        kind: ListKind,
    ) -> Result<ListedNames, CommandFault>
        ensures { IsOne a_word (list_in (names_of kind)) word.now result }
    {
        let Ok(lower) = word.to_ascii_lowercase(alloc) else {
            return Err(CommandFault::Memory);
        };
        if !may_have_all(lower.as_slice(), kind) {
            return Err(invalid(alloc, word));
        }
        match text(alloc, lower.as_slice()) {
            Ok(text) => Ok(ListedNames { text }),
            Err(want) => Err(want),
        }
    }

    /// Whether the name is in the list.
    pub(crate) fn has(&self, name: &[u8]) -> bool
        ensures { result ≡ is_in self.now name.now }
    {
        is_piece(self.text.bytes(), name)
    }
}

// Whether a list of this kind may have each piece between the commas of a word.
fn may_have_all(word: &[u8], kind: ListKind) -> bool
    ensures { result ≡ list_all (is_in (names_of kind)) (pieces word.now) }
{
    word.split(|byte| *byte == b',')
        .all(|piece| kind.may_have(piece))
}

// Whether a piece between the commas of a word is this name.
fn is_piece(word: &[u8], name: &[u8]) -> bool
    ensures { result ≡ is_in (pieces word.now) name.now }
{
    word.split(|byte| *byte == b',').any(|piece| name == piece)
}
