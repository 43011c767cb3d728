//! One name or more, to the end of the words.

ghost use Rattle.std.specs.Prelude.{◌≡◌};
ghost use Rattle.world_model.specs.Grammar.{a_word, one_word};
ghost use Rattle.cmd_words.specs.Progress.{Reads, IsOne};
ghost use Rattle.cmd_words.specs.NameLists.{kind_of, ReadsNames};

use crate::faults::CommandFault;
use crate::fields::push_name;
use crate::request_reader::Reader;
use crate::word_kinds::{read_glob, read_name};
use byte_text::Name;
use std::alloc::Global;
use world_model::NameList;

/// Which names may stand in a list: any, or those that are well formed as patterns.
#[derive(Clone, Copy)]
pub(crate) enum NameKind {
    Plain,
    Pattern,
}

impl NameKind {
    /// The name of this kind that the word is.
    fn read(self, alloc: Global, word: &[u8]) -> Result<Name, CommandFault>
        ensures { IsOne a_word (kind_of self) word.now result }
    {
        match self {
            NameKind::Plain => read_name(alloc, word),
            NameKind::Pattern => read_glob(alloc, word),
        }
    }

    /// Reads a name of this kind.
    fn first(self, reader: &mut Reader) -> Result<Name, CommandFault>
        ensures { Reads (one_word a_word (kind_of self)) reader.old reader.new result }
    {
        match reader.next() {
            Some(word) => self.read(reader.alloc(), word),
            None => Err(reader.wrong_count()),
        }
    }
}

/// Reads names of this kind to the end of the words, one or more.
pub(crate) fn read_names(reader: &mut Reader, kind: NameKind) -> Result<NameList, CommandFault>
    ensures { ReadsNames (kind_of kind) reader.old result }
{
    let mut names = NameList::new(reader.alloc());
    let first = kind.first(reader)?;
    push_name(&mut names, first)?;
    'names: while let Some(word) = reader.next() {
        let name = kind.read(reader.alloc(), word)?;
        push_name(&mut names, name)?;
    }
    Ok(names)
}
