//! The options of a search: which objects are sought, and which part of them is shown.

ghost use Rattle.std.specs.Prelude.{◌≡◌};
ghost use Rattle.world_model.specs.Commands.{no_search_options, query_of};
ghost use Rattle.cmd_words.specs.Progress.{Reads};
ghost use Rattle.cmd_words.specs.Options.{TakesOption, ReadsOptions};
ghost use Rattle.cmd_words.specs.SearchWords.{behind_word, search_table};

use crate::faults::CommandFault;
use crate::request_reader::Reader;
use crate::tests_read::push_test;
use byte_text::Name;
use std::alloc::Global;
use std::marker::Model;
use world_data::{MAX_LIMIT, MAX_TESTS};
use world_model::{Query, Rule, Shown, Tests};

/// The LIMIT where none is given.
const USUAL_LIMIT: u32 = 100;

/// The word that an option begins with: MATCH, CURSOR, LIMIT, NOFIELDS, ASC, DESC, WHERE or WHEREIN.
#[derive(Clone, Copy)]
pub(crate) enum SearchWord {
    Match,
    Cursor,
    Limit,
    NoFields,
    Ascending,
    Descending,
    Where,
    WhereIn,
}

/// What the options said so far: the pattern of the ids, the tests on the fields, where the page begins and how many
/// items it has, whether the fields are left out, and whether the ids go down.
pub(crate) struct SearchOptions {
    glob: Option<Name>,
    tests: Tests,
    cursor: Option<u32>,
    limit: Option<u32>,
    bare: bool,
    pub(crate) down: Option<bool>,
}

impl Drop for SearchOptions {
    fn drop(self) {
        let SearchOptions {
            glob: _,
            tests: _,
            cursor: _,
            limit: _,
            bare: _,
            down: _,
        } = self;
    }
}

impl Model for SearchOptions {
    ghost use Rattle.world_model.specs.Commands.{SearchOptions as Options};

    ghost Value = { Options };

    ghost view = { λ o. record {
      glob = o.glob;
      tests = o.tests;
      cursor = o.cursor;
      limit = o.limit;
      bare = o.bare;
      down = o.down;
    } };
}

impl SearchOptions {
    // No option was read.
    fn new(alloc: Global) -> SearchOptions
        ensures { result ≡ no_search_options }
    {
        SearchOptions {
            glob: None,
            tests: Tests::new(alloc),
            cursor: None,
            limit: None,
            bare: false,
            down: None,
        }
    }

    /// The query of these options with a rule and an output.
    pub(crate) fn query(self, rule: Rule, shown: Shown) -> Query
        ensures { result ≡ query_of self shown rule }
    {
        let SearchOptions {
            glob,
            tests,
            cursor,
            limit,
            bare,
            down: _,
        } = self;
        Query {
            rule,
            glob,
            tests,
            cursor: cursor.unwrap_or(0),
            limit: limit.unwrap_or(USUAL_LIMIT),
            bare,
            shown,
        }
    }
}

/// Reads all options; ASC and DESC are options of a search whose order may be chosen alone.
pub(crate) fn read_options(
    reader: &mut Reader,
    ordered: bool,
) -> Result<SearchOptions, CommandFault>
    ensures { ReadsOptions (search_table ordered) no_search_options reader.old reader.new result }
{
    let mut options = SearchOptions::new(reader.alloc());
    'options: while let Some(option) = option_word(reader, ordered, &options) {
        options = with_option(reader, options, option)?;
    }
    Ok(options)
}

// Reads the word that an option begins with, where such an option is next and may still come.
fn option_word(reader: &mut Reader, ordered: bool, options: &SearchOptions) -> Option<SearchWord>
    ensures { TakesOption (search_table ordered) options.now reader.old reader.new result }
{
    let may_turn = ordered && options.down.is_none();
    let may_test = options.tests.len() < MAX_TESTS;
    if reader.takes_due(options.glob.is_none(), b"MATCH") {
        Some(SearchWord::Match)
    } else if reader.takes_due(options.cursor.is_none(), b"CURSOR") {
        Some(SearchWord::Cursor)
    } else if reader.takes_due(options.limit.is_none(), b"LIMIT") {
        Some(SearchWord::Limit)
    } else if reader.takes_due(!options.bare, b"NOFIELDS") {
        Some(SearchWord::NoFields)
    } else if reader.takes_due(may_turn, b"ASC") {
        Some(SearchWord::Ascending)
    } else if reader.takes_due(may_turn, b"DESC") {
        Some(SearchWord::Descending)
    } else if reader.takes_due(may_test, b"WHERE") {
        Some(SearchWord::Where)
    } else if reader.takes_due(may_test, b"WHEREIN") {
        Some(SearchWord::WhereIn)
    } else {
        None
    }
}

// Reads what is behind the word of an option: the options with it.
fn with_option(
    reader: &mut Reader,
    options: SearchOptions,
    option: SearchWord,
) -> Result<SearchOptions, CommandFault>
    ensures { Reads (behind_word options option) reader.old reader.new result }
{
    let mut options = options;
    match option {
        SearchWord::Match => {
            let glob = reader.glob()?;
            options.glob = Some(glob);
            Ok(options)
        }
        SearchWord::Cursor => {
            let cursor = reader.between(0, u32::MAX)?;
            options.cursor = Some(cursor);
            Ok(options)
        }
        SearchWord::Limit => {
            let limit = reader.between(1, MAX_LIMIT)?;
            options.limit = Some(limit);
            Ok(options)
        }
        SearchWord::NoFields => {
            options.bare = true;
            Ok(options)
        }
        SearchWord::Ascending => {
            options.down = Some(false);
            Ok(options)
        }
        SearchWord::Descending => {
            options.down = Some(true);
            Ok(options)
        }
        SearchWord::Where => {
            let test = reader.value_test()?;
            push_test(&mut options.tests, test)?;
            Ok(options)
        }
        SearchWord::WhereIn => {
            let test = reader.among_test()?;
            push_test(&mut options.tests, test)?;
            Ok(options)
        }
    }
}
