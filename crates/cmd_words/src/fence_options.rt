//! The options of SETCHAN: for which objects a fence is, and what is wanted of it.

ghost use Rattle.std.specs.Prelude.{◌≡◌, Bool, true, IfOk};
ghost use Rattle.world_model.specs.Commands.{no_fence_options, wanted_of, wants as wants_name};
ghost use Rattle.cmd_words.specs.Progress.{Reads};
ghost use Rattle.cmd_words.specs.Options.{TakesOption, ReadsOptions};
ghost use Rattle.cmd_words.specs.FenceWords.{fence_table, behind_word, may_come, IsApart};

use crate::faults::CommandFault;
use crate::listed_names::{ListKind, ListedNames};
use crate::request_reader::Reader;
use crate::tests_read::push_test;
use byte_text::Name;
use std::alloc::Global;
use std::marker::Model;
use world_data::{MAX_TESTS, Wanted};
use world_model::Tests;

/// The word that an option begins with: MATCH, WHERE, WHEREIN, FENCE, DETECT, COMMANDS or NODWELL.
#[derive(Clone, Copy)]
pub(crate) enum FenceWord {
    Match,
    Where,
    WhereIn,
    Fence,
    Detect,
    Commands,
    NoDwell,
}

/// What the options said so far: the pattern of the ids, the tests on the fields, whether FENCE was read, the lists of
/// DETECT and COMMANDS, and whether objects that were near before are left out.
pub(crate) struct FenceOptions {
    pub(crate) glob: Option<Name>,
    pub(crate) tests: Tests,
    pub(crate) fence: bool,
    pub(crate) detect: Option<ListedNames>,
    pub(crate) commands: Option<ListedNames>,
    pub(crate) nodwell: bool,
}

impl Drop for FenceOptions {
    fn drop(self) {
        let FenceOptions {
            glob: _,
            tests: _,
            fence: _,
            detect: _,
            commands: _,
            nodwell: _,
        } = self;
    }
}

impl Model for FenceOptions {
    ghost use Rattle.world_model.specs.Commands.{FenceOptions as Options};

    ghost Value = { Options };

    ghost view = { λ o. record {
      glob = o.glob;
      tests = o.tests;
      fence = o.fence;
      detect = o.detect;
      commands = o.commands;
      nodwell = o.nodwell;
    } };
}

impl FenceOptions {
    // No option was read.
    fn new(alloc: Global) -> FenceOptions
        ensures { result ≡ no_fence_options }
    {
        FenceOptions {
            glob: None,
            tests: Tests::new(alloc),
            fence: false,
            detect: None,
            commands: None,
            nodwell: false,
        }
    }

    /// What is wanted: all that a list names, and all where there is no list.
    pub(crate) fn wanted(&self) -> Wanted
        ensures { result ≡ wanted_of self.now }
    {
        Wanted {
            inside: wants(&self.detect, b"inside"),
            outside: wants(&self.detect, b"outside"),
            enter: wants(&self.detect, b"enter"),
            exit: wants(&self.detect, b"exit"),
            cross: wants(&self.detect, b"cross"),
            set: wants(&self.commands, b"set"),
            del: wants(&self.commands, b"del"),
            drop: wants(&self.commands, b"drop"),
        }
    }

    /// The pattern of the ids, and the tests on the fields.
    pub(crate) fn filters(self) -> (Option<Name>, Tests)
        ensures { result ≡ (self.glob, self.tests) }
    {
        let FenceOptions {
            glob,
            tests,
            fence: _,
            detect: _,
            commands: _,
            nodwell: _,
        } = self;
        (glob, tests)
    }
}

// Whether the list names this, or there is none.
fn wants(list: &Option<ListedNames>, name: &[u8]) -> bool
    ensures { result ≡ wants_name list.now name.now }
{
    match list {
        Some(names) => names.has(name),
        None => true,
    }
}

/// Reads all options. NODWELL is an option of NEARBY alone, and not beside DETECT.
pub(crate) fn read_options(reader: &mut Reader, near: bool) -> Result<FenceOptions, CommandFault>
    ensures reads { ReadsOptions (fence_table near) no_fence_options reader.old reader.new result }
    ensures apart { IfOk result IsApart }
{
    let mut options = FenceOptions::new(reader.alloc());
    'options: while let Some(option) = option_word(reader, near, &options) {
        options = with_option(reader, options, option)?;
    }
    Ok(options)
}

// Reads the word that an option begins with, where such an option is next and may still come.
fn option_word(reader: &mut Reader, near: bool, options: &FenceOptions) -> Option<FenceWord>
    ensures { TakesOption (fence_table near) options.now reader.old reader.new result }
{
    let may_test = options.tests.len() < MAX_TESTS;
    let may_detect = options.detect.is_none() && !options.nodwell;
    let may_rest = near && !options.nodwell && options.detect.is_none();
    if reader.takes_due(options.glob.is_none(), b"MATCH") {
        Some(FenceWord::Match)
    } else if reader.takes_due(may_test, b"WHERE") {
        Some(FenceWord::Where)
    } else if reader.takes_due(may_test, b"WHEREIN") {
        Some(FenceWord::WhereIn)
    } else if reader.takes_due(!options.fence, b"FENCE") {
        Some(FenceWord::Fence)
    } else if reader.takes_due(may_detect, b"DETECT") {
        Some(FenceWord::Detect)
    } else if reader.takes_due(options.commands.is_none(), b"COMMANDS") {
        Some(FenceWord::Commands)
    } else if reader.takes_due(may_rest, b"NODWELL") {
        Some(FenceWord::NoDwell)
    } else {
        None
    }
}

// Reads what is behind the word of an option: the options with it.
fn with_option(
    reader: &mut Reader,
    options: FenceOptions,
    option: FenceWord,
) -> Result<FenceOptions, CommandFault>
    ensures reads { Reads (behind_word options option) reader.old reader.new result }
    ensures apart { (near : Bool) → may_come near options option ≡ true → IsApart options → IfOk result IsApart }
{
    let mut options = options;
    match option {
        FenceWord::Match => {
            let glob = reader.glob()?;
            options.glob = Some(glob);
            Ok(options)
        }
        FenceWord::Where => {
            let test = reader.value_test()?;
            push_test(&mut options.tests, test)?;
            Ok(options)
        }
        FenceWord::WhereIn => {
            let test = reader.among_test()?;
            push_test(&mut options.tests, test)?;
            Ok(options)
        }
        FenceWord::Fence => {
            options.fence = true;
            Ok(options)
        }
        FenceWord::Detect => {
            let list = reader.list_of(ListKind::Detect)?;
            options.detect = Some(list);
            Ok(options)
        }
        FenceWord::Commands => {
            let list = reader.list_of(ListKind::Commands)?;
            options.commands = Some(list);
            Ok(options)
        }
        FenceWord::NoDwell => {
            options.nodwell = true;
            Ok(options)
        }
    }
}
