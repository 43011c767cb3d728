//! The options of SET.

ghost use Rattle.std.specs.Prelude.{◌≡◌, ◌∷◌, [], ◌++◌, Some, IfErr, OnOk};
ghost use Rattle.world_model.specs.Commands.{SetOptions as Options};
ghost use Rattle.cmd_words.specs.Sets.{no_options, TakesOption, ReadsOption, ReadsOptions};

use crate::faults::CommandFault;
use crate::request_reader::Reader;
use byte_text::Name;
use std::alloc::Global;
use std::marker::Model;
use world_model::{Only, Value};

/// The word that an option begins with: FIELD, EX, NX or XX.
#[derive(Clone, Copy)]
pub(crate) enum OptionWord {
    Field,
    Seconds,
    Absent,
    Present,
}

/// What the options said so far: the fields as they were given, the time to live in seconds, and under which condition.
#[derive(Drop)]
pub(crate) struct SetOptions {
    pub(crate) fields: Vec<(Name, Value)>,
    pub(crate) seconds: Option<u32>,
    pub(crate) only: Option<Only>,
}

impl Model for SetOptions {
    ghost use Rattle.world_model.specs.Commands.{SetOptions as Options};

    ghost Value = { Options };

    ghost view = { λ o. record { given = o.fields.items; after_ex = o.seconds; only = o.only } };
}

impl SetOptions {
    // No option was read.
    fn new(alloc: Global) -> SetOptions
        ensures { result ≡ no_options }
    {
        SetOptions {
            fields: Vec::new(alloc),
            seconds: None,
            only: None,
        }
    }

    // One more field.
    fn push(&mut self, field: (Name, Value)) -> Result<(), CommandFault>
        ensures ok { OnOk result (self.new ≡ record self.old { given = self.old.given ++ field ∷ [] }) }
        ensures err { IfErr result (λ why. why ≡ CommandFault.Memory) }
    {
        match self.fields.push(field) {
            Ok(()) => Ok(()),
            Err(_) => Err(CommandFault::Memory),
        }
    }
}

// Reads the word that an option begins with, where such an option is next and may still come.
fn option_word(reader: &mut Reader, options: &SetOptions) -> Option<OptionWord>
    ensures { TakesOption options.now reader.old reader.new result }
{
    if reader.takes_due(true, b"FIELD") {
        Some(OptionWord::Field)
    } else if reader.takes_due(options.seconds.is_none(), b"EX") {
        Some(OptionWord::Seconds)
    } else if reader.takes_due(options.only.is_none(), b"NX") {
        Some(OptionWord::Absent)
    } else if reader.takes_due(options.only.is_none(), b"XX") {
        Some(OptionWord::Present)
    } else {
        None
    }
}

// Reads one option, where one is next: FIELD with a name and a value, EX with seconds, NX or XX.
fn read_option(reader: &mut Reader, options: &mut SetOptions) -> Result<bool, CommandFault>
    ensures { ReadsOption options.old options.new reader.old reader.new result }
{
    match option_word(reader, options) {
        Some(OptionWord::Field) => {
            let field = reader.field()?;
            options.push(field)?;
            Ok(true)
        }
        Some(OptionWord::Seconds) => {
            let seconds = reader.seconds()?;
            options.seconds = Some(seconds);
            Ok(true)
        }
        Some(OptionWord::Absent) => {
            options.only = Some(Only::Absent);
            Ok(true)
        }
        Some(OptionWord::Present) => {
            options.only = Some(Only::Present);
            Ok(true)
        }
        None => Ok(false),
    }
}

/// Reads all options.
pub(crate) fn read_options(reader: &mut Reader) -> Result<SetOptions, CommandFault>
    ensures { ReadsOptions no_options reader.old reader.new result }
{
    let mut options = SetOptions::new(reader.alloc());
    'options: while read_option(reader, &mut options)? {}
    Ok(options)
}
