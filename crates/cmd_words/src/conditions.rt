//! Tests on fields, each read from the words behind WHERE or WHEREIN.

ghost use Rattle.std.specs.Prelude.{◌≡◌, ◌++◌, ◌∷◌, [], None, IfErr, OnOk};
ghost use Rattle.byte_text.specs.Names.{same};
ghost use Rattle.world_model.specs.Grammar.{a_word, times};
ghost use Rattle.world_model.specs.Kinds as kinds;
ghost use Rattle.world_model.specs.Kinds.{bound_of};
ghost use Rattle.cmd_words.specs.Progress.{IsOne, ParsesAhead, Reads};
ghost use Rattle.cmd_words.specs.SearchWords.{value_test as a_value_test, among_test as an_among_test};
ghost use Rattle.cmd_words.specs.SearchWords.{first_of, a_first_value, behind_name, behind_least, behind_text};

use crate::faults::{CommandFault, invalid};
use crate::request_reader::Reader;
use crate::word_kinds::{bound_in, read_name};
use byte_text::Name;
use std::alloc::Global;
use world_data::MAX_VALUES;
use world_model::{Test, Value, Values};

/// What stands first behind the field's name of WHERE: the least value of a range, or a text, which is no bound.
#[derive(Drop)]
pub(crate) enum FirstValue {
    Least(Option<i64>),
    Text(Name),
}

impl<'a> Reader<'a> {
    /// Reads the test behind WHERE: a field's name, and then the least and the greatest value, or twice a text.
    pub(crate) fn value_test(&mut self) -> Result<Test, CommandFault>
        ensures { Reads a_value_test self.old self.new result }
    {
        let name = self.name()?;
        self.named_test(name)
    }

    /// Reads the test behind WHEREIN: a field's name, how many values there are, and the values.
    pub(crate) fn among_test(&mut self) -> Result<Test, CommandFault>
        ensures { Reads an_among_test self.old self.new result }
    {
        let name = self.name()?;
        let count = self.between(1, MAX_VALUES)?;
        let values = self.values(count)?;
        Ok(Test::Among(name, values))
    }

    // Reads what is behind the field's name of WHERE.
    fn named_test(&mut self, name: Name) -> Result<Test, CommandFault>
        ensures { Reads (behind_name name) self.old self.new result }
    {
        let first = self.first_value()?;
        match first {
            FirstValue::Least(low) => self.range_test(name, low),
            FirstValue::Text(text) => self.text_test(name, text),
        }
    }

    // Reads the first word behind the field's name of WHERE.
    fn first_value(&mut self) -> Result<FirstValue, CommandFault>
        ensures { ParsesAhead a_first_value self.old self.new result }
    {
        match self.next() {
            Some(word) => read_first(self.alloc(), word),
            None => Err(self.wrong_count()),
        }
    }

    // Reads the greatest value behind the least one.
    fn range_test(&mut self, name: Name, low: Option<i64>) -> Result<Test, CommandFault>
        ensures { Reads (behind_least name low) self.old self.new result }
    {
        let high = self.bound()?;
        Ok(Test::Range(name, low, high))
    }

    // Reads the text once more.
    fn text_test(&mut self, name: Name, text: Name) -> Result<Test, CommandFault>
        ensures { Reads (behind_text name text) self.old self.new result }
    {
        match self.next() {
            Some(word) => {
                if is_text(word, &text) {
                    Ok(Test::Same(name, text))
                } else {
                    Err(invalid(self.alloc(), word))
                }
            }
            None => Err(self.wrong_count()),
        }
    }

    // Reads this many values.
    fn values(&mut self, count: u32) -> Result<Values, CommandFault>
        ensures { Reads (times count kinds.value) self.old self.new result }
    {
        let mut values = Values::new(self.alloc());
        for _ in 0..count {
            let value = self.value()?;
            push_value(&mut values, value)?;
        }
        Ok(values)
    }
}

// The first word behind the field's name of WHERE: a bound, or a text that is none.
fn read_first(alloc: Global, word: &[u8]) -> Result<FirstValue, CommandFault>
    ensures { IsOne a_word first_of word.now result }
{
    match bound_in(word) {
        Some(low) => Ok(FirstValue::Least(low)),
        None => read_text(alloc, word),
    }
}

// The text that the word is, which is no bound.
fn read_text(alloc: Global, word: &[u8]) -> Result<FirstValue, CommandFault>
    requires { bound_of word.now ≡ None }
    ensures { IsOne a_word first_of word.now result }
{
    match read_name(alloc, word) {
        Ok(text) => Ok(FirstValue::Text(text)),
        Err(why) => Err(why),
    }
}

// Whether the word is this text, byte for byte.
fn is_text(word: &[u8], text: &Name) -> bool
    ensures { result ≡ same word.now text.now }
{
    word == text.bytes()
}

// Puts a value last.
fn push_value(values: &mut Values, value: Value) -> Result<(), CommandFault>
    ensures ok { OnOk result (values.new ≡ values.old ++ value ∷ []) }
    ensures err { IfErr result (λ why. why ≡ CommandFault.Memory) }
{
    match values.push(value) {
        Ok(()) => Ok(()),
        Err(_) => Err(CommandFault::Memory),
    }
}
