//! The value of a field.

ghost use Rattle.std.specs.Prelude.{◌≡◌, ◌++◌, IfOk, OnOk, OnErr};
ghost use Rattle.world_data.specs.Filters.{is_no_value, number_in, same_value, value_in, value_json, value_text};
ghost use Rattle.world_data.specs.declared.values.Value.TheVariants.{Whole, Word};

use byte_text::{Name, NoMemory, Text, push_i64, push_json, read_i64};
use ordered_lists::is_same;
use std::alloc::Global;

/// The value of a field: a whole number, or a text.
///
/// A word that is the canonical text of a whole number of 64 bits writes that number; every other word of 1 to 255
/// bytes of UTF-8 is a text, `1.5` and `007` among them. A missing field reads the number 0.
#[derive(Drop)]
pub enum Value {
    Whole(i64),
    Word(Name),
}

impl Value {
    /// The value that a word writes.
    pub fn of(word: Name) -> Value
        ensures { result ≡ value_in word }
    {
        match number_in(&word) {
            Some(number) => Value::Whole(number),
            None => Value::Word(word),
        }
    }

    /// The same value in memory of its own.
    pub fn copy(&self, alloc: Global) -> Result<Value, NoMemory>
        ensures { IfOk result (λ value. value ≡ self.now) }
    {
        match self {
            Value::Whole(number) => Ok(Value::Whole(*number)),
            Value::Word(text) => Ok(Value::Word(text.copy(alloc)?)),
        }
    }

    /// Whether both are the same number, or the same text byte for byte.
    pub fn is_same(&self, other: &Value) -> bool
        ensures { result ≡ same_value self.now other.now }
    {
        match self {
            Value::Whole(number) => other.is_whole(*number),
            Value::Word(text) => other.is_word(text),
        }
    }

    // Whether it is this number.
    fn is_whole(&self, number: i64) -> bool
        ensures { result ≡ same_value (Whole number) self.now }
    {
        match self {
            Value::Whole(own) => number == *own,
            Value::Word(_) => false,
        }
    }

    /// Whether it is this text.
    pub fn is_word(&self, text: &Name) -> bool
        ensures { result ≡ same_value (Word text.now) self.now }
    {
        match self {
            Value::Whole(_) => false,
            Value::Word(own) => is_same(text, own),
        }
    }

    /// Whether no field has this value: the number 0, or the text of a number.
    pub fn is_none(&self) -> bool
        ensures { result ≡ is_no_value self.now }
    {
        match self {
            Value::Whole(number) => *number == 0,
            Value::Word(text) => number_in(text).is_some(),
        }
    }

    /// Appends the value as a reply shows it: the canonical decimal of a number, the bytes of a text. For want of
    /// memory the text is as before.
    pub fn show(&self, into: &mut Text) -> Result<(), NoMemory>
        ensures ok { OnOk result (into.new ≡ into.old ++ value_text self.now) }
        ensures err { OnErr result (into.new ≡ into.old) }
    {
        match self {
            Value::Whole(number) => push_i64(into, *number),
            Value::Word(text) => into.push(text.bytes()),
        }
    }

    /// Appends the value as a message shows it: a JSON number, or a JSON string. For want of memory the text is as
    /// before.
    pub fn show_json(&self, into: &mut Text) -> Result<(), NoMemory>
        ensures ok { OnOk result (into.new ≡ into.old ++ value_json self.now) }
        ensures err { OnErr result (into.new ≡ into.old) }
    {
        match self {
            Value::Whole(number) => push_i64(into, *number),
            Value::Word(text) => push_json(into, text.bytes()),
        }
    }
}

// The whole number of 64 bits of which the word is the canonical text.
fn number_in(word: &Name) -> Option<i64>
    ensures { result ≡ number_in word.now }
{
    read_i64(word.bytes()).ok()
}
