//! A reader of a record's words, from left to right: one function a kind of word.

ghost use Rattle.std.specs.Prelude.{◌≡◌, ◌∷◌, [], true, false, MatchOption};
ghost use Rattle.byte_text.specs.Names.{same};
ghost use Rattle.world_data.specs.Filters.{is_number};
ghost use Rattle.log_record.specs.Words.{same_words};
ghost use Rattle.record_reader.specs.Reading.{BeginsNot, Reads, one_word, name_words, IsName, value_words, IsValue};
ghost use Rattle.record_reader.specs.Reading.{moment_words, IsMoment, ReadsDeadline, pair_words, IsPair, IsEnd, IsNotOne};

use crate::faults::ReadFault;
use byte_text::{Name, NameFault, Request, read_i64, read_u64};
use std::alloc::Global;
use std::marker::Model;
use world_data::Value;

/// The words of a record, and how many of them were read. It is seen as the words that are left.
#[derive(Drop)]
pub(crate) struct RecordReader<'a> {
    alloc: Global,
    words: &'a Request,
    read: usize,
}

impl<'a> Model for RecordReader<'a> {
    ghost use Rattle.std.specs.Prelude.{◌≤◌, List, ℕ, drop, length};

    ghost Value = { List (List ℕ) };

    ghost view = { λ r. drop r.read r.words.now };

    ghost invariant = { λ r. r.read ≤ length r.words.now };
}

impl<'a> RecordReader<'a> {
    /// No word was read.
    pub(crate) fn new(alloc: Global, words: &'a Request) -> RecordReader<'a>
        ensures { result ≡ words.now }
    {
        RecordReader {
            alloc,
            words,
            read: 0,
        }
    }

    /// The allocator of what is read.
    pub(crate) fn alloc(&self) -> Global {
        self.alloc
    }

    /// The next word; none where the words have run out.
    pub(crate) fn next(&mut self) -> Option<&'a [u8]>
        ensures { MatchOption result ((self.new ≡ []) × (self.old ≡ [])) (λ w. self.old ≡ w.now ∷ self.new) }
    {
        if self.read < self.words.words() {
            let word = self.words.word(self.read);
            self.read += 1;
            Some(word)
        } else {
            None
        }
    }

    /// Reads this word where it is next, byte by byte.
    pub(crate) fn takes(&mut self, called: &[u8]) -> bool
        ensures taken { result ≡ true → self.old ≡ called.now ∷ self.new }
        ensures left { result ≡ false → (self.new ≡ self.old) × BeginsNot called.now self.old }
    {
        if self.read == self.words.words() {
            return false;
        }
        if !is_same(self.words.word(self.read), called) {
            return false;
        }
        self.read += 1;
        true
    }

    /// Whether the words that are left are these.
    pub(crate) fn ends_with(&mut self, words: &Request) -> bool
        ensures { result ≡ same_words words.now self.old }
    {
        for at in 0..words.words() {
            if !self.takes(words.word(at)) {
                return false;
            }
        }
        self.end().is_ok()
    }

    /// Finds that no word is left.
    pub(crate) fn end(&self) -> Result<(), ReadFault>
        ensures { IsEnd self.now result }
    {
        if self.read == self.words.words() {
            Ok(())
        } else {
            Err(ReadFault::NotRecord)
        }
    }

    /// Reads a name.
    pub(crate) fn name(&mut self) -> Result<Name, ReadFault>
        ensures { Reads name_words IsName self.old self.new result }
    {
        let Some(word) = self.next() else {
            return Err(ReadFault::NotRecord);
        };
        name_of(self.alloc, word)
    }

    /// Reads a moment: a canonical number of 64 bits.
    pub(crate) fn moment(&mut self) -> Result<u64, ReadFault>
        ensures { Reads moment_words IsMoment self.old self.new result }
    {
        match self.next() {
            Some(word) => moment_of(word),
            None => Err(ReadFault::NotRecord),
        }
    }

    /// Reads the deadline, where there is one: `AT moment`.
    pub(crate) fn deadline(&mut self) -> Result<Option<u64>, ReadFault>
        ensures { ReadsDeadline self.old self.new result }
    {
        if !self.takes(b"AT") {
            return Ok(None);
        }
        let moment = self.moment()?;
        Ok(Some(moment))
    }

    /// Reads the value of a field: a number where the word is the text of one, else a text.
    pub(crate) fn value(&mut self) -> Result<Value, ReadFault>
        ensures { Reads value_words IsValue self.old self.new result }
    {
        match self.next() {
            Some(word) => value_of(self.alloc, word),
            None => Err(ReadFault::NotRecord),
        }
    }

    /// Reads the name and the value of a field.
    pub(crate) fn field(&mut self) -> Result<(Name, Value), ReadFault>
        ensures { Reads pair_words IsPair self.old self.new result }
    {
        let name = self.name()?;
        let value = self.value()?;
        Ok((name, value))
    }

    /// The next word, where it is the last one.
    pub(crate) fn last(&mut self) -> Option<&'a [u8]>
        ensures { MatchOption result (IsNotOne self.old) (λ w. self.old ≡ w.now ∷ []) }
    {
        let Some(word) = self.next() else {
            return None;
        };
        match self.end() {
            Ok(()) => Some(word),
            Err(_) => None,
        }
    }
}

/// Whether two words have the same bytes.
pub(crate) fn is_same(word: &[u8], other: &[u8]) -> bool
    ensures { result ≡ same word.now other.now }
{
    word == other
}

// The name that the word is.
fn name_of(alloc: Global, word: &[u8]) -> Result<Name, ReadFault>
    ensures { Reads name_words IsName (one_word word.now) [] result }
{
    match Name::of(alloc, word) {
        Ok(name) => Ok(name),
        Err(NameFault::Refused(_)) => Err(ReadFault::NotRecord),
        Err(NameFault::Memory) => Err(ReadFault::Memory),
    }
}

// The moment that the word is.
fn moment_of(word: &[u8]) -> Result<u64, ReadFault>
    ensures { Reads moment_words IsMoment (one_word word.now) [] result }
{
    match read_u64(word) {
        Ok(moment) => Ok(moment),
        Err(_) => Err(ReadFault::NotRecord),
    }
}

// The value that the word writes: the number of which it is the text, else a text.
fn value_of(alloc: Global, word: &[u8]) -> Result<Value, ReadFault>
    ensures { Reads value_words IsValue (one_word word.now) [] result }
{
    match read_i64(word) {
        Ok(number) => Ok(Value::Whole(number)),
        Err(_) => text_of(alloc, word),
    }
}

// The text that the word is, which is that of no number.
fn text_of(alloc: Global, word: &[u8]) -> Result<Value, ReadFault>
    requires { is_number word.now ≡ false }
    ensures { Reads value_words IsValue (one_word word.now) [] result }
{
    let text = name_of(alloc, word)?;
    Ok(Value::Word(text))
}
