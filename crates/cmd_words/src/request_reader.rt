//! A reader of a request's words, from left to right: one function a kind of word.

ghost use Rattle.std.specs.Prelude.{◌≡◌, [], length, MatchOption};
ghost use Rattle.byte_text.specs.Requests.{FitsRequest};
ghost use Rattle.world_model.specs.Commands.{wrong_count as count_fault, shown_of};
ghost use Rattle.world_model.specs.declared.faults.WordFault.TheVariants as fault;
ghost use Rattle.cmd_words.specs.Progress.{start, all_words, IsBehind, IsFault, Parses, Took, TookDue, a_name};
ghost use Rattle.cmd_words.specs.Progress.{key_and_id, ReadsShown, IsEnd, IsRefusal};
ghost use Rattle.cmd_words.specs.SearchWords.{ReadsOutput};

use crate::faults::{CommandFault, invalid, wrong_count};
use crate::word_kinds::read_name;
use byte_text::{Name, Request};
use std::alloc::Global;
use std::marker::Model;
use world_model::Shown;

/// The words of a request, and how many of them were read.
#[derive(Drop)]
pub(crate) struct Reader<'a> {
    alloc: Global,
    words: &'a Request,
    read: usize,
}

impl<'a> Model for Reader<'a> {
    ghost use Rattle.std.specs.Prelude.{◌≤◌, length};
    ghost use Rattle.cmd_words.specs.Progress.{Place, place_at};

    ghost Value = { Place };

    ghost view = { λ r. place_at r.words.now r.read };

    ghost invariant = { λ r. r.read ≤ length r.words.now };
}

impl<'a> Reader<'a> {
    /// No word of the request was read.
    pub(crate) fn new(alloc: Global, words: &'a Request) -> Reader<'a>
        ensures { result ≡ start words.now }
    {
        Reader {
            alloc,
            words,
            read: 0,
        }
    }

    /// The allocator of what is read.
    pub(crate) fn alloc(&self) -> Global {
        self.alloc
    }

    /// How many words there are, read and left, which are within the limits of a request.
    pub(crate) fn len(&self) -> usize
        ensures count { result ≡ length (all_words self.now) }
        ensures fits { FitsRequest (all_words self.now) }
    {
        self.words.words()
    }

    /// The next word; none where the words have run out.
    pub(crate) fn next(&mut self) -> Option<&'a [u8]>
        ensures { MatchOption result ((self.new ≡ self.old) × (self.old.left ≡ []))
            (λ w. IsBehind w.now self.old self.new) }
    {
        if self.read < self.words.words() {
            let word = self.words.word(self.read);
            self.read += 1;
            Some(word)
        } else {
            None
        }
    }

    /// The command takes another number of words.
    pub(crate) fn wrong_count(&self) -> CommandFault
        ensures { IsFault (count_fault (all_words self.now)) result }
    {
        if self.words.words() > 0 {
            wrong_count(self.alloc, self.words.word(0))
        } else {
            wrong_count(self.alloc, b"")
        }
    }

    /// Reads a name.
    pub(crate) fn name(&mut self) -> Result<Name, CommandFault>
        ensures { Parses a_name self.old self.new result }
    {
        match self.next() {
            Some(word) => read_name(self.alloc, word),
            None => Err(self.wrong_count()),
        }
    }

    /// Reads a key and an id.
    pub(crate) fn key_and_id(&mut self) -> Result<(Name, Name), CommandFault>
        ensures { Parses key_and_id self.old self.new result }
    {
        let key = self.name()?;
        let id = self.name()?;
        Ok((key, id))
    }

    /// Reads this word where it is next, in any case of its ASCII letters.
    pub(crate) fn takes(&mut self, called: &[u8]) -> bool
        ensures { Took called.now self.old self.new result }
    {
        if self.read == self.words.words() {
            return false;
        }
        if !self.words.word(self.read).eq_ignore_ascii_case(called) {
            return false;
        }
        self.read += 1;
        true
    }

    /// Reads how one object is shown, where that is next.
    pub(crate) fn shown(&mut self) -> Option<Shown>
        ensures { ReadsShown self.old self.new result }
    {
        if self.takes(b"OBJECT") {
            Some(Shown::Objects)
        } else if self.takes(b"POINT") {
            Some(Shown::Points)
        } else if self.takes(b"BOUNDS") {
            Some(Shown::Bounds)
        } else {
            None
        }
    }

    /// Reads this word where it may come and is next, in any case of its ASCII letters.
    pub(crate) fn takes_due(&mut self, may: bool, called: &[u8]) -> bool
        ensures { TookDue may called.now self.old self.new result }
    {
        may && self.takes(called)
    }

    /// Reads how the objects of a search are shown, where that is next.
    pub(crate) fn output(&mut self) -> Option<Shown>
        ensures { ReadsOutput self.old self.new result }
    {
        if self.takes(b"COUNT") {
            Some(Shown::Count)
        } else if self.takes(b"IDS") {
            Some(Shown::Ids)
        } else if self.takes(b"OBJECTS") {
            Some(Shown::Objects)
        } else if self.takes(b"POINTS") {
            Some(Shown::Points)
        } else if self.takes(b"BOUNDS") {
            Some(Shown::Bounds)
        } else {
            None
        }
    }

    /// Why all words are refused where a word of another kind is due.
    pub(crate) fn refusal(&self) -> CommandFault
        ensures { IsRefusal (all_words self.now) self.now.left result }
    {
        if self.read == self.words.words() {
            self.wrong_count()
        } else {
            invalid(self.alloc, self.words.word(self.read))
        }
    }

    /// Finds that no word is left, behind a command that could take more words.
    pub(crate) fn stop(&self) -> Result<(), CommandFault>
        ensures { IsEnd (λ w. fault.Invalid (shown_of w)) self.now result }
    {
        if self.read == self.words.words() {
            Ok(())
        } else {
            Err(self.refusal())
        }
    }

    /// Finds that no word is left, behind a command that takes no more words.
    pub(crate) fn end(&self) -> Result<(), CommandFault>
        ensures { IsEnd (λ _. count_fault (all_words self.now)) self.now result }
    {
        if self.read == self.words.words() {
            Ok(())
        } else {
            Err(self.wrong_count())
        }
    }
}
