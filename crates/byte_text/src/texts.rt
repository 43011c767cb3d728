//! Lists of bytes, and why bytes are no name or no number.

ghost use Rattle.std.specs.Prelude.{◌≡◌, ◌++◌, [], IfOk, OnOk, OnErr, length, take};

use memory::NoMemory;
use std::alloc::{AllocError, Global};
use std::marker::Model;

/// Why bytes are no name, or no canonical number.
#[derive(Clone, Copy, Debug, PartialEq, Eq)]
pub enum TextFault {
    /// There is no byte.
    Empty,
    /// There are more than 255 bytes.
    TooLong,
    /// The bytes are not UTF-8.
    NotUtf8,
    /// The bytes are not the canonical text of a number of the type.
    NotNumber,
}

/// Why no name was made of bytes.
#[derive(Clone, Copy, Debug, PartialEq, Eq)]
pub enum NameFault {
    /// The bytes are no name.
    Refused(TextFault),
    /// Memory was refused.
    Memory,
}

impl From<AllocError> for NameFault {
    ghost use Rattle.byte_text.specs.declared.texts.NameFault.{NameFault};

    ghost from_gives = { λ _ f. f ≡ NameFault.Memory };

    fn from(_refused: AllocError) -> NameFault {
        NameFault::Memory
    }
}

/// A list of bytes.
#[derive(Drop)]
pub struct Text {
    alloc: Global,
    bytes: Vec<u8>,
}

impl Model for Text {
    ghost use Rattle.std.specs.Prelude.{List, ℕ};

    ghost Value = { List ℕ };

    ghost view = { λ t. t.bytes.items };
}

impl Text {
    /// The empty text.
    pub fn new(alloc: Global) -> Text
        ensures { result ≡ [] }
    {
        Text {
            alloc,
            bytes: Vec::new(alloc),
        }
    }

    /// The empty text, with room for so many bytes.
    pub fn with_room(alloc: Global, room: usize) -> Result<Text, NoMemory>
        ensures { IfOk result (λ t. t ≡ []) }
    {
        let bytes = Vec::with_capacity(alloc, room)?;
        Ok(Text { alloc, bytes })
    }

    /// The text of these bytes.
    pub fn of(alloc: Global, bytes: &[u8]) -> Result<Text, NoMemory>
        ensures { IfOk result (λ t. t ≡ bytes.now) }
    {
        let bytes = bytes.to_vec(alloc)?;
        Ok(Text { alloc, bytes })
    }

    /// Its bytes.
    pub fn bytes(&self) -> &[u8]
        ensures { result.now ≡ self.now }
    {
        self.bytes.as_slice()
    }

    /// A text of the same bytes.
    pub fn copy(&self) -> Result<Text, NoMemory>
        ensures { IfOk result (λ t. t ≡ self.now) }
    {
        Text::of(self.alloc, self.bytes.as_slice())
    }

    /// Appends a piece. At want of memory the text is as before.
    pub fn push(&mut self, piece: &[u8]) -> Result<(), NoMemory>
        ensures ok { OnOk result (self.new ≡ self.old ++ piece.now) }
        ensures err { OnErr result (self.new ≡ self.old) }
    {
        self.bytes.extend_from_slice(piece)?;
        Ok(())
    }

    /// The number of bytes.
    pub fn len(&self) -> usize
        ensures { result ≡ length self.now }
    {
        self.bytes.len()
    }

    /// Keeps the first `len` bytes, and all where there are no more.
    pub fn truncate(&mut self, len: usize)
        ensures { self.new ≡ take len self.old }
    {
        self.bytes.truncate(len);
    }

    /// What was pushed stays if nothing failed, else the first `before` bytes alone: so a text to which several pieces
    /// were pushed has all of them or none.
    pub fn keep_if(&mut self, pushed: Result<(), NoMemory>, before: usize) -> Result<(), NoMemory>
        ensures same { result ≡ pushed }
        ensures ok { OnOk pushed (self.new ≡ self.old) }
        ensures err { OnErr pushed (self.new ≡ take before self.old) }
    {
        if pushed.is_err() {
            self.truncate(before);
        }
        pushed
    }
}
