//! A conversation of messages whose calls never wait.

use byte_text::{NoMemory, Text};

/// A message that comes in a conversation.
#[derive(Drop)]
pub enum Message {
    /// A binary message of these bytes.
    Binary(Text),
    /// A message of another kind, which says nothing here.
    Other,
}

/// What a listening brought.
#[derive(Clone, Copy, Debug, PartialEq, Eq)]
pub enum Said {
    /// A binary message.
    Binary,
    /// A message of another kind.
    Other,
    /// Nothing that concerns the listener; there may be more at once.
    Quiet,
    /// Nothing yet. A conversation may answer so at any time.
    Later,
    /// No message comes any more.
    Over,
}

/// What came of saying a message.
#[derive(Clone, Copy, Debug, PartialEq, Eq)]
pub enum Told {
    /// It was said.
    Whole,
    /// It was not said yet, and is to be offered again. A conversation may answer so at any time.
    Later,
}

/// Why nothing was heard or said.
#[derive(Clone, Copy, Debug, PartialEq, Eq)]
pub enum TalkFault {
    /// The conversation failed.
    Failed,
    /// Memory was refused.
    Memory,
}

/// A conversation of messages whose calls never wait.
pub trait Talk {
    ghost use Rattle.std.specs.Prelude.{◌≡◌, true, Ok, Err};
    ghost use Rattle.ws_front.specs.Talks.{TalkState, Hears, Says, closed};
    ghost use Rattle.ws_front.specs.declared.talks.Said.TheVariants.{Over};
    ghost use Rattle.ws_front.specs.declared.talks.TalkFault.TheVariants.{Failed};

    /// What is left to be heard and what was said, where the conversation tells them, whether it was closed, and its
    /// failures.
    ghost shows: { Self → TalkState };

    /// Puts the bytes of the next message behind those of `into`, where it is a binary one.
    fn hear(&mut self, into: &mut Text) -> Result<Said, TalkFault>
        ensures heard { Hears (shows self.old) (shows self.new) into.old into.new result }
        ensures closed { (shows self.old).is_closed ≡ true → result ≡ Ok Over };

    /// Says these bytes as one binary message.
    fn say(&mut self, bytes: &[u8]) -> Result<Told, TalkFault>
        ensures said { Says (shows self.old) (shows self.new) bytes.now result }
        ensures closed { (shows self.old).is_closed ≡ true → result ≡ Err Failed };

    /// Nothing more is heard or said. Where memory is refused, the other side is not told so.
    fn close(&mut self) -> Result<(), NoMemory>
        ensures { shows self.new ≡ closed (shows self.old) };
}
