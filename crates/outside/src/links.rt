//! A link to a caller, both ways, whose calls never wait.

use crate::failures::Failed;

/// What a read of a link brought.
#[derive(Clone, Copy, Debug, PartialEq, Eq)]
pub enum Got {
    /// So many bytes, more than none.
    Bytes(usize),
    /// The caller sends no more, and all that it sent was read.
    End,
    /// Nothing yet. A link may answer so at any time.
    Later,
}

/// What a write to a link did.
#[derive(Clone, Copy, Debug, PartialEq, Eq)]
pub enum Sent {
    /// So many bytes were taken, more than none.
    Bytes(usize),
    /// None yet. A link may answer so at any time.
    Later,
}

/// A link to a caller, both ways, whose calls never wait. Where the link is dropped it ends both ways.
pub trait ReadyLink {
    ghost use Rattle.std.specs.Prelude.{◌<◌, length};
    ghost use Rattle.outside.specs.Links.{LinkState, GotWithin, SentWithin, Reads, Writes};

    /// What the link shows: its caller, what is left to be read and what was written where it tells them, and its
    /// failures.
    ghost shows: { Self → LinkState };

    /// Puts the next bytes that came into the front of `into`. At Later and at Failed no byte was taken.
    fn read(&mut self, into: &mut [u8]) -> Result<Got, Failed>
        requires { 0 < length into.old }
        ensures within { GotWithin result (length into.new) }
        ensures read { Reads (shows self.old) (shows self.new) result into.new };

    /// Takes bytes from the front of `piece`. At Later and at Failed none was taken.
    fn write(&mut self, piece: &[u8]) -> Result<Sent, Failed>
        requires { 0 < length piece.now }
        ensures within { SentWithin result (length piece.now) }
        ensures written { Writes (shows self.old) (shows self.new) result piece.now };
}
