//! How far a log is rewritten.
//!
//! How far a rewriting came is the item that was copied last, not a list of those left: what is put behind it is copied
//! later, what is put in front of it is mirrored, and what is taken out is taken out on both sides.

ghost use Rattle.std.specs.Prelude.{◌≡◌};
ghost use Rattle.durable_core.specs.Words.{are_shrink, asks_rewriting};

use byte_text::{Name, Request};
use world_model::Asked;

/// The item of a world that was copied last.
#[derive(Drop)]
pub(crate) enum LastCopied {
    /// None so far.
    Nothing,
    /// The channel of this name.
    Channel(Name),
    /// The object of this key and this id.
    Object(Name, Name),
}

/// Whether a log is rewritten.
#[derive(Drop)]
pub(crate) enum Rewriting {
    /// It is not.
    Idle,
    /// It is from the next step on.
    Asked,
    /// It is, and the items up to this one were copied.
    Going(LastCopied),
}

// Whether the words of a request are AOFSHRINK alone.
fn are_shrink(words: &Request) -> bool
    ensures { result ≡ are_shrink words.now }
{
    words.words() == 1 && words.word(0).eq_ignore_ascii_case(b"AOFSHRINK")
}

/// Whether a rewriting of the log is asked for.
pub(crate) fn asks_rewriting(asked: &Asked) -> bool
    ensures { result ≡ asks_rewriting asked.now }
{
    match asked {
        Asked::Words(words) => are_shrink(words),
        Asked::Broken(_) => false,
    }
}
