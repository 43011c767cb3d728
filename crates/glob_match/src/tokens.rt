//! The tokens of a pattern, one for each place.

ghost use Rattle.std.specs.Prelude.{◌≡◌, ◌==◌, length};
ghost use Rattle.byte_text.specs.Globs.{outside};
ghost use Rattle.glob_match.specs.Tokens.{left, OnToken, IsShorter};

use crate::classes::whole_class_at;
use crate::signs::{SignAt, sign_at};

/// The token in front of a pattern, and the text behind it.
pub(crate) enum TokenAt<'a> {
    End,
    /// The pattern is not well formed.
    Broken,
    /// A `*`.
    AnyList(&'a str),
    /// A token of one character, and whether the character that was asked for meets it.
    OneChar(bool, &'a str),
}

pub(crate) fn token_at(pattern: &str, c: char) -> TokenAt<'_>
    ensures read { OnToken result (left pattern.now outside) c }
    ensures shorter { IsShorter result (length pattern.now) }
{
    match sign_at(pattern) {
        SignAt::End => TokenAt::End,
        SignAt::Unpaired => TokenAt::Broken,
        SignAt::Plain('*', behind) => TokenAt::AnyList(behind),
        SignAt::Plain('?', behind) => TokenAt::OneChar(true, behind),
        SignAt::Plain('[', behind) => match whole_class_at(behind, c) {
            Some((hit, behind)) => TokenAt::OneChar(hit, behind),
            None => TokenAt::Broken,
        },
        SignAt::Plain(d, behind) => TokenAt::OneChar(d == c, behind),
        SignAt::Literal(d, behind) => TokenAt::OneChar(d == c, behind),
    }
}
