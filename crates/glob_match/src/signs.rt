//! The signs of a pattern: characters, by themselves or behind a backslash.

ghost use Rattle.std.specs.Prelude.{◌≡◌, ◌<◌, ◌∷◌, [], MatchOption, IfSome, length, chars};
ghost use Rattle.byte_text.specs.Globs.{signs};
ghost use Rattle.glob_match.specs.Signs.{OnSign, IsShorter};

/// The first sign of a pattern, and the text behind it.
pub(crate) enum SignAt<'a> {
    End,
    /// A `\` that ends the pattern.
    Unpaired,
    /// A character by itself.
    Plain(char, &'a str),
    /// A character behind a `\`.
    Literal(char, &'a str),
}

// The first character of a text, and the text behind it.
pub(crate) fn first(text: &str) -> Option<(char, &str)>
    ensures read { MatchOption result (chars text.now ≡ []) (λ x. chars text.now ≡ x.0 ∷ chars x.1.now) }
    ensures shorter { IfSome result (λ x. length x.1.now < length text.now) }
{
    let mut rest = text.chars();
    match rest.next() {
        Some(c) => Some((c, rest.as_str())),
        None => None,
    }
}

pub(crate) fn sign_at(text: &str) -> SignAt<'_>
    ensures read { OnSign result (signs (chars text.now)) }
    ensures shorter { IsShorter result (length text.now) }
{
    match first(text) {
        None => SignAt::End,
        Some(('\\', behind)) => match first(behind) {
            None => SignAt::Unpaired,
            Some((c, behind)) => SignAt::Literal(c, behind),
        },
        Some((c, behind)) => SignAt::Plain(c, behind),
    }
}
