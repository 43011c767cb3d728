//! Whether a name meets a pattern: what stands between two stars is sought once.

ghost use Rattle.std.specs.Prelude.{◌≡◌, List, length, chars, Some, is_some, true, ◌&&◌};
ghost use Rattle.std.specs.Str.{is_utf8};
ghost use Rattle.byte_text.specs.Globs as globs;
ghost use Rattle.byte_text.specs.Globs.{Token, outside, tokens_meet};
ghost use Rattle.glob_match.specs.Tokens.{left};
ghost use Rattle.glob_match.specs.Matches.{some_end, OnWent, OnFound, IsWent, IsFound};

use crate::signs::first;
use crate::tokens::{TokenAt, token_at};

/// Whether a pattern is well formed: UTF-8, each class with a `]` and an item, each `\` with a character behind it.
pub fn well_formed(pattern: &[u8]) -> bool
    ensures { result ≡ (is_utf8 pattern.now && globs.is_well_formed pattern.now) }
{
    match std::str::from_utf8(pattern) {
        Ok(pattern) => is_pattern(pattern),
        Err(_) => false,
    }
}

fn is_pattern(pattern: &str) -> bool
    ensures { result ≡ is_some (left pattern.now outside) }
{
    let mut rest = pattern;
    'read: loop {
        match token_at(rest, ' ') {
            TokenAt::End => return true,
            TokenAt::Broken => return false,
            TokenAt::AnyList(behind) => rest = behind,
            TokenAt::OneChar(_, behind) => rest = behind,
        }
    }
}

/// How far a pattern goes without a `*`.
enum Went<'a> {
    /// Pattern and name end together.
    Meets,
    /// A character does not meet its token, or characters are left.
    Fails,
    /// The name ends before the pattern.
    Short,
    /// What stands behind a `*`, and the name that is left.
    Star(&'a str, &'a str),
}

// Goes over the tokens before the first `*`.
fn run<'a>(pattern: &'a str, name: &'a str) -> Went<'a>
    ensures read { (ts : List Token) → left pattern.now outside ≡ Some ts → OnWent result ts (chars name.now) }
    ensures shorter { IsWent result (length pattern.now) }
{
    let mut pattern = pattern;
    let mut name = name;
    'go: loop {
        match first(name) {
            None => match token_at(pattern, ' ') {
                TokenAt::End => return Went::Meets,
                TokenAt::Broken => return Went::Fails,
                TokenAt::AnyList(behind) => return Went::Star(behind, name),
                TokenAt::OneChar(_, _) => return Went::Short,
            },
            Some((c, after)) => match token_at(pattern, c) {
                TokenAt::End => return Went::Fails,
                TokenAt::Broken => return Went::Fails,
                TokenAt::AnyList(behind) => return Went::Star(behind, name),
                TokenAt::OneChar(hit, behind) => {
                    if !hit {
                        return Went::Fails;
                    }
                    pattern = behind;
                    name = after;
                }
            },
        }
    }
}

/// What comes of all ends of a name.
enum Found<'a> {
    Meets,
    Fails,
    /// What stands behind a `*`, and the name that is left.
    Star(&'a str, &'a str),
}

// The first end of the name that goes as far as the next `*`: no later one has to be tried.
fn seek<'a>(pattern: &'a str, name: &'a str) -> Found<'a>
    ensures read { (ts : List Token) → left pattern.now outside ≡ Some ts → OnFound result ts (chars name.now) }
    ensures shorter { IsFound result (length pattern.now) }
{
    let mut name = name;
    'seek: loop {
        match run(pattern, name) {
            Went::Meets => return Found::Meets,
            Went::Short => return Found::Fails,
            Went::Star(behind, left) => return Found::Star(behind, left),
            Went::Fails => match first(name) {
                None => return Found::Fails,
                Some((_, after)) => name = after,
            },
        }
    }
}

// Whether an end of the name meets a pattern.
fn ends_meet(pattern: &str, name: &str) -> bool
    ensures { (ts : List Token) → left pattern.now outside ≡ Some ts
        → result ≡ some_end (tokens_meet ts) (chars name.now) }
{
    let mut pattern = pattern;
    let mut name = name;
    'stars: loop {
        match seek(pattern, name) {
            Found::Meets => return true,
            Found::Fails => return false,
            Found::Star(behind, left) => {
                pattern = behind;
                name = left;
            }
        }
    }
}

fn text_meets(pattern: &str, name: &str) -> bool
    ensures { (ts : List Token) → left pattern.now outside ≡ Some ts → result ≡ tokens_meet ts (chars name.now) }
{
    match run(pattern, name) {
        Went::Meets => true,
        Went::Fails => false,
        Went::Short => false,
        Went::Star(behind, left) => ends_meet(behind, left),
    }
}

/// Whether a name meets a well-formed pattern. Each token between two `*` looks at each character of the name once at
/// most, since the first place where the tokens up to the next `*` fit is as good as any later one; no memory is taken.
pub fn glob_meets(pattern: &[u8], name: &[u8]) -> bool
    requires pattern { globs.is_well_formed pattern.now ≡ true }
    requires pattern_text { is_utf8 pattern.now ≡ true }
    requires name_text { is_utf8 name.now ≡ true }
    ensures { result ≡ globs.glob_meets pattern.now name.now }
{
    match (std::str::from_utf8(pattern), std::str::from_utf8(name)) {
        (Ok(pattern), Ok(name)) => text_meets(pattern, name),
        _ => false,
    }
}
