//! Patterns and names from outside.

use crate::tables::{Answers, are_answered};
use byte_text::{Name, Text};
use glob_match::{glob_meets, well_formed};
use std::alloc::Global;
use std::test::Fail;

// In each line a pattern, a name, and whether the one meets the other; a pattern that is not well formed meets none.
const PATTERNS: &str = r"
    * a => meets
    t*k? truck1 => meets
    t*k? truck => misses
    *ab*ab abab => meets
    *ab*ab aab => misses
    a*b*c a-b-b-c => meets
    ? Ω => meets
    ?? Ω => misses
    [α-ω] λ => meets
    [a-c] b => meets
    [a-c] d => misses
    [c-a] b => misses
    [^a-c]* beta => misses
    [^a-c] Ω => meets
    [a^] ^ => meets
    [^^] ^ => misses
    [a-]x -x => meets
    [-a] - => meets
    [^-a] b => meets
    [a\-z] m => misses
    [a\-z] - => meets
    [\a-z] m => meets
    [a-\z] m => meets
    [\]-a] ^ => meets
    [\^a] ^ => meets
    a\*b a*b => meets
    a\*b axb => misses
    a] a] => meets
    [*] * => meets
    [?] a => misses
    [ a => broken
    [a a => broken
    [] a => broken
    [^] a => broken
    [a\] a => broken
    a\ a => broken
    [a- a => broken
    [a-\ a => broken
    [\ a => broken
    ";

// Whether a pattern meets a name.
fn met(pattern: &Name, name: &Name) -> &'static str {
    if !well_formed(pattern.bytes()) {
        return "broken";
    }
    if glob_meets(pattern.bytes(), name.bytes()) {
        "meets"
    } else {
        "misses"
    }
}

struct Patterns;

impl Answers for Patterns {
    fn answer(alloc: Global, case: &str) -> Result<Text, Fail> {
        let (pattern, name) = case.split_once(' ').ok_or("two words")?;
        let pattern = Name::of(alloc, pattern.as_bytes())?;
        let name = Name::of(alloc, name.as_bytes())?;
        Ok(Text::of(alloc, met(&pattern, &name).as_bytes())?)
    }
}

#[test]
fn patterns_are_met(rt: HostRuntime) -> Result<(), Fail> {
    assert!(rt; !well_formed(b"\xFF"));
    are_answered::<Patterns>(&rt, rt.alloc(), PATTERNS)
}
