//! The words of the workload, and requests of them.

ghost use Rattle.std.specs.Prelude.{◌≡◌, ◌<◌, ◌≤◌, ◌+◌, ◌++◌, ◌∷◌, [], OnOk, IfOk, length, decimal, true};
ghost use Rattle.world_model.specs.Outcomes.{is_proper};
ghost use Rattle.world_model.specs.declared.events.Asked.TheVariants.{Words};
ghost use Rattle.work_gen.specs.Brief.{AreBrief};
ghost use Rattle.work_gen.specs.Words.{word_text, texts};

use byte_text::{NoMemory, Request, Text, push_u64};
use std::alloc::Global;

/// A word of the workload.
#[derive(Clone, Copy, Debug, PartialEq, Eq)]
pub(crate) enum Word {
    Psubscribe,
    Setchan,
    Set,
    Del,
    Intersects,
    Nearby,
    Within,
    Fence,
    Detect,
    Point,
    Bounds,
    Count,
    Limit,
    Ids,
    /// The pattern that every name meets.
    All,
    /// The one key.
    Fleet,
    /// What the channels tell of.
    EnterExit,
    /// An object's id.
    Vehicle(u32),
    /// A channel's name.
    Zone(u32),
    Number(u32),
}

// Appends a letter and a number.
fn push_numbered(into: &mut Text, letter: &[u8], n: u32) -> Result<(), NoMemory>
    ensures text { OnOk result (into.new ≡ into.old ++ (letter.now ++ decimal n)) }
    ensures brief { length (decimal n) ≤ 10 }
{
    into.push(letter)?;
    push_u64(into, u64::from(n))
}

// Appends a word, as it is sent.
fn push_word(into: &mut Text, word: Word) -> Result<(), NoMemory>
    ensures text { OnOk result (into.new ≡ into.old ++ word_text word) }
    ensures brief { OnOk result (length (word_text word) ≤ 32) }
{
    match word {
        Word::Psubscribe => into.push(b"PSUBSCRIBE"),
        Word::Setchan => into.push(b"SETCHAN"),
        Word::Set => into.push(b"SET"),
        Word::Del => into.push(b"DEL"),
        Word::Intersects => into.push(b"INTERSECTS"),
        Word::Nearby => into.push(b"NEARBY"),
        Word::Within => into.push(b"WITHIN"),
        Word::Fence => into.push(b"FENCE"),
        Word::Detect => into.push(b"DETECT"),
        Word::Point => into.push(b"POINT"),
        Word::Bounds => into.push(b"BOUNDS"),
        Word::Count => into.push(b"COUNT"),
        Word::Limit => into.push(b"LIMIT"),
        Word::Ids => into.push(b"IDS"),
        Word::All => into.push(b"*"),
        Word::Fleet => into.push(b"fleet"),
        Word::EnterExit => into.push(b"enter,exit"),
        Word::Vehicle(n) => push_numbered(into, b"v", n),
        Word::Zone(n) => push_numbered(into, b"f", n),
        Word::Number(n) => push_numbered(into, b"", n),
    }
}

// Adds a word to few brief ones.
#[tactic(auto, using(crate::specs::Brief::brief_fits, crate::specs::Brief::brief_more))]
fn add(alloc: Global, made: &mut Request, word: Word) -> Result<(), NoMemory>
    requires brief { AreBrief made.old }
    requires few { length made.old ≤ 16 }
    ensures word { OnOk result (made.new ≡ made.old ++ word_text word ∷ []) }
    ensures brief { OnOk result (AreBrief made.new) }
{
    let mut text = Text::new(alloc);
    push_word(&mut text, word)?;
    made.push(text.bytes())
}

/// The request of these words.
#[tactic(auto, using(crate::proofs::Fitting::proper_some))]
pub(crate) fn request(alloc: Global, words: &[Word]) -> Result<Request, NoMemory>
    requires some { 0 < length words.now }
    requires few { length words.now ≤ 16 }
    ensures words { IfOk result (λ r. r ≡ texts words.now) }
    ensures proper { IfOk result (λ r. is_proper (Words r) ≡ true) }
{
    let mut made = Request::new(alloc);
    for word in words {
        add(alloc, &mut made, *word)?;
    }
    Ok(made)
}
