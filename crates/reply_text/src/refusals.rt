//! The replies that refuse.

ghost use Rattle.std.specs.Prelude.{◌≡◌, ◌++◌, ◌∷◌, [], codes, IfOk, OnOk};
ghost use Rattle.byte_text.specs.Lines.{IsOneLine};
ghost use Rattle.byte_text.specs.Replies.{IsFrame};
ghost use Rattle.world_model.specs.Replies.{error};
ghost use Rattle.world_model.specs.Refusals.{shown_byte, in_quotes, fault_reply as fault_pieces};
ghost use Rattle.world_model.specs.Refusals.{broken_reply as broken_pieces, refusal_reply as refusal_pieces};

use crate::drafts::Draft;
use byte_text::{NoMemory, Piece, Reply, RespFault, Text};
use geo_text::GeoFault;
use std::alloc::Global;
use world_model::{Refusal, WordFault};

/// The error of a text, which is of one line: `ERR` and the text.
pub fn error_reply(alloc: Global, text: &[u8]) -> Result<Reply, NoMemory>
    requires { IsOneLine text.now }
    ensures value { IfOk result (λ reply. reply ≡ error text.now) }
    ensures frame { IfOk result IsFrame }
{
    let mut words = Text::new(alloc);
    words.push(b"ERR ")?;
    words.push(text)?;
    let mut draft = Draft::new(alloc);
    draft.piece(Piece::Fault(words))?;
    Ok(draft.finish())
}

// A byte as a refusal shows it: those from a space to `~` as they are, others as `?`.
fn shown(byte: u8) -> u8
    ensures { result ≡ shown_byte byte }
{
    if b' ' <= byte && byte <= b'~' {
        byte
    } else {
        b'?'
    }
}

// Appends a word as a refusal shows it, in quotes.
fn push_quoted(text: &mut Text, word: &[u8]) -> Result<(), NoMemory>
    ensures { OnOk result (text.new ≡ text.old ++ in_quotes word.now) }
{
    text.push(b"'")?;
    for byte in word {
        text.push(&[shown(*byte)])?;
    }
    text.push(b"'")
}

// The error of a word in quotes, between two texts.
fn quoted_reply(alloc: Global, before: &[u8], word: &[u8], after: &[u8]) -> Result<Reply, NoMemory>
    requires before { IsOneLine before.now }
    requires after { IsOneLine after.now }
    ensures value { IfOk result (λ reply. reply ≡ error (before.now ++ in_quotes word.now ++ after.now)) }
    ensures frame { IfOk result IsFrame }
{
    let mut text = Text::new(alloc);
    text.push(before)?;
    push_quoted(&mut text, word)?;
    text.push(after)?;
    error_reply(alloc, text.bytes())
}

// How a GeoJSON text is refused.
fn geo_words(fault: GeoFault) -> &'static [u8]
    ensures value { error (codes "invalid object: " ++ result.now) ≡ fault_pieces (WordFault.Geo fault) }
    ensures line { IsOneLine result.now }
{
    match fault {
        GeoFault::NotJson => b"not json",
        GeoFault::NotSpatial => b"not spatial",
        GeoFault::BadType => b"bad type",
        GeoFault::NotWhole => b"coordinate is not a whole number",
        GeoFault::OutOfRange => b"coordinate out of range",
        GeoFault::BadRing => b"ring is not closed",
        GeoFault::TooFew => b"too few positions",
        GeoFault::TooMany => b"too many positions",
        GeoFault::BadPosition => b"bad position",
    }
}

// The error of two texts, one behind the other.
fn joined_reply(alloc: Global, before: &[u8], after: &[u8]) -> Result<Reply, NoMemory>
    requires before { IsOneLine before.now }
    requires after { IsOneLine after.now }
    ensures value { IfOk result (λ reply. reply ≡ error (before.now ++ after.now)) }
    ensures frame { IfOk result IsFrame }
{
    let mut text = Text::new(alloc);
    text.push(before)?;
    text.push(after)?;
    error_reply(alloc, text.bytes())
}

/// How a list of words is refused. Of a word its bytes from a space to `~` are shown as they are, others as `?`.
pub fn fault_reply(alloc: Global, fault: &WordFault) -> Result<Reply, NoMemory>
    ensures value { IfOk result (λ reply. reply ≡ fault_pieces fault.now) }
    ensures frame { IfOk result IsFrame }
{
    match fault {
        WordFault::Unknown(word) => quoted_reply(alloc, b"unknown command ", word.bytes(), b""),
        WordFault::WrongCount(called) => quoted_reply(
            alloc,
            b"wrong number of arguments for ",
            called.bytes(),
            b" command",
        ),
        WordFault::Invalid(word) => quoted_reply(alloc, b"invalid argument ", word.bytes(), b""),
        WordFault::Fraction(word) => quoted_reply(
            alloc,
            b"coordinate is not a whole number ",
            word.bytes(),
            b"",
        ),
        WordFault::Geo(fault) => joined_reply(alloc, b"invalid object: ", geo_words(*fault)),
    }
}

// Why a command that was read is not done.
fn refusal_words(refusal: Refusal) -> &'static [u8]
    ensures value { error result.now ≡ refusal_pieces refusal }
    ensures line { IsOneLine result.now }
{
    match refusal {
        Refusal::KeyNotFound => b"key not found",
        Refusal::IdNotFound => b"id not found",
        Refusal::TooManyFields => b"too many fields",
        Refusal::TooManyObjects => b"too many objects",
        Refusal::TooManyChannels => b"too many channels",
        Refusal::TooManySubscriptions => b"too many subscriptions",
        Refusal::DatabaseFull => b"database is full",
        Refusal::ReplyTooLong => b"reply too long",
        Refusal::Subscribed => {
            b"only SUBSCRIBE, PSUBSCRIBE, PING and QUIT are served while subscribed"
        }
    }
}

/// How a command is refused that was read and is not done.
pub fn refusal_reply(alloc: Global, refusal: Refusal) -> Result<Reply, NoMemory>
    ensures value { IfOk result (λ reply. reply ≡ refusal_pieces refusal) }
    ensures frame { IfOk result IsFrame }
{
    error_reply(alloc, refusal_words(refusal))
}

// How bytes that are no request are refused.
fn broken_words(fault: RespFault) -> &'static [u8]
    ensures value { error (codes "protocol error: " ++ result.now) ≡ broken_pieces fault }
    ensures line { IsOneLine result.now }
{
    match fault {
        RespFault::BadType => b"bad type",
        RespFault::BadLength => b"bad length",
        RespFault::BadEnd => b"bad end",
        RespFault::TooMany => b"too many words",
        RespFault::TooLong => b"too long",
    }
}

/// How bytes that are no request are refused, before the session is closed.
pub fn broken_reply(alloc: Global, fault: RespFault) -> Result<Reply, NoMemory>
    ensures value { IfOk result (λ reply. reply ≡ broken_pieces fault) }
    ensures frame { IfOk result IsFrame }
{
    joined_reply(alloc, b"protocol error: ", broken_words(fault))
}
