//! The lines of a script, read.
//!
//! A `%` in BYTES that is not followed by two hexadecimal digits stands for itself, as the percent decoding of the kit
//! has it.

ghost use Rattle.std.specs.Prelude.{◌≡◌, IfOk};
ghost use Rattle.std.specs.List.{list_all};
ghost use Rattle.std.specs.Char.{is_ascii_graphic};
ghost use Rattle.percent_encoding.specs.Percent.{percent_decode as decode};
ghost use Rattle.script_text.specs.Words.{words};
ghost use Rattle.script_text.specs.Lines as says;
ghost use Rattle.script_text.specs.Lines.{IsAnswer, KeepsMoment};

use crate::line_words::split_word;
use byte_text::{NoMemory, Text, read_u64};
use percent_encoding::percent_decode;
use std::alloc::Global;

/// The greatest number of bytes of a line.
pub const MAX_LINE: usize = 1 << 20;

/// The last moment of a line, in milliseconds.
const LAST_MOMENT: u64 = (1 << 53) - 1;

/// What a line of a script says.
#[derive(Drop)]
pub enum ScriptLine {
    /// An empty line, or a comment.
    Nothing,
    /// `open`: a session enters.
    Enter,
    /// `feed N M BYTES`: session, moment in milliseconds, the bytes with their escapes replaced.
    Feed(u32, u64, Text),
    /// `take N`: frames are taken from a session.
    Take(u32),
    /// `tick M`: a moment in milliseconds.
    Tick(u64),
    /// `close N`: a session is closed.
    Close(u32),
    /// `step`: a step of rewriting.
    Step,
    /// `reopen`: all is started again on the same disk.
    Reopen,
}

/// Why bytes gave no line.
#[derive(Clone, Copy, Debug, PartialEq, Eq)]
pub enum LineFault {
    /// They are no line of a script.
    Outside,
    /// Want of memory.
    Memory,
}

impl From<NoMemory> for LineFault {
    ghost use Rattle.std.specs.Prelude.{◌≡◌};
    ghost use Rattle.script_text.specs.declared.lines.LineFault.{LineFault};

    ghost from_gives = { λ _ f. f ≡ LineFault.Memory };

    fn from(_refused: NoMemory) -> LineFault {
        LineFault::Memory
    }
}

// The number of a session.
fn session(word: &[u8]) -> Option<u32>
    ensures { result ≡ says.session word.now }
{
    match read_u64(word) {
        Ok(n) => {
            if n <= 0xFFFF_FFFF {
                Some(n as u32)
            } else {
                None
            }
        }
        Err(_) => None,
    }
}

// A moment, up to the last one.
fn moment(text: &[u8]) -> Option<u64>
    ensures { result ≡ says.moment text.now }
{
    match read_u64(text) {
        Ok(n) => { if n <= LAST_MOMENT { Some(n) } else { None } }
        Err(_) => None,
    }
}

fn are_graphic(bytes: &[u8]) -> bool
    ensures { result ≡ list_all is_ascii_graphic bytes.now }
{
    bytes.iter().all(|b| b.is_ascii_graphic())
}

fn is_piece(bytes: &[u8]) -> bool
    ensures { result ≡ says.is_piece bytes.now }
{
    !bytes.is_empty() && are_graphic(bytes)
}

// Bytes with their escapes replaced.
fn decoded(alloc: Global, bytes: &[u8]) -> Result<Text, NoMemory>
    ensures { IfOk result (λ t. t ≡ decode bytes.now) }
{
    let mut plain = Vec::new(alloc);
    percent_decode(bytes).append_to(&mut plain)?;
    let mut text = Text::new(alloc);
    text.push(plain.as_slice())?;
    Ok(text)
}

fn bare_line(name: &[u8]) -> Option<ScriptLine>
    ensures { result ≡ says.bare_line name.now }
{
    if name == b"open".as_slice() {
        Some(ScriptLine::Enter)
    } else if name == b"step".as_slice() {
        Some(ScriptLine::Step)
    } else if name == b"reopen".as_slice() {
        Some(ScriptLine::Reopen)
    } else {
        None
    }
}

fn numbered_line(name: &[u8], number: &[u8]) -> Option<ScriptLine>
    ensures { result ≡ says.numbered_line name.now number.now }
{
    if name == b"take".as_slice() {
        session(number).map(ScriptLine::Take)
    } else if name == b"tick".as_slice() {
        moment(number).map(ScriptLine::Tick)
    } else if name == b"close".as_slice() {
        session(number).map(ScriptLine::Close)
    } else {
        None
    }
}

fn feed_line(
    alloc: Global,
    name: &[u8],
    number: &[u8],
    at: &[u8],
    bytes: &[u8],
) -> Result<ScriptLine, LineFault>
    ensures { IsAnswer (says.feed_line name.now number.now at.now bytes.now) result }
{
    if name != b"feed".as_slice() || !is_piece(bytes) {
        return Err(LineFault::Outside);
    }
    match (session(number), moment(at)) {
        (Some(session), Some(moment)) => {
            let text = decoded(alloc, bytes)?;
            Ok(ScriptLine::Feed(session, moment, text))
        }
        _ => Err(LineFault::Outside),
    }
}

fn or_outside(line: Option<ScriptLine>) -> Result<ScriptLine, LineFault>
    ensures { IsAnswer line result }
{
    match line {
        Some(line) => Ok(line),
        None => Err(LineFault::Outside),
    }
}

// What the words of a line say.
fn words_line(alloc: Global, bytes: &[u8]) -> Result<ScriptLine, LineFault>
    ensures { IsAnswer (says.line_of_words (words bytes.now)) result }
{
    let (name, rest) = split_word(bytes);
    let Some(rest) = rest else {
        return or_outside(bare_line(name));
    };
    let (number, rest) = split_word(rest);
    let Some(rest) = rest else {
        return or_outside(numbered_line(name, number));
    };
    let (at, rest) = split_word(rest);
    let Some(rest) = rest else {
        return Err(LineFault::Outside);
    };
    match split_word(rest) {
        (bytes, None) => feed_line(alloc, name, number, at, bytes),
        (_, Some(_)) => Err(LineFault::Outside),
    }
}

// A line that is empty, or a comment.
fn is_silent(bytes: &[u8]) -> bool
    ensures { result ≡ says.is_silent bytes.now }
{
    match bytes.first() {
        None => true,
        Some(first) => *first == b'#',
    }
}

/// What a line says, its bytes without the line feed: empty or beginning with `#`, or the words `open`, `feed N M
/// BYTES`, `take N`, `tick M`, `close N`, `step` or `reopen`, one space between two. N is a canonical number of 32
/// bits, M one up to 9,007,199,254,740,991, BYTES are one or more bytes from 0x21 to 0x7E. Everything else, and a line
/// of more than 1,048,576 bytes, is Outside. No moment is later than that last one.
pub fn line_of(alloc: Global, bytes: &[u8]) -> Result<ScriptLine, LineFault>
    ensures answer { IsAnswer (says.line bytes.now) result }
    ensures moment { IfOk result KeepsMoment }
{
    read_line(alloc, bytes)
}

// What a line says.
#[tactic(auto, unfolding(crate::specs::Lines::line))]
fn read_line(alloc: Global, bytes: &[u8]) -> Result<ScriptLine, LineFault>
    ensures { IsAnswer (says.line bytes.now) result }
{
    if bytes.len() > MAX_LINE {
        return Err(LineFault::Outside);
    }
    if is_silent(bytes) {
        return Ok(ScriptLine::Nothing);
    }
    words_line(alloc, bytes)
}
