//! Texts as the input writes them, and bytes as the report writes them.

use crate::faults::Fault;
use byte_text::{Text, push_array_head, push_bulk, push_u64};
use script_text::push_frame_line;
use std::alloc::Global;

// Appends bytes in which `~` stands for the end of a line of the protocol.
fn push_ends(out: &mut Text, bytes: &[u8]) -> Result<(), Fault> {
    let mut is_first = true;
    for piece in bytes.split(|byte| *byte == b'~') {
        if !is_first {
            out.push(b"\r\n")?;
        }
        out.push(piece)?;
        is_first = false;
    }
    Ok(())
}

// The value of a hexadecimal digit.
fn digit_of(byte: u8) -> Option<u8> {
    match byte {
        b'0'..=b'9' => Some(byte - b'0'),
        b'A'..=b'F' => Some(byte - b'A' + 10),
        _ => None,
    }
}

// The byte of two hexadecimal digits.
fn byte_of(high: u8, low: u8) -> Option<u8> {
    let high = digit_of(high)?;
    let low = digit_of(low)?;
    high.checked_mul(16)?.checked_add(low)
}

// Appends what stands behind a `%`.
fn push_escape(out: &mut Text, behind: &[u8]) -> Result<(), Fault> {
    match behind {
        [high, low, rest @ ..] => match byte_of(*high, *low) {
            Some(byte) => {
                out.push(&[byte])?;
                push_ends(out, rest)
            }
            None => Err(Fault::Line),
        },
        _ => Err(Fault::Line),
    }
}

// Appends a text in which nothing is repeated.
fn push_plain(out: &mut Text, written: &str) -> Result<(), Fault> {
    let mut is_first = true;
    for piece in written.as_bytes().split(|byte| *byte == b'%') {
        if is_first {
            push_ends(out, piece)?;
        } else {
            push_escape(out, piece)?;
        }
        is_first = false;
    }
    Ok(())
}

// What is repeated behind a `{`, how often, and what follows.
fn repeated(behind: &str) -> Option<(u32, &str, &str)> {
    let (times, rest) = behind.split_once('*')?;
    let times = times.parse::<u32>().ok()?;
    let (piece, rest) = rest.split_once('}')?;
    Some((times, piece, rest))
}

fn push_times(out: &mut Text, piece: &str, times: u32) -> Result<(), Fault> {
    for _ in 0..times {
        push_plain(out, piece)?;
    }
    Ok(())
}

// Appends what stands behind a `{`.
fn push_brace(out: &mut Text, behind: &str) -> Result<(), Fault> {
    match repeated(behind) {
        Some((times, piece, rest)) => {
            push_times(out, piece, times)?;
            push_plain(out, rest)
        }
        None => {
            out.push(b"{")?;
            push_plain(out, behind)
        }
    }
}

/// Appends the bytes of a text of the input.
pub(crate) fn push_text(out: &mut Text, written: &str) -> Result<(), Fault> {
    let mut is_first = true;
    for piece in written.split('{') {
        if is_first {
            push_plain(out, piece)?;
        } else {
            push_brace(out, piece)?;
        }
        is_first = false;
    }
    Ok(())
}

// Appends a word of a request.
fn push_word(alloc: Global, out: &mut Text, word: &str) -> Result<(), Fault> {
    let mut bytes = Text::new(alloc);
    push_text(&mut bytes, word)?;
    push_bulk(out, bytes.bytes())?;
    Ok(())
}

/// Appends words, each as a part of a request, and says how many they are.
pub(crate) fn push_words(alloc: Global, out: &mut Text, words: &str) -> Result<usize, Fault> {
    let mut count: usize = 0;
    for word in words.split(' ') {
        push_word(alloc, out, word)?;
        count = count.saturating_add(1);
    }
    Ok(count)
}

/// Appends the request of these words.
pub(crate) fn push_request(alloc: Global, out: &mut Text, words: &str) -> Result<(), Fault> {
    push_array_head(out, words.split(' ').count())?;
    push_words(alloc, out, words)?;
    Ok(())
}

/// Appends bytes as they stand in a line of a script.
pub(crate) fn push_escaped(alloc: Global, out: &mut Text, bytes: &[u8]) -> Result<(), Fault> {
    let mut line = Text::new(alloc);
    push_frame_line(&mut line, bytes)?;
    let Ok(line) = str::from_utf8(line.bytes()) else {
        return Err(Fault::Line);
    };
    if let Some(escaped) = line.trim_end().strip_prefix("frame ") {
        out.push(escaped.as_bytes())?;
    }
    Ok(())
}

/// Appends a line.
pub(crate) fn push_line(out: &mut Text, line: &[u8]) -> Result<(), Fault> {
    out.push(line)?;
    out.push(b"\n")?;
    Ok(())
}

/// Appends the line of the caller whose link was shut last.
pub(crate) fn push_last_line(out: &mut Text, caller: u64) -> Result<(), Fault> {
    out.push(b"last ")?;
    push_u64(out, caller)?;
    push_line(out, b"")
}
