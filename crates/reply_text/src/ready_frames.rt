//! Frames that are written at once, without a reply that is made first.

ghost use Rattle.std.specs.Prelude.{◌≡◌, ◌++◌, ◌∷◌, [], codes, pos, IfOk, OnOk};
ghost use Rattle.byte_text.specs.Replies.{bulk, fine, number, frame_text, piece_text};
ghost use Rattle.byte_text.specs.declared.replies.Piece.TheVariants as piece;
ghost use Rattle.world_model.specs.Replies.{null};

use byte_text::{NoMemory, Text, push_u64};
use std::alloc::Global;

// The most bytes of a line of a mark and a number, and of an end of line.
const LINE_ROOM: usize = 32;

/// The frame of `+OK`.
pub fn fine_frame(alloc: Global) -> Result<Text, NoMemory>
    ensures { IfOk result (λ frame. frame ≡ frame_text fine) }
{
    Text::of(alloc, b"+OK\r\n")
}

/// The frame of `+PONG`.
pub fn pong_frame(alloc: Global) -> Result<Text, NoMemory>
    ensures { IfOk result (λ frame. frame ≡ frame_text (piece.Status (codes "PONG") ∷ [])) }
{
    Text::of(alloc, b"+PONG\r\n")
}

/// The frame of the null bulk string.
pub fn null_frame(alloc: Global) -> Result<Text, NoMemory>
    ensures { IfOk result (λ frame. frame ≡ frame_text null) }
{
    Text::of(alloc, b"$-1\r\n")
}

/// The frame of a count, as an integer. A count beyond the integers of RESP2 has room in no memory.
pub fn count_frame(alloc: Global, count: u64) -> Result<Text, NoMemory>
    ensures { IfOk result (λ frame. frame ≡ frame_text (number count)) }
{
    if count > i64::MAX as u64 {
        return Err(NoMemory);
    }
    let mut frame = Text::with_room(alloc, LINE_ROOM)?;
    push_count(&mut frame, count)?;
    Ok(frame)
}

/// The frame of a text, as a bulk string.
pub fn text_frame(alloc: Global, text: &[u8]) -> Result<Text, NoMemory>
    ensures { IfOk result (λ frame. frame ≡ frame_text (bulk text.now)) }
{
    let mut frame = Text::with_room(alloc, text.len() + LINE_ROOM)?;
    frame.push(b"$")?;
    push_u64(&mut frame, text.len() as u64)?;
    frame.push(b"\r\n")?;
    frame.push(text)?;
    frame.push(b"\r\n")?;
    Ok(frame)
}

/// Puts a count last, as an integer.
pub(crate) fn push_count(into: &mut Text, count: u64) -> Result<(), NoMemory>
    ensures { OnOk result (into.new ≡ into.old ++ piece_text (piece.Number (pos count))) }
{
    into.push(b":")?;
    push_u64(into, count)?;
    into.push(b"\r\n")
}
