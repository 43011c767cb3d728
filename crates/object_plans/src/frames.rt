//! Frames in memory that served one before: a frame is copied into the queue of its session, and the memory in which it
//! stood serves the next one.

ghost use Rattle.std.specs.Prelude.{◌≡◌, [], IfOk};
ghost use Rattle.byte_text.specs.Replies.{bulk, fine, frame_text};

use byte_text::{NoMemory, Text, push_bulk};
use std::alloc::Global;
use std::mem;

// No byte yet, in the memory of a text that is left without any.
fn emptied(alloc: Global, spare: &mut Text) -> Text
    ensures { result ≡ [] }
{
    let mut text = mem::replace(spare, Text::new(alloc));
    text.truncate(0);
    text
}

/// These bytes as a frame, in the memory of a text that is left without any.
pub fn frame_in(alloc: Global, spare: &mut Text, bytes: &[u8]) -> Result<Text, NoMemory>
    ensures { IfOk result (λ frame. frame ≡ bytes.now) }
{
    let mut frame = emptied(alloc, spare);
    frame.push(bytes)?;
    Ok(frame)
}

/// The frame of `+OK`, in the memory of a text that is left without any.
pub(crate) fn fine_frame_in(alloc: Global, spare: &mut Text) -> Result<Text, NoMemory>
    ensures { IfOk result (λ frame. frame ≡ frame_text fine) }
{
    frame_in(alloc, spare, b"+OK\r\n")
}

/// The frame of a text, as a bulk string, in the memory of a text that is left without any.
pub(crate) fn text_frame_in(alloc: Global, spare: &mut Text, text: &[u8]) -> Result<Text, NoMemory>
    ensures { IfOk result (λ frame. frame ≡ frame_text (bulk text.now)) }
{
    let mut frame = emptied(alloc, spare);
    push_bulk(&mut frame, text)?;
    Ok(frame)
}
