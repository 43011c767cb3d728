//! The output lines of a script, and those that end it.

ghost use Rattle.std.specs.Prelude.{◌≡◌, ◌++◌, IfOk, IfErr, codes, decimal, flat_map};
ghost use Rattle.script_text.specs.Escaped.{frame_line};

use crate::halts::Halt;
use byte_text::{Text, push_u64};
use script_text::push_frame_line;
use std::alloc::Global;
use world_model::Frames;

/// This text.
pub(crate) fn text_of(alloc: Global, bytes: &[u8]) -> Result<Text, Halt>
    ensures text { IfOk result (λ t. t ≡ bytes.now) }
    ensures memory { IfErr result (λ halt. halt ≡ Halt.Memory) }
{
    let mut text = Text::new(alloc);
    text.push(bytes)?;
    Ok(text)
}

/// The line of a session that was let in.
pub(crate) fn session_line(alloc: Global, number: u32) -> Result<Text, Halt>
    ensures text { IfOk result (λ t. t ≡ codes "session " ++ decimal number ++ codes "\n") }
    ensures memory { IfErr result (λ halt. halt ≡ Halt.Memory) }
{
    let mut text = Text::new(alloc);
    text.push(b"session ")?;
    push_u64(&mut text, number as u64)?;
    text.push(b"\n")?;
    Ok(text)
}

/// The lines of frames that were taken.
pub(crate) fn frame_lines(alloc: Global, frames: &Frames) -> Result<Text, Halt>
    ensures text { IfOk result (λ t. t ≡ flat_map frame_line frames.now.list) }
    ensures memory { IfErr result (λ halt. halt ≡ Halt.Memory) }
{
    let mut text = Text::new(alloc);
    for i in 0..frames.len() {
        push_frame_line(&mut text, frames.at(i))?;
    }
    Ok(text)
}

/// The line of a world that was opened again, of so many objects and channels.
pub(crate) fn reopened_text(alloc: Global, objects: u64, channels: u64) -> Result<Text, Halt>
    ensures text { IfOk result
        (λ t. t ≡ codes "reopened " ++ decimal objects ++ codes " " ++ decimal channels ++ codes "\n") }
    ensures memory { IfErr result (λ halt. halt ≡ Halt.Memory) }
{
    let mut text = Text::new(alloc);
    text.push(b"reopened ")?;
    push_u64(&mut text, objects)?;
    text.push(b" ")?;
    push_u64(&mut text, channels)?;
    text.push(b"\n")?;
    Ok(text)
}
