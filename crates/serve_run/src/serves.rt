//! The lines of a server: that its door was opened, and what was done in the end.

ghost use Rattle.std.specs.Prelude.{◌≡◌, ◌≤◌, IfOk};
ghost use Rattle.outside.specs.Causes.{Rose};
ghost use Rattle.serve_run.specs.Serves.{Finishes, listening_line, served_lines};

use crate::ends::{DISK_FAULT, DOOR_FAULT, OUT_OF_MEMORY, SPENT, end};
use crate::tends::{ServeEnd, Served};
use byte_text::{NoMemory, Text, push_u64};
use outside::Sink;
use std::alloc::Global;

/// The line of a door that was opened.
pub(crate) fn listening(alloc: Global, addr: &str) -> Result<Text, NoMemory>
    ensures { IfOk result (λ t. t ≡ listening_line addr.now) }
{
    let mut text = Text::new(alloc);
    text.push(b"listening ")?;
    text.push(addr.as_bytes())?;
    text.push(b"\n")?;
    Ok(text)
}

// The lines of links that were served.
fn served(alloc: Global, joined: u32, starved: u32) -> Result<Text, NoMemory>
    ensures { IfOk result (λ t. t ≡ served_lines joined starved) }
{
    let mut text = Text::new(alloc);
    text.push(b"served ")?;
    push_u64(&mut text, joined as u64)?;
    text.push(b"\n")?;
    if starved == 0 {
        return Ok(text);
    }
    text.push(b"starved ")?;
    push_u64(&mut text, starved as u64)?;
    text.push(b"\n")?;
    Ok(text)
}

/// Writes the lines of the loop's end, and answers the status.
pub(crate) fn finish<K: Sink>(alloc: Global, sink: &mut K, done: Served) -> u8
    ensures told { Finishes done.end done.joined done.starved (K.held sink.old) (K.held sink.new) result }
    ensures later { K.faults sink.old ≤ K.faults sink.new }
    ensures cause { result ≡ 4 → Rose (K.faults sink.old) (K.faults sink.new) }
    ensures unread { result ≡ 3 → ⊥ }
{
    match done.end {
        ServeEnd::Done => match served(alloc, done.joined, done.starved) {
            Ok(lines) => end(sink, 0, lines.bytes()),
            Err(NoMemory) => end(sink, 7, OUT_OF_MEMORY),
        },
        ServeEnd::DoorFault => end(sink, 8, DOOR_FAULT),
        ServeEnd::Stopped => end(sink, 5, DISK_FAULT),
        ServeEnd::Spent => end(sink, 9, SPENT),
        ServeEnd::Memory => end(sink, 7, OUT_OF_MEMORY),
    }
}
