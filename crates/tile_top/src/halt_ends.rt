//! The last line of a status, where a script or a disk goes on no more.

ghost use Rattle.std.specs.Prelude.{◌≡◌, ◌≤◌, ◌⊎◌, IfOk};
ghost use Rattle.outside.specs.Causes.{Rose};
ghost use Rattle.tile_top.specs.Tops.{IsHaltEnd, IsReplayEnd, damaged_line, script_line};

use byte_text::{NoMemory, Text, push_u64};
use outside::{Side, Sink};
use replay_run::{Halt, ReplayEnd};
use serve_run::{DISK_FAULT, OUT_OF_MEMORY, SPENT, end};
use std::alloc::Global;

/// The last line of status 3.
pub(crate) const READ_FAULT: &[u8] = b"read fault\n";

// The line of a script whose line of this number is none.
fn script_text(alloc: Global, number: u64) -> Result<Text, NoMemory>
    ensures { IfOk result (λ t. t ≡ script_line number) }
{
    let mut text = Text::new(alloc);
    text.push(b"script fault at line ")?;
    push_u64(&mut text, number)?;
    text.push(b"\n")?;
    Ok(text)
}

// The line of a side that is damaged at a place.
fn damaged_text(alloc: Global, side: Side, place: u64) -> Result<Text, NoMemory>
    ensures { IfOk result (λ t. t ≡ damaged_line side place) }
{
    let mut text = Text::new(alloc);
    match side {
        Side::A => text.push(b"damaged side A at ")?,
        Side::B => text.push(b"damaged side B at ")?,
    }
    push_u64(&mut text, place)?;
    text.push(b"\n")?;
    Ok(text)
}

/// Writes the last line of what goes on no more, and answers the status.
pub(crate) fn end_halt<K: Sink>(alloc: Global, sink: &mut K, halt: Halt) -> u8
    ensures told { IsHaltEnd halt (K.held sink.old) (K.held sink.new) result }
    ensures later { K.faults sink.old ≤ K.faults sink.new }
    ensures cause { result ≡ 4 → Rose (K.faults sink.old) (K.faults sink.new) }
    ensures disk { result ≡ 5 → halt ≡ Halt.DiskFault }
{
    match halt {
        Halt::Spent => end(sink, 9, SPENT),
        Halt::DiskFault => end(sink, 5, DISK_FAULT),
        Halt::Damaged(side, place) => match damaged_text(alloc, side, place) {
            Ok(text) => end(sink, 6, text.bytes()),
            Err(NoMemory) => end(sink, 7, OUT_OF_MEMORY),
        },
        Halt::Memory => end(sink, 7, OUT_OF_MEMORY),
    }
}

/// Writes the last line of a script's end, and answers the status.
pub(crate) fn end_replay<K: Sink>(alloc: Global, sink: &mut K, ended: ReplayEnd) -> u8
    ensures told { IsReplayEnd ended (K.held sink.old) (K.held sink.new) result }
    ensures later { K.faults sink.old ≤ K.faults sink.new }
    ensures read { result ≡ 3 → ended ≡ ReplayEnd.ReadFault }
    ensures write { result ≡ 4 → (ended ≡ ReplayEnd.WriteFault) ⊎ Rose (K.faults sink.old) (K.faults sink.new) }
    ensures disk { result ≡ 5
        → (ended ≡ ReplayEnd.Halted Halt.DiskFault) ⊎ (ended ≡ ReplayEnd.Unopened Halt.DiskFault) }
{
    match ended {
        ReplayEnd::Done => 0,
        ReplayEnd::Script(number) => match script_text(alloc, number) {
            Ok(text) => end(sink, 2, text.bytes()),
            Err(NoMemory) => end(sink, 7, OUT_OF_MEMORY),
        },
        ReplayEnd::ReadFault => end(sink, 3, READ_FAULT),
        ReplayEnd::WriteFault => 4,
        ReplayEnd::Halted(halt) => end_halt(alloc, sink, halt),
        ReplayEnd::Unopened(halt) => end_halt(alloc, sink, halt),
    }
}
