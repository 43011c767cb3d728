//! How a script ends.

use crate::halts::Halt;

/// How the play of a script ended.
#[derive(Clone, Copy, Debug, PartialEq, Eq)]
pub enum ReplayEnd {
    /// The script was read to its end, and each line was done.
    Done,
    /// The line of this number, counted from 1, is none of a script.
    Script(u64),
    /// The source failed.
    ReadFault,
    /// The sink failed within the output of a line.
    WriteFault,
    /// The last line that was read was not done, or memory wanted to read it, or the disk failed at the script's end.
    Halted(Halt),
    /// The disk was not opened, and no line was read.
    Unopened(Halt),
}

/// What is left of a script: how it ended, and its disk.
#[derive(Drop)]
pub struct Replayed<D> {
    pub end: ReplayEnd,
    pub disk: D,
}
