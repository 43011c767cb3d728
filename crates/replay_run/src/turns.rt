//! What comes of a line of a script.
//!
//! Of the last line a part may be written where the write failed in it, and nothing where reading failed or memory ran
//! out.

use crate::halts::Halt;
use byte_text::Text;

/// What was done of a line.
#[derive(Drop)]
pub(crate) enum Acted {
    /// All, and this is its output.
    Printed(Text),
    /// It asks for all to be opened again, and nothing is done so far.
    Reopen,
    /// It is none of a script, and nothing is done.
    Outside,
}

/// How a line ended.
#[derive(Clone, Copy, Debug, PartialEq, Eq)]
pub(crate) enum Turn {
    /// The line was done, and its output written.
    Next,
    /// No line was left.
    End,
    /// The line is none of a script.
    Script,
    /// The line asks for all to be opened again.
    Again,
    ReadFault,
    WriteFault,
    /// The line was not done.
    Halted(Halt),
}
