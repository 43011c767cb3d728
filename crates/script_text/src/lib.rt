//! The lines of a script, and the lines of frames that its run writes.
#![tactic(auto)]

mod frame_lines;
mod line_words;
mod lines;

pub use frame_lines::{push_escaped, push_frame_line};
pub use lines::{LineFault, MAX_LINE, ScriptLine, line_of};
