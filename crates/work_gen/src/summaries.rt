//! What a drive came to.

ghost use Rattle.std.specs.Prelude.{◌≡◌, ◌++◌, OnOk, OnErr, length, take};
ghost use Rattle.work_gen.specs.Summaries.{summary_line, summary_text};

use byte_text::{NoMemory, Text, push_u64};

/// What a machine was driven with, and what it gave.
#[derive(Clone, Copy, Debug, PartialEq, Eq)]
pub struct Summary {
    /// How many commands were sent.
    pub commands: u32,
    /// How many objects are left.
    pub objects: u64,
    /// How many messages the listener was told.
    pub messages: u64,
    /// The bytes of all frames that both sessions were given.
    pub bytes: u64,
}

// Appends a line of a word and a number.
#[tactic(auto, using(byte_text::specs::TextLaws::kept))]
fn push_line(into: &mut Text, word: &[u8], n: u64) -> Result<(), NoMemory>
    ensures ok { OnOk result (into.new ≡ into.old ++ summary_line word.now n) }
    ensures kept { take (length into.old) into.new ≡ into.old }
{
    into.push(word)?;
    into.push(b" ")?;
    push_u64(into, n)?;
    into.push(b"\n")
}

#[tactic(auto, using(byte_text::specs::TextLaws::kept))]
fn push_lines(into: &mut Text, summary: &Summary) -> Result<(), NoMemory>
    ensures ok { OnOk result (into.new ≡ into.old ++ summary_text summary.now) }
    ensures kept { take (length into.old) into.new ≡ into.old }
{
    push_line(into, b"commands", u64::from(summary.commands))?;
    push_line(into, b"objects", summary.objects)?;
    push_line(into, b"messages", summary.messages)?;
    push_line(into, b"bytes", summary.bytes)
}

/// Appends the four lines of a summary. At want of memory the text is as before.
pub fn push_summary(into: &mut Text, summary: &Summary) -> Result<(), NoMemory>
    ensures ok { OnOk result (into.new ≡ into.old ++ summary_text summary.now) }
    ensures err { OnErr result (into.new ≡ into.old) }
{
    let before = into.len();
    let pushed = push_lines(into, summary);
    into.keep_if(pushed, before)
}
