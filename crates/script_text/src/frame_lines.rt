//! The lines of frames that a run writes.

ghost use Rattle.std.specs.Prelude.{◌≡◌, ◌++◌, ◌+◌, ◌<◌, not, Some, position, IfSome, OnOk, OnErr, length, take, drop};
ghost use Rattle.percent_encoding.specs.Percent.{percent_decode};
ghost use Rattle.script_text.specs.Escaped.{escaped, frame_line, is_kept};

use byte_text::{NoMemory, Text};
use percent_encoding::percent_encode_byte;

// Whether a byte stands in a line as it is.
fn is_kept(byte: u8) -> bool
    ensures { result ≡ is_kept byte }
{
    byte.is_ascii_graphic() && byte != b'%'
}

// Where the first byte is that does not.
fn first_escaped(bytes: &[u8]) -> Option<usize>
    ensures first { result ≡ position (λ b. not (is_kept b)) bytes.now }
    ensures within { IfSome result (λ at. at < length bytes.now) }
{
    bytes.iter().position(|byte| !is_kept(*byte))
}

// The bytes up to the first that does not stand in a line as it is, and that one.
#[tactic(auto, using(byte_text::specs::TextLaws::kept))]
fn push_run(into: &mut Text, bytes: &[u8], at: usize) -> Result<(), NoMemory>
    requires { position (λ b. not (is_kept b)) bytes.now ≡ Some at }
    ensures ok { OnOk result (into.new ++ escaped (drop (at + 1) bytes.now) ≡ into.old ++ escaped bytes.now) }
    ensures kept { take (length into.old) into.new ≡ into.old }
{
    into.push(&bytes[..at])?;
    into.push(percent_encode_byte(bytes[at]).as_bytes())
}

/// Appends the bytes as they stand in a line: every byte outside 0x21 to 0x7E, and `%`, as `%` and two upper-case
/// hexadecimal digits. At want of memory the text begins with what it had.
#[tactic(auto, using(byte_text::specs::TextLaws::kept))]
pub fn push_escaped(into: &mut Text, bytes: &[u8]) -> Result<(), NoMemory>
    ensures ok { OnOk result (into.new ≡ into.old ++ escaped bytes.now) }
    ensures kept { take (length into.old) into.new ≡ into.old }
{
    let mut rest = bytes;
    while let Some(at) = first_escaped(rest) {
        push_run(into, rest, at)?;
        rest = &rest[at + 1..];
    }
    into.push(rest)
}

#[tactic(auto, using(byte_text::specs::TextLaws::kept))]
fn push_line(into: &mut Text, frame: &[u8]) -> Result<(), NoMemory>
    ensures ok { OnOk result (into.new ≡ into.old ++ frame_line frame.now) }
    ensures kept { take (length into.old) into.new ≡ into.old }
{
    into.push(b"frame ")?;
    push_escaped(into, frame)?;
    into.push(b"\n")
}

/// Appends the line of a frame that was taken: `frame `, its bytes with every byte outside 0x21 to 0x7E, and `%`, as
/// `%` and two upper-case hexadecimal digits, and a line feed. What is decoded from the escaped bytes is the frame. At
/// want of memory the text is as before.
pub fn push_frame_line(into: &mut Text, frame: &[u8]) -> Result<(), NoMemory>
    ensures ok { OnOk result (into.new ≡ into.old ++ frame_line frame.now) }
    ensures err { OnErr result (into.new ≡ into.old) }
    ensures decoded { percent_decode (escaped frame.now) ≡ frame.now }
{
    let before = into.len();
    match push_line(into, frame) {
        Ok(()) => Ok(()),
        Err(NoMemory) => {
            into.truncate(before);
            Err(NoMemory)
        }
    }
}
