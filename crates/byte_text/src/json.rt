//! JSON strings (RFC 8259, section 7), written.
//!
//! `push_json` has no condition: bytes that are not UTF-8 are written as they are.

ghost use Rattle.std.specs.Prelude.{◌≡◌, ◌<◌, ◌++◌, OnOk, OnErr, length, take, flat_map};
ghost use Rattle.byte_text.specs.JsonText.{hex_digit, json_byte, quoted};

use crate::texts::Text;
use memory::NoMemory;

fn hex_digit(n: u8) -> u8
    requires { n < 16 }
    ensures { result ≡ hex_digit n }
{
    if n < 10 { b'0' + n } else { b'a' - 10 + n }
}

#[tactic(auto, using(crate::specs::TextLaws::kept))]
fn push_byte(into: &mut Text, byte: u8) -> Result<(), NoMemory>
    ensures ok { OnOk result (into.new ≡ into.old ++ json_byte byte) }
    ensures kept { take (length into.old) into.new ≡ into.old }
{
    match byte {
        b'"' | b'\\' => into.push(&[b'\\', byte]),
        0x08 => into.push(b"\\b"),
        b'\t' => into.push(b"\\t"),
        b'\n' => into.push(b"\\n"),
        0x0C => into.push(b"\\f"),
        b'\r' => into.push(b"\\r"),
        0..=0x1F => into.push(&[
            b'\\',
            b'u',
            b'0',
            b'0',
            hex_digit(byte / 16),
            hex_digit(byte % 16),
        ]),
        _ => into.push(&[byte]),
    }
}

#[tactic(auto, using(crate::specs::TextLaws::kept))]
fn push_quoted(into: &mut Text, bytes: &[u8]) -> Result<(), NoMemory>
    ensures ok { OnOk result (into.new ≡ into.old ++ quoted bytes.now) }
    ensures kept { take (length into.old) into.new ≡ into.old }
{
    into.push(b"\"")?;
    for byte in bytes {
        push_byte(into, *byte)?;
    }
    into.push(b"\"")
}

/// Appends the JSON string of a text (RFC 8259, section 7), which is UTF-8 where the bytes are. At want of memory the
/// text is as before.
pub fn push_json(into: &mut Text, bytes: &[u8]) -> Result<(), NoMemory>
    ensures ok { OnOk result (into.new ≡ into.old ++ quoted bytes.now) }
    ensures err { OnErr result (into.new ≡ into.old) }
{
    let before = into.len();
    let pushed = push_quoted(into, bytes);
    into.keep_if(pushed, before)
}
