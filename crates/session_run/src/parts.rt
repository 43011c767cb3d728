//! The text of a part of the log, to be written.

ghost use Rattle.std.specs.Prelude.{◌≡◌, ◌≤◌, [], length, OnOk, OnErr};
ghost use Rattle.repl_stream.specs.Texts.{max_part, part_text};

use crate::waiting_bytes::WaitingBytes;
use byte_text::{NoMemory, Text};
use repl_stream::{Part, push_part};
use std::alloc::Global;

/// Puts the text of a part where nothing waits. For want of memory nothing waits then.
pub(crate) fn put_part(
    alloc: Global,
    out: &mut WaitingBytes,
    part: &Part,
    bytes: &[u8],
) -> Result<(), NoMemory>
    requires bare { out.old ≡ [] }
    requires short { length bytes.now ≤ max_part }
    ensures ok { OnOk result (out.new ≡ part_text part.now bytes.now) }
    ensures err { OnErr result (out.new ≡ []) }
{
    let mut text = Text::new(alloc);
    push_part(&mut text, part, bytes)?;
    out.put(text.bytes())
}
