//! Texts whose memory serves one call after another.

ghost use Rattle.std.specs.Prelude.{◌≡◌, ◌<◌, ◌≤◌, [], length};

use byte_text::Text;
use std::alloc::Global;

/// A text keeps its memory for the next call where it has no more bytes than this.
pub(crate) const KEPT_ROOM: usize = 65_536;

/// The texts, whose bytes are not needed when a call begins.
pub(crate) struct Spares {
    /// The records of a call.
    pub(crate) records: Text,
    /// The frame of a reply, which is copied into its session's queue.
    pub(crate) frame: Text,
}

impl Drop for Spares {
    fn drop(self) {
        let Spares {
            records: _,
            frame: _,
        } = self;
    }
}

impl Spares {
    /// No byte. It takes no memory.
    pub(crate) fn new(alloc: Global) -> Spares
        ensures records { result.records ≡ [] }
        ensures frame { result.frame ≡ [] }
    {
        Spares {
            records: Text::new(alloc),
            frame: Text::new(alloc),
        }
    }
}

/// Keeps the memory of a text in place of this one's, but where it is long.
pub(crate) fn keep_room(spare: &mut Text, text: Text)
    ensures short { length text ≤ KEPT_ROOM → spare.new ≡ text }
    ensures long { KEPT_ROOM < length text → spare.new ≡ spare.old }
{
    if text.len() <= KEPT_ROOM {
        *spare = text;
    }
}
