//! The texts of frames.

ghost use Rattle.std.specs.Prelude.{◌≡◌, ◌<◌, ◌≤◌, ◌++◌, length, IfErr, OnOk, OnErr};
ghost use Rattle.byte_text.specs.Replies.{IsFrame, frame_text};
ghost use Rattle.world_data.specs.Limits.{max_reply};

use byte_text::{NoMemory, Reply, Text, push_frame};
use world_data::MAX_REPLY;

/// Why a reply has no frame.
#[derive(Clone, Copy, Debug, PartialEq, Eq)]
pub enum ReplyFault {
    /// The frame would have more than [`world_data::MAX_REPLY`] bytes.
    TooLong,
    /// Want of memory.
    Memory,
}

impl From<NoMemory> for ReplyFault {
    ghost use Rattle.std.specs.Prelude.{◌≡◌};
    ghost use Rattle.reply_text.specs.declared.frames.ReplyFault.{ReplyFault};

    ghost from_gives = { λ _ f. f ≡ ReplyFault.Memory };

    fn from(_fault: NoMemory) -> ReplyFault {
        ReplyFault::Memory
    }
}

/// Appends the frame of a whole reply (RESP2). TooLong where the frame alone has more than [`MAX_REPLY`] bytes. The
/// text is as before then, and for want of memory.
pub fn push_reply(into: &mut Text, reply: &Reply) -> Result<(), ReplyFault>
    requires { IsFrame reply.now }
    ensures ok { OnOk result (into.new ≡ into.old ++ frame_text reply.now) }
    ensures short { OnOk result (length (frame_text reply.now) ≤ max_reply) }
    ensures too_long { IfErr result (λ f. f ≡ ReplyFault.TooLong → max_reply < length (frame_text reply.now)) }
    ensures err { OnErr result (into.new ≡ into.old) }
{
    let before = into.len();
    push_frame(into, reply)?;
    if into.len() - before > MAX_REPLY {
        into.truncate(before);
        return Err(ReplyFault::TooLong);
    }
    Ok(())
}
