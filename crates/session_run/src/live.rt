//! What a session is shown of its live fence, and what of its requests sets it.

ghost use Rattle.std.specs.Prelude.{◌≡◌, ◌≤◌, [], length, take, OnOk, OnErr};
ghost use Rattle.std.specs.List.{list_any};
ghost use Rattle.session_run.specs.Live.{sets_channel, shown_bytes};

use crate::waiting_bytes::WaitingBytes;
use byte_text::NoMemory;
use live_fence::{live_part, sets_live};
use world_model::{Asked, AskedList, Frames};

/// Puts what the session of a number is shown of frames where nothing waits. For want of memory nothing waits then.
pub(crate) fn put_shown(
    out: &mut WaitingBytes,
    number: u32,
    frames: &Frames,
) -> Result<(), NoMemory>
    requires bare { out.old ≡ [] }
    ensures ok { OnOk result (out.new ≡ shown_bytes number frames.now.list) }
    ensures err { OnErr result (out.new ≡ []) }
{
    for at in 0..frames.len() {
        let frame = frames.at(at);
        let start = live_part(number, frame);
        if let Err(wanted) = out.put(&frame[start..]) {
            out.clear();
            return Err(wanted);
        }
    }
    Ok(())
}

// Whether a request sets the channel of the session's live fence.
fn sets(number: u32, ask: &Asked) -> bool
    ensures { result ≡ sets_channel number ask.now }
{
    match ask {
        Asked::Words(request) => sets_live(number, request),
        Asked::Broken(_) => false,
    }
}

/// Whether one of the first so many requests sets the channel of the session's live fence.
pub(crate) fn sets_one(number: u32, asked: &AskedList, count: usize) -> bool
    requires within { count ≤ length asked.now }
    ensures { result ≡ list_any (sets_channel number) (take count asked.now) }
{
    for at in 0..count {
        if sets(number, asked.at(at)) {
            return true;
        }
    }
    false
}
