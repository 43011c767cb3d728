//! Stepping a follower over a link for which another one waits.

ghost use Rattle.std.specs.Prelude.{◌≡◌, ◌⊎◌, ◌<◌, List, length, true, Decides, OnOk, OnErr};
ghost use Rattle.outside.specs.Causes.{HasCause};
ghost use Rattle.outside.specs.Links.{LinkState};
ghost use Rattle.outside.specs.Waits.{Tries};
ghost use Rattle.repl_node.specs.FollowedSoFar.{FollowedSoFar};
ghost use Rattle.repl_node.specs.Following.{Followed};

use crate::followers::Follower;
use crate::phases::Phase;
use outside::{Failed, Got, ReadyDoor, ReadyLink, Sent, WaitForLinks};
use std::sync::Wait;

// So many bytes are read at once.
const BLOCK: usize = 8_192;

// Behind so many milliseconds at most it is looked anew whether an end was asked for.
const BEAT: u32 = 1_000;

/// Has a follower's link named by this number from now on.
pub fn watch_link<D: ReadyDoor, W: WaitForLinks<D>>(
    follower: &mut Follower<D::Link>,
    wait: &mut W,
    token: u32,
) -> Result<(), Failed>
    ensures same { follower.new ≡ follower.old }
    ensures tries { Tries (W.shows wait.old) (W.shows wait.new) result }
{
    wait.watch(&mut follower.link, token)
}

// Whether an ask is written, or its answer awaited.
fn is_asking<K: ReadyLink>(follower: &Follower<K>) -> bool
    ensures { Decides result (follower.now.phase ≡ Phase.Asking) }
{
    matches!(follower.phase(), Phase::Asking)
}

// Writes or reads once, as the follower wants. Whether its link answered that it can't yet.
fn step<K: ReadyLink>(follower: &mut Follower<K>, block: &mut [u8]) -> bool
    requires some { 0 < length block.old }
    ensures some { 0 < length block.new }
    ensures kept { (first : Followed) (came : LinkState) (before : List Followed) → FollowedSoFar first came before follower.old
        → FollowedSoFar first came before follower.new }
    ensures same { result ≡ true → follower.new ≡ follower.old }
{
    if follower.wants_to_write() {
        return matches!(follower.on_writable(), Ok(Sent::Later));
    }
    if follower.wants_to_read() {
        return matches!(follower.on_readable(block), Ok(Got::Later));
    }
    false
}

/// Steps a follower until it has published a world of its log, or has ended: it writes and reads until its link answers
/// Later, and waits then. Where an end may be asked for, it stops there too. It fails where a wait fails.
pub fn follow_link<D: ReadyDoor, W: WaitForLinks<D>, R: Wait>(
    rt: &R,
    follower: &mut Follower<D::Link>,
    wait: &mut W,
    until_end: bool,
) -> Result<(), Failed>
    ensures kept { (first : Followed) (came : LinkState) (before : List Followed) → FollowedSoFar first came before follower.old
        → FollowedSoFar first came before follower.new }
    ensures through { OnOk result
        (follower.new.phase ≡ Phase.Asking → (until_end ≡ true) × ((W.shows wait.new).over ≡ true)) }
    ensures asking { OnErr result (follower.new.phase ≡ Phase.Asking) }
    ensures shut { (W.shows wait.new).shut ≡ (W.shows wait.old).shut }
    ensures cause { HasCause (W.shows wait.old).faults (W.shows wait.new).faults result }
{
    let mut block = [0; BLOCK];
    for _ in rt.forever() {
        if !is_asking(follower) || (until_end && wait.is_over()) {
            return Ok(());
        }
        if step(follower, &mut block) {
            wait.wait(BEAT)?;
        }
    }
    unreachable!()
}
