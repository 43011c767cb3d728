//! Messages to all sessions that hear them, staged and then placed.
//!
//! Messages are staged before any is placed, with the subscriptions that the sessions have at the start of the call.
//! That is the same as placing them write by write, since frames that are placed change what a session hears only by
//! cutting it. Staged frames stand in the queue of their session already, behind a mark, so placing them takes no
//! memory, and what is staged for a session stops where its queue would be too full. A message is encoded once for all
//! sessions that hear it by its name or by one pattern; what each of them costs beside is the copy of the frame.

ghost use Rattle.std.specs.Prelude.{◌≡◌, ◌∷◌, [], List, map, OnOk};
ghost use Rattle.fence_model.specs.Writes.{Write};
ghost use Rattle.world_model.specs.Halls.{Hall, apply_all};
ghost use Rattle.world_data.specs.declared.worlds.World.{World};
ghost use Rattle.delivery_model.specs.Staging.{HaveOwnNumbers, after_writes};
ghost use Rattle.session_table.specs.Sessions.{session_of};
ghost use Rattle.session_table.specs.Fans.{AreBrought, ArePlaced, AreBare, HaveStaged};

use crate::frames::Sending;
use crate::sessions::Session;
use byte_text::{Name, NoMemory, Text};
use std::alloc::Global;

/// Stages a message for each session that hears it. For want of memory some sessions may have it staged.
pub fn stage_message(
    alloc: Global,
    sessions: &mut Vec<Session>,
    name: &Name,
    payload: &Text,
) -> Result<(), NoMemory>
    ensures same { map session_of sessions.new.items ≡ map session_of sessions.old.items }
    ensures staged { OnOk result (AreBrought ((name.now, payload.now) ∷ []) sessions.old.items sessions.new.items) }
{
    let mut sending = Sending::new(alloc, name, payload);
    for i in 0..sessions.len() {
        sessions[i].stage_sent(&mut sending)?;
    }
    Ok(())
}

/// Places all that is staged, in order, and cuts each session that has no room. It takes no memory. Where what is
/// staged is what writes bring, the hall is then as the writes leave it.
pub fn place_staged(sessions: &mut Vec<Session>)
    ensures placed { ArePlaced sessions.old.items sessions.new.items }
    ensures hall { (h : Hall) (writes : List Write) → HaveOwnNumbers h.sessions
        → h.sessions ≡ map session_of sessions.old.items
        → HaveStaged h.world writes sessions.old.items
        → apply_all h writes ≡ after_writes h writes (map session_of sessions.new.items) }
{
    for i in 0..sessions.len() {
        sessions[i].place_staged();
    }
}

/// Lets all go that is staged.
pub fn unstage(sessions: &mut Vec<Session>)
    ensures same { map session_of sessions.new.items ≡ map session_of sessions.old.items }
    ensures bare { AreBare sessions.new.items }
{
    for i in 0..sessions.len() {
        sessions[i].unstage();
    }
}
