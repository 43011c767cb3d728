//! Sessions that leave the hall.
//!
//! A session whose calls have set the channel of its live fence leaves that channel behind. So the server asks for its
//! deletion, by a session of its own, as a caller would.

ghost use Rattle.std.specs.Prelude.{◌≡◌, ◌≤◌, ◌∷◌, [], ℕ, Option, IfOk};
ghost use Rattle.world_data.specs.Limits.{max_moment};
ghost use Rattle.world_model.specs.declared.events.Asked.TheVariants as asks_for;
ghost use Rattle.live_fence.specs.LiveFences.{end_request};
ghost use Rattle.serve_run.specs.Tends.{IsTold};
ghost use Rattle.serve_run.specs.SessionSteps.{Unfences, RemovesTo};

use crate::marks::AllMarks;
use crate::shrinks::shrink_end;
use crate::tends::ServeEnd;
use byte_text::NoMemory;
use live_fence::live_end;
use outside::ReadyLink;
use session_run::Session;
use std::alloc::Global;
use std::sync::Wait;
use world_model::{Asked, AskedList, ChangedSessions, HallApi};

// What asks that the channel of a session be deleted, in one turn.
fn asked(alloc: Global, gone: u32) -> Result<AskedList, NoMemory>
    ensures { IfOk result (λ a. a ≡ asks_for.Words (end_request gone) ∷ []) }
{
    let request = live_end(alloc, gone)?;
    let mut asked = AskedList::new(alloc);
    match asked.push(Asked::Words(request)) {
        Ok(()) => Ok(asked),
        Err(_) => Err(NoMemory),
    }
}

// Asks at a moment that the channel of a session that is gone be deleted. The end that this brings, and the sessions that
// were touched.
fn unfence<H: HallApi, R: Wait>(
    rt: &R,
    alloc: Global,
    hall: &H,
    seat: &mut H::Seat,
    moment: u64,
    gone: u32,
    touched: ChangedSessions,
) -> (Option<ServeEnd>, ChangedSessions)
    requires seat { H.is_of hall.now seat.old }
    requires moment { moment ≤ max_moment }
    ensures seat { H.is_of hall.now seat.new }
    ensures unfences { (told : Option ℕ) → IsTold told moment
        → Unfences told gone (H.knows seat.old) (H.knows seat.new) result.0 }
{
    let Ok(asked) = asked(alloc, gone) else {
        return (None, touched);
    };
    let Ok(session) = hall.enter(rt, seat) else {
        return (None, touched);
    };
    let (answers, asked, touched) = hall.calls(rt, seat, session, moment, asked, touched);
    drop(asked);
    hall.remove(rt, seat, session);
    (shrink_end(answers.end), touched)
}

/// Removes a session from the hall, also where the hall has done so with its last frame; and where its calls have set the
/// channel of its live fence, asks for the deletion of that. The end that this brings, and the sessions that were
/// touched.
pub(crate) fn remove<H: HallApi, K: ReadyLink + Drop, R: Wait>(
    rt: &R,
    alloc: Global,
    hall: &H,
    seat: &mut H::Seat,
    moment: u64,
    session: &Session<K>,
    all: &mut AllMarks,
    touched: ChangedSessions,
) -> (Option<ServeEnd>, ChangedSessions)
    requires seat { H.is_of hall.now seat.old }
    requires moment { moment ≤ max_moment }
    ensures seat { H.is_of hall.now seat.new }
    ensures removes { (told : Option ℕ) → IsTold told moment
        → RemovesTo told (H.knows seat.old) (H.knows seat.new) session.now result.0 }
{
    hall.remove(rt, seat, session.number());
    if !session.is_fenced() {
        return (None, touched);
    }
    let (end, touched) = unfence(rt, alloc, hall, seat, moment, session.number(), touched);
    all.touch(&touched);
    all.is_busy = true;
    (end, touched)
}
