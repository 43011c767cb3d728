//! A log that has grown is rewritten: a session of the server's own asks for it, as a caller would.

ghost use Rattle.std.specs.Prelude.{◌≡◌, ◌≤◌, ◌∷◌, [], ℕ, Option, IfOk};
ghost use Rattle.world_data.specs.Limits.{max_moment};
ghost use Rattle.world_model.specs.declared.events.Asked.TheVariants as asks_for;
ghost use Rattle.serve_run.specs.declared.tendings.Tending.{Tending};
ghost use Rattle.serve_run.specs.declared.terms.Terms.{Terms};
ghost use Rattle.serve_run.specs.Pacing.{HasGrown};
ghost use Rattle.serve_run.specs.Tends.{IsTold, Shrinks, shrink_end, shrink_words};

use crate::paces::Pace;
use crate::tends::ServeEnd;
use crate::terms::Terms;
use byte_text::{NoMemory, Request};
use std::alloc::Global;
use std::sync::Wait;
use world_model::{Asked, AskedList, CallOutcome, ChangedSessions, HallApi};

/// The end that the answer brings to what a session of the server's own asked. Where that was in vain, the loop goes on.
pub(crate) fn shrink_end(answer: CallOutcome) -> Option<ServeEnd>
    ensures { result ≡ shrink_end answer }
{
    match answer {
        CallOutcome::LogFault | CallOutcome::Stopped => Some(ServeEnd::Stopped),
        CallOutcome::Spent => Some(ServeEnd::Spent),
        _ => None,
    }
}

// The request that asks for the log to be rewritten.
fn request(alloc: Global) -> Result<Request, NoMemory>
    ensures { IfOk result (λ r. r ≡ shrink_words) }
{
    let mut request = Request::new(alloc);
    request.push(b"AOFSHRINK")?;
    Ok(request)
}

// The same, as what is asked in one turn.
fn asked(alloc: Global) -> Result<AskedList, NoMemory>
    ensures { IfOk result (λ a. a ≡ asks_for.Words shrink_words ∷ []) }
{
    let request = request(alloc)?;
    let mut asked = AskedList::new(alloc);
    match asked.push(Asked::Words(request)) {
        Ok(()) => Ok(asked),
        Err(_) => Err(NoMemory),
    }
}

// Asks at a moment that the log be rewritten. The end that this brings, and the sessions that were touched.
fn shrink<H: HallApi, R: Wait>(
    rt: &R,
    alloc: Global,
    hall: &H,
    seat: &mut H::Seat,
    moment: u64,
    touched: ChangedSessions,
) -> (Option<ServeEnd>, ChangedSessions)
    requires seat { H.is_of hall.now seat.old }
    requires moment { moment ≤ max_moment }
    ensures seat { H.is_of hall.now seat.new }
    ensures shrinks { (told : Option ℕ) → (terms : Terms) → (t : Tending) → IsTold told moment → HasGrown terms t
        → Shrinks told terms t (H.knows seat.old) (H.knows seat.new) result.0 }
{
    let Ok(asked) = asked(alloc) else {
        return (None, touched);
    };
    let Ok(session) = hall.enter(rt, seat) else {
        return (None, touched);
    };
    let (answers, asked, touched) = hall.calls(rt, seat, session, moment, asked, touched);
    drop(asked);
    hall.remove(rt, seat, session);
    (shrink_end(answers.end), touched)
}

/// The same, where the log has grown.
pub(crate) fn shrink_if_due<H: HallApi, R: Wait>(
    rt: &R,
    alloc: Global,
    hall: &H,
    seat: &mut H::Seat,
    moment: u64,
    pace: &mut Pace,
    terms: Terms,
    touched: ChangedSessions,
) -> (Option<ServeEnd>, ChangedSessions)
    requires seat { H.is_of hall.now seat.old }
    requires moment { moment ≤ max_moment }
    ensures seat { H.is_of hall.now seat.new }
    ensures shrinks { (told : Option ℕ) → IsTold told moment
        → Shrinks told terms pace.old.tending (H.knows seat.old) (H.knows seat.new) result.0 }
    ensures same { pace.new.tending ≡ pace.old.tending }
{
    if !pace.is_shrink_due(moment, terms) {
        return (None, touched);
    }
    shrink(rt, alloc, hall, seat, moment, touched)
}
