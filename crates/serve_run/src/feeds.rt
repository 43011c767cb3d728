//! What a loop feeds followers with: asks that are answered out of the log.

ghost use Rattle.std.specs.Prelude.{◌≡◌, ◌≤◌, ◌<◌, ℕ, Option, [], length, true, IfSome, MatchOption};
ghost use Rattle.std.specs.List.{list_all};
ghost use Rattle.world_model.specs.Outcomes.{is_proper};
ghost use Rattle.repl_stream.specs.Feeds.{called_of};
ghost use Rattle.session_run.specs.Sessions.{WantsTurn};
ghost use Rattle.serve_run.specs.Feeds.{FedBy};
ghost use Rattle.serve_run.specs.Steps.{asks_of, served_by};
ghost use Rattle.serve_run.specs.SessionSteps.{FeedsOn};
ghost use Rattle.serve_run.specs.Tends.{IsTold};

use crate::terms::Terms;
use outside::ReadyLink;
use repl_stream::{Ask, FeedApi, PartAnswer, PartBytes, ask_of};
use session_run::Session;
use std::sync::Wait;
use world_model::{Answers, Asked, AskedList, CallOutcome};

/// The ask that is the only one of these requests.
pub(crate) fn ask_in(asked: &AskedList) -> Option<Ask>
    ensures { IfSome result (λ ask. asked.now ≡ asks_of ask) }
{
    if asked.len() != 1 {
        return None;
    }
    match asked.at(0) {
        Asked::Words(request) => ask_of(request),
        Asked::Broken(_) => None,
    }
}

// How the one request of a turn was answered.
fn answers_of(answer: PartAnswer) -> Answers
    ensures served { result.served ≡ served_by answer }
    ensures end { result.end ≡ called_of answer }
{
    let (served, end) = match answer {
        PartAnswer::Given(_) => (1, CallOutcome::Ok),
        PartAnswer::LogFault => (0, CallOutcome::LogFault),
        PartAnswer::Stopped => (0, CallOutcome::Stopped),
        PartAnswer::Memory => (0, CallOutcome::Memory),
    };
    Answers { served, end }
}

/// Answers an ask out of the log, the one request of a session's turn, and gives the session the part. Whether there
/// was one.
pub(crate) fn feed<H: FeedApi, K: ReadyLink + Drop, R: Wait>(
    rt: &R,
    hall: &H,
    seat: &mut H::Seat,
    session: &mut Session<K>,
    asked: AskedList,
    ask: Ask,
    into: PartBytes,
    terms: Terms,
) -> (bool, PartBytes)
    requires seat { H.HallApi.is_of hall.now seat.old }
    requires moved { session.old.asked ≡ [] }
    requires ready { WantsTurn (record session.old { asked = asked }) }
    requires ask { asked ≡ asks_of ask }
    requires few { length asked ≤ 64 }
    requires proper { list_all is_proper asked ≡ true }
    requires allowed { 0 < terms.followers }
    ensures seat { H.HallApi.is_of hall.now seat.new }
    ensures steps { (told : Option ℕ) → (moment : ℕ) → IsTold told moment
        → FeedsOn (FedBy (H.answers hall.now) terms) told (H.HallApi.knows seat.old) (H.HallApi.knows seat.new)
        (record session.old { asked = asked }) session.new }
{
    let (answer, into) = hall.log_part(rt, seat, ask, into);
    session.on_answered(asked, answers_of(answer));
    match answer {
        PartAnswer::Given(part) => {
            session.on_part(&part, into.bytes());
            (true, into)
        }
        _ => (false, into),
    }
}
