//! The Tick and the Rewrites behind it. A step of rewriting copies at most 256 items. One that is not answered Ok ends
//! the loop, but for one that wanted memory: it is tried again for a while.

ghost use Rattle.std.specs.Prelude.{◌≡◌, ◌≤◌};
ghost use Rattle.world_data.specs.Limits.{max_moment};
ghost use Rattle.serve_run.specs.Tends.{AreFew, Tends, Rewritten, serve_end};

use std::sync::Wait;
use world_model::{CallOutcome, ChangedSessions, HallApi, LogState};

/// How the loop of a server ended.
#[derive(Clone, Copy, Debug, PartialEq, Eq)]
pub enum ServeEnd {
    /// The door told that no caller will come, or as many came as are served, or the end was asked for; and all links
    /// are through.
    Done,
    /// The door failed, or the one that waits.
    DoorFault,
    /// The hall has stopped.
    Stopped,
    /// The log has come to its greatest length.
    Spent,
    /// Memory ran out, here or in the hall.
    Memory,
}

/// What the loop of a server did.
#[derive(Clone, Copy, Debug, PartialEq, Eq)]
pub struct Served {
    /// How many callers came.
    pub joined: u32,
    /// How many sessions were removed for want of memory.
    pub starved: u32,
    /// Why it ended.
    pub end: ServeEnd,
}

// The end that the answer to a Tick or Rewrite brings.
fn serve_end(answer: CallOutcome) -> Option<ServeEnd>
    ensures { result ≡ serve_end answer }
{
    match answer {
        CallOutcome::Ok => None,
        CallOutcome::LogFault | CallOutcome::Stopped => Some(ServeEnd::Stopped),
        CallOutcome::Spent => Some(ServeEnd::Spent),
        CallOutcome::Full | CallOutcome::Gone | CallOutcome::Memory => Some(ServeEnd::Memory),
    }
}

// Makes the Rewrites that stand behind a Tick: so many as long as the log is rewritten, else one, which commits what is
// pending; or those up to the first that brings an end. What the last one told of the log, or that end.
fn step_rewrites<H: HallApi, R: Wait>(
    rt: &R,
    hall: &H,
    seat: &mut H::Seat,
    steps: u32,
) -> Result<LogState, ServeEnd>
    requires seat { H.is_of hall.now seat.old }
    requires few { AreFew steps }
    ensures seat { H.is_of hall.now seat.new }
    ensures rewritten { Rewritten (H.knows seat.old) (H.knows seat.new) result }
{
    let mut log = LogState {
        bytes: 0,
        is_rewriting: false,
    };
    for _ in 0..steps {
        let (rewritten, told) = hall.step_rewrite(rt, seat);
        if let Some(end) = serve_end(rewritten) {
            return Err(end);
        }
        log = told;
        if !told.is_rewriting {
            return Ok(log);
        }
    }
    Ok(log)
}

/// Makes a Tick at a moment and Rewrites behind it, up to so many. What the last one told of the log, or the end that an
/// answer brings, which is `Memory` where one of them wanted memory.
pub(crate) fn tick_and_rewrite<H: HallApi, R: Wait>(
    rt: &R,
    hall: &H,
    seat: &mut H::Seat,
    moment: u64,
    steps: u32,
    touched: ChangedSessions,
) -> (Result<LogState, ServeEnd>, ChangedSessions)
    requires seat { H.is_of hall.now seat.old }
    requires moment { moment ≤ max_moment }
    requires few { AreFew steps }
    ensures seat { H.is_of hall.now seat.new }
    ensures tends { Tends moment (H.knows seat.old) (H.knows seat.new) result.0 }
{
    let (ticked, touched) = hall.tick(rt, seat, moment, touched);
    match serve_end(ticked) {
        Some(end) => (Err(end), touched),
        None => (step_rewrites(rt, hall, seat, steps), touched),
    }
}
