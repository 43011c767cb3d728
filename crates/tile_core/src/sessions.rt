//! The sessions that are present, in the order of their numbers.
//!
//! A session with 1024 waiting frames, or 2097152 bytes of them, is answered `Full`, and its request is dropped.

ghost use Rattle.std.specs.Prelude.{◌≡◌, ◌<◌, true, length, nat_lt, IfSome, IfNone};
ghost use Rattle.tile_core.specs.Sessions.{IsAt, IsServed, AreOthers, are_rising};

use session_table::Session;
use world_model::CallOutcome;

/// Where the session of this number stands, found by halving, as their numbers rise.
pub(crate) fn position_of(sessions: &[Session], number: u32) -> Option<usize>
    requires { are_rising sessions.now ≡ true }
    ensures found { IfSome result (λ i. IsAt sessions.now number i) }
    ensures within { IfSome result (λ i. i < length sessions.now) }
    ensures absent { IfNone result (AreOthers number sessions.now) }
{
    let at = sessions.partition_point(
        |session: &Session| -> bool
            ensures { result ≡ nat_lt session.now.number number }
        { session.number() < number },
    );
    if at == sessions.len() {
        return None;
    }
    if sessions[at].number() == number {
        Some(at)
    } else {
        None
    }
}

/// Where the session stands that may make a call now; else how the call is answered: it is gone, or full.
pub(crate) fn served(sessions: &[Session], number: u32) -> Result<usize, CallOutcome>
    requires { are_rising sessions.now ≡ true }
    ensures { IsServed sessions.now number result }
{
    let Some(at) = position_of(sessions, number) else {
        return Err(CallOutcome::Gone);
    };
    if !sessions[at].is_live() {
        return Err(CallOutcome::Gone);
    }
    if sessions[at].is_full() {
        return Err(CallOutcome::Full);
    }
    Ok(at)
}
