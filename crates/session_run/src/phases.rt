//! How far a session is.

ghost use Rattle.std.specs.Prelude.{◌≡◌};
ghost use Rattle.session_run.specs.Ends.{end_of};

use crate::ends::InEnd;
use world_model::CallOutcome;

/// How far the asking of a session's requests is.
#[derive(Clone, Copy, Debug, PartialEq, Eq)]
pub enum Asking {
    /// They are read and asked.
    Open,
    /// The bytes went on as no request: the end that this brings is asked last, and nothing more is read.
    Breaking,
    /// Nothing more is read or asked.
    Ended(InEnd),
}

/// How the taking of a session's frames ended.
#[derive(Clone, Copy, Debug, PartialEq, Eq)]
pub enum TakeEnd {
    /// The session is gone, and all its frames were taken.
    Ended,
    /// The link failed.
    WriteFault,
    /// The log could not be written; the hall has stopped.
    LogFault,
    /// The hall had stopped before.
    Stopped,
    /// Memory ran out, and frames that were taken are lost.
    Memory,
    /// The link was cut by the server, as it took too long; what was to be written is lost.
    Late,
}

/// The end that a call's answer brings.
pub(crate) fn end_of(answer: CallOutcome) -> Option<InEnd>
    ensures { result ≡ end_of answer }
{
    match answer {
        CallOutcome::Ok | CallOutcome::Full => None,
        CallOutcome::Gone => Some(InEnd::ClosedByHall),
        CallOutcome::LogFault => Some(InEnd::LogFault),
        CallOutcome::Stopped => Some(InEnd::Stopped),
        CallOutcome::Spent => Some(InEnd::Spent),
        CallOutcome::Memory => Some(InEnd::Memory),
    }
}
