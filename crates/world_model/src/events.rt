//! What may happen to a hall, and how each call answers.
//!
//! A call takes what was read, not bytes: a request, or the fault that ended the reading. Reading bytes is the work of
//! `resp_frames`.

use byte_text::{Request, RespFault, Text};
use std::collections::LinkedList;
use world_data::World;

/// What a session asks for: the words of a request, or the end that its broken protocol brings.
#[derive(Drop)]
pub enum Asked {
    Words(Request),
    Broken(RespFault),
}

/// How a call, a tick or a step of rewriting ended.
#[derive(Clone, Copy, Debug, PartialEq, Eq)]
pub enum CallOutcome {
    Ok,
    /// The session has too many frames, or bytes of frames, that it has not taken.
    Full,
    /// No session of this number is served.
    Gone,
    /// The log could not be written; the hall has stopped.
    LogFault,
    /// The hall had stopped before.
    Stopped,
    /// The log has come to its greatest length.
    Spent,
    /// Memory ran out; nothing has changed.
    Memory,
}

/// How a take ended.
#[derive(Clone, Copy, Debug, PartialEq, Eq)]
pub enum Taken {
    /// So many frames were given.
    Some(usize),
    /// There is no frame now.
    Empty,
    /// There is no session of this number any more, and no frame of it.
    Ended,
    /// The log could not be written; the hall has stopped.
    LogFault,
    /// The hall had stopped before.
    Stopped,
}

/// Why no session was entered.
#[derive(Clone, Copy, Debug, PartialEq, Eq)]
pub enum EnterFault {
    /// As many sessions are present as may be, or all numbers were given out.
    TooMany,
    /// The hall had stopped before.
    Stopped,
    /// Memory ran out; nothing has changed.
    Memory,
}

/// How the calls of one turn ended.
#[derive(Clone, Copy, Debug, PartialEq, Eq)]
pub struct Answers {
    /// How many of them were answered Ok, from the first on.
    pub served: usize,
    /// Ok where that is all of them, else the answer to the next one, behind which none was made.
    pub end: CallOutcome,
}

/// What a step of rewriting tells of the log beside its answer, for whoever makes the steps. No clause hangs on it.
#[derive(Clone, Copy, Debug, PartialEq, Eq)]
pub struct LogState {
    /// How many bytes the side in use has.
    pub bytes: u64,
    /// Whether the log is rewritten by the steps to come.
    pub is_rewriting: bool,
}

/// What may happen to a hall. No value of it is ever made.
#[derive(Drop)]
pub enum Event {
    Enter,
    /// A session, a moment, what is asked.
    Call(u32, u64, Asked),
    Take(u32),
    Tick(u64),
    Close(u32),
    Remove(u32),
    Rewrite,
    Retire,
}

/// How an event ended. No value of it is ever made.
#[derive(Drop)]
pub enum Outcome {
    Done,
    Entered(u32),
    TooMany,
    Answered(CallOutcome),
    /// The frames of a take.
    Given(LinkedList<Text>),
    Empty,
    Ended,
}

/// An event with its outcome, a note, and the disk's moment and count of faults at its end. The note of an event that
/// is no Rewrite is empty. No value of it is ever made.
#[derive(Drop)]
pub struct Entry {
    pub event: Event,
    pub outcome: Outcome,
    pub note: Text,
    pub moment: u64,
    pub count: u64,
}

/// The world, the log's length, and the disk's moment and count of faults with which a history opens. No value of it is
/// ever made.
#[derive(Drop)]
pub struct Opening {
    pub world: World,
    pub logged: u64,
    pub moment: u64,
    pub count: u64,
}
