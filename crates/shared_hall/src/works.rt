//! What is asked of the hall in one turn, and what is answered.

ghost use Rattle.std.specs.Prelude.{◌≡◌, ◌≤◌, [], true};
ghost use Rattle.std.specs.List.{list_all};
ghost use Rattle.world_data.specs.Limits.{max_moment, take_frames};
ghost use Rattle.world_model.specs.Outcomes.{is_proper};

use repl_stream::{Ask, PartAnswer, PartBytes};
use world_model::{
    Answers, AskedList, CallOutcome, ChangedSessions, EnterFault, Frames, LogState, Taken,
};

/// What a session asks for at a moment, and where the sessions are named that it changes.
#[derive(Drop)]
pub struct Asking {
    pub session: u32,
    pub moment: u64,
    pub asked: AskedList,
    pub touched: ChangedSessions,
    ghost early: { moment ≤ max_moment },
    ghost proper: { list_all is_proper asked ≡ true },
}

/// A take of a session's frames into these places.
#[derive(Drop)]
pub struct Taking {
    pub session: u32,
    pub into: Frames,
    ghost bare: { into ≡ record { list = []; places = take_frames } },
}

/// A moment that the clock goes on to, and where the sessions are named that this changes.
#[derive(Drop)]
pub struct Ticking {
    pub moment: u64,
    pub touched: ChangedSessions,
    ghost early: { moment ≤ max_moment },
}

/// What a follower asks for, and the place for the bytes that it is given.
#[derive(Drop)]
pub struct AskingPart {
    pub ask: Ask,
    pub into: PartBytes,
}

/// One call of the hall.
#[derive(Drop)]
pub enum HallWork {
    Enter,
    Call(Asking),
    Take(Taking),
    Tick(Ticking),
    Close(u32),
    Remove(u32),
    StepRewrite,
    Part(AskingPart),
    Retire,
}

/// The answer to a call. What the work had brought goes back with it.
#[derive(Drop)]
pub enum HallAnswer<D> {
    Entered(Result<u32, EnterFault>),
    Called(Answers, AskedList, ChangedSessions),
    Taken(Taken, Frames),
    Ticked(CallOutcome, ChangedSessions),
    /// How a step of rewriting ended, and how large the log is then.
    Rewrote(CallOutcome, LogState),
    /// What an ask was answered out of the log.
    Parted(PartAnswer, PartBytes),
    /// The disk, where it was in, and how the retirement ended.
    Retired(Option<(D, CallOutcome)>),
    Done,
}
