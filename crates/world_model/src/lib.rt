//! The definitions of the machine: commands, effects, replies, halls, steps and histories. The data that it works on is
//! `world_data`'s, and is given out again here.
//!
//! Scaffolding of the grammar (`FormLaws`, `MadeForms`, `PrefixLaws`, `SoundLaws`, `TableParts`) stands here in files
//! of its own, since the reader of words, the machine's laws, the log's records and the core cite it.
#![tactic(auto)]

mod asked_lists;
mod channel_commands;
mod commands;
mod events;
mod faults;
mod halls;
mod laws;
mod object_commands;
mod search_commands;
mod session_commands;
mod touched;

pub use asked_lists::{AskedList, MOST_ASKED};
pub use channel_commands::ChannelCommand;
pub use commands::Command;
pub use events::{
    Answers, Asked, CallOutcome, EnterFault, Entry, Event, LogState, Opening, Outcome, Taken,
};
pub use faults::{Refusal, WordFault};
pub use halls::{HallApi, HallSplit};
pub use laws::{command_laws, step_laws};
pub use object_commands::{ObjectCommand, Only};
pub use search_commands::{AreaWords, SearchCommand};
pub use session_commands::SessionCommand;
pub use touched::ChangedSessions;
pub use world_data::{
    Change, Channel, Channels, Detect, Fence, Fields, Frames, Kind, NameList, Object, Objects,
    Page, Query, Raised, Rule, Shown, TAKE, Test, Tests, Value, Values, Wanted, Watch, World,
    world_laws,
};
