//! The data of the machine: objects, fields, channels, queries, worlds and their changes, with the limits that they
//! keep to.
#![tactic(auto)]

mod channels;
mod copies;
mod fields;
mod filters;
mod frames;
mod laws;
mod limits;
mod lists;
mod objects;
mod queries;
mod values;
mod worlds;

pub use channels::{Channel, Channels, Detect, Fence, Kind, Raised, Wanted, Watch};
pub use fields::Fields;
pub use filters::{Test, Tests};
pub use frames::Frames;
pub use laws::world_laws;
pub use limits::{
    CAP_BYTES, CAP_FRAMES, FULL_BYTES, FULL_FRAMES, MAX_CHANNELS, MAX_FIELDS, MAX_LIMIT,
    MAX_METERS, MAX_MOMENT, MAX_OBJECTS, MAX_REPLY, MAX_SECONDS, MAX_SESSIONS, MAX_SUBS, MAX_TESTS,
    MAX_VALUES, MAX_WEIGHT, MOST_DRAWN, MOST_LOGGED, TAKE,
};
pub use lists::{NameList, Values};
pub use objects::{Object, Objects};
pub use queries::{Page, Query, Rule, Shown};
pub use values::Value;
pub use worlds::{Change, World};
