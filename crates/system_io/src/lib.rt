//! The real things that stand outside of the program: standard input and output, files, the system's clock, and
//! sockets that never block with one that waits for them. They tell nothing of their content, and count their failures.
#![tactic(auto)]

mod alive;
mod dials;
mod doors;
mod folder_disks;
mod guests;
mod inputs;
mod lines;
mod links;
mod listeners;
mod lobbies;
mod positioned;
mod standard_streams;
mod streams;
mod waits;
mod wall_clocks;

pub use doors::PollDoor;
pub use folder_disks::FolderDisk;
pub use links::PollLink;
pub use positioned::{Positioned, read_whole, write_whole};
pub use standard_streams::{StdinSource, StdoutSink};
pub use waits::{PollWait, PollWaker};
pub use wall_clocks::WallClock;
