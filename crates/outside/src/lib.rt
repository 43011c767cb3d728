//! What stands outside of the program, as traits: where bytes come from and go to, a disk that may crash, and links that
//! never block with the door they come through and one that waits for them, each with a count of its faults. The forms
//! in memory stand beside them. That somebody is named ready promises nothing.
#![tactic(auto)]

mod clocks;
mod crash_images;
mod disk_calls;
mod disk_contents;
mod disks;
mod doors;
mod durable_writes;
mod failures;
mod links;
mod memory_disks;
mod memory_streams;
mod plain_disks;
mod scripted_doors;
mod scripted_links;
mod scripted_waits;
mod sides;
mod streams;
#[cfg(test)]
mod tests;
mod waits;
mod writes;

pub use clocks::{Clock, HandClock, MAX_MOMENT};
pub use disks::Disk;
pub use doors::{Caller, Kinds, OpenPort, Port, ReadyDoor};
pub use durable_writes::write_durably;
pub use failures::Failed;
pub use links::{Got, ReadyLink, Sent};
pub use memory::NoMemory;
pub use memory_disks::MemoryDisk;
pub use memory_streams::{BytesSink, BytesSource};
pub use plain_disks::PlainDisk;
pub use scripted_doors::{DoorScript, ScriptedDoor, Visit};
pub use scripted_links::{CallerScript, Move, ScriptedLink};
pub use scripted_waits::{CountingWaker, ScriptedWait};
pub use sides::Side;
pub use streams::{Sink, Source};
pub use waits::{Named, WaitForLinks, Wake};
pub use writes::write_all;
