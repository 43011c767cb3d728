//! A lock whose turns form one history.
//!
//! A [`TurnLock`] holds one value. Who wants something done with the value takes a turn with a [`Seat`] and hands in a
//! work ([`Turned::Work`]). Where the lock is free it does the work itself, and then what others have posted meanwhile;
//! else it posts its own work and waits until whoever has the lock has done it. Each work adds one entry to the history
//! that the value stands for ([`Turned`]), and a seat knows a beginning of that history and which of its entries are
//! its own ([`Known`]). `docs/LOCK.md` explains both.
#![tactic(auto)]

mod combine;
mod lock;
mod seat;
mod sleepers;
mod steps;
mod tells;
mod turned;

pub use lock::TurnLock;
pub use seat::{Hand, Held, Known, Post, Seat, Stage, View};
pub use turned::{Out, Turned, Work};
