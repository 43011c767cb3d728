//! A list of numbers in which a number is put in or taken out at any place without moving all behind it.
#![tactic(auto)]

mod ends;
mod large;
mod lists;
mod numbers;
mod runs;
mod searches;
mod store;
mod sweeps;
mod walks;

pub use lists::RunList;
pub use numbers::Numbers;
pub use searches::Before;
