//! Patterns of names: `*`, `?`, classes and escapes, over Unicode characters.
#![tactic(auto)]

mod classes;
mod matches;
mod signs;
mod tokens;

pub use matches::{glob_meets, well_formed};
