//! A log is rewritten: a new side is written beside the one in use, piece by piece, and is not open until it is whole.
#![tactic(auto)]

mod rewriters;
mod writes;

pub use rewriters::{NewSide, Rewriter};
