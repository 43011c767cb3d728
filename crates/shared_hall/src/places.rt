//! The core that takes turns, while its disk is in and behind that.
//!
//! What stays in the lock when the disk was given out remembers it for contracts alone, so that later entries keep its
//! moment.

use durable_core::DurableCore;
use std::snapshot::Snapshot;
use world_model::Opening;

/// Where the core is.
#[derive(Drop)]
pub enum Place<D> {
    Inside(DurableCore<D>),
    /// It was retired, and its disk was given out. What it was then is there for clauses alone.
    Out(Snapshot<DurableCore<D>>),
}

/// A core that takes turns. It is as the entries of its history, from the opening on, leave it.
#[derive(Drop)]
pub struct HallCore<D> {
    pub(crate) place: Place<D>,
    // What it was before its last act.
    pub(crate) before: Snapshot<Place<D>>,
    // The disk as it was before it was opened.
    pub(crate) handed: Snapshot<D>,
}

/// The opening of a hall's history, the disk as it was before it was opened, and the core as its opening gave it. No
/// value of it is ever made.
#[derive(Drop)]
pub struct Begun<D> {
    pub opening: Opening,
    pub disk: D,
    pub core: DurableCore<D>,
}
