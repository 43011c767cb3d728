//! Where something was found last.

use std::sync::atomic::{AtomicUsize, Ordering};

/// The place where something was found last, at which a command that comes back to it looks first: it looks an object up
/// to plan a change, and again to tell of it and to make it. It promises nothing, so no contract speaks of it.
#[derive(Drop)]
pub struct Hint {
    place: AtomicUsize,
}

impl Hint {
    /// Nothing was found so far.
    pub fn new() -> Hint {
        Hint {
            place: AtomicUsize::new(0),
        }
    }

    /// Where something was found last.
    pub fn place(&self) -> usize {
        self.place.load(Ordering::Relaxed)
    }

    /// Something was found at this place.
    pub fn note(&self, place: usize) {
        self.place.store(place, Ordering::Relaxed);
    }
}
