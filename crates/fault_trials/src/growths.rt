//! Memory is refused once in a call.

use tile_core::Growths;

/// Refuses memory when it is asked for this often, and no other time; never where the number is 0.
#[derive(Drop)]
pub(crate) struct RefuseNth {
    pub(crate) number: u64,
    pub(crate) asked: u64,
}

impl Growths for RefuseNth {
    fn allows(&mut self) -> bool {
        self.asked = self.asked.saturating_add(1);
        self.asked != self.number
    }
}

impl RefuseNth {
    /// Nothing was asked for yet.
    pub(crate) fn new(number: u64) -> RefuseNth {
        RefuseNth { number, asked: 0 }
    }
}
