//! Leave to take memory. A call asks for it before each of its steps that may take memory, so that want of memory can
//! be tried at each of them.

use byte_text::NoMemory;

/// Who lets a call take memory, or refuses it.
pub trait Growths {
    /// Whether the next step of a call may take memory. One that may not ends as where memory is wanted. It is asked
    /// before each such step, also where that finds nothing to do; last before the records are handed to the ledger.
    fn allows(&mut self) -> bool;
}

/// Memory is wanted only where there is none.
#[derive(Drop)]
pub struct Ample;

impl Growths for Ample {
    fn allows(&mut self) -> bool {
        true
    }
}

/// Asks for a step that may take memory.
pub(crate) fn grown<G: Growths>(growths: &mut G) -> Result<(), NoMemory> {
    if growths.allows() {
        Ok(())
    } else {
        Err(NoMemory)
    }
}
