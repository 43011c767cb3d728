//! Laws of worlds. Each is the contract of a function that does nothing.

ghost use Rattle.world_data.specs.Laws.{ChangesKeepOrder, ChangesKeepSoundness};

/// A change keeps a world in order and without doubles, and one that brings what is sound keeps a world sound.
pub fn world_laws()
    ensures sorted { ChangesKeepOrder }
    ensures sound { ChangesKeepSoundness }
{}
