//! Laws of what is staged in turn: each is what a function that does nothing ensures.

ghost use Rattle.message_fanout.specs.Laws.{NothingAtFirst, NothingWithoutChannels, QuietBringsNothing};

/// What writes bring is staged write by write: nothing before the first, and nothing at a silent one, or where there
/// are no channels.
pub fn turn_laws()
    ensures first { NothingAtFirst }
    ensures silent { QuietBringsNothing }
    ensures channels { NothingWithoutChannels }
{}
