//! Laws of the definitions. Each is the contract of a function that does nothing.

ghost use Rattle.world_model.specs.Laws.{BeginningsAreOpen, SpellingsAreOpen, SpellingsAreSound, StopsThere};
ghost use Rattle.world_model.specs.Laws.{WordsHaveOneAnswer, StoppedStays, StepsLeadToOne, StepsAreDetermined};
ghost use Rattle.world_model.specs.Laws.{OthersArePlacedOn};

/// A stopped hall changes in nothing; an event and its outcome leave at most one hall behind; outcomes that are not
/// free are determined; and no event changes a session that it is not about but by placing frames on it.
pub fn step_laws()
    ensures stays { StoppedStays }
    ensures one { StepsLeadToOne }
    ensures determined { StepsAreDetermined }
    ensures others { OthersArePlacedOn }
{}

/// A list of words spells one command or is refused with one fault; what is open, where a list stops to be; and what
/// is spelled is sound.
pub fn command_laws()
    ensures answer { WordsHaveOneAnswer }
    ensures beginnings { BeginningsAreOpen }
    ensures spellings { SpellingsAreOpen }
    ensures stops { StopsThere }
    ensures sound { SpellingsAreSound }
{}
