//! Laws of the machine that no code makes use of. Each is the contract of a function that does nothing.

ghost use Rattle.worked_examples.specs.Openings.{OpenIsBegun};
ghost use Rattle.worked_examples.specs.Outcomes.{EventsDetermineOutcomes};
ghost use Rattle.worked_examples.specs.Weights.{WeightIsCounted};

use world_model::step_laws;

/// A change adds the record that it puts or sets, and takes away the records of what it replaces or deletes.
pub fn weight_laws()
    ensures { WeightIsCounted }
{}

/// Every open list of words is the beginning of a spelling.
pub fn opening_laws()
    ensures { OpenIsBegun }
{}

/// The outcomes of a history, and the hall that it reaches, follow from its opening and its events, where the log does
/// not fail and no memory is wanted.
pub fn outcome_laws()
    ensures { EventsDetermineOutcomes }
{
    step_laws();
}
