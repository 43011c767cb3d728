//! Laws of the definitions. Each is the contract of a function that does nothing.

ghost use Rattle.work_gen.specs.Outs.{LoadOutsAreOne};

use world_model::step_laws;

/// A number of commands and a seed have at most one text of a summary: the steps of the machine decide it.
pub fn load_laws()
    ensures one { LoadOutsAreOne }
{
    step_laws();
}
