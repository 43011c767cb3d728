//! The tests on fields that options give.

ghost use Rattle.std.specs.Prelude.{◌≡◌, ◌∷◌, [], ◌++◌, IfErr, OnOk};

use crate::faults::CommandFault;
use world_model::{Test, Tests};

/// One more test, behind the others.
pub(crate) fn push_test(tests: &mut Tests, test: Test) -> Result<(), CommandFault>
    ensures ok { OnOk result (tests.new ≡ tests.old ++ test ∷ []) }
    ensures err { IfErr result (λ why. why ≡ CommandFault.Memory) }
{
    match tests.push(test) {
        Ok(()) => Ok(()),
        Err(_) => Err(CommandFault::Memory),
    }
}
