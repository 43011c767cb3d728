//! Sums of what is counted in stretches. A sum that is no u64 is that of more than any memory has.

ghost use Rattle.std.specs.Prelude.{◌≡◌, ◌<◌, ◌+◌, length, IfOk, OnOk, slice_index};
ghost use Rattle.fence_backtest.specs.Telling.{AreAdded};

use byte_text::NoMemory;

/// The sum of two numbers.
pub(crate) fn sum_of(a: u64, b: u64) -> Result<u64, NoMemory>
    ensures { IfOk result (λ sum. sum ≡ a + b) }
{
    match a.checked_add(b) {
        Some(sum) => Ok(sum),
        None => Err(NoMemory),
    }
}

/// Adds to each number the one that stands at its place of others.
pub(crate) fn add_each(numbers: &mut [u64], others: &[u64]) -> Result<(), NoMemory>
    requires { length others.now ≡ length numbers.old }
    ensures { OnOk result (AreAdded numbers.old others.now numbers.new) }
{
    for at in 0..numbers.len() {
        let sum = sum_of(numbers[at], others[at])?;
        numbers[at] = sum;
    }
    Ok(())
}
