//! Places by a test.

ghost use Rattle.std.specs.Prelude.{◌≡◌, ◌<◌, ◌≤◌, ◌-◌, ℕ, Bool, [], true, false, not, length, take, drop, slice_index};
ghost use Rattle.std.specs.Prelude.{slice_index_or};
ghost use Rattle.std.specs.List.{list_all};
ghost use Rattle.run_list.specs.Runs.{is_cut, AreFilled};

use crate::ends::before;
use crate::large::LargeList;
use crate::runs::Run;

/// A test of numbers.
pub trait Before {
    /// Whether a number passes it.
    ghost before: { Self → ℕ → Bool };

    /// Whether a number passes it.
    fn is_before(&self, number: usize) -> bool
        ensures { result ≡ before self.now number };
}

impl LargeList {
    /// How many numbers pass a test that those in front pass alone.
    pub(crate) fn place_of<B: Before>(&self, test: &B) -> usize
        requires { is_cut (B.before test.now) self.now.items ≡ true }
        ensures within { result ≤ length self.now.items }
        ensures front { list_all (B.before test.now) (take result self.now.items) ≡ true }
        ensures behind { list_all (λ x. not (B.before test.now x)) (drop result self.now.items) ≡ true }
    {
        let next = runs_before(self.runs.as_slice(), test);
        if next == 0 {
            return 0;
        }
        let run = &self.runs[next - 1];
        let front = before(self.ends.as_slice(), next - 1);
        front + numbers_before(run.numbers(), test)
    }
}

// A run whose first number fails the test, while that of the run before it passes.
fn runs_before<B: Before>(runs: &[Run], test: &B) -> usize
    requires { AreFilled runs.now }
    ensures within { result ≤ length runs.now }
    ensures front { 0 < result → B.before test.now (slice_index (slice_index_or runs.now (result - 1) []) 0) ≡ true }
    ensures behind { result < length runs.now
        → B.before test.now (slice_index (slice_index_or runs.now result []) 0) ≡ false }
{
    let mut low = 0;
    let mut high = runs.len();
    while low < high {
        let middle = low + (high - low) / 2;
        let run = &runs[middle];
        if test.is_before(run.at(0)) {
            low = middle + 1;
        } else {
            high = middle;
        }
    }
    low
}

// A number that fails the test, while the one before it passes.
fn numbers_before<B: Before>(numbers: &[usize], test: &B) -> usize
    ensures within { result ≤ length numbers.now }
    ensures front { 0 < result → B.before test.now (slice_index numbers.now (result - 1)) ≡ true }
    ensures behind { result < length numbers.now → B.before test.now (slice_index numbers.now result) ≡ false }
{
    let mut low = 0;
    let mut high = numbers.len();
    while low < high {
        let middle = low + (high - low) / 2;
        if test.is_before(numbers[middle]) {
            low = middle + 1;
        } else {
            high = middle;
        }
    }
    low
}

/// How many numbers pass a test that those in front pass alone.
pub(crate) fn place_among<B: Before>(numbers: &[usize], test: &B) -> usize
    requires { is_cut (B.before test.now) numbers.now ≡ true }
    ensures within { result ≤ length numbers.now }
    ensures front { list_all (B.before test.now) (take result numbers.now) ≡ true }
    ensures behind { list_all (λ x. not (B.before test.now x)) (drop result numbers.now) ≡ true }
{
    numbers_before(numbers, test)
}
