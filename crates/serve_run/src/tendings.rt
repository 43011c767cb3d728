//! What the ticks and the steps of rewriting behind them told so far.

ghost use Rattle.std.specs.Prelude.{◌≡◌, ◌*◌, true, false};
ghost use Rattle.serve_run.specs.Pacing.{HasGrown, HasWanted, IsGrownFrom, base_behind, tended, untended, wanted, wanting_since};

use crate::terms::Terms;
use world_model::LogState;

// A smaller log is not rewritten unasked.
const LEAST_SHRUNK: u64 = 64 * 1024 * 1024;

// Milliseconds for which memory may be wanted before the loop ends.
const MOST_WANTING: u64 = 10_000;

/// What is known of the log, and of memory.
#[derive(Clone, Copy, Debug, PartialEq, Eq)]
pub(crate) struct Tending {
    /// The bytes of the log when it was told first, or when it was rewritten last.
    pub(crate) base: Option<u64>,
    /// What was told of it last.
    pub(crate) log: LogState,
    /// Since when each tick, or a step behind it, wanted memory.
    pub(crate) wanting: Option<u64>,
}

// Per cents of so many bytes, which fit.
fn times(bytes: u64, percent: u32) -> u128
    ensures { result ≡ bytes * percent }
{
    u128::from(bytes) * u128::from(percent)
}

impl Tending {
    /// Nothing was told yet.
    pub(crate) fn new() -> Tending
        ensures { result ≡ untended }
    {
        Tending {
            base: None,
            log: LogState {
                bytes: 0,
                is_rewriting: false,
            },
            wanting: None,
        }
    }

    // From which size on the log's growth counts, once it was told to be so.
    fn base_behind(&self, log: LogState) -> Option<u64>
        ensures { result ≡ base_behind self.now.base self.now.log.is_rewriting log }
    {
        match self.base {
            Some(base) if !self.log.is_rewriting || log.is_rewriting => Some(base),
            _ => Some(log.bytes),
        }
    }

    /// The log was told to be so.
    pub(crate) fn tended(&self, log: LogState) -> Tending
        ensures { result ≡ tended self.now log }
    {
        Tending {
            base: self.base_behind(log),
            log,
            wanting: None,
        }
    }

    // Since when memory is wanted, which it is at a moment.
    fn wanting_since(&self, moment: u64) -> u64
        ensures { result ≡ wanting_since self.now.wanting moment }
    {
        match self.wanting {
            Some(since) if since <= moment => since,
            _ => moment,
        }
    }

    /// Memory was wanted at a moment. A clock that was set back is followed.
    pub(crate) fn wanted(&self, moment: u64) -> Tending
        ensures { result ≡ wanted self.now moment }
    {
        Tending {
            wanting: Some(self.wanting_since(moment)),
            ..*self
        }
    }

    /// Whether memory has been wanted for longer than is waited for.
    pub(crate) fn has_wanted(&self, moment: u64) -> bool
        ensures long { result ≡ true → HasWanted self.now moment }
        ensures short { result ≡ false → HasWanted self.now moment → ⊥ }
    {
        match self.wanting {
            Some(since) => moment >= since && moment - since >= MOST_WANTING,
            None => false,
        }
    }

    // Whether the log grew by so many per cent.
    fn is_grown_by(&self, percent: u32) -> bool
        ensures is { result ≡ true → IsGrownFrom self.now.base self.now.log.bytes percent }
        ensures not { result ≡ false → IsGrownFrom self.now.base self.now.log.bytes percent → ⊥ }
    {
        let Some(base) = self.base else {
            return false;
        };
        let grown = self.log.bytes.saturating_sub(base);
        times(base, percent) <= times(grown, 100)
    }

    /// Whether the log has grown so far that it is to be rewritten.
    pub(crate) fn has_grown(&self, terms: Terms) -> bool
        ensures is { result ≡ true → HasGrown terms self.now }
        ensures not { result ≡ false → HasGrown terms self.now → ⊥ }
    {
        terms.shrink_at > 0
            && !self.log.is_rewriting
            && self.log.bytes >= LEAST_SHRUNK
            && self.is_grown_by(terms.shrink_at)
    }
}
