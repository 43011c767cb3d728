//! When the server asks something of the hall by itself: the ticks, the steps of rewriting behind them, and that
//! the log be rewritten.

ghost use Rattle.std.specs.Prelude.{◌≡◌, true, None, IfSome};
ghost use Rattle.serve_run.specs.Pacing.{HasGrown, HasWanted, tended, untended, wanted};
ghost use Rattle.serve_run.specs.Tends.{AreFew};

use crate::tendings::Tending;
use crate::tends::ServeEnd;
use crate::terms::Terms;
use world_model::LogState;

// Milliseconds from one tick to the next.
const TICK_MILLIS: u32 = 100;

// The same while the log is rewritten and callers are served, and how long somebody is waited for then. Where nobody
// comes, one tick follows the other.
const REWRITING_MILLIS: u32 = 10;

/// The shortest wait, where something is to be done as soon as nobody comes.
pub(crate) const GLANCE_MILLIS: u32 = 1;

/// The most steps of rewriting behind one tick: as many as there are where nobody waits.
pub(crate) const REWRITE_STEPS: u32 = 16;

// The same while callers are served, who wait for them. With four, one client made 0.63 to 0.72 of its SETs while a log
// was rewritten, and 0.7 at least is wanted: what callers lose goes by the steps, so there is one less.
const BESIDE_STEPS: u32 = 3;

// Milliseconds until the rewriting is asked for again, where nothing came of it.
const SHRINK_MILLIS: u64 = 10_000;

/// When the next tick is due, and what the ticks told.
#[derive(Clone, Copy, Debug, PartialEq, Eq)]
pub(crate) struct Pace {
    /// What the ticks and the steps behind them told.
    pub(crate) tending: Tending,
    // Nobody was named by the last wait, and nothing was left to be done.
    is_idle: bool,
    last_tick: Option<u64>,
    last_shrink: Option<u64>,
    // How long it is to the next tick.
    to_tick: u32,
}

// Whether so many milliseconds went by from a moment on, or the clock was set back since.
fn is_past(since: Option<u64>, moment: u64, millis: u64) -> bool {
    match since {
        Some(since) if since <= moment => moment - since >= millis,
        _ => true,
    }
}

impl Pace {
    /// A tick is due at once.
    pub(crate) fn new() -> Pace
        ensures { result.tending ≡ untended }
    {
        Pace {
            tending: Tending::new(),
            is_idle: false,
            last_tick: None,
            last_shrink: None,
            to_tick: 0,
        }
    }

    /// Milliseconds to wait for somebody to be ready.
    pub(crate) fn patience(&self) -> u32 {
        if self.tending.log.is_rewriting {
            GLANCE_MILLIS
        } else {
            self.to_tick
        }
    }

    /// A wait came to its end, and named nobody, or somebody.
    pub(crate) fn looked(&mut self, is_idle: bool)
        ensures { self.new.tending ≡ self.old.tending }
    {
        self.is_idle = is_idle;
    }

    // Milliseconds from the last tick to the next.
    fn between_ticks(&self) -> u32 {
        if !self.tending.log.is_rewriting {
            TICK_MILLIS
        } else if self.is_idle {
            0
        } else {
            REWRITING_MILLIS
        }
    }

    /// Whether a tick is due at this moment; it is made then. A clock that was set back is followed.
    pub(crate) fn is_tick_due(&mut self, moment: u64) -> bool
        ensures { self.new.tending ≡ self.old.tending }
    {
        let between = self.between_ticks();
        if is_past(self.last_tick, moment, u64::from(between)) {
            self.to_tick = TICK_MILLIS;
            return true;
        }
        let since = match self.last_tick {
            Some(last) => moment.saturating_sub(last),
            None => 0,
        };
        let left = u64::from(between).saturating_sub(since);
        self.to_tick = u32::try_from(left).unwrap_or(between);
        false
    }

    /// How many steps of rewriting may stand behind the tick.
    pub(crate) fn steps(&self) -> u32
        ensures { AreFew result }
    {
        if self.is_idle {
            REWRITE_STEPS
        } else {
            BESIDE_STEPS
        }
    }

    /// A tick and the steps behind it came to their end at a moment, and the log is as they told.
    pub(crate) fn tended(&mut self, ended: u64, log: LogState)
        ensures { self.new.tending ≡ tended self.old.tending log }
    {
        self.tending = self.tending.tended(log);
        self.last_tick = Some(ended);
    }

    /// The end that a tick or a step behind it brought at a moment. Want of memory brings one only where it lasts: the
    /// tick is made again at the next look.
    pub(crate) fn end_of(&mut self, end: ServeEnd, moment: u64) -> Option<ServeEnd>
        ensures end { IfSome result (λ e. (e ≡ end) × (e ≡ ServeEnd.Memory → HasWanted self.old.tending moment)) }
        ensures on { result ≡ None → (end ≡ ServeEnd.Memory) × (HasWanted self.old.tending moment → ⊥)
            × (self.new.tending ≡ wanted self.old.tending moment) }
    {
        if end != ServeEnd::Memory || self.tending.has_wanted(moment) {
            return Some(end);
        }
        self.tending = self.tending.wanted(moment);
        None
    }

    /// Whether it is to be asked at this moment that the log be rewritten; it is asked then.
    pub(crate) fn is_shrink_due(&mut self, moment: u64, terms: Terms) -> bool
        ensures grown { result ≡ true → HasGrown terms self.old.tending }
        ensures same { self.new.tending ≡ self.old.tending }
    {
        if !self.tending.has_grown(terms) || !is_past(self.last_shrink, moment, SHRINK_MILLIS) {
            return false;
        }
        self.last_shrink = Some(moment);
        true
    }
}
