//! What a lock holds, and what is done with it in a turn.
//!
//! No history is kept in a value: a relation says which histories a value may stand for. The work is an associated type
//! of what is locked, since another thread may run it. (docs/LOCK.md, "Choices")

ghost use Rattle.std.specs.Prelude.{List, Bool};
ghost use Rattle.turn_lock.specs.Turned.{IsReached, Adds};

/// A value that stands for an opening and a history, the list of what was done with it.
/// No value of `Opening` or `Entry` is made by the lock: they are what its contracts speak of.
pub trait Turned {
    /// What the value was when the lock was made.
    type Opening;

    /// One thing that was done. A turn may do several, or none.
    type Entry;

    /// What is done in one turn, by whichever thread has the value.
    type Work: Work<Self>;

    /// The opening of a value that has no entry yet.
    ghost opening: { Self → Self.Opening };

    /// The value is as this history, from this opening on, leaves it.
    ghost stands: { Self → Self.Opening → List Self.Entry → Type 0 };

    /// Which entries only the first seat makes.
    ghost kept: { Self.Entry → Bool };
}

/// What is done with the value in one turn.
pub trait Work<T: Turned> {
    /// What the turn answers.
    type Out;

    /// The entries of the turn, by the work, its answer and the value afterwards. They are neighbours in the history.
    ghost entries: { Self → Self.Out → T → List T.Entry };

    /// What holds of the value before, the answer and the value afterwards.
    ghost gives: { Self → T → Self.Out → T → Type 0 };

    /// Whether the work is better done after those that are not late, as one that makes their changes last.
    fn is_late(&self) -> bool;

    /// Does the work on a value that stands for some history. The value then stands for the work's entries behind it,
    /// too.
    fn run(self, value: &mut T) -> Self::Out
        requires { IsReached T.stands value.old }
        ensures gives { gives self value.old result value.new }
        ensures adds { Adds T.stands value.old value.new (entries self result value.new) };
}

/// What a turn answers.
pub type Out<T> = <<T as Turned>::Work as Work<T>>::Out;
