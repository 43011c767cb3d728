//! Marks of names, by which a session that does not hear a message is passed by at one look.
//!
//! A name has a mark under 64, and names that are the same have the same one. A session keeps which marks the names
//! have that it holds. Where none of them has the mark of a message's channel, and there is no pattern, it does not
//! hear the message, and its subscriptions are not looked at.

ghost use Rattle.std.specs.Prelude.{◌≡◌, ◌<◌, true, false};
ghost use Rattle.session_table.specs.Marks.{is_marked, mark_of as mark_of_bytes, marks, may_hear};
ghost use Rattle.session_table.specs.Subscribed.{sub};
ghost use Rattle.world_model.specs.Subscriptions.{Sub};

use byte_text::Name;
use std::marker::Model;

/// The number of marks.
pub(crate) const MARKS: usize = 64;

/// The mark of a name.
pub(crate) fn mark_of(name: &Name) -> usize
    ensures mark { result ≡ mark_of_bytes name.now }
    ensures small { result < marks }
{
    let sum = name
        .bytes()
        .iter()
        .fold(0u32, |sum, byte| sum % 64 * 37 + u32::from(*byte));
    (sum % 64) as usize
}

/// The marks of the names that a session holds, and whether it holds a pattern.
#[derive(Drop)]
pub(crate) struct Marks {
    names: [bool; MARKS],
    patterns: bool,
}

impl Model for Marks {
    ghost use Rattle.session_table.specs.Marks.{Marked};

    ghost Value = { Marked };

    ghost view = { λ m. record { names = m.names; patterns = m.patterns } };
}

impl Marks {
    /// The marks of one who holds nothing.
    pub(crate) fn none() -> Marks
        ensures { result.patterns ≡ false }
    {
        Marks {
            names: [false; MARKS],
            patterns: false,
        }
    }

    /// The same marks.
    pub(crate) fn copy(&self) -> Marks
        ensures { result ≡ self.now }
    {
        Marks {
            names: self.names,
            patterns: self.patterns,
        }
    }

    /// Marks a subscription, too.
    pub(crate) fn add(&mut self, word: &Name, pattern: bool)
        ensures marked { is_marked self.new (sub pattern word.now) ≡ true }
        ensures kept { (s : Sub) → is_marked self.old s ≡ true → is_marked self.new s ≡ true }
    {
        if pattern {
            self.patterns = true;
        } else {
            self.names[mark_of(word)] = true;
        }
    }

    /// Whether something is held that a message to a name of this mark may meet.
    pub(crate) fn may_hear(&self, mark: usize) -> bool
        requires { mark < marks }
        ensures { result ≡ may_hear self.now mark }
    {
        self.patterns || self.names[mark]
    }
}
