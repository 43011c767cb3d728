//! What a call will do: its reply and its change, made ready before anything is changed.

use crate::moves::ObjectChange;
use byte_text::Text;

/// What a call will do.
#[derive(Drop)]
pub struct Plan {
    /// The frame of its reply.
    pub frame: Text,
    /// What is done to the objects.
    pub action: ObjectChange,
    /// Whether a put is told to those who watch.
    pub announced: bool,
    /// The bytes of the records of the changes.
    pub length: u64,
    /// The weight of the world after them.
    pub weight: u64,
    /// Whether the session ends behind the reply.
    pub closes: bool,
}

impl Plan {
    ghost use Rattle.std.specs.Prelude.{◌≡◌, true, false};
    ghost use Rattle.object_plans.specs.declared.moves.ObjectChange.TheVariants.{Stay};

    /// A reply and no change, in a world of this weight.
    pub fn reply(frame: Text, weight: u64) -> Plan
        ensures { result
            ≡ record { frame = frame; action = Stay; announced = false; length = 0; weight = weight; closes = false } }
    {
        Plan {
            frame,
            action: ObjectChange::Stay,
            announced: false,
            length: 0,
            weight,
            closes: false,
        }
    }

    /// The same, and the session ends behind it.
    pub fn last_reply(frame: Text, weight: u64) -> Plan
        ensures { result
            ≡ record { frame = frame; action = Stay; announced = false; length = 0; weight = weight; closes = true } }
    {
        Plan {
            frame,
            action: ObjectChange::Stay,
            announced: false,
            length: 0,
            weight,
            closes: true,
        }
    }
}
