//! What feeds followers: a hall that answers asks out of its log.

use crate::asks::Ask;
use crate::part_bytes::PartBytes;
use crate::parts::Part;
use std::sync::Wait;
use world_model::HallApi;

/// What becomes of an ask.
#[derive(Clone, Copy, Debug, PartialEq, Eq)]
pub enum PartAnswer {
    /// This part, whose bytes stand in the place that was handed in.
    Given(Part),
    /// The disk failed.
    LogFault,
    /// The hall has stopped.
    Stopped,
    Memory,
}

/// A hall that answers asks out of its log, for followers.
pub trait FeedApi: HallApi {
    ghost use Rattle.std.specs.Prelude.{◌≡◌};
    ghost use Rattle.byte_text.specs.Names.{Bytes};
    ghost use Rattle.world_model.specs.Seats.{Knows, Adds};
    ghost use Rattle.world_model.specs.declared.events.Event.TheVariants as event;
    ghost use Rattle.world_model.specs.declared.events.Outcome.TheVariants as outcome;
    ghost use Rattle.repl_stream.specs.Feeds.{IfGiven, bytes_in, called_of};
    ghost use Rattle.repl_stream.specs.declared.asks.Ask.{Ask};
    ghost use Rattle.repl_stream.specs.declared.parts.Part.{Part};

    /// Behind what a seat has seen of this hall's history, this part with these bytes answers the ask.
    ghost answers: { Self → Knows → Ask → Part → Bytes → Type 0 };

    /// Makes all that is pending stand, goes a step on with a rewriting of the log, and then reads what an ask asks for.
    /// The place for the bytes goes to whoever does the work, so it is handed over and comes back.
    fn log_part<R: Wait>(
        &self,
        rt: &R,
        seat: &mut Self::Seat,
        ask: Ask,
        into: PartBytes,
    ) -> (PartAnswer, PartBytes)
        requires { Self.is_of self.now seat.old }
        ensures seat { Self.is_of self.now seat.new }
        ensures entry { Adds event.Rewrite (outcome.Answered (called_of result.0)) (Self.knows seat.old)
            (Self.knows seat.new) }
        ensures part { IfGiven result.0
            (λ part. answers self.now (Self.knows seat.new) ask part (bytes_in result.1)) };
}
