//! Answers: the frames of replies, and plans that change nothing.

ghost use Rattle.std.specs.Prelude.{◌≡◌, ◌≤◌, List, length, IfOk};
ghost use Rattle.byte_text.specs.Replies.{IsFrame, frame_text, number};
ghost use Rattle.byte_text.specs.declared.replies.Piece.{Piece};
ghost use Rattle.world_data.specs.Limits.{max_reply};
ghost use Rattle.world_model.specs.Effects.{says, refuses, within_reply};
ghost use Rattle.object_plans.specs.Plans.{Replies, Says};

use crate::plans::Plan;
use byte_text::{NoMemory, Reply, Text};
use reply_text::{ReplyFault, count_frame, push_reply, refusal_reply};
use std::alloc::Global;
use world_data::MAX_REPLY;
use world_model::Refusal;

/// The frame of a reply that is short enough for one.
pub fn short_frame(alloc: Global, reply: &Reply) -> Result<Text, NoMemory>
    requires frame { IsFrame reply.now }
    requires short { length (frame_text reply.now) ≤ max_reply }
    ensures { IfOk result (λ frame. frame ≡ frame_text reply.now) }
{
    let mut frame = Text::new(alloc);
    match push_reply(&mut frame, reply) {
        Ok(()) => Ok(frame),
        Err(ReplyFault::TooLong) => unreachable!(),
        Err(ReplyFault::Memory) => Err(NoMemory),
    }
}

// The frame of a reply, or of the refusal where it would be too long.
fn frame_of(alloc: Global, reply: &Reply) -> Result<Text, NoMemory>
    requires { IsFrame reply.now }
    ensures { IfOk result (λ frame. Replies (within_reply (says reply.now)) frame) }
{
    let mut frame = Text::new(alloc);
    match push_reply(&mut frame, reply) {
        Ok(()) => Ok(frame),
        Err(ReplyFault::TooLong) => short_frame(
            alloc,
            &refusal_reply(alloc, Refusal::ReplyTooLong)?,
        ),
        Err(ReplyFault::Memory) => Err(NoMemory),
    }
}

/// The plan of this answer and nothing else, in a world of this weight.
pub(crate) fn say(alloc: Global, weight: u64, reply: &Reply) -> Result<Plan, NoMemory>
    requires { IsFrame reply.now }
    ensures { IfOk result (λ p. Says (within_reply (says reply.now)) weight p) }
{
    Ok(Plan::reply(frame_of(alloc, reply)?, weight))
}

// This frame, or that of the refusal where it is too long for a reply.
fn within_reply(alloc: Global, frame: Text) -> Result<Text, NoMemory>
    ensures { (reply : List Piece) → frame ≡ frame_text reply → IfOk result (Replies (within_reply (says reply))) }
{
    if frame.len() > MAX_REPLY {
        short_frame(alloc, &refusal_reply(alloc, Refusal::ReplyTooLong)?)
    } else {
        Ok(frame)
    }
}

/// The plan of the answer whose frame this is and nothing else, in a world of this weight.
pub fn say_frame(alloc: Global, weight: u64, frame: Text) -> Result<Plan, NoMemory>
    ensures { (reply : List Piece) → frame ≡ frame_text reply → IfOk result (Says (within_reply (says reply)) weight) }
{
    Ok(Plan::reply(within_reply(alloc, frame)?, weight))
}

/// The plan that answers this number.
pub fn say_count(alloc: Global, weight: u64, count: u64) -> Result<Plan, NoMemory>
    ensures { IfOk result (λ p. Says (within_reply (says (number count))) weight p) }
{
    say_frame(alloc, weight, count_frame(alloc, count)?)
}

/// The plan that refuses.
pub fn say_refusal(alloc: Global, weight: u64, refusal: Refusal) -> Result<Plan, NoMemory>
    ensures { IfOk result (λ p. Says (within_reply (refuses refusal)) weight p) }
{
    say(alloc, weight, &refusal_reply(alloc, refusal)?)
}
