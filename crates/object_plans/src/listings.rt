//! KEYS, and replies of many items, which are not built on once they would be too long.

ghost use Rattle.std.specs.Prelude.{◌≡◌, ◌≤◌, ◌<◌, ◌+◌, ℕ, List, [], true, length, map, take, IfOk, IfErr, OnOk};
ghost use Rattle.byte_text.specs.Globs.{is_well_formed};
ghost use Rattle.byte_text.specs.Replies.{frame_text, array, bulk};
ghost use Rattle.byte_text.specs.declared.replies.Piece.{Piece};
ghost use Rattle.world_data.specs.Limits.{max_reply};
ghost use Rattle.world_model.specs.Effects.{effect, says, within_reply};
ghost use Rattle.world_model.specs.declared.commands.Command.TheVariants as command;
ghost use Rattle.world_model.specs.declared.object_commands.ObjectCommand.TheVariants as of_object;
ghost use Rattle.keyspace.specs.Entries.{objects_in};
ghost use Rattle.object_plans.specs.Kept.{AreKept};
ghost use Rattle.object_plans.specs.Moves.{world_in};
ghost use Rattle.object_plans.specs.Plans.{IsPlan, Replies};
ghost use Rattle.object_plans.specs.Listings.{keys_met, joined, AreItems, IsTooLong};

use crate::answers::short_frame;
use crate::plans::Plan;
use byte_text::{Name, NoMemory, Text};
use glob_match::glob_meets;
use keyspace::Keyspace;
use reply_text::{ItemFrames, ReplyFault, refusal_reply};
use std::alloc::Global;
use world_model::Refusal;

/// The frame of a reply, or of the refusal where it would be too long.
pub fn or_refusal(alloc: Global, frame: Result<Text, ReplyFault>) -> Result<Text, NoMemory>
    ensures { (reply : List Piece) → IfOk frame (λ t. (t ≡ frame_text reply) × (length t ≤ max_reply))
        → IfErr frame (IsTooLong reply) → IfOk result (Replies (within_reply (says reply))) }
{
    match frame {
        Ok(frame) => Ok(frame),
        Err(ReplyFault::TooLong) => short_frame(
            alloc,
            &refusal_reply(alloc, Refusal::ReplyTooLong)?,
        ),
        Err(ReplyFault::Memory) => Err(NoMemory),
    }
}

// Puts the key at a place last, where it has an object and meets the pattern.
fn push_key(
    keys: &mut ItemFrames,
    objects: &Keyspace,
    i: usize,
    pattern: &Name,
) -> Result<(), ReplyFault>
    requires within { i < length objects.now }
    requires pattern { is_well_formed pattern.now ≡ true }
    requires items { AreItems (map bulk (keys_met pattern.now (take i objects.now))) keys.old }
    ensures ok { OnOk result (AreItems (map bulk (keys_met pattern.now (take (i + 1) objects.now))) keys.new) }
    ensures too_long { IfErr result (IsTooLong (joined (map bulk (keys_met pattern.now (take (i + 1) objects.now))))) }
{
    let key = objects.key(i);
    if objects.count(i) > 0 && glob_meets(pattern.bytes(), key.bytes()) {
        keys.push_name(key)
    } else {
        Ok(())
    }
}

// The frame of the keys that have an object and meet the pattern.
fn keys_frame(alloc: Global, objects: &Keyspace, pattern: &Name) -> Result<Text, ReplyFault>
    requires { is_well_formed pattern.now ≡ true }
    ensures ok { IfOk result (λ t. (t ≡ frame_text (array (map bulk (keys_met pattern.now objects.now))))
        × (length t ≤ max_reply)) }
    ensures too_long { IfErr result (IsTooLong (array (map bulk (keys_met pattern.now objects.now)))) }
{
    let mut keys = ItemFrames::new(alloc);
    for i in 0..objects.keys() {
        push_key(&mut keys, objects, i, pattern)?;
    }
    keys.array(alloc)
}

/// What KEYS will do.
pub(crate) fn plan_keys(
    alloc: Global,
    objects: &Keyspace,
    total: u64,
    pattern: &Name,
) -> Result<Plan, NoMemory>
    requires kept { AreKept (objects_in objects.now) total }
    requires pattern { is_well_formed pattern.now ≡ true }
    ensures { IfOk result (λ p. (now : ℕ) → IsPlan (objects_in objects.now)
        (effect (world_in objects.now) now [] (command.Object (of_object.Keys pattern.now))) p) }
{
    let frame = or_refusal(alloc, keys_frame(alloc, objects, pattern))?;
    // What keys there are is known where they are counted.
    let _count = objects.keys();
    Ok(Plan::reply(frame, total))
}
