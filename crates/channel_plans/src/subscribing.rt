//! SUBSCRIBE and PSUBSCRIBE: all words are taken or none, each is confirmed.

ghost use Rattle.std.specs.Prelude.{◌≡◌, ◌+◌, ◌≤◌, ◌<◌, ◌++◌, ◌∷◌, [], true, ℕ, List, length, map, IfOk, IfErr, OnOk};
ghost use Rattle.std.specs.List.{AllByRecursion};
ghost use Rattle.byte_text.specs.Names.{is_name};
ghost use Rattle.byte_text.specs.Replies.{frame_text};
ghost use Rattle.world_data.specs.Limits.{max_subs};
ghost use Rattle.world_data.specs.declared.channels.Channel.{Channel};
ghost use Rattle.world_model.specs.Effects.{effect};
ghost use Rattle.world_model.specs.Replies.{confirmation, confirmations};
ghost use Rattle.world_model.specs.Subscriptions.{with_sub, with_subs};
ghost use Rattle.reply_text.specs.Confirmations.{called_of};
ghost use Rattle.session_table.specs.Sessions.{AreSoundSubs};
ghost use Rattle.session_table.specs.Subscribed.{sub};
ghost use Rattle.session_table.specs.declared.held.SubscribeFault.{SubscribeFault};
ghost use Rattle.keyspace.specs.Entries.{objects_in};
ghost use Rattle.object_plans.specs.Kept.{AreKept, most_kept};
ghost use Rattle.object_plans.specs.Moves.{world_with};
ghost use Rattle.object_plans.specs.Beside.{channels_weight};
ghost use Rattle.channel_plans.specs.Planned.{IsPlanned};
ghost use Rattle.delivery_model.specs.Plans.{subs_of};
ghost use Rattle.channel_plans.specs.Subscribing.{subscribing};

use crate::contexts::Context;
use crate::planned::{Confirmed, Planned};
use byte_text::{MAX_WORDS, Name, NoMemory, Text, push_frame};
use object_plans::say_refusal;
use reply_text::confirmation_reply;
use session_table::{SubscribeFault, Subscriptions};
use std::alloc::Global;
use world_model::{NameList, Refusal};

// The frame that confirms a subscription, where so many are held then.
fn confirmation_frame(
    alloc: Global,
    pattern: bool,
    word: &Name,
    count: u64,
) -> Result<Text, NoMemory>
    ensures { IfOk result (λ frame. frame
        ≡ frame_text (confirmation (called_of pattern) (sub pattern word.now, count))) }
{
    let mut frame = Text::new(alloc);
    push_frame(
        &mut frame,
        &confirmation_reply(alloc, pattern, word, count)?,
    )?;
    Ok(frame)
}

// Subscribes to a word, and puts the frame that confirms it last.
fn confirm_one(
    alloc: Global,
    subs: &mut Subscriptions,
    frames: &mut Vec<Text>,
    pattern: bool,
    word: &Name,
) -> Result<(), SubscribeFault>
    ensures subs { OnOk result (subs.new ≡ with_sub subs.old (sub pattern word.now)) }
    ensures frames { OnOk result (frames.new.items ≡ frames.old.items
        ++ frame_text (confirmation (called_of pattern)
        (sub pattern word.now, length (with_sub subs.old (sub pattern word.now)))) ∷ []) }
    ensures too_many { IfErr result (λ f. f ≡ SubscribeFault.TooMany
        → max_subs < length (with_sub subs.old (sub pattern word.now))) }
{
    let count = subs.subscribe(alloc, word, pattern)?;
    let frame = confirmation_frame(alloc, pattern, word, count as u64)?;
    match frames.push(frame) {
        Ok(()) => Ok(()),
        Err(_) => Err(SubscribeFault::Memory),
    }
}

// Subscribes to the words in turn, and gives the frames that confirm them.
fn confirm_each(
    alloc: Global,
    subs: &mut Subscriptions,
    pattern: bool,
    words: &NameList,
) -> Result<Vec<Text>, SubscribeFault>
    ensures subs { OnOk result (subs.new ≡ with_subs subs.old (subs_of pattern words.now)) }
    ensures frames { IfOk result (λ frames. frames.items
        ≡ map frame_text (confirmations (called_of pattern) subs.old (subs_of pattern words.now))) }
    ensures few { OnOk result (length subs.new ≤ max_subs) }
    ensures too_many { IfErr result (λ f. f ≡ SubscribeFault.TooMany
        → max_subs < length (with_subs subs.old (subs_of pattern words.now))) }
{
    let mut frames = Vec::new(alloc);
    for i in 0..words.len() {
        confirm_one(alloc, subs, &mut frames, pattern, words.at(i))?;
    }
    // There are no more of them than one session may have.
    let _count = subs.len();
    Ok(frames)
}

/// What SUBSCRIBE will do, or PSUBSCRIBE where the words are patterns, for a session with these subscriptions.
pub fn plan_subscribe(
    alloc: Global,
    context: Context<'_>,
    pattern: bool,
    words: &NameList,
) -> Result<Planned, NoMemory>
    requires kept { AreKept (objects_in context.objects.now) context.total }
    requires sound { AreSoundSubs context.subs.now }
    requires names { AllByRecursion (λ w. is_name w ≡ true) words.now }
    requires patterns { AreSoundSubs (subs_of pattern words.now) }
    ensures { IfOk result (λ p. (cs : List Channel) (now : ℕ) → context.entry.total + channels_weight cs ≤ most_kept
        → IsPlanned (world_with cs (objects_in context.entry.objects.now)) context.entry.total context.entry.subs.now
        (effect (world_with cs (objects_in context.entry.objects.now)) now context.entry.subs.now
        (subscribing pattern words.now)) p) }
{
    // More words than a request holds have room in no memory.
    if words.len() > MAX_WORDS {
        return Err(NoMemory);
    }
    let mut more = context.subs.copy(alloc)?;
    match confirm_each(alloc, &mut more, pattern, words) {
        Ok(frames) => Ok(Planned::Subscribed(Confirmed { frames, subs: more })),
        Err(SubscribeFault::TooMany) => {
            let refusal = say_refusal(alloc, context.total, Refusal::TooManySubscriptions)?;
            Ok(Planned::Objects(refusal))
        }
        Err(SubscribeFault::Memory) => Err(NoMemory),
    }
}
