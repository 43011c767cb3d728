//! What a request will do.

ghost use Rattle.std.specs.Prelude.{◌≡◌, ◌≤◌, ◌&&◌, false, not, length, IfOk};
ghost use Rattle.byte_text.specs.Replies.{frame_text};
ghost use Rattle.world_data.specs.Limits.{max_reply};
ghost use Rattle.world_model.specs.Effects.{effect, is_served_subscribed, says};
ghost use Rattle.world_model.specs.Refusals.{fault_reply as fault_pieces, broken_reply as broken_pieces};
ghost use Rattle.world_model.specs.Commands.{reads};
ghost use Rattle.world_model.specs.Subscriptions.{has_subs};
ghost use Rattle.delivery_model.specs.Plans.{ends_with, effect_of_read, effect_of_asked};
ghost use Rattle.keyspace.specs.Entries.{objects_in};
ghost use Rattle.log_record.specs.Words.{SettingsAreNormal};
ghost use Rattle.object_plans.specs.Kept.{AreKept};
ghost use Rattle.object_plans.specs.Plans.{IsPlan};
ghost use Rattle.channel_plans.specs.Contexts.{IsContext, IsPlannedIn, kept_world};
ghost use Rattle.command_plans.specs.Asking.{IsAsked};

use crate::sessions::{is_refused, plan_session};
use byte_text::{NoMemory, Request, RespFault, Text};
use channel_plans::{Context, Planned, plan_channel};
use cmd_words::{CommandFault, command_of, served_commands};
use keyspace::Keyspace;
use log_record::records_are_read_back;
use object_plans::{ObjectContext, Plan, plan_object, say_refusal, short_frame};
use reply_text::{broken_reply, fault_reply};
use rtree::{Steps, Visits};
use search_plans::plan_search;
use std::alloc::Global;
use world_model::{Asked, Command, Refusal, WordFault};

// The answer to words that are refused.
fn plan_fault(
    alloc: Global,
    _objects: &Keyspace,
    total: u64,
    fault: &WordFault,
) -> Result<Plan, NoMemory>
    requires kept { AreKept (objects_in _objects.now) total }
    requires short { length (frame_text (fault_pieces fault.now)) ≤ max_reply }
    ensures { IfOk result (λ p. IsPlan (objects_in _objects.now) (says (fault_pieces fault.now)) p) }
{
    let refusal = short_frame(alloc, &fault_reply(alloc, fault)?)?;
    Ok(Plan::reply(refusal, total))
}

// The answer to a broken protocol, behind which the session ends.
fn plan_broken(
    alloc: Global,
    _objects: &Keyspace,
    total: u64,
    fault: RespFault,
) -> Result<Plan, NoMemory>
    requires { AreKept (objects_in _objects.now) total }
    ensures { IfOk result (λ p. IsPlan (objects_in _objects.now) (ends_with (broken_pieces fault)) p) }
{
    let refusal = short_frame(alloc, &broken_reply(alloc, fault)?)?;
    Ok(Plan::last_reply(refusal, total))
}

// What a command will do that the session may ask.
fn plan_open(
    alloc: Global,
    context: Context<'_>,
    command: Command,
    steps: &mut Steps<Visits>,
    spare: &mut Text,
) -> Result<Planned, NoMemory>
    requires context { IsContext context }
    requires asked { IsAsked command }
    requires may_ask { (has_subs context.subs.now && not (is_served_subscribed command)) ≡ false }
    ensures { IfOk result (λ p. IsPlannedIn context.entry
        (effect (kept_world context.entry) context.entry.now context.entry.subs.now command) p) }
{
    let alone = ObjectContext {
        objects: context.objects,
        total: context.total,
        channels: context.channels,
        now: context.now,
    };
    match command {
        Command::Object(command) => {
            Ok(Planned::Objects(plan_object(alloc, alone, command, spare)?))
        }
        Command::Search(command) => {
            Ok(Planned::Objects(plan_search(alloc, alone, command, steps)?))
        }
        Command::Channel(command) => plan_channel(alloc, context, command),
        Command::Session(command) => plan_session(alloc, context, command, spare),
    }
}

// What a command will do.
fn plan_served(
    alloc: Global,
    context: Context<'_>,
    command: Command,
    steps: &mut Steps<Visits>,
    spare: &mut Text,
) -> Result<Planned, NoMemory>
    requires context { IsContext context }
    requires asked { IsAsked command }
    ensures { IfOk result (λ p. IsPlannedIn context.entry
        (effect (kept_world context.entry) context.entry.now context.entry.subs.now command) p) }
{
    if is_refused(context.subs, &command) {
        // As a call. Left to the end of the block, each part that a command may have is proved to be dropped here.
        drop(command);
        let refusal = say_refusal(alloc, context.total, Refusal::Subscribed)?;
        return Ok(Planned::Objects(refusal));
    }
    plan_open(alloc, context, command, steps, spare)
}

// Of the laws of records the one that a request needs.
fn settings_are_normal()
    ensures { SettingsAreNormal }
{
    records_are_read_back();
}

// What words will do.
fn plan_words(
    alloc: Global,
    context: Context<'_>,
    words: &Request,
    steps: &mut Steps<Visits>,
    spare: &mut Text,
) -> Result<Planned, NoMemory>
    requires context { IsContext context }
    ensures { IfOk result (λ p. IsPlannedIn context.entry
        (effect_of_read (kept_world context.entry) context.entry.now context.entry.subs.now (reads words.now)) p) }
{
    // Laws, of which nothing is left at run time.
    served_commands();
    settings_are_normal();
    // A request is within its limits, and so is what a refusal shows of it.
    let _count = words.words();
    match command_of(alloc, words) {
        Ok(command) => plan_served(alloc, context, command, steps, spare),
        Err(CommandFault::Refused(fault)) => {
            Ok(Planned::Objects(plan_fault(alloc, context.objects, context.total, &fault)?))
        }
        Err(CommandFault::Memory) => Err(NoMemory),
    }
}

/// What is asked will do this in its context: a request what its words say, and the fault that broke a session's
/// protocol ends the session. The steps count the nodes of trees that are visited. The frame of a reply may stand in
/// the memory of `spare`, a text whose bytes are not needed any more. It fails for want of memory alone.
pub fn plan_asked(
    alloc: Global,
    context: Context<'_>,
    asked: &Asked,
    steps: &mut Steps<Visits>,
    spare: &mut Text,
) -> Result<Planned, NoMemory>
    requires context { IsContext context }
    ensures { IfOk result (λ p. IsPlannedIn context.entry
        (effect_of_asked (kept_world context.entry) context.entry.now context.entry.subs.now asked.now) p) }
{
    match asked {
        Asked::Words(words) => { plan_words(alloc, context, words, steps, spare) }
        Asked::Broken(fault) => Ok(Planned::Objects(plan_broken(
            alloc,
            context.objects,
            context.total,
            *fault,
        )?)),
    }
}
