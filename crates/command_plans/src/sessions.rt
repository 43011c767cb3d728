//! What a command on its session will do, and which commands a session with subscriptions may ask.

ghost use Rattle.std.specs.Prelude.{◌≡◌, ◌∷◌, ◌&&◌, [], codes, not, IfOk};
ghost use Rattle.byte_text.specs.Replies.{frame_text};
ghost use Rattle.byte_text.specs.declared.replies.Piece.TheVariants as piece;
ghost use Rattle.world_model.specs.Effects.{effect, is_served_subscribed};
ghost use Rattle.world_model.specs.Subscriptions.{has_subs};
ghost use Rattle.world_model.specs.declared.commands.Command.TheVariants as family;
ghost use Rattle.world_model.specs.declared.session_commands.SessionCommand.TheVariants as of_session;
ghost use Rattle.channel_plans.specs.Contexts.{IsContext, IsPlannedIn, kept_world};
ghost use Rattle.command_plans.specs.Asking.{IsAskedOfSession};

use byte_text::{NoMemory, Text};
use channel_plans::{Context, Planned, plan_subscribe};
use object_plans::{Plan, frame_in, say_frame};
use reply_text::fine_frame;
use session_table::Subscriptions;
use std::alloc::Global;
use world_model::{Command, SessionCommand};

// The frame of `+PONG`, in the memory of a text that is left without any.
fn pong_frame_in(alloc: Global, spare: &mut Text) -> Result<Text, NoMemory>
    ensures { IfOk result (λ frame. frame ≡ frame_text (piece.Status (codes "PONG") ∷ [])) }
{
    frame_in(alloc, spare, b"+PONG\r\n")
}

// What PING will do.
fn plan_ping(alloc: Global, context: Context<'_>, spare: &mut Text) -> Result<Planned, NoMemory>
    requires { IsContext context }
    ensures { IfOk result (λ p. IsPlannedIn context.entry
        (effect (kept_world context.entry) context.entry.now context.entry.subs.now
        (family.Session of_session.Ping)) p) }
{
    let frame = pong_frame_in(alloc, spare)?;
    Ok(Planned::Objects(say_frame(alloc, context.total, frame)?))
}

// What QUIT will do.
fn plan_quit(alloc: Global, context: Context<'_>) -> Result<Planned, NoMemory>
    requires { IsContext context }
    ensures { IfOk result (λ p. IsPlannedIn context.entry
        (effect (kept_world context.entry) context.entry.now context.entry.subs.now
        (family.Session of_session.Quit)) p) }
{
    let frame = fine_frame(alloc)?;
    Ok(Planned::Objects(Plan::last_reply(frame, context.total)))
}

/// What a command on its session will do. `+PONG` stands in the memory of `spare`.
pub(crate) fn plan_session(
    alloc: Global,
    context: Context<'_>,
    command: SessionCommand,
    spare: &mut Text,
) -> Result<Planned, NoMemory>
    requires context { IsContext context }
    requires asked { IsAskedOfSession command }
    ensures { IfOk result (λ p. IsPlannedIn context.entry
        (effect (kept_world context.entry) context.entry.now context.entry.subs.now (family.Session command)) p) }
{
    match command {
        SessionCommand::Subscribe { names } => plan_subscribe(alloc, context, false, &names),
        SessionCommand::Psubscribe { globs } => plan_subscribe(alloc, context, true, &globs),
        SessionCommand::Ping => plan_ping(alloc, context, spare),
        SessionCommand::Quit => plan_quit(alloc, context),
    }
}

// Whether a session with subscriptions may ask it.
fn is_served_subscribed(command: &Command) -> bool
    ensures { result ≡ is_served_subscribed command.now }
{
    matches!(command, Command::Session(_))
}

// Whether there are any.
fn has_any(subs: &Subscriptions) -> bool
    ensures { result ≡ has_subs subs.now }
{
    subs.len() > 0
}

/// Whether the session has subscriptions, and may not ask the command.
pub(crate) fn is_refused(subs: &Subscriptions, command: &Command) -> bool
    ensures { result ≡ (has_subs subs.now && not (is_served_subscribed command.now)) }
{
    has_any(subs) && !is_served_subscribed(command)
}
