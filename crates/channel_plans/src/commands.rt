//! What a command on channels will do.

ghost use Rattle.std.specs.Prelude.{◌≡◌, ◌+◌, ◌≤◌, List, [], IfOk};
ghost use Rattle.world_data.specs.Limits.{max_moment};
ghost use Rattle.world_model.specs.Effects.{effect};
ghost use Rattle.world_model.specs.Subscriptions.{Sub};
ghost use Rattle.world_model.specs.declared.commands.Command.TheVariants as family;
ghost use Rattle.keyspace.specs.Entries.{objects_in};
ghost use Rattle.object_plans.specs.Beside.{channels_weight};
ghost use Rattle.object_plans.specs.Kept.{AreKept, most_kept};
ghost use Rattle.channel_plans.specs.Asking.{IsAsked};
ghost use Rattle.channel_plans.specs.Contexts.{kept_world};
ghost use Rattle.channel_plans.specs.Planned.{IsPlanned};

use crate::channels::{plan_chans, plan_delchan, plan_pdelchan};
use crate::contexts::Context;
use crate::planned::Planned;
use crate::setchans::plan_setchan;
use byte_text::NoMemory;
use std::alloc::Global;
use world_model::ChannelCommand;

/// What a command on channels will do in its context.
pub fn plan_channel(
    alloc: Global,
    context: Context<'_>,
    command: ChannelCommand,
) -> Result<Planned, NoMemory>
    requires kept { AreKept (objects_in context.objects.now) context.total }
    requires channels { context.channels ≡ channels_weight context.hub.now.channels }
    requires light { context.total + context.channels ≤ most_kept }
    requires moment { context.now ≤ max_moment }
    requires asked { IsAsked command }
    ensures { IfOk result (λ p. (held : List Sub) → IsPlanned (kept_world context.entry) context.entry.total held
        (effect (kept_world context.entry) context.entry.now [] (family.Channel command)) p) }
{
    match command {
        ChannelCommand::Setchan {
            channel,
            area,
            seconds,
        } => plan_setchan(alloc, context, channel, area, seconds),
        ChannelCommand::Delchan { name } => plan_delchan(alloc, context, name),
        ChannelCommand::Pdelchan { glob } => plan_pdelchan(alloc, context, &glob),
        ChannelCommand::Chans { glob } => plan_chans(alloc, context, &glob),
    }
}
