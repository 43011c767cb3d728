//! What a search will answer, beside the channels of its world.

ghost use Rattle.std.specs.Prelude.{◌≡◌, ◌+◌, ◌≤◌, ℕ, List, [], IfOk};
ghost use Rattle.world_data.specs.declared.channels.Channel.{Channel};
ghost use Rattle.world_model.specs.Effects.{effect};
ghost use Rattle.world_model.specs.declared.commands.Command.TheVariants as family;
ghost use Rattle.keyspace.specs.Entries.{objects_in};
ghost use Rattle.object_plans.specs.Beside.{channels_weight, IsPlanBeside};
ghost use Rattle.object_plans.specs.Kept.{AreKept, most_kept};
ghost use Rattle.object_plans.specs.Moves.{world_in, world_with};
ghost use Rattle.object_plans.specs.Plans.{IsPlan};
ghost use Rattle.search_plans.specs.Asking.{IsAsked};

use crate::scans::plan_scan;
use crate::searches::{plan_area, plan_nearby};
use byte_text::NoMemory;
use object_plans::{ObjectContext, Plan};
use rtree::{Steps, Visits};
use std::alloc::Global;
use world_model::SearchCommand;

// What a search will answer in a world without channels.
fn plan_alone(
    alloc: Global,
    context: ObjectContext<'_>,
    command: SearchCommand,
    steps: &mut Steps<Visits>,
) -> Result<Plan, NoMemory>
    requires kept { AreKept (objects_in context.objects.now) context.total }
    requires asked { IsAsked command }
    ensures { IfOk result (λ p. (now : ℕ) → IsPlan (objects_in context.entry.objects.now)
        (effect (world_in context.entry.objects.now) now [] (family.Search command)) p) }
{
    match command {
        SearchCommand::Scan { key, query } => {
            plan_scan(alloc, context.objects, context.total, &key, &query, steps)
        }
        SearchCommand::Area { key, query, area } => {
            plan_area(alloc, context, &key, query, area, steps)
        }
        SearchCommand::Nearby {
            key,
            query,
            at,
            reach,
        } => plan_nearby(alloc, context, &key, &query, at, reach, steps),
    }
}

/// What a search will answer beside channels of the context's weight. The steps count the nodes of trees that are
/// visited.
pub fn plan_search(
    alloc: Global,
    context: ObjectContext<'_>,
    command: SearchCommand,
    steps: &mut Steps<Visits>,
) -> Result<Plan, NoMemory>
    requires kept { AreKept (objects_in context.objects.now) context.total }
    requires light { context.total + context.channels ≤ most_kept }
    requires asked { IsAsked command }
    ensures { IfOk result (λ p. (cs : List Channel) (now : ℕ) → context.entry.channels ≡ channels_weight cs
        → IsPlanBeside cs (objects_in context.entry.objects.now)
        (effect (world_with cs (objects_in context.entry.objects.now)) now [] (family.Search command)) p) }
{
    plan_alone(alloc, context, command, steps)
}
