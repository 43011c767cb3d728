//! Commands on objects, where channels stand beside the objects: a put is weighed with them.
//!
//! A command on objects is planned as if there were no channels, and refused afterwards where a put would make the
//! world too heavy with them: channels weigh, and nothing else of them concerns these commands.

ghost use Rattle.std.specs.Prelude.{◌≡◌, ◌+◌, ◌≤◌, List, IfOk};
ghost use Rattle.world_data.specs.declared.channels.Channel.{Channel};
ghost use Rattle.world_model.specs.Effects.{Effect};
ghost use Rattle.keyspace.specs.Entries.{objects_in};
ghost use Rattle.object_plans.specs.Beside.{channels_weight, is_put, or_full, IsPlanBeside};
ghost use Rattle.object_plans.specs.Kept.{AreKept, most_kept};
ghost use Rattle.object_plans.specs.Moves.{world_with};
ghost use Rattle.object_plans.specs.Plans.{IsPlan};

use crate::answers::say_refusal;
use crate::moves::ObjectChange;
use crate::plans::Plan;
use byte_text::NoMemory;
use keyspace::Keyspace;
use std::alloc::Global;
use world_data::MAX_WEIGHT;
use world_model::Refusal;

// Whether an object is put.
fn is_put(action: &ObjectChange) -> bool
    ensures { result ≡ is_put action.now }
{
    matches!(action, ObjectChange::Put(_))
}

/// The plan of a command whose put is weighed, in a world without channels, as it is beside channels of this weight: a
/// put for which they leave no room is refused. All else goes on, also where the world was too heavy before.
pub(crate) fn beside_channels(
    alloc: Global,
    _objects: &Keyspace,
    total: u64,
    channels: u64,
    plan: Plan,
) -> Result<Plan, NoMemory>
    requires kept { AreKept (objects_in _objects.now) total }
    requires light { total + channels ≤ most_kept }
    requires plan_light { plan.weight ≤ most_kept }
    ensures { (e : Effect) → IsPlan (objects_in _objects.now) e plan → IfOk result (λ p. (cs : List Channel)
        → channels ≡ channels_weight cs
        → IsPlanBeside cs (objects_in _objects.now) (or_full (world_with cs (objects_in _objects.now)) e) p) }
{
    if !is_put(&plan.action) {
        return Ok(plan);
    }
    let weight = plan.weight + channels;
    if weight > MAX_WEIGHT {
        return say_refusal(alloc, total, Refusal::DatabaseFull);
    }
    Ok(plan)
}
