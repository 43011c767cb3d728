//! What a change of an object raises on a channel that watches an area.
//!
//! The table never raises more than two items, so the answer is a pair. The way between two places is looked at only
//! where the object was not in the fence and is not.

ghost use Rattle.std.specs.Prelude.{◌≡◌, [], true, filter, map, Option, None, option_map};
ghost use Rattle.byte_text.specs.Globs.{is_sound_glob};
ghost use Rattle.fence_model.specs.Fences.{raised_by_del, raised_by_put, raised_of, wants_detect};
ghost use Rattle.world_data.specs.declared.channels.Raised.TheVariants as raised_item;
ghost use Rattle.fence_table.specs.Pairs.{items};

use crate::detections::{detections, was_in};
use world_data::{Channel, Detect, Fence, Object, Raised, Wanted};

/// What a change raises on a channel: at most two items, in order.
#[derive(Clone, Copy, Debug, PartialEq, Eq)]
pub struct Pair {
    pub first: Option<Raised>,
    pub second: Option<Raised>,
}

impl Pair {
    fn nothing() -> Pair
        ensures { items result.first result.second ≡ [] }
    {
        Pair {
            first: None,
            second: None,
        }
    }
}

fn wants(wanted: Wanted, detect: Detect) -> bool
    ensures { result ≡ wants_detect wanted detect }
{
    match detect {
        Detect::Inside => wanted.inside,
        Detect::Outside => wanted.outside,
        Detect::Enter => wanted.enter,
        Detect::Exit => wanted.exit,
        Detect::Cross => wanted.cross,
        Detect::Near | Detect::Far => true,
    }
}

// What is raised of a thing that was detected: nothing where DETECT does not want it.
fn kept(wanted: Wanted, detect: Option<Detect>) -> Option<Raised>
    ensures { items result None ≡ map raised_item.Set (filter (wants_detect wanted) (items detect None)) }
{
    match detect {
        Some(detect) if wants(wanted, detect) => Some(Raised::Set(detect)),
        _ => None,
    }
}

// What a put raises: what is detected and wanted, and nothing where COMMANDS does not have `set`.
fn raised_by_put(fence: &Fence, old: Option<&Object>, new: &Object) -> Pair
    requires { is_sound_glob fence.now.glob ≡ true }
    ensures { items result.first result.second
        ≡ map raised_item.Set (raised_by_put fence.now (option_map (λ o. o.now) old.entry) new.now) }
{
    if !fence.wanted.set {
        return Pair::nothing();
    }
    let found = detections(fence, old, new);
    Pair {
        first: kept(fence.wanted, found.first),
        second: kept(fence.wanted, found.second),
    }
}

/// What a put or a del raises on a channel that watches an area, for the object of one key and id before it and after
/// it: exactly the items of the table that DETECT and COMMANDS want, in order. A channel that roams raises nothing
/// here.
pub fn raised(channel: &Channel, old: Option<&Object>, new: Option<&Object>) -> Pair
    requires { is_sound_glob channel.now.fence.glob ≡ true }
    ensures { items result.first result.second
        ≡ raised_of channel.now (option_map (λ o. o.now) old.entry) (option_map (λ o. o.now) new.entry) }
{
    let fence = &channel.fence;
    match new {
        Some(new) => raised_by_put(fence, old, new),
        None if fence.wanted.del && was_in(fence, old) => Pair {
            first: Some(Raised::Del),
            second: None,
        },
        None => Pair::nothing(),
    }
}
