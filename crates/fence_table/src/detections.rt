//! The table of detections: what a put of an object means for a fence, whether it is wanted or not.

ghost use Rattle.std.specs.Prelude.{◌≡◌, ◌∷◌, [], true, false, Option, option_map};
ghost use Rattle.byte_text.specs.Globs.{is_sound_glob};
ghost use Rattle.fence_model.specs.Fences.{crossed, crosses_watch, detected, is_in_fence, meets_fence, was_in};
ghost use Rattle.fence_table.specs.Pairs.{items, detections_of};

use object_match::{is_in_fence, meets_fence};
use planar_geom::{box_of, centre, way_meets};
use world_data::{Detect, Fence, Object, Watch};

/// What is detected: at most two things, in order.
#[derive(Clone, Copy, Debug, PartialEq, Eq)]
pub(crate) struct Detected {
    pub(crate) first: Option<Detect>,
    pub(crate) second: Option<Detect>,
}

fn one(detect: Detect) -> Detected
    ensures { items result.first result.second ≡ detect ∷ [] }
{
    Detected {
        first: Some(detect),
        second: None,
    }
}

fn two(first: Detect, second: Detect) -> Detected
    ensures { items result.first result.second ≡ first ∷ second ∷ [] }
{
    Detected {
        first: Some(first),
        second: Some(second),
    }
}

/// Whether the old object, where there was one, was in the fence.
pub(crate) fn was_in(fence: &Fence, old: Option<&Object>) -> bool
    requires { is_sound_glob fence.now.glob ≡ true }
    ensures { result ≡ was_in fence.now (option_map (λ o. o.now) old.entry) }
{
    match old {
        Some(object) => is_in_fence(fence, object),
        None => false,
    }
}

// Whether the way between the centres of the two boxes meets the area that is watched.
fn crossed(fence: &Fence, old: Option<&Object>, new: &Object) -> bool
    ensures { result ≡ crossed fence.now (option_map (λ o. o.now) old.entry) new.now }
{
    match old {
        Some(old) => crosses_watch(&fence.watch, old, new),
        None => false,
    }
}

fn crosses_watch(watch: &Watch, old: &Object, new: &Object) -> bool
    ensures { result ≡ crosses_watch watch.now old.now new.now }
{
    match watch {
        Watch::Zone(_, area) => way_meets(
            centre(box_of(&old.shape)),
            centre(box_of(&new.shape)),
            area,
        ),
        Watch::Roam(_, _, _, _) => false,
    }
}

// What is detected of an object that was not in the fence and is not. The way is asked for here alone.
fn outside(fence: &Fence, old: Option<&Object>, new: &Object) -> Detected
    requires { is_sound_glob fence.now.glob ≡ true }
    ensures { items result.first result.second
        ≡ detected false false (meets_fence fence.now new.now) (crossed fence.now (option_map (λ o. o.now) old.entry) new.now) }
{
    if !meets_fence(fence, new) {
        return Detected {
            first: None,
            second: None,
        };
    }
    if crossed(fence, old, new) {
        two(Detect::Cross, Detect::Outside)
    } else {
        one(Detect::Outside)
    }
}

/// What a put of an object means for a fence: it entered, left, stays inside or outside, or crossed.
pub(crate) fn detections(fence: &Fence, old: Option<&Object>, new: &Object) -> Detected
    requires { is_sound_glob fence.now.glob ≡ true }
    ensures { items result.first result.second ≡ detections_of fence.now (option_map (λ o. o.now) old.entry) new.now }
{
    match (was_in(fence, old), is_in_fence(fence, new)) {
        (false, true) => two(Detect::Enter, Detect::Inside),
        (true, false) => two(Detect::Exit, Detect::Outside),
        (true, true) => one(Detect::Inside),
        (false, false) => outside(fence, old, new),
    }
}
