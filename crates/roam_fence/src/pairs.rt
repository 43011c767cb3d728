//! The pairs that a put raises on a channel that roams.
//!
//! One box is searched, round the reach of the object's old place and of its new one: what stands in both is found
//! once, in order of ids. After a long jump it looks at what stands between them. COMMANDS is not asked here; who calls
//! this has asked.

ghost use Rattle.std.specs.Prelude.{◌≡◌, ◌++◌, true, option_map, OnOk};
ghost use Rattle.planar_geom.specs.Points.{IsBox, box_of_disc};
ghost use Rattle.byte_text.specs.Globs.{is_sound_glob, is_well_formed};
ghost use Rattle.collection.specs.Meeting.{IsVisited};
ghost use Rattle.fence_model.specs.Fences.{is_near, place_of, was_near, roamed};
ghost use Rattle.world_data.specs.Sound.{is_sound_watch};
ghost use Rattle.roam_fence.specs.Pairs.{is_near_now, is_target, noted, shown_pairs, told, told_of_all};
ghost use Rattle.roam_fence.specs.Reaches.{HoldsNear};

use crate::lists::RoamList;
use byte_text::{Name, NoMemory};
use collection::{Collection, FoundObjects};
use glob_match::glob_meets;
use object_match::meets_fence;
use ordered_lists::is_same;
use planar_geom::{Area, BBox, area_box, box_of, centre, dist2, met_is_near};
use rtree::{Ledger, Steps};
use std::alloc::Global;
use world_data::{Fence, Object, Watch};

// Which objects a channel compares with, how near two are held to be, and whether those that were near before are left
// out.
#[derive(Clone, Copy)]
struct Reach<'a> {
    pattern: &'a Name,
    meters: u32,
    nodwell: bool,
}

// Whether the centres of the boxes of the two are no further apart than so many meters.
fn is_near(meters: u32, object: &Object, target: &Object) -> bool
    ensures { result ≡ is_near meters object.now target.now }
{
    let meters = u64::from(meters);
    let distance = dist2(centre(box_of(&object.shape)), centre(box_of(&target.shape)));
    distance <= meters * meters
}

// Whether the object, where it was there, was near.
fn was_near(meters: u32, old: Option<&Object>, target: &Object) -> bool
    ensures { result ≡ was_near meters (option_map (λ o. o.now) old.entry) target.now }
{
    match old {
        Some(old) => is_near(meters, old, target),
        None => false,
    }
}

// Whether the target is near now, where the channel tells of it: one that is near, or that was near and is not.
fn roamed(nodwell: bool, before: bool, now: bool) -> Option<bool>
    ensures { result ≡ option_map is_near_now (roamed nodwell before now) }
{
    match (before, now) {
        (false, true) => Some(true),
        (true, true) if nodwell => None,
        (true, true) => Some(true),
        (true, false) => Some(false),
        (false, false) => None,
    }
}

// Whether an object is one of those that the channel compares with: its id meets the pattern, and it is not the object
// itself.
fn is_target(pattern: &Name, new: &Object, target: &Object) -> bool
    requires { is_well_formed pattern.now ≡ true }
    ensures { result ≡ is_target pattern.now new.now target.now }
{
    glob_meets(pattern.bytes(), target.id.bytes())
        && !(is_same(&target.key, &new.key) && is_same(&target.id, &new.id))
}

// What is told of one object of the key.
fn told(reach: Reach<'_>, old: Option<&Object>, new: &Object, target: &Object) -> Option<bool>
    requires { is_well_formed reach.pattern.now ≡ true }
    ensures { result
        ≡ told reach.entry.pattern.now reach.entry.meters reach.entry.nodwell
        (option_map (λ o. o.now) old.entry) new.now target.now }
{
    if !is_target(reach.pattern, new, target) {
        return None;
    }
    roamed(
        reach.nodwell,
        was_near(reach.meters, old, target),
        is_near(reach.meters, new, target),
    )
}

// Notes what is told of one object.
fn note(
    alloc: Global,
    told: Option<bool>,
    target: &Object,
    into: &mut RoamList,
) -> Result<(), NoMemory>
    ensures { OnOk result (into.new ≡ into.old ++ noted target.now told) }
{
    match told {
        Some(near) => into.push(target.id.copy(alloc)?, near),
        None => Ok(()),
    }
}

// The box round all that is no further from the object than so many meters.
fn reach_of(meters: u32, object: &Object) -> BBox
    ensures value { result ≡ box_of_disc (place_of object.now) meters }
    ensures is_box { IsBox result }
{
    let reach = area_box(&Area::Disc(centre(box_of(&object.shape)), meters));
    // A box that tells its corner is one.
    let _low = reach.min();
    reach
}

// The box round all that is near the object, or was near it where it stood before.
fn round_reach(meters: u32, old: Option<&Object>, new: &Object) -> BBox
    ensures { HoldsNear meters (option_map (λ o. o.now) old.entry) new.now result }
{
    // A law, of which nothing is left at run time.
    met_is_near();
    let reach = reach_of(meters, new);
    match old {
        Some(old) => reach.with_box(reach_of(meters, old)),
        None => reach,
    }
}

// Appends what is told of these targets.
fn push_found(
    alloc: Global,
    reach: Reach<'_>,
    targets: &FoundObjects<'_>,
    old: Option<&Object>,
    new: &Object,
    into: &mut RoamList,
) -> Result<(), NoMemory>
    requires { is_well_formed reach.pattern.now ≡ true }
    ensures { OnOk result
        (into.new ≡ into.old ++ told_of_all reach.entry.pattern.now reach.entry.meters reach.entry.nodwell
        (option_map (λ o. o.now) old.entry) new.now targets.now) }
{
    for i in 0..targets.len() {
        let target = targets.at(i);
        note(alloc, told(reach, old, new, target), target, into)?;
    }
    Ok(())
}

// Appends what is told of all targets, by ascending id. Those alone are looked at that may be near, or were.
fn push_pairs<L: Ledger>(
    alloc: Global,
    reach: Reach<'_>,
    targets: &Collection,
    old: Option<&Object>,
    new: &Object,
    into: &mut RoamList,
    steps: &mut Steps<L>,
) -> Result<(), NoMemory>
    requires { is_well_formed reach.pattern.now ≡ true }
    ensures pairs { OnOk result
        (into.new ≡ into.old ++ told_of_all reach.entry.pattern.now reach.entry.meters reach.entry.nodwell
        (option_map (λ o. o.now) old.entry) new.now targets.now.objects) }
    ensures visits { IsVisited targets.now.objects steps.old.count steps.new.count }
{
    let round = round_reach(reach.meters, old, new);
    let mut found = FoundObjects::new(alloc);
    targets.met(alloc, round, &mut found, steps)?;
    push_found(alloc, reach, &found, old, new, into)
}

/// Appends the pairs that a put of an object raises on a channel that roams: of the objects of the channel's second key
/// (`targets`), by ascending id, those whose id meets the pattern and that are near now (with NODWELL: and were not
/// near before), and those that were near before and are not. Without an old object nothing was near. Where the object
/// does not meet the channel's MATCH and tests, or the channel does not roam, there is none. After want of memory the
/// list holds its old items and some of these. Targets are looked at whose box meets the box round what is near the
/// object, or was, and the steps rise by the nodes of the tree that are visited.
pub fn near_pairs<L: Ledger>(
    alloc: Global,
    fence: &Fence,
    targets: &Collection,
    old: Option<&Object>,
    new: &Object,
    into: &mut RoamList,
    steps: &mut Steps<L>,
) -> Result<(), NoMemory>
    requires glob { is_sound_glob fence.now.glob ≡ true }
    requires pattern { is_sound_watch fence.now.watch ≡ true }
    ensures { OnOk result
        (into.new ≡ into.old ++ shown_pairs fence.now (option_map (λ o. o.now) old.entry) new.now targets.now.objects) }
{
    let Watch::Roam(_, pattern, meters, nodwell) = &fence.watch else {
        return Ok(());
    };
    if !meets_fence(fence, new) {
        return Ok(());
    }
    let reach = Reach {
        pattern,
        meters: *meters,
        nodwell: *nodwell,
    };
    push_pairs(alloc, reach, targets, old, new, into, steps)
}
