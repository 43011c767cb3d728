//! Laws of the index: each is what a function that does nothing ensures.
//!
//! That what is not named raises nothing is a law of all whole channels and objects: one about a single channel would
//! have to be called for each that is not named.

ghost use Rattle.std.specs.Prelude.{◌≡◌, [], true, false, Some, None, List, option_map};
ghost use Rattle.planar_geom.specs.Points.{box_round_both};
ghost use Rattle.planar_geom.specs.Shapes.{box_of as box_of_shape};
ghost use Rattle.world_data.specs.Worlds.{object_at};
ghost use Rattle.fence_model.specs.Fences.{in_watch, crosses_watch, near_pairs, raised_of};
ghost use Rattle.fence_model.specs.Messages.{payloads};
ghost use Rattle.fence_model.specs.Queries.{meets_area};
ghost use Rattle.world_data.specs.declared.channels.Kind.{Kind};
ghost use Rattle.world_data.specs.declared.objects.Object.{Object};
ghost use Rattle.world_data.specs.declared.worlds.World.{World};
ghost use Rattle.world_data.specs.declared.worlds.Change.TheVariants.{Put, Del};
ghost use Rattle.planar_geom.specs.Points.{boxes_meet};
ghost use Rattle.planar_geom.specs.Relations.{area_box as box_of_area};
ghost use Rattle.fence_index.specs.Marks.{mark_of, watched_box};
ghost use Rattle.fence_index.specs.Candidates.{both_meet, box_if, is_concerned};
ghost use Rattle.fence_index.specs.Silence.{IsWholeWatch, UnconcernedAreSilent};

use planar_geom::{
    Area, Shape, area_box, area_is_whole, box_of, box_round_both_holds, centre, met_boxes_meet,
    met_is_near, near_boxes_meet, way_stays_in_both_boxes,
};
use world_data::{Channel, Object, Watch};

// What meets an area, in any sense, has a box that meets the area's box.
fn met_area_is_near(shape: &Shape, area: &Area)
    ensures { (kind : Kind) → meets_area kind area.now shape.now ≡ true
        → boxes_meet (box_of_shape shape.now) (box_of_area area.now) ≡ true }
{
    met_boxes_meet(shape, area);
    if let Area::Disc(centre, radius) = area {
        near_boxes_meet(*centre, *radius, box_of(shape));
    }
}

// What is in the area that is watched has a box that meets the area's.
fn watched_is_near(watch: &Watch, object: &Object)
    ensures { in_watch watch.now object.now ≡ true
        → both_meet (Some (box_of_shape object.now.shape)) (watched_box watch.now) ≡ true }
{
    if let Watch::Zone(_, area) = watch {
        met_area_is_near(&object.shape, area);
    }
}

// An object that was in the area that is watched, is in it, or crosses it on its way: the box round both places meets
// the area's.
fn moved_is_near(watch: &Watch, old: &Object, new: &Object)
    ensures old { in_watch watch.now old.now ≡ true
        → both_meet (Some (box_round_both (box_of_shape old.now.shape) (box_of_shape new.now.shape)))
        (watched_box watch.now) ≡ true }
    ensures new { in_watch watch.now new.now ≡ true
        → both_meet (Some (box_round_both (box_of_shape old.now.shape) (box_of_shape new.now.shape)))
        (watched_box watch.now) ≡ true }
    ensures way { crosses_watch watch.now old.now new.now ≡ true
        → both_meet (Some (box_round_both (box_of_shape old.now.shape) (box_of_shape new.now.shape)))
        (watched_box watch.now) ≡ true }
{
    if let Watch::Zone(_, area) = watch {
        let (from, to) = (box_of(&old.shape), box_of(&new.shape));
        met_area_is_near(&old.shape, area);
        met_area_is_near(&new.shape, area);
        way_stays_in_both_boxes(from, to, area);
        box_round_both_holds(from, to, area_box(area), centre(from));
    }
}

/// A channel that a put does not concern raises nothing: neither what an area detects nor a roaming pair, and so no
/// message.
pub fn unconcerned_by_put(channel: &Channel, old: Option<&Object>, new: &Object)
    ensures raised { is_concerned (box_if (option_map (λ o. o.now) old.entry)) (box_if (Some new.now))
        (mark_of channel.now) ≡ false
        → raised_of channel.now (option_map (λ o. o.now) old.entry) (Some new.now) ≡ [] }
    ensures pairs { is_concerned (box_if (option_map (λ o. o.now) old.entry)) (box_if (Some new.now))
        (mark_of channel.now) ≡ false
        → (targets : List Object)
        → near_pairs channel.now.fence (option_map (λ o. o.now) old.entry) new.now targets ≡ [] }
    ensures messages { is_concerned (box_if (option_map (λ o. o.now) old.entry)) (box_if (Some new.now))
        (mark_of channel.now) ≡ false
        → (w : World) → object_at w new.now.key new.now.id ≡ option_map (λ o. o.now) old.entry
        → payloads w (Put new.now) channel.now ≡ [] }
{
    let watch = &channel.fence.watch;
    match old {
        Some(old) => moved_is_near(watch, old, new),
        None => watched_is_near(watch, new),
    }
}

/// A channel that a del does not concern raises nothing, and so no message.
pub fn unconcerned_by_del(channel: &Channel, old: &Object)
    ensures raised { is_concerned (box_if (Some old.now)) None (mark_of channel.now) ≡ false
        → raised_of channel.now (Some old.now) None ≡ [] }
    ensures messages { is_concerned (box_if (Some old.now)) None (mark_of channel.now) ≡ false
        → (w : World) → object_at w old.now.key old.now.id ≡ Some old.now
        → payloads w (Del old.now.key old.now.id) channel.now ≡ [] }
{
    watched_is_near(&channel.fence.watch, old);
}

/// What a channel watches is whole, as every area is.
pub fn watch_is_whole(watch: &Watch)
    ensures { IsWholeWatch watch.now }
{
    if let Watch::Zone(_, area) = watch {
        area_is_whole(area);
    }
}

/// Of all whole channels and objects: a channel that a put or a del does not concern raises nothing.
pub fn unconcerned_are_silent()
    ensures { UnconcernedAreSilent }
{
    met_is_near();
}
