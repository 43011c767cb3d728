//! Boxes that decide whether a change concerns a channel.

ghost use Rattle.std.specs.Prelude.{◌≡◌};
ghost use Rattle.fence_index.specs.Candidates.{round_of};
ghost use Rattle.fence_index.specs.Marks.{mark_of};
ghost use Rattle.fence_index.specs.Reasons.{Near, Wide, Always, box_for, spot as spot_box};

use crate::marks::watched_box;
use planar_geom::{BBox, Pt};
use world_data::Channel;

/// The least box round what is there of the two.
pub(crate) fn round_of(old: Option<BBox>, new: Option<BBox>) -> Option<BBox>
    ensures { result ≡ round_of old new }
{
    match (old, new) {
        (Some(old), Some(new)) => Some(old.with_box(new)),
        (Some(old), None) => Some(old),
        (None, new) => new,
    }
}

/// The box of a channel that is named where its area is near, and for no other reason.
pub(crate) fn near_box(channel: &Channel) -> Option<BBox>
    ensures { result ≡ box_for Near (mark_of channel.now) }
{
    if channel.fence.wanted.outside {
        None
    } else {
        watched_box(&channel.fence.watch)
    }
}

/// The box of a channel that is named where its area is near, and where an object was put.
pub(crate) fn wide_box(channel: &Channel) -> Option<BBox>
    ensures { result ≡ box_for Wide (mark_of channel.now) }
{
    if channel.fence.wanted.outside {
        watched_box(&channel.fence.watch)
    } else {
        None
    }
}

/// The box under which a channel stands that is named where an object was put: one that roams or wants `outside`.
pub(crate) fn always_box(channel: &Channel) -> Option<BBox>
    ensures { result ≡ box_for Always (mark_of channel.now) }
{
    if watched_box(&channel.fence.watch).is_none() || channel.fence.wanted.outside {
        Some(spot())
    } else {
        None
    }
}

/// The one box of all that are named where an object was put: it meets itself.
pub(crate) fn spot() -> BBox
    ensures { result ≡ spot_box }
{
    let Some(origin) = Pt::of(0, 0) else {
        unreachable!();
    };
    match BBox::of(origin, origin) {
        Some(spot) => spot,
        None => unreachable!(),
    }
}
