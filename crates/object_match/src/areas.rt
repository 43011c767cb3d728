//! Whether a shape meets an area in the sense of WITHIN, INTERSECTS or NEARBY.

ghost use Rattle.std.specs.Prelude.{◌≡◌};
ghost use Rattle.fence_model.specs.Queries.{meets_area, near_disc};

use planar_geom::{Area, Shape, box_dist2, box_of, intersects, within};
use world_data::Kind;

/// Whether the shape meets the area in the sense of the kind. Nothing is near an area that is no disc.
pub fn meets_area(kind: Kind, area: &Area, shape: &Shape) -> bool
    ensures { result ≡ meets_area kind area.now shape.now }
{
    match kind {
        Kind::Within => within(shape, area),
        Kind::Intersects => intersects(shape, area),
        Kind::Near => is_near(shape, area),
    }
}

// Whether the box of the shape comes as near to the centre of a disc as its radius.
fn is_near(shape: &Shape, area: &Area) -> bool
    ensures { result ≡ near_disc shape.now area.now }
{
    match area {
        Area::Disc(centre, radius) => {
            let radius = u64::from(*radius);
            box_dist2(*centre, box_of(shape)) <= radius * radius
        }
        Area::Rect(_) | Area::Figure(_) => false,
    }
}
