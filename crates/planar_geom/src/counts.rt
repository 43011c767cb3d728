//! How many positions parts have, as far as there is room for them.

ghost use Rattle.std.specs.Prelude.{◌≡◌, length};
ghost use Rattle.planar_geom.specs.Figures.{ring_points};
ghost use Rattle.planar_geom.specs.Shapes.{vertices, positions, count_within};

use crate::lists::Points;
use crate::shapes::Part;

/// The number of points in all parts; `None` exactly where it is over `room`.
pub(crate) fn positions_within(parts: &[Part], room: u32) -> Option<u32>
    ensures { result ≡ count_within room (positions parts.now) }
{
    let mut left = room;
    for part in parts {
        left -= points_of_part(part, left)?;
    }
    Some(room - left)
}

fn points_of_part(part: &Part, room: u32) -> Option<u32>
    ensures { result ≡ count_within room (length (vertices part.now)) }
{
    match part {
        Part::Spot(_) => length_within(1, room),
        Part::Chain(line) => length_within(line.points().as_slice().len(), room),
        Part::Face(poly) => points_of_rings(poly.rings().as_slice(), room),
    }
}

fn points_of_rings(rings: &[Points], room: u32) -> Option<u32>
    ensures { result ≡ count_within room (length (ring_points rings.now)) }
{
    let mut left = room;
    for ring in rings {
        left -= length_within(ring.as_slice().len(), left)?;
    }
    Some(room - left)
}

fn length_within(length: usize, room: u32) -> Option<u32>
    ensures { result ≡ count_within room length }
{
    match u32::try_from(length) {
        Ok(length) if length <= room => Some(length),
        _ => None,
    }
}
