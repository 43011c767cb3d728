//! How near points and segments come to the centre of a disc.

use crate::distances::dist2;
use crate::points::{Pt, Seg};
use crate::searches::{PointTest, SegmentTest};
use crate::wide_points::{WidePoint, dot, turn};

/// The points at most `radius` away from `centre`.
#[derive(Clone, Copy)]
pub(crate) struct Disc {
    pub(crate) centre: Pt,
    pub(crate) radius: u32,
}

impl Disc {
    ghost use Rattle.std.specs.Prelude.{◌≡◌};
    ghost use Rattle.planar_geom.specs.Relations.{in_disc};

    /// The disc of a centre and a radius.
    pub(crate) fn of(centre: Pt, radius: u32) -> Disc
        ensures centre_is { result.centre ≡ centre }
        ensures radius_is { result.radius ≡ radius }
    {
        Disc { centre, radius }
    }

    /// Whether a point is in the disc.
    pub(crate) fn holds(&self, p: Pt) -> bool
        ensures { result ≡ in_disc self.now.centre self.now.radius p }
    {
        dist2(p, self.centre) <= square(self.radius)
    }
}

ghost use Rattle.std.specs.Prelude.{◌≡◌, ◌*◌, ◌&&◌, ◌≤ℤ◌, ◌*ℤ◌, ◌-ℤ◌, pos, int_le, int_lt};
ghost use Rattle.planar_geom.specs.Points.{square as square_of};
ghost use Rattle.planar_geom.specs.Figures.{dot as scalar_product};
ghost use Rattle.planar_geom.specs.Relations.{segment_near};

fn square(side: u32) -> u64
    ensures { result ≡ side * side }
{
    u64::from(side) * u64::from(side)
}

/// Whether a segment comes within the disc at the foot of the centre on it.
pub(crate) fn comes_near(s: Seg, disc: &Disc) -> bool
    ensures { result ≡ segment_near disc.now.centre disc.now.radius s }
{
    let to_centre = WidePoint::between(s.a, disc.centre);
    let along = WidePoint::between(s.a, s.b);
    has_foot(to_centre, along) && has_near_foot(to_centre, along, disc.radius)
}

// Whether the foot of the way `e` is on the way `d`, which has a length.
fn has_foot(e: WidePoint, d: WidePoint) -> bool
    ensures { result
        ≡ (int_lt (pos 0) (scalar_product d d) && int_le (pos 0) (scalar_product e d)
        && int_le (scalar_product e d) (scalar_product d d)) }
{
    is_part_of_square(dot(e, d), dot(d, d))
}

// Whether a scalar product is in the range from 0 to a squared length, which is not 0.
fn is_part_of_square(product: i64, length2: i64) -> bool
    ensures { result ≡ (int_lt (pos 0) length2 && int_le (pos 0) product && int_le product length2) }
{
    0 < length2 && 0 <= product && product <= length2
}

// Whether the foot of the way `e` on the line along `d` is at most `radius` from its end.
fn has_near_foot(e: WidePoint, d: WidePoint, radius: u32) -> bool
    ensures { result
        ≡ int_le (pos (square_of (e.x *ℤ d.y -ℤ e.y *ℤ d.x))) (pos (radius * radius) *ℤ scalar_product d d) }
{
    is_low(turn(e, d), radius, dot(d, d))
}

// Whether the height over a side of this squared length, in a triangle of half this area, is at most
// `radius`.
fn is_low(area: i64, radius: u32, length2: i64) -> bool
    requires { pos 0 ≤ℤ length2 }
    ensures { result ≡ int_le (pos (square_of area)) (pos (radius * radius) *ℤ length2) }
{
    let height = u128::from(area.unsigned_abs());
    height * height <= u128::from(square(radius)) * u128::from(length2.unsigned_abs())
}
