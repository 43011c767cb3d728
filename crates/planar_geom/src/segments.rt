//! Segments: the side of a line on which a point stands, and where two segments meet.

ghost use Rattle.std.specs.Prelude.{◌≡◌, pos, negsuc, ◌≤ℤ◌, int_le, int_lt};
ghost use Rattle.planar_geom.specs.Figures.{orient as turn, meets as segments_meet, crosses as segments_cross};
ghost use Rattle.planar_geom.specs.Figures.{sides as sides_of};

use crate::points::{Pt, Seg};
use crate::wide_points::{WidePoint, cross};

/// The side of the line from `a` to `b` on which `c` stands: 1 on the left, -1 on the right, 0 on it.
pub fn orient(a: Pt, b: Pt, c: Pt) -> i8
    ensures value { result ≡ turn a b c }
    ensures least { negsuc 0 ≤ℤ result }
    ensures greatest { result ≤ℤ pos 1 }
{
    cross(WidePoint::of(a), WidePoint::of(b), WidePoint::of(c)).signum() as i8
}

/// Whether two segments have a point in common: their boxes meet, and neither has both ends strictly on
/// one side of the other.
pub fn meets(s: Seg, t: Seg) -> bool
    ensures { result ≡ segments_meet s t }
{
    if !s.bounds().meets(t.bounds()) {
        return false;
    }
    reaches(s, t) && reaches(t, s)
}

/// Whether each of two segments has its ends strictly on both sides of the other.
pub(crate) fn crosses(s: Seg, t: Seg) -> bool
    ensures { result ≡ segments_cross s t }
{
    parts(s, t) && parts(t, s)
}

// Whether the ends of `t` do not both stand strictly on one side of `s`.
fn reaches(s: Seg, t: Seg) -> bool
    ensures { result ≡ int_le (sides_of s t) (pos 0) }
{
    sides(s, t) <= 0
}

// Whether the ends of `t` stand strictly on both sides of `s`.
fn parts(s: Seg, t: Seg) -> bool
    ensures { result ≡ int_lt (sides_of s t) (pos 0) }
{
    sides(s, t) < 0
}

// The sides of `s` on which the ends of `t` stand, multiplied.
fn sides(s: Seg, t: Seg) -> i8
    ensures { result ≡ sides_of s t }
{
    orient(s.a, s.b, t.a) * orient(s.a, s.b, t.b)
}
