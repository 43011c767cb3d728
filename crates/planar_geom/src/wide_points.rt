//! Points in doubled coordinates beside those of the plane, and the side of a line on which one stands.

use crate::points::{Pt, Seg};
use std::marker::Model;

/// A point whose coordinates are at most twice [`crate::MAX_COORD`] in size: one of the plane, one in
/// doubled coordinates, in which the middle of a segment is whole, or the way between two points.
#[derive(Clone, Copy)]
pub(crate) struct WidePoint {
    x: i64,
    y: i64,
}

impl Model for WidePoint {
    ghost use Rattle.planar_geom.specs.Points.{Point, pt, InDoubledPlane};

    ghost Value = { Point };

    ghost view = { λ p. pt p.x p.y };

    ghost invariant = { λ p. InDoubledPlane (pt p.x p.y) };

    ghost inverse = { λ p. record { x = p.x; y = p.y } };
}

impl WidePoint {
    ghost use Rattle.std.specs.Prelude.{◌≡◌};
    ghost use Rattle.planar_geom.specs.Points.{in_box};
    ghost use Rattle.planar_geom.specs.Figures.{doubled, doubled_middle, segment, above, box_of_segment, minus};

    /// A point of the plane.
    pub(crate) fn of(p: Pt) -> WidePoint
        ensures { result ≡ p }
    {
        WidePoint {
            x: i64::from(p.x()),
            y: i64::from(p.y()),
        }
    }

    /// A point of the plane in doubled coordinates.
    pub(crate) fn doubled(p: Pt) -> WidePoint
        ensures { result ≡ doubled p }
    {
        WidePoint {
            x: 2 * i64::from(p.x()),
            y: 2 * i64::from(p.y()),
        }
    }

    /// The way from `a` to `b`.
    pub(crate) fn between(a: Pt, b: Pt) -> WidePoint
        ensures { result ≡ minus b a }
    {
        WidePoint {
            x: i64::from(b.x()) - i64::from(a.x()),
            y: i64::from(b.y()) - i64::from(a.y()),
        }
    }

    /// The middle of a segment in doubled coordinates.
    pub(crate) fn middle(s: Seg) -> WidePoint
        ensures { result ≡ doubled_middle s }
    {
        WidePoint {
            x: i64::from(s.a.x()) + i64::from(s.b.x()),
            y: i64::from(s.a.y()) + i64::from(s.b.y()),
        }
    }

    /// Whether the place is under another.
    pub(crate) fn is_under(self, other: WidePoint) -> bool
        ensures { result ≡ above self other }
    {
        self.y < other.y
    }

    /// Whether the place is in the least box round two others.
    pub(crate) fn is_between(self, a: WidePoint, b: WidePoint) -> bool
        ensures { result ≡ in_box (box_of_segment (segment a b)) self }
    {
        is_between(a.x, b.x, self.x) && is_between(a.y, b.y, self.y)
    }
}

ghost use Rattle.std.specs.Prelude.{◌≡◌, ◌*◌, ◌*ℤ◌, ◌-ℤ◌, ◌≤ℤ◌, ◌^◌, pos, neg_ℤ};
ghost use Rattle.std.specs.Int.{int_min, int_max};
ghost use Rattle.planar_geom.specs.Points.{in_range};
ghost use Rattle.planar_geom.specs.Figures.{cross as cross_product, dot as scalar_product};

// Whether a number is in the range that has `a` and `b` for its ends.
fn is_between(a: i64, b: i64, number: i64) -> bool
    ensures { result ≡ in_range (int_min a b) (int_max a b) number }
{
    a.min(b) <= number && number <= a.max(b)
}

/// Twice the area of the triangle `a`, `b`, `c`: positive where they go round against the clock.
pub(crate) fn cross(a: WidePoint, b: WidePoint, c: WidePoint) -> i128
    ensures value { result ≡ cross_product a b c }
    ensures above { neg_ℤ (pos (2 ^ 66)) ≤ℤ result }
    ensures below { result ≤ℤ pos (2 ^ 66) }
{
    product(b.x - a.x, c.y - a.y) - product(b.y - a.y, c.x - a.x)
}

fn product(a: i64, b: i64) -> i128
    requires a_above { neg_ℤ (pos (2 ^ 32)) ≤ℤ a }
    requires a_below { a ≤ℤ pos (2 ^ 32) }
    requires b_above { neg_ℤ (pos (2 ^ 32)) ≤ℤ b }
    requires b_below { b ≤ℤ pos (2 ^ 32) }
    ensures value { result ≡ a *ℤ b }
    ensures above { neg_ℤ (pos (2 ^ 64)) ≤ℤ result }
    ensures below { result ≤ℤ pos (2 ^ 64) }
{
    i128::from(a) * i128::from(b)
}

/// The scalar product of two ways.
pub(crate) fn dot(d: WidePoint, e: WidePoint) -> i64
    ensures { result ≡ scalar_product d e }
{
    short_product(d.x, e.x) + short_product(d.y, e.y)
}

/// Twice the area between two ways.
pub(crate) fn turn(e: WidePoint, d: WidePoint) -> i64
    ensures { result ≡ e.x *ℤ d.y -ℤ e.y *ℤ d.x }
{
    short_product(e.x, d.y) - short_product(e.y, d.x)
}

fn short_product(a: i64, b: i64) -> i64
    requires a_above { neg_ℤ (pos (2 * 10 ^ 9)) ≤ℤ a }
    requires a_below { a ≤ℤ pos (2 * 10 ^ 9) }
    requires b_above { neg_ℤ (pos (2 * 10 ^ 9)) ≤ℤ b }
    requires b_below { b ≤ℤ pos (2 * 10 ^ 9) }
    ensures value { result ≡ a *ℤ b }
    ensures above { neg_ℤ (pos (4 * 10 ^ 18)) ≤ℤ result }
    ensures below { result ≤ℤ pos (4 * 10 ^ 18) }
{
    a * b
}
