//! Squared distances and their roots.

ghost use Rattle.std.specs.Prelude.{◌≡◌, ◌*◌, ◌^◌, ◌≤◌, nat_abs};
ghost use Rattle.planar_geom.specs.Points.{IsCoordinate, dist2 as squared_distance, box_dist2 as squared_box_distance};
ghost use Rattle.planar_geom.specs.Points.{outside_by as distance_outside, floor_root as root_below, IsFloorRoot};

use crate::points::{BBox, Pt};

/// The squared distance of two points.
pub fn dist2(p: Pt, q: Pt) -> u64
    ensures { result ≡ squared_distance p q }
{
    square(p.x().abs_diff(q.x())) + square(p.y().abs_diff(q.y()))
}

/// The squared distance to the nearest point of a box: 0 exactly inside it.
pub fn box_dist2(p: Pt, b: BBox) -> u64
    ensures { result ≡ squared_box_distance p b }
{
    let east = outside_by(b.min().x(), b.max().x(), p.x());
    let north = outside_by(b.min().y(), b.max().y(), p.y());
    square(east) + square(north)
}

fn square(side: u32) -> u64
    requires { side ≤ 2 * 10 ^ 9 }
    ensures value { result ≡ side * side }
    ensures bound { result ≤ 4 * 10 ^ 18 }
{
    u64::from(side) * u64::from(side)
}

// How far `a` stands outside the range from `low` to `high`.
fn outside_by(low: i32, high: i32, a: i32) -> u32
    requires low_in { IsCoordinate low }
    requires high_in { IsCoordinate high }
    requires a_in { IsCoordinate a }
    ensures value { result ≡ nat_abs (distance_outside low high a) }
    ensures bound { result ≤ 2 * 10 ^ 9 }
{
    if a < low {
        low.abs_diff(a)
    } else if high < a {
        a.abs_diff(high)
    } else {
        0
    }
}

/// The greatest number whose square is at most `n`.
pub fn floor_root(n: u64) -> u64
    ensures root { IsFloorRoot n result }
    ensures value { result ≡ root_below n }
{
    n.isqrt()
}
