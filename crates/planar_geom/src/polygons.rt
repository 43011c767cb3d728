//! Where a point stands to a polygon.

use crate::lists::{Points, Poly};
use crate::points::{Pt, Seg};
use crate::wide_points::{WidePoint, cross};

/// The whole coordinates of the plane, or the doubled ones in which the middle of a segment is whole.
#[derive(Clone, Copy)]
enum Grid {
    Whole,
    Doubled,
}

impl Grid {
    ghost use Rattle.std.specs.Prelude.{◌≡◌};
    ghost use Rattle.planar_geom.specs.Standings.{on_grid};

    fn place(self, p: Pt) -> WidePoint
        ensures { result ≡ on_grid self p }
    {
        match self {
            Grid::Whole => WidePoint::of(p),
            Grid::Doubled => WidePoint::doubled(p),
        }
    }
}

ghost use Rattle.std.specs.Prelude.{◌≡◌, [], ◌∷◌, map, fold};
ghost use Rattle.planar_geom.specs.Figures.{in_poly as is_in_poly, strictly_in as is_strictly_in, doubled};
ghost use Rattle.planar_geom.specs.Figures.{doubled_middle, edges, chain_segments, segments_from, segment, on_segment};
ghost use Rattle.planar_geom.specs.Figures.{passes_right as passes_right_of};
ghost use Rattle.planar_geom.specs.Standings.{on_grid, parity as parity_of, with_edge};

/// Whether a point is on an edge of a polygon, or inside it by parity: an odd number of edges passes its
/// height strictly to its right, each edge taken half-open in y.
pub fn in_poly(p: Pt, poly: &Poly) -> bool
    ensures { result ≡ is_in_poly poly.now p }
{
    in_rings(p, poly.rings().as_slice())
}

/// Whether a point is on an edge of the rings, or inside by parity.
pub(crate) fn in_rings(p: Pt, rings: &[Points]) -> bool
    ensures { result ≡ is_in_poly rings.now p }
{
    parity(rings, Grid::Whole, WidePoint::of(p)).unwrap_or(true)
}

/// Whether a point is inside the rings by parity, and on no edge.
pub(crate) fn strictly_in(p: Pt, rings: &[Points]) -> bool
    ensures { result ≡ is_strictly_in rings.now p }
{
    parity(rings, Grid::Whole, WidePoint::of(p)).unwrap_or(false)
}

/// Whether the middle of a segment is in the rings, in doubled coordinates.
pub(crate) fn hold_middle(rings: &[Points], s: Seg) -> bool
    ensures { result ≡ is_in_poly (map (map doubled) rings.now) (doubled_middle s) }
{
    parity(rings, Grid::Doubled, WidePoint::middle(s)).unwrap_or(true)
}

/// Whether a point is on an edge of the polygon of one ring, or inside it by parity.
pub(crate) fn in_ring(p: Pt, ring: &[Pt]) -> bool
    ensures { result ≡ is_in_poly (ring.now ∷ []) p }
{
    past_ring(ring, Grid::Whole, WidePoint::of(p), Some(false)).unwrap_or(true)
}

// Whether an odd number of the rings' edges passes to the right of a place; `None` where it is on one.
fn parity(rings: &[Points], grid: Grid, p: WidePoint) -> Option<bool>
    ensures { result ≡ parity_of (edges (map (map (on_grid grid)) rings.now)) p }
{
    let mut odd = Some(false);
    for ring in rings {
        odd = past_ring(ring.as_slice(), grid, p, odd);
    }
    odd
}

fn past_ring(ring: &[Pt], grid: Grid, p: WidePoint, odd: Option<bool>) -> Option<bool>
    ensures { result ≡ fold (with_edge p) odd (chain_segments (map (on_grid grid) ring.now)) }
{
    match ring {
        [] => odd,
        [first, rest @ ..] => past_chain(grid.place(*first), rest, grid, p, odd),
    }
}

fn past_chain(
    first: WidePoint,
    rest: &[Pt],
    grid: Grid,
    p: WidePoint,
    before: Option<bool>,
) -> Option<bool>
    ensures { result ≡ fold (with_edge p) before (segments_from first (map (on_grid grid) rest.now)) }
{
    let mut odd = before;
    let mut last = first;
    for next in rest {
        let next = grid.place(*next);
        odd = past_edge(last, next, p, odd);
        last = next;
    }
    odd
}

fn past_edge(a: WidePoint, b: WidePoint, p: WidePoint, odd: Option<bool>) -> Option<bool>
    ensures { result ≡ with_edge p odd (segment a b) }
{
    let odd = odd?;
    if is_on_edge(a, b, p) {
        return None;
    }
    Some(odd != passes_right(a, b, p))
}

// Whether the place is on the segment from `a` to `b`.
fn is_on_edge(a: WidePoint, b: WidePoint, p: WidePoint) -> bool
    ensures { result ≡ on_segment p (segment a b) }
{
    p.is_between(a, b) && cross(a, b, p) == 0
}

// Whether the segment from `a` to `b` passes the place's height strictly to its right.
fn passes_right(a: WidePoint, b: WidePoint, p: WidePoint) -> bool
    ensures { result ≡ passes_right_of p (segment a b) }
{
    let rises = p.is_under(b);
    if p.is_under(a) == rises {
        return false;
    }
    if rises {
        cross(a, b, p) > 0
    } else {
        cross(a, b, p) < 0
    }
}
