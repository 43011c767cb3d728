//! Searches through the segments and the points of figures.

use crate::lists::Points;
use crate::points::{Pt, Seg};
use crate::shapes::Part;

/// A question about a segment.
pub(crate) trait SegmentTest {
    ghost use Rattle.std.specs.Prelude.{Bool};
    ghost use Rattle.planar_geom.specs.Figures.{Segment};

    ghost passes: { Self → Segment → Bool };

    /// Whether the segment passes the test.
    fn test(&self, s: Seg) -> bool
        ensures { result ≡ passes self.now s };
}

/// A question about a point.
pub(crate) trait PointTest {
    ghost use Rattle.std.specs.Prelude.{Bool};
    ghost use Rattle.planar_geom.specs.Points.{Point};

    ghost passes: { Self → Point → Bool };

    /// Whether the point passes the test.
    fn test(&self, p: Pt) -> bool
        ensures { result ≡ passes self.now p };
}

ghost use Rattle.std.specs.Prelude.{◌≡◌};
ghost use Rattle.std.specs.List.{list_any};
ghost use Rattle.planar_geom.specs.Figures.{edges, chain_segments, segments_from, ring_points};
ghost use Rattle.planar_geom.specs.Shapes.{segments, vertices, all_vertices};

/// Whether a segment of the part passes the test.
pub(crate) fn any_segment<T: SegmentTest>(part: &Part, test: &T) -> bool
    ensures { result ≡ list_any (T.passes test.now) (segments part.now) }
{
    match part {
        Part::Spot(_) => false,
        Part::Chain(line) => any_in_chain(line.points().as_slice(), test),
        Part::Face(poly) => any_in_rings(poly.rings().as_slice(), test),
    }
}

/// Whether an edge of the rings passes the test.
pub(crate) fn any_in_rings<T: SegmentTest>(rings: &[Points], test: &T) -> bool
    ensures { result ≡ list_any (T.passes test.now) (edges rings.now) }
{
    for ring in rings {
        if any_in_chain(ring.as_slice(), test) {
            return true;
        }
    }
    false
}

/// Whether a segment of the chain passes the test.
pub(crate) fn any_in_chain<T: SegmentTest>(points: &[Pt], test: &T) -> bool
    ensures { result ≡ list_any (T.passes test.now) (chain_segments points.now) }
{
    match points {
        [] => false,
        [first, rest @ ..] => any_from(*first, rest, test),
    }
}

fn any_from<T: SegmentTest>(first: Pt, rest: &[Pt], test: &T) -> bool
    ensures { result ≡ list_any (T.passes test.now) (segments_from first rest.now) }
{
    let mut last = first;
    for next in rest {
        if test.test(Seg { a: last, b: *next }) {
            return true;
        }
        last = *next;
    }
    false
}

/// Whether a point of one of the parts passes the test.
pub(crate) fn any_vertex_of<T: PointTest>(parts: &[Part], test: &T) -> bool
    ensures { result ≡ list_any (T.passes test.now) (all_vertices parts.now) }
{
    for part in parts {
        if any_vertex(part, test) {
            return true;
        }
    }
    false
}

/// Whether a point of the part passes the test.
pub(crate) fn any_vertex<T: PointTest>(part: &Part, test: &T) -> bool
    ensures { result ≡ list_any (T.passes test.now) (vertices part.now) }
{
    match part {
        Part::Spot(p) => test.test(*p),
        Part::Chain(line) => any_point(line.points().as_slice(), test),
        Part::Face(poly) => any_ring_point(poly.rings().as_slice(), test),
    }
}

/// Whether a point of the rings passes the test.
pub(crate) fn any_ring_point<T: PointTest>(rings: &[Points], test: &T) -> bool
    ensures { result ≡ list_any (T.passes test.now) (ring_points rings.now) }
{
    for ring in rings {
        if any_point(ring.as_slice(), test) {
            return true;
        }
    }
    false
}

/// Whether one of the points passes the test.
pub(crate) fn any_point<T: PointTest>(points: &[Pt], test: &T) -> bool
    ensures { result ≡ list_any (T.passes test.now) points.now }
{
    for p in points {
        if test.test(*p) {
            return true;
        }
    }
    false
}
