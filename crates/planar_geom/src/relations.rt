//! Whether a shape meets an area, and whether it lies in one.

ghost use Rattle.std.specs.Prelude.{◌≡◌, ◌∷◌, []};
ghost use Rattle.std.specs.List.{list_any, list_all};
ghost use Rattle.planar_geom.specs.Shapes.{all_vertices};
ghost use Rattle.planar_geom.specs.Relations.{intersects as is_met, within as is_inside, way_meets as is_on_way};
ghost use Rattle.planar_geom.specs.Relations.{figures_touch, face_of, touch, reaches_disc, in_disc};
ghost use Rattle.planar_geom.specs.Relations.{lies_in as lies_in_face, lies_in_part, no_hole_inside};

use crate::boxes::{box_of, box_of_part};
use crate::discs::Disc;
use crate::lists::{Points, Poly};
use crate::points::{BBox, Pt, Seg};
use crate::polygons::{hold_middle, in_rings, strictly_in};
use crate::regions::{Region, reaches, touches};
use crate::searches::{
    PointTest, SegmentTest, any_in_rings, any_ring_point, any_segment, any_vertex, any_vertex_of,
};
use crate::segments::crosses;
use crate::shapes::{Area, Part, Shape};

/// Whether a shape and an area have a point in common.
pub fn intersects(shape: &Shape, area: &Area) -> bool
    ensures { result ≡ is_met shape.now area.now }
{
    match area {
        Area::Rect(b) => meets_box(shape, *b),
        Area::Disc(centre, radius) => any_reaches(shape.parts(), &Disc::of(*centre, *radius)),
        Area::Figure(other) => meets_shape(shape, other),
    }
}

fn meets_box(shape: &Shape, b: BBox) -> bool
    ensures { result ≡ figures_touch shape.now (face_of b ∷ []) }
{
    if !box_of(shape).meets(b) {
        return false;
    }
    any_touches_box(shape.parts(), &b)
}

fn any_touches_box(parts: &[Part], b: &BBox) -> bool
    ensures { result ≡ list_any (λ part. touch part (face_of b.now)) parts.now }
{
    parts.iter().any(|part| touches(part, b))
}

fn meets_shape(shape: &Shape, other: &Shape) -> bool
    ensures { result ≡ figures_touch shape.now other.now }
{
    if !box_of(shape).meets(box_of(other)) {
        return false;
    }
    any_touches(shape.parts(), other.parts())
}

fn any_touches(parts: &[Part], others: &[Part]) -> bool
    ensures { result ≡ list_any (λ part. list_any (touch part) others.now) parts.now }
{
    parts.iter().any(|part| touches_any(part, others))
}

fn touches_any<A: Region>(a: &A, others: &[Part]) -> bool
    ensures { result ≡ list_any (touch (A.part a.now)) others.now }
{
    for other in others {
        if touches(a, other) {
            return true;
        }
    }
    false
}

fn any_reaches(parts: &[Part], disc: &Disc) -> bool
    ensures { result ≡ list_any (λ part. reaches_disc part disc.now.centre disc.now.radius) parts.now }
{
    parts.iter().any(|part| reaches(part, disc))
}

/// Whether the straight way between two points meets an area.
pub fn way_meets(from: Pt, to: Pt, area: &Area) -> bool
    ensures { result ≡ is_on_way from to area.now }
{
    let way = Seg { a: from, b: to };
    match area {
        Area::Rect(b) => way.bounds().meets(*b) && touches(&way, b),
        Area::Disc(centre, radius) => reaches(&way, &Disc::of(*centre, *radius)),
        Area::Figure(other) => {
            way.bounds().meets(box_of(other)) && touches_any(&way, other.parts())
        }
    }
}

/// Whether a shape lies in an area. In a box or a disc it does where all of its points do; in a figure,
/// where each of its parts lies in one face.
pub fn within(shape: &Shape, area: &Area) -> bool
    ensures { result ≡ is_inside shape.now area.now }
{
    match area {
        Area::Rect(b) => !any_vertex_of(shape.parts(), &OutsideBox(*b)),
        Area::Disc(centre, radius) => !any_vertex_of(
            shape.parts(),
            &OutsideDisc(&Disc::of(*centre, *radius)),
        ),
        Area::Figure(other) => all_lie_in(shape.parts(), other.parts()),
    }
}

fn all_lie_in(parts: &[Part], others: &[Part]) -> bool
    ensures { result ≡ list_all (λ part. list_any (lies_in_part part) others.now) parts.now }
{
    parts.iter().all(|part| lies_in_any(part, others))
}

fn lies_in_any(part: &Part, others: &[Part]) -> bool
    ensures { result ≡ list_any (lies_in_part part.now) others.now }
{
    others.iter().any(|other| match other {
        Part::Face(poly) => lies_in(part, poly),
        _ => false,
    })
}

fn lies_in(part: &Part, poly: &Poly) -> bool
    ensures { result ≡ lies_in_face part.now poly.now }
{
    if !poly.bounds().holds_box(box_of_part(part)) {
        return false;
    }
    lies_in_rings(part, poly.rings().as_slice())
}

// Whether a part lies in a face: its points and the middles of its segments are in it, no segment crosses
// an edge, and the part goes round no hole.
fn lies_in_rings(part: &Part, rings: &[Points]) -> bool
    ensures { result ≡ lies_in_face part.now rings.now }
{
    if any_vertex(part, &OutsideFace(rings)) {
        return false;
    }
    if any_segment(part, &LeavesFace(rings)) {
        return false;
    }
    goes_round_nothing(part, rings)
}

fn goes_round_nothing(part: &Part, rings: &[Points]) -> bool
    ensures { result ≡ no_hole_inside rings.now part.now }
{
    match part {
        Part::Face(poly) => !any_ring_point(rings, &StrictlyInside(poly.rings().as_slice())),
        _ => true,
    }
}

#[derive(Clone, Copy)]
struct OutsideBox(BBox);

impl PointTest for OutsideBox {
    ghost use Rattle.std.specs.Prelude.{not};
    ghost use Rattle.planar_geom.specs.Points.{in_box};

    ghost passes = { λ t p. not (in_box t.0 p) };

    fn test(&self, p: Pt) -> bool {
        !self.0.holds(p)
    }
}

#[derive(Clone, Copy)]
struct OutsideDisc<'a>(&'a Disc);

impl<'a> PointTest for OutsideDisc<'a> {
    ghost use Rattle.std.specs.Prelude.{not};
    ghost use Rattle.planar_geom.specs.Relations.{in_disc};

    ghost passes = { λ t p. not (in_disc t.0.now.centre t.0.now.radius p) };

    fn test(&self, p: Pt) -> bool {
        !self.0.holds(p)
    }
}

#[derive(Clone, Copy)]
struct OutsideFace<'a>(&'a [Points]);

impl<'a> PointTest for OutsideFace<'a> {
    ghost use Rattle.std.specs.Prelude.{not};
    ghost use Rattle.planar_geom.specs.Figures.{in_poly};

    ghost passes = { λ t p. not (in_poly t.0.now p) };

    fn test(&self, p: Pt) -> bool {
        !in_rings(p, self.0)
    }
}

#[derive(Clone, Copy)]
struct StrictlyInside<'a>(&'a [Points]);

impl<'a> PointTest for StrictlyInside<'a> {
    ghost use Rattle.planar_geom.specs.Figures.{strictly_in};

    ghost passes = { λ t p. strictly_in t.0.now p };

    fn test(&self, p: Pt) -> bool {
        strictly_in(p, self.0)
    }
}

#[derive(Clone, Copy)]
struct Crosses(Seg);

impl SegmentTest for Crosses {
    ghost use Rattle.planar_geom.specs.Figures.{crosses};

    ghost passes = { λ t s. crosses t.0 s };

    fn test(&self, s: Seg) -> bool {
        crosses(self.0, s)
    }
}

// Whether the middle of a segment is outside the rings, or the segment crosses one of their edges.
#[derive(Clone, Copy)]
struct LeavesFace<'a>(&'a [Points]);

impl<'a> SegmentTest for LeavesFace<'a> {
    ghost use Rattle.std.specs.Prelude.{not, ◌||◌, map};
    ghost use Rattle.std.specs.List.{list_any};
    ghost use Rattle.planar_geom.specs.Figures.{in_poly, edges, crosses, doubled, doubled_middle};

    ghost passes = { λ t s. not (in_poly (map (map doubled) t.0.now) (doubled_middle s))
        || list_any (crosses s) (edges t.0.now) };

    fn test(&self, s: Seg) -> bool {
        !hold_middle(self.0, s) || any_in_rings(self.0, &Crosses(s))
    }
}
