//! What stands for a part of a shape: a part itself, a box for its face, and a segment for its chain.

use crate::boxes::box_of_part;
use crate::discs::{Disc, comes_near};
use crate::points::{BBox, Pt, Seg};
use crate::polygons::{in_poly, in_ring};
use crate::searches::{PointTest, SegmentTest, any_in_chain, any_point, any_segment, any_vertex};
use crate::segments::meets;
use crate::shapes::Part;

/// What stands for one part.
pub(crate) trait Region {
    ghost use Rattle.std.specs.Prelude.{◌≡◌, IsTrue};
    ghost use Rattle.std.specs.List.{list_any};
    ghost use Rattle.planar_geom.specs.declared.shapes.Part.{Part};
    ghost use Rattle.planar_geom.specs.Shapes.{segments, vertices, is_part, box_of_points};
    ghost use Rattle.planar_geom.specs.Relations.{in_part};

    ghost part: { Self → Part };

    /// The least box round it.
    fn bounds(&self) -> BBox
        ensures value { result ≡ box_of_points (vertices (part self.now)) }
        ensures is_part { IsTrue (is_part (part self.now)) };

    /// Whether a segment passes the test.
    fn any_segment<T: SegmentTest>(&self, test: &T) -> bool
        ensures { result ≡ list_any (T.passes test.now) (segments (part self.now)) };

    /// Whether one of the points that span it passes the test.
    fn any_vertex<T: PointTest>(&self, test: &T) -> bool
        ensures { result ≡ list_any (T.passes test.now) (vertices (part self.now)) };

    /// Whether a point is in it.
    fn contains(&self, p: Pt) -> bool
        ensures { result ≡ in_part (part self.now) p };
}

/// Whether a segment meets a given one.
#[derive(Clone, Copy)]
struct Meets(Seg);

impl SegmentTest for Meets {
    ghost use Rattle.planar_geom.specs.Figures.{meets};

    ghost passes = { λ t s. meets t.0 s };

    fn test(&self, s: Seg) -> bool {
        meets(self.0, s)
    }
}

impl Region for Part {
    ghost part = { λ p. p };

    fn bounds(&self) -> BBox {
        box_of_part(self)
    }

    fn any_segment<T: SegmentTest>(&self, test: &T) -> bool {
        any_segment(self, test)
    }

    fn any_vertex<T: PointTest>(&self, test: &T) -> bool {
        any_vertex(self, test)
    }

    fn contains(&self, p: Pt) -> bool {
        match self {
            Part::Spot(own) => own.is_at(p),
            Part::Chain(line) => any_in_chain(line.points().as_slice(), &Meets(Seg { a: p, b: p })),
            Part::Face(poly) => in_poly(p, poly),
        }
    }
}

impl Region for BBox {
    ghost use Rattle.planar_geom.specs.Relations.{face_of};

    ghost part = { face_of };

    fn bounds(&self) -> BBox {
        // This call shows the proof that it is a box of the plane.
        let _low = self.min();
        *self
    }

    fn any_segment<T: SegmentTest>(&self, test: &T) -> bool {
        any_in_chain(&self.corners(), test)
    }

    fn any_vertex<T: PointTest>(&self, test: &T) -> bool {
        any_point(&self.corners(), test)
    }

    fn contains(&self, p: Pt) -> bool {
        in_ring(p, &self.corners())
    }
}

impl Region for Seg {
    ghost use Rattle.std.specs.Prelude.{◌∷◌, []};
    ghost use Rattle.planar_geom.specs.declared.shapes.Part.TheVariants.{Chain};

    ghost part = { λ s. Chain (s.a ∷ s.b ∷ []) };

    fn bounds(&self) -> BBox {
        Seg::bounds(*self)
    }

    fn any_segment<T: SegmentTest>(&self, test: &T) -> bool {
        test.test(*self)
    }

    fn any_vertex<T: PointTest>(&self, test: &T) -> bool {
        test.test(self.a) || test.test(self.b)
    }

    fn contains(&self, p: Pt) -> bool {
        meets(Seg { a: p, b: p }, *self)
    }
}

/// Whether a segment meets one of a region.
#[derive(Drop)]
struct MeetsRegion<'a, R>(&'a R);

impl<'a, R: Region> SegmentTest for MeetsRegion<'a, R> {
    ghost use Rattle.std.specs.List.{list_any};
    ghost use Rattle.planar_geom.specs.Figures.{meets};
    ghost use Rattle.planar_geom.specs.Shapes.{segments};

    ghost passes = { λ t s. list_any (meets s) (segments (R.part t.0.now)) };

    fn test(&self, s: Seg) -> bool {
        self.0.any_segment(&Meets(s))
    }
}

/// Whether a point is in a region.
#[derive(Drop)]
struct IsIn<'a, R>(&'a R);

impl<'a, R: Region> PointTest for IsIn<'a, R> {
    ghost use Rattle.planar_geom.specs.Relations.{in_part};

    ghost passes = { λ t p. in_part (R.part t.0.now) p };

    fn test(&self, p: Pt) -> bool {
        self.0.contains(p)
    }
}

/// Whether a point is in a disc, and a segment comes near its centre.
#[derive(Clone, Copy)]
struct Near<'a>(&'a Disc);

impl<'a> PointTest for Near<'a> {
    ghost use Rattle.planar_geom.specs.Relations.{in_disc};

    ghost passes = { λ t p. in_disc t.0.now.centre t.0.now.radius p };

    fn test(&self, p: Pt) -> bool {
        self.0.holds(p)
    }
}

impl<'a> SegmentTest for Near<'a> {
    ghost use Rattle.planar_geom.specs.Relations.{segment_near};

    ghost passes = { λ t s. segment_near t.0.now.centre t.0.now.radius s };

    fn test(&self, s: Seg) -> bool {
        comes_near(s, self.0)
    }
}

ghost use Rattle.std.specs.Prelude.{◌≡◌};
ghost use Rattle.planar_geom.specs.Relations.{touch, reaches_disc};

/// Whether a region and a disc have a point in common: the centre is in the region, or a point that spans
/// it is in the disc, or a segment comes near the centre.
pub(crate) fn reaches<A: Region>(a: &A, disc: &Disc) -> bool
    ensures { result ≡ reaches_disc (A.part a.now) disc.now.centre disc.now.radius }
{
    let near = Near(disc);
    a.contains(disc.centre) || a.any_vertex(&near) || a.any_segment(&near)
}

/// Whether two regions have a point in common: two of their segments meet, or a point that spans one of
/// them is in the other.
pub(crate) fn touches<A: Region, B: Region>(a: &A, b: &B) -> bool
    ensures { result ≡ touch (A.part a.now) (B.part b.now) }
{
    if !a.bounds().meets(b.bounds()) {
        return false;
    }
    a.any_segment(&MeetsRegion(b)) || a.any_vertex(&IsIn(b)) || b.any_vertex(&IsIn(a))
}
