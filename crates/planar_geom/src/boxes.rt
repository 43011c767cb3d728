//! The boxes round shapes and areas.

ghost use Rattle.std.specs.Prelude.{◌≡◌, None, Some, fold, IsTrue};
ghost use Rattle.planar_geom.specs.Points.{grown};
ghost use Rattle.planar_geom.specs.Figures.{ring_points};
ghost use Rattle.planar_geom.specs.Shapes.{vertices, all_vertices, is_part, box_of_points as box_round_points};
ghost use Rattle.planar_geom.specs.Shapes.{box_of as box_of_shape};
ghost use Rattle.planar_geom.specs.Relations.{area_box as box_of_area};

use crate::lists::Points;
use crate::points::{BBox, Pt};
use crate::shapes::{Area, Part, Shape};

/// The least box round a shape, which keeps it.
pub fn box_of(shape: &Shape) -> BBox
    ensures { result ≡ box_of_shape shape.now }
{
    shape.bounds()
}

/// The least box round an area, that of a disc cut at the ends of the plane.
pub fn area_box(area: &Area) -> BBox
    ensures { result ≡ box_of_area area.now }
{
    match area {
        Area::Rect(b) => *b,
        Area::Disc(centre, radius) => BBox::of_disc(*centre, *radius),
        Area::Figure(shape) => box_of(shape),
    }
}

/// The least box round what `found` holds, if it holds anything, and all points of a shape.
pub fn with_shape(found: Option<BBox>, shape: &Shape) -> BBox
    ensures { Some result ≡ fold grown found (all_vertices shape.now) }
{
    joined(found, shape.bounds())
}

/// The least box round what `found` holds, if it holds anything, and all points of a part.
pub(crate) fn with_part(found: Option<BBox>, part: &Part) -> BBox
    ensures value { Some result ≡ fold grown found (vertices part.now) }
    ensures is_part { IsTrue (is_part part.now) }
{
    joined(found, box_of_part(part))
}

/// The least box round a part.
pub(crate) fn box_of_part(part: &Part) -> BBox
    ensures value { result ≡ box_round_points (vertices part.now) }
    ensures is_part { IsTrue (is_part part.now) }
{
    match part {
        Part::Spot(p) => BBox::of_point(*p),
        Part::Chain(line) => line.bounds(),
        Part::Face(poly) => poly.bounds(),
    }
}

/// The least box round the points of all rings.
pub(crate) fn box_of_rings(rings: &[Points]) -> BBox
    ensures { result ≡ box_round_points (ring_points rings.now) }
{
    with_rings(None, rings).unwrap_or(BBox::origin())
}

/// The least box round points.
pub(crate) fn box_of_points(points: &[Pt]) -> BBox
    ensures { result ≡ box_round_points points.now }
{
    with_points(None, points).unwrap_or(BBox::origin())
}

fn with_rings(found: Option<BBox>, rings: &[Points]) -> Option<BBox>
    ensures { result ≡ fold grown found (ring_points rings.now) }
{
    let mut all = found;
    for ring in rings {
        all = with_points(all, ring.as_slice());
    }
    all
}

// The least box round what `found` holds, if it holds anything, and points.
fn with_points(found: Option<BBox>, points: &[Pt]) -> Option<BBox>
    ensures { result ≡ fold grown found points.now }
{
    points
        .iter()
        .fold(found, |found, p| Some(with_point(found, *p)))
}

fn with_point(found: Option<BBox>, p: Pt) -> BBox
    ensures { Some result ≡ grown found p }
{
    match found {
        Some(b) => b.with_point(p),
        None => BBox::of_point(p),
    }
}

ghost use Rattle.planar_geom.specs.Points.{joined as joined_boxes};

// The least box round two, or the second alone.
fn joined(found: Option<BBox>, own: BBox) -> BBox
    ensures { result ≡ joined_boxes found own }
{
    match found {
        Some(b) => b.with_box(own),
        None => own,
    }
}
