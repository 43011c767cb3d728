//! Parts, shapes and areas.

use crate::counts::positions_within;
use crate::lists::{Line, Parts, Poly};
use crate::points::{BBox, Pt};
use memory::NoMemory;
use std::alloc::Global;
use std::marker::Model;

/// The most positions of a shape.
pub const MAX_POSITIONS: u32 = 10_000;

/// A part of a shape: a point, a chain of segments or a polygon.
pub enum Part {
    Spot(Pt),
    Chain(Line),
    Face(Poly),
}

impl Drop for Part {
    fn drop(self) {
        match self {
            Part::Spot(_) => {}
            Part::Chain(_) => {}
            Part::Face(_) => {}
        }
    }
}

impl Part {
    ghost use Rattle.std.specs.Prelude.{◌≡◌, IfOk};

    /// The same part in memory of its own.
    pub(crate) fn copy(&self, alloc: Global) -> Result<Part, NoMemory>
        ensures { IfOk result (λ part. part ≡ self.now) }
    {
        match self {
            Part::Spot(p) => Ok(Part::Spot(*p)),
            Part::Chain(line) => Ok(Part::Chain(line.copy(alloc)?)),
            Part::Face(poly) => Ok(Part::Face(poly.copy(alloc)?)),
        }
    }
}

/// At least one part, and at most [`MAX_POSITIONS`] positions. It keeps how many these are, and the least
/// box round them.
pub struct Shape {
    parts: Parts,
    bounds: BBox,
    count: u32,
}

impl Drop for Shape {
    fn drop(self) {
        let Shape {
            parts: _,
            bounds: _,
            count: _,
        } = self;
    }
}

impl Model for Shape {
    ghost use Rattle.std.specs.Prelude.{◌≡◌, List, IsTrue};
    ghost use Rattle.planar_geom.specs.declared.shapes.Part.{Part};
    ghost use Rattle.planar_geom.specs.Shapes.{is_shape, positions, box_of};

    ghost Value = { List Part };

    ghost view = { λ s. s.parts };

    ghost invariant = { λ s. IsTrue (is_shape s.parts) × (s.bounds ≡ box_of s.parts) × (s.count ≡ positions s.parts) };
}

impl Shape {
    ghost use Rattle.std.specs.Prelude.{◌≡◌, ◌<◌, ◌≤◌, [], ◌∷◌, IsTrue, IfOk};
    ghost use Rattle.planar_geom.specs.Shapes.{shape_of_parts, is_shape, positions as position_count, box_of};
    ghost use Rattle.planar_geom.specs.Relations.{face_of};

    /// The shape of these parts; `Err`, which hands them back, exactly where there is no part, or there
    /// are over [`MAX_POSITIONS`] positions.
    pub fn of(parts: Parts) -> Result<Shape, Parts>
        ensures { result ≡ shape_of_parts parts }
    {
        if parts.as_slice().is_empty() {
            return Err(parts);
        }
        match positions_within(parts.as_slice(), MAX_POSITIONS) {
            Some(count) => Ok(Shape {
                bounds: parts.bounds().unwrap_or(BBox::origin()),
                parts,
                count,
            }),
            None => Err(parts),
        }
    }

    /// The shape of one point.
    pub fn point(alloc: Global, at: Pt) -> Result<Shape, NoMemory>
        ensures { IfOk result (λ shape. shape ≡ Part.Spot at ∷ []) }
    {
        Ok(Shape {
            parts: Parts::single(alloc, Part::Spot(at))?,
            bounds: BBox::of_point(at),
            count: 1,
        })
    }

    /// The shape of a box: the face of its four corners.
    pub fn rect(alloc: Global, b: BBox) -> Result<Shape, NoMemory>
        ensures { IfOk result (λ shape. shape ≡ face_of b ∷ []) }
    {
        // This call shows the proof that it is a box of the plane.
        let _low = b.min();
        let face = Part::Face(Poly::of_box(alloc, b)?);
        Ok(Shape {
            parts: Parts::single(alloc, face)?,
            bounds: b,
            count: 5,
        })
    }

    /// The same shape in memory of its own.
    pub fn copy(&self, alloc: Global) -> Result<Shape, NoMemory>
        ensures { IfOk result (λ shape. shape ≡ self.now) }
    {
        Ok(Shape {
            parts: self.parts.copy(alloc)?,
            bounds: self.bounds,
            count: self.count,
        })
    }

    /// The number of points in all parts, each ring's last point counted beside its first: at least one,
    /// and at most [`MAX_POSITIONS`].
    pub fn positions(&self) -> u64
        ensures value { result ≡ position_count self.now }
        ensures some { 0 < result }
        ensures bound { result ≤ MAX_POSITIONS }
    {
        u64::from(self.count)
    }

    /// The least box round all points.
    pub(crate) fn bounds(&self) -> BBox
        ensures value { result ≡ box_of self.now }
        ensures is_shape { IsTrue (is_shape self.now) }
    {
        self.bounds
    }

    /// The parts, in order.
    pub(crate) fn parts(&self) -> &[Part]
        ensures value { result.now ≡ self.now }
        ensures is_shape { IsTrue (is_shape self.now) }
    {
        self.parts.as_slice()
    }
}

/// What a shape is compared with: a box, a disc of a centre and a radius, or another shape.
pub enum Area {
    Rect(BBox),
    Disc(Pt, u32),
    Figure(Shape),
}

impl Drop for Area {
    fn drop(self) {
        match self {
            Area::Rect(_) => {}
            Area::Disc(_, _) => {}
            Area::Figure(_) => {}
        }
    }
}
