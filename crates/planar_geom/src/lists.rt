//! Lists of points, rings and parts, and the figures made of them.

use crate::boxes::{box_of_points, box_of_rings, with_part};
use crate::points::{BBox, Pt};
use crate::shapes::Part;
use memory::NoMemory;
use std::alloc::Global;
use std::marker::Model;

/// A list of points.
#[derive(Drop)]
pub struct Points {
    list: Vec<Pt>,
}

impl Model for Points {
    ghost use Rattle.std.specs.Prelude.{List};
    ghost use Rattle.planar_geom.specs.Points.{Point};

    ghost Value = { List Point };

    ghost view = { λ p. p.list.items };
}

impl Points {
    ghost use Rattle.std.specs.Prelude.{◌≡◌, [], ◌∷◌, ◌++◌, length, OnOk, OnErr, IfOk};
    ghost use Rattle.planar_geom.specs.Points.{corners_of as corner_list};
    ghost use Rattle.planar_geom.specs.Figures.{is_closed as ends_where_it_began};

    /// No point yet. What is pushed takes its memory from `alloc`.
    pub fn new(alloc: Global) -> Points
        ensures { result ≡ [] }
    {
        Points {
            list: Vec::new(alloc),
        }
    }

    /// Puts a point last. For want of memory the list stays as it was.
    pub fn push(&mut self, p: Pt) -> Result<(), NoMemory>
        ensures ok { OnOk result (self.new ≡ self.old ++ p ∷ []) }
        ensures err { OnErr result (self.new ≡ self.old) }
    {
        self.list.push(p)?;
        Ok(())
    }

    /// The points, in order.
    pub fn as_slice(&self) -> &[Pt]
        ensures { result.now ≡ self.now }
    {
        self.list.as_slice()
    }

    /// Whether there is a point, and the first of them is the last of them too.
    pub fn is_closed(&self) -> bool
        ensures { result ≡ ends_where_it_began self.now }
    {
        is_closed(self.list.as_slice())
    }

    /// The corners of a box against the clock, the first also last.
    pub(crate) fn corners_of(alloc: Global, b: BBox) -> Result<Points, NoMemory>
        ensures { IfOk result (λ points. points ≡ corner_list b) }
    {
        let list = Vec::from_slice(alloc, &b.corners())?;
        Ok(Points { list })
    }

    /// The same points in memory of their own.
    pub(crate) fn copy(&self, alloc: Global) -> Result<Points, NoMemory>
        ensures { IfOk result (λ points. points ≡ self.now) }
    {
        let list = Vec::from_slice(alloc, self.list.as_slice())?;
        Ok(Points { list })
    }
}

/// A list of rings.
#[derive(Drop)]
pub struct Rings {
    list: Vec<Points>,
}

impl Model for Rings {
    ghost use Rattle.std.specs.Prelude.{List};
    ghost use Rattle.planar_geom.specs.Points.{Point};

    ghost Value = { List (List Point) };

    ghost view = { λ r. r.list.items };
}

impl Rings {
    ghost use Rattle.std.specs.Prelude.{◌≡◌, [], ◌∷◌, ◌++◌, OnOk, OnErr, IfErr, IfOk};

    /// No ring yet. What is pushed takes its memory from `alloc`.
    pub fn new(alloc: Global) -> Rings
        ensures { result ≡ [] }
    {
        Rings {
            list: Vec::new(alloc),
        }
    }

    /// Puts a ring last. For want of memory the list stays as it was, and the ring is handed back.
    pub fn push(&mut self, ring: Points) -> Result<(), Points>
        ensures ok { OnOk result (self.new ≡ self.old ++ ring ∷ []) }
        ensures err { OnErr result (self.new ≡ self.old) }
        ensures handed_back { IfErr result (λ back. back ≡ ring) }
    {
        match self.list.push(ring) {
            Ok(()) => Ok(()),
            Err(full) => Err(full.value),
        }
    }

    /// The same rings in memory of their own.
    pub(crate) fn copy(&self, alloc: Global) -> Result<Rings, NoMemory>
        ensures { IfOk result (λ rings. rings ≡ self.now) }
    {
        let mut list = Vec::with_capacity(alloc, self.list.len())?;
        for ring in self.list.as_slice() {
            list.push(ring.copy(alloc)?)?;
        }
        Ok(Rings { list })
    }

    /// The rings, in order.
    pub(crate) fn as_slice(&self) -> &[Points]
        ensures { result.now ≡ self.now }
    {
        self.list.as_slice()
    }
}

/// A chain of segments: at least two points. It keeps the least box round them.
#[derive(Drop)]
pub struct Line {
    points: Points,
    bounds: BBox,
}

impl Model for Line {
    ghost use Rattle.std.specs.Prelude.{◌≡◌, List, IsTrue};
    ghost use Rattle.planar_geom.specs.Points.{Point, box_of_points};
    ghost use Rattle.planar_geom.specs.Figures.{is_line};

    ghost Value = { List Point };

    ghost view = { λ l. l.points };

    ghost invariant = { λ l. IsTrue (is_line l.points) × (l.bounds ≡ box_of_points l.points) };
}

impl Line {
    ghost use Rattle.std.specs.Prelude.{◌≡◌, IsTrue, IfOk};
    ghost use Rattle.planar_geom.specs.Figures.{is_line, line_of};
    ghost use Rattle.planar_geom.specs.Points.{box_of_points as box_round_them};

    /// The line through these points; `Err`, which hands them back, exactly under two points.
    pub fn of(points: Points) -> Result<Line, Points>
        ensures { result ≡ line_of points }
    {
        if points.as_slice().len() > 1 {
            let bounds = box_of_points(points.as_slice());
            Ok(Line { points, bounds })
        } else {
            Err(points)
        }
    }

    /// The same line in memory of its own.
    pub(crate) fn copy(&self, alloc: Global) -> Result<Line, NoMemory>
        ensures { IfOk result (λ line. line ≡ self.now) }
    {
        Ok(Line {
            points: self.points.copy(alloc)?,
            bounds: self.bounds,
        })
    }

    /// The least box round the line.
    pub(crate) fn bounds(&self) -> BBox
        ensures value { result ≡ box_round_them self.now }
        ensures is_line { IsTrue (is_line self.now) }
    {
        self.bounds
    }

    /// The points of the line.
    pub(crate) fn points(&self) -> &Points
        ensures value { result.now ≡ self.now }
        ensures is_line { IsTrue (is_line self.now) }
    {
        &self.points
    }
}

/// A polygon: at least one ring, each of at least four points, the first equal to the last. The
/// first ring is the border and the others are holes, though no call looks at that. It keeps the least
/// box round its points.
#[derive(Drop)]
pub struct Poly {
    rings: Rings,
    bounds: BBox,
}

impl Model for Poly {
    ghost use Rattle.std.specs.Prelude.{◌≡◌, List, IsTrue};
    ghost use Rattle.planar_geom.specs.Points.{Point, box_of_points};
    ghost use Rattle.planar_geom.specs.Figures.{is_poly, ring_points};

    ghost Value = { List (List Point) };

    ghost view = { λ p. p.rings };

    ghost invariant = { λ p. IsTrue (is_poly p.rings) × (p.bounds ≡ box_of_points (ring_points p.rings)) };
}

impl Poly {
    ghost use Rattle.std.specs.Prelude.{◌≡◌, [], ◌∷◌, IsTrue, IfOk};
    ghost use Rattle.planar_geom.specs.Points.{corners_of, box_of_points};
    ghost use Rattle.planar_geom.specs.Figures.{is_poly, poly_of, ring_points};

    /// The polygon of these rings; `Err`, which hands them back, exactly where there is no ring, a
    /// ring has under four points, or a ring's first point is not its last.
    pub fn of(rings: Rings) -> Result<Poly, Rings>
        ensures { result ≡ poly_of rings }
    {
        if !rings.as_slice().is_empty() && are_rings(rings.as_slice()) {
            let bounds = box_of_rings(rings.as_slice());
            Ok(Poly { rings, bounds })
        } else {
            Err(rings)
        }
    }

    /// The polygon of a box's four corners.
    pub(crate) fn of_box(alloc: Global, b: BBox) -> Result<Poly, NoMemory>
        ensures { IfOk result (λ poly. poly ≡ corners_of b ∷ []) }
    {
        // This call shows the proof that it is a box of the plane.
        let _low = b.min();
        let mut rings = Rings::new(alloc);
        if rings.push(Points::corners_of(alloc, b)?).is_err() {
            return Err(NoMemory);
        }
        Ok(Poly { rings, bounds: b })
    }

    /// The same polygon in memory of its own.
    pub(crate) fn copy(&self, alloc: Global) -> Result<Poly, NoMemory>
        ensures { IfOk result (λ poly. poly ≡ self.now) }
    {
        Ok(Poly {
            rings: self.rings.copy(alloc)?,
            bounds: self.bounds,
        })
    }

    /// The least box round the polygon.
    pub(crate) fn bounds(&self) -> BBox
        ensures value { result ≡ box_of_points (ring_points self.now) }
        ensures is_poly { IsTrue (is_poly self.now) }
    {
        self.bounds
    }

    /// The rings of the polygon.
    pub(crate) fn rings(&self) -> &Rings
        ensures value { result.now ≡ self.now }
        ensures is_poly { IsTrue (is_poly self.now) }
    {
        &self.rings
    }
}

ghost use Rattle.std.specs.Prelude.{◌≡◌};
ghost use Rattle.std.specs.List.{list_all};
ghost use Rattle.planar_geom.specs.Figures.{is_ring as is_linear_ring, is_closed as ends_where_it_began};

fn are_rings(rings: &[Points]) -> bool
    ensures { result ≡ list_all is_linear_ring rings.now }
{
    rings.iter().all(|ring| is_ring(ring.as_slice()))
}

fn is_ring(points: &[Pt]) -> bool
    ensures { result ≡ is_linear_ring points.now }
{
    points.len() > 3 && is_closed(points)
}

fn is_closed(points: &[Pt]) -> bool
    ensures { result ≡ ends_where_it_began points.now }
{
    !points.is_empty() && points[0].is_at(points[points.len() - 1])
}

/// A list of parts. It keeps the least box round them, where there is one.
#[derive(Drop)]
pub struct Parts {
    list: Vec<Part>,
    bounds: Option<BBox>,
}

impl Model for Parts {
    ghost use Rattle.std.specs.Prelude.{◌≡◌, List, IsTrue, None, fold};
    ghost use Rattle.std.specs.List.{list_all};
    ghost use Rattle.planar_geom.specs.declared.shapes.Part.{Part};
    ghost use Rattle.planar_geom.specs.Points.{grown};
    ghost use Rattle.planar_geom.specs.Shapes.{all_vertices, is_part};

    ghost Value = { List Part };

    ghost view = { λ p. p.list.items };

    ghost invariant = { λ p. IsTrue (list_all is_part p.list.items)
        × (p.bounds ≡ fold grown None (all_vertices p.list.items)) };
}

impl Parts {
    ghost use Rattle.std.specs.Prelude.{◌≡◌, [], ◌∷◌, ◌++◌, IsTrue, OnOk, OnErr, IfErr, IfOk, None, fold};
    ghost use Rattle.std.specs.List.{list_all};
    ghost use Rattle.planar_geom.specs.Points.{grown};
    ghost use Rattle.planar_geom.specs.Shapes.{all_vertices, is_part};

    /// No part yet. What is pushed takes its memory from `alloc`.
    pub fn new(alloc: Global) -> Parts
        ensures { result ≡ [] }
    {
        Parts {
            list: Vec::new(alloc),
            bounds: None,
        }
    }

    /// One part alone.
    pub(crate) fn single(alloc: Global, part: Part) -> Result<Parts, NoMemory>
        ensures { IfOk result (λ parts. parts ≡ part ∷ []) }
    {
        let mut parts = Parts {
            list: Vec::with_capacity(alloc, 1)?,
            bounds: None,
        };
        match parts.push(part) {
            Ok(()) => Ok(parts),
            Err(_) => Err(NoMemory),
        }
    }

    /// Puts a part last. For want of memory the list stays as it was, and the part is handed back.
    pub fn push(&mut self, part: Part) -> Result<(), Part>
        ensures ok { OnOk result (self.new ≡ self.old ++ part ∷ []) }
        ensures err { OnErr result (self.new ≡ self.old) }
        ensures handed_back { IfErr result (λ back. back ≡ part) }
    {
        let bounds = with_part(self.bounds, &part);
        match self.list.push(part) {
            Ok(()) => {
                self.bounds = Some(bounds);
                Ok(())
            }
            Err(full) => Err(full.value),
        }
    }

    /// The same parts in memory of their own.
    pub(crate) fn copy(&self, alloc: Global) -> Result<Parts, NoMemory>
        ensures { IfOk result (λ parts. parts ≡ self.now) }
    {
        let mut list = Vec::with_capacity(alloc, self.list.len())?;
        for part in self.list.as_slice() {
            list.push(part.copy(alloc)?)?;
        }
        Ok(Parts {
            list,
            bounds: self.bounds,
        })
    }

    /// The least box round all parts, where there is one.
    pub(crate) fn bounds(&self) -> Option<BBox>
        ensures { result ≡ fold grown None (all_vertices self.now) }
    {
        self.bounds
    }

    /// The parts, in order.
    pub(crate) fn as_slice(&self) -> &[Part]
        ensures value { result.now ≡ self.now }
        ensures parts { IsTrue (list_all is_part self.now) }
    {
        self.list.as_slice()
    }
}
