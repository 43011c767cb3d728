//! Points, segments and boxes of the plane.

use std::marker::Model;

/// The greatest size of a coordinate.
pub const MAX_COORD: i64 = 1_000_000_000;

/// A point, each coordinate at most [`MAX_COORD`] in size.
#[derive(Clone, Copy)]
pub struct Pt {
    x: i32,
    y: i32,
}

impl Model for Pt {
    ghost use Rattle.planar_geom.specs.Points.{Point, InPlane, pt};

    ghost Value = { Point };

    ghost view = { λ p. pt p.x p.y };

    ghost invariant = { λ p. InPlane (pt p.x p.y) };

    ghost inverse = { λ p. record { x = p.x; y = p.y } };
}

impl Pt {
    ghost use Rattle.std.specs.Prelude.{◌≡◌};
    ghost use Rattle.planar_geom.specs.Points.{point_at, same_point, InPlane};

    /// The point with these coordinates; `None` exactly where one of them is beyond [`MAX_COORD`].
    pub fn of(x: i64, y: i64) -> Option<Pt>
        ensures { result ≡ point_at x y }
    {
        if is_coordinate(x) && is_coordinate(y) {
            Some(Pt {
                x: x as i32,
                y: y as i32,
            })
        } else {
            None
        }
    }

    /// How far east of the origin the point stands.
    pub fn x(self) -> i32
        ensures value { result ≡ self.x }
        ensures in_plane { InPlane self }
    {
        self.x
    }

    /// How far north of the origin the point stands.
    pub fn y(self) -> i32
        ensures value { result ≡ self.y }
        ensures in_plane { InPlane self }
    {
        self.y
    }

    /// Whether both coordinates agree.
    pub(crate) fn is_at(self, other: Pt) -> bool
        ensures { result ≡ same_point self other }
    {
        self.x == other.x && self.y == other.y
    }
}

ghost use Rattle.std.specs.Prelude.{◌≡◌, ◌+ℤ◌, ◌-ℤ◌, ◌≤ℤ◌, ◌^◌, pos};
ghost use Rattle.std.specs.Int.{int_div_euclid, int_min, int_max};
ghost use Rattle.planar_geom.specs.Points.{IsCoordinate, least_coordinate, greatest_coordinate, in_range, ranges_meet};
ghost use Rattle.planar_geom.specs.Points.{is_coordinate as is_plane_coordinate, centre as box_centre};

fn is_coordinate(a: i64) -> bool
    ensures { result ≡ is_plane_coordinate a }
{
    -MAX_COORD <= a && a <= MAX_COORD
}

/// A box: its least corner `min` is at most its greatest corner `max` in x and in y.
#[derive(Clone, Copy)]
pub struct BBox {
    min: Pt,
    max: Pt,
}

impl Model for BBox {
    ghost use Rattle.planar_geom.specs.Points.{Bounds, IsBox, bounds};

    ghost Value = { Bounds };

    ghost view = { λ b. bounds b.min b.max };

    ghost invariant = { λ b. IsBox (bounds b.min b.max) };

    ghost inverse = { λ b. record { min = b.min; max = b.max } };
}

impl BBox {
    ghost use Rattle.std.specs.Prelude.{◌≡◌, ◌&&◌, pos};
    ghost use Rattle.planar_geom.specs.Points.{pt, bounds, bounds_of, box_of_disc, corners_of, boxes_meet, in_box};
    ghost use Rattle.planar_geom.specs.Points.{with_point, box_round_both, IsBox};

    /// The box between two corners; `None` exactly where `min` exceeds `max` in x or in y.
    pub fn of(min: Pt, max: Pt) -> Option<BBox>
        ensures { result ≡ bounds_of min max }
    {
        if min.x() <= max.x() && min.y() <= max.y() {
            Some(BBox { min, max })
        } else {
            None
        }
    }

    /// Whether two boxes have a point in common.
    pub fn meets(self, other: BBox) -> bool
        ensures value { result ≡ boxes_meet self other }
        ensures is_box { IsBox other }
    {
        ranges_overlap(self.min.x, self.max.x, other.min.x, other.max.x)
            && ranges_overlap(self.min.y, self.max.y, other.min.y, other.max.y)
    }

    /// Whether a point is in the box, ends included.
    pub(crate) fn holds(self, p: Pt) -> bool
        ensures { result ≡ in_box self p }
    {
        is_between(self.min.x, self.max.x, p.x) && is_between(self.min.y, self.max.y, p.y)
    }

    /// Whether the box holds both corners of another.
    pub(crate) fn holds_box(self, other: BBox) -> bool
        ensures { result ≡ (in_box self other.min && in_box self other.max) }
    {
        self.holds(other.min) && self.holds(other.max)
    }

    /// The corners against the clock, the first also last.
    pub(crate) fn corners(self) -> [Pt; 5]
        ensures { result ≡ corners_of self }
    {
        let Pt { x: left, y: bottom } = self.min;
        let Pt { x: right, y: top } = self.max;
        let south_east = Pt {
            x: right,
            y: bottom,
        };
        let north_west = Pt { x: left, y: top };
        [self.min, south_east, self.max, north_west, self.min]
    }

    /// The box of one point.
    pub(crate) fn of_point(p: Pt) -> BBox
        ensures { result ≡ bounds p p }
    {
        // Reading it shows the proof that it is a point of the plane.
        let _ = p.x;
        BBox { min: p, max: p }
    }

    /// The least box round a disc, cut at the ends of the plane.
    pub(crate) fn of_disc(centre: Pt, radius: u32) -> BBox
        ensures { result ≡ box_of_disc centre radius }
    {
        let reach = i64::from(radius);
        BBox {
            min: Pt {
                x: lowered(centre.x, reach),
                y: lowered(centre.y, reach),
            },
            max: Pt {
                x: raised(centre.x, reach),
                y: raised(centre.y, reach),
            },
        }
    }

    /// The box of the origin alone.
    pub(crate) fn origin() -> BBox
        ensures { result ≡ bounds (pt (pos 0) (pos 0)) (pt (pos 0) (pos 0)) }
    {
        BBox::of_point(Pt { x: 0, y: 0 })
    }

    /// The least corner.
    pub fn min(self) -> Pt
        ensures value { result ≡ self.min }
        ensures is_box { IsBox self }
    {
        self.min
    }

    /// The greatest corner.
    pub fn max(self) -> Pt
        ensures value { result ≡ self.max }
        ensures is_box { IsBox self }
    {
        self.max
    }

    /// The least box round the box and a point.
    pub fn with_point(self, p: Pt) -> BBox
        ensures { result ≡ with_point self p }
    {
        BBox {
            min: Pt {
                x: self.min.x.min(p.x),
                y: self.min.y.min(p.y),
            },
            max: Pt {
                x: self.max.x.max(p.x),
                y: self.max.y.max(p.y),
            },
        }
    }

    /// The least box round two boxes.
    pub fn with_box(self, other: BBox) -> BBox
        ensures { result ≡ box_round_both self other }
    {
        self.with_point(other.min).with_point(other.max)
    }
}

// A coordinate less a distance, or the least coordinate.
fn lowered(a: i32, by: i64) -> i32
    requires a_in { IsCoordinate a }
    requires by_natural { pos 0 ≤ℤ by }
    requires by_small { by ≤ℤ pos (2 ^ 32) }
    ensures value { result ≡ int_max (a -ℤ by) least_coordinate }
    ensures coordinate { IsCoordinate result }
    ensures below { result ≤ℤ a }
{
    (i64::from(a) - by).max(-MAX_COORD) as i32
}

// A coordinate more a distance, or the greatest coordinate.
fn raised(a: i32, by: i64) -> i32
    requires a_in { IsCoordinate a }
    requires by_natural { pos 0 ≤ℤ by }
    requires by_small { by ≤ℤ pos (2 ^ 32) }
    ensures value { result ≡ int_min (a +ℤ by) greatest_coordinate }
    ensures coordinate { IsCoordinate result }
    ensures above { a ≤ℤ result }
{
    (i64::from(a) + by).min(MAX_COORD) as i32
}

// Whether two ranges overlap, ends included.
fn ranges_overlap(low: i32, high: i32, other_low: i32, other_high: i32) -> bool
    ensures { result ≡ ranges_meet low high other_low other_high }
{
    low <= other_high && other_low <= high
}

// Whether a number is in a range, ends included.
fn is_between(low: i32, high: i32, number: i32) -> bool
    ensures { result ≡ in_range low high number }
{
    low <= number && number <= high
}

/// The segment from `a` to `b`.
#[derive(Clone, Copy)]
pub struct Seg {
    pub a: Pt,
    pub b: Pt,
}

impl Model for Seg {
    ghost use Rattle.planar_geom.specs.Figures.{Segment, segment};

    ghost Value = { Segment };

    ghost view = { λ s. segment s.a s.b };

    ghost inverse = { λ s. record { a = s.a; b = s.b } };
}

impl Seg {
    ghost use Rattle.std.specs.Prelude.{◌≡◌};
    ghost use Rattle.planar_geom.specs.Figures.{box_of_segment};

    /// The least box round the segment.
    pub(crate) fn bounds(self) -> BBox
        ensures { result ≡ box_of_segment self }
    {
        BBox::of_point(self.a).with_point(self.b)
    }
}

/// The centre of a box, each sum of two coordinates halved and rounded down.
pub fn centre(b: BBox) -> Pt
    ensures { result ≡ box_centre b }
{
    Pt {
        x: middle(b.min.x, b.max.x),
        y: middle(b.min.y, b.max.y),
    }
}

fn middle(low: i32, high: i32) -> i32
    requires low_in { IsCoordinate low }
    requires high_in { IsCoordinate high }
    ensures value { result ≡ int_div_euclid (low +ℤ high) (pos 2) }
    ensures coordinate { IsCoordinate result }
{
    (i64::from(low) + i64::from(high)).div_euclid(2) as i32
}
