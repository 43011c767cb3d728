//! Entries, and the one order in which a tree keeps them.

ghost use Rattle.std.specs.Prelude.{◌≡◌, ◌<◌, ◌≤◌, ◌^◌, ◌*◌};
ghost use Rattle.std.specs.Ordering.{is_lt};
ghost use Rattle.planar_geom.specs.Points.{IsBox};
ghost use Rattle.rtree.specs.Pairs.{pair, point_cmp, box_cmp, pair_cmp, earlier as earlier_pair};
ghost use Rattle.rtree.specs.Curve.{box_place as place_of_box, curve_place as place_on_curve, turned as turned_point};

use planar_geom::{BBox, MAX_COORD, Pt, centre};
use std::cmp::Ordering;
use std::marker::Model;

/// A box and its number, with the place of the box's centre on the curve.
#[derive(Clone, Copy)]
pub(crate) struct Entry {
    place: u64,
    bounds: BBox,
    id: usize,
}

impl Model for Entry {
    ghost use Rattle.std.specs.Prelude.{◌≡◌};
    ghost use Rattle.std.proofs.Common.{ap, sym};
    ghost use Rattle.rtree.specs.Pairs.{Pair, pair};
    ghost use Rattle.rtree.specs.Curve.{box_place, IsPlaced};

    ghost Value = { Pair };

    ghost view = { λ e. pair e.bounds e.id };

    ghost invariant = { λ e. IsPlaced e.place e.bounds };

    ghost inverse = { λ p. record { place = box_place p.bounds; bounds = p.bounds; id = p.id } };

    ghost inverse_ok = { λ e h. ap (λ place. record e { place = place }) (sym h.is) };
}

impl Entry {
    /// The entry of a box and a number.
    pub(crate) fn of(bounds: BBox, id: usize) -> Entry
        ensures { result ≡ pair bounds id }
    {
        Entry {
            place: box_place(bounds),
            bounds,
            id,
        }
    }

    pub(crate) fn bounds(&self) -> BBox
        ensures value { result ≡ self.now.bounds }
        ensures is_box { IsBox self.now.bounds }
    {
        self.bounds
    }

    pub(crate) fn id(&self) -> usize
        ensures { result ≡ self.now.id }
    {
        self.id
    }

    /// Whether the entry stands before another: by its place on the curve, then by its box, then by its
    /// number.
    #[tactic(auto, unfolding(crate::specs::Pairs::pair_cmp))]
    pub(crate) fn is_before(&self, other: &Entry) -> bool
        ensures { result ≡ is_lt (pair_cmp self.now other.now) }
    {
        match self.place.cmp(&other.place) {
            Ordering::Less => true,
            Ordering::Greater => false,
            Ordering::Equal => self.order_in_place(other).is_lt(),
        }
    }

    /// The earlier of two entries.
    pub(crate) fn earlier(self, other: Entry) -> Entry
        ensures { result ≡ earlier_pair self other }
    {
        if self.is_before(&other) { self } else { other }
    }

    // The order of entries at one place of the curve.
    fn order_in_place(&self, other: &Entry) -> Ordering
        ensures { result ≡ box_cmp self.now other.now }
    {
        point_order(self.bounds.min(), other.bounds.min())
            .then(point_order(self.bounds.max(), other.bounds.max()))
            .then(self.id.cmp(&other.id))
    }
}

fn point_order(p: Pt, q: Pt) -> Ordering
    ensures { result ≡ point_cmp p q }
{
    p.x().cmp(&q.x()).then(p.y().cmp(&q.y()))
}

/// The number of halvings of the plane.
const LEVELS: u32 = 31;

// The place of a box's centre on a Hilbert curve over the plane.
#[tactic(auto, unfolding(crate::specs::Curve::box_place))]
fn box_place(bounds: BBox) -> u64
    ensures { result ≡ place_of_box bounds }
{
    let middle = centre(bounds);
    let x = (i64::from(middle.x()) + MAX_COORD) as u32;
    let y = (i64::from(middle.y()) + MAX_COORD) as u32;
    curve_place(LEVELS, x, y)
}

// A quarter of a square, in the order of the curve, and a point in it, seen from where the curve comes in.
#[derive(Clone, Copy)]
struct Turned {
    quarter: u64,
    x: u32,
    y: u32,
}

// The place of a point on a Hilbert curve over a square, its side 2 to the power of `levels`.
fn curve_place(levels: u32, x: u32, y: u32) -> u64
    requires most_levels { levels ≤ 31 }
    requires x_within { x < 2 ^ levels }
    requires y_within { y < 2 ^ levels }
    ensures value { result ≡ place_on_curve levels x y }
    ensures below { result < 2 ^ levels * 2 ^ levels }
{
    let mut place = 0;
    let mut left = levels;
    let (mut x, mut y) = (x, y);
    while left > 0 {
        left -= 1;
        let turned = turn(1 << left, x, y);
        place = 4 * place + turned.quarter;
        (x, y) = (turned.x, turned.y);
    }
    place
}

// The quarter in which a point of a square stands, and the point seen in it.
#[tactic(auto, unfolding(crate::specs::Curve::turned))]
fn turn(half: u32, x: u32, y: u32) -> Turned
    requires half_small { half ≤ 2 ^ 30 }
    requires x_within { x < 2 * half }
    requires y_within { y < 2 * half }
    ensures value { result ≡ turned_point half x y }
    ensures quarter { result.quarter ≤ 3 }
    ensures x_within { result.x < half }
    ensures y_within { result.y < half }
{
    if x < half {
        if y < half {
            let (x, y) = (y, x);
            Turned { quarter: 0, x, y }
        } else {
            Turned {
                quarter: 1,
                x,
                y: y - half,
            }
        }
    } else if y < half {
        Turned {
            quarter: 3,
            x: half - 1 - y,
            y: half - 1 - (x - half),
        }
    } else {
        Turned {
            quarter: 2,
            x: x - half,
            y: y - half,
        }
    }
}
