//! Outside examples of shapes and areas, and each public call once, as questions and answers.
//!
//! A place is its x and y; places stand between commas, and rings of a face between strokes.

use crate::tables::{Answers, are_answered, yes_or_no};
use byte_text::{Text, push_i64, push_u64, read_i64, read_u64};
use planar_geom::{
    Area, BBox, Line, Part, Parts, Points, Poly, Pt, Rings, Seg, Shape, area_box, box_dist2,
    box_of, centre, dist2, floor_root, in_poly, intersects, meets, orient, way_meets, with_shape,
    within,
};
use std::alloc::Global;
use std::test::Fail;

// The point of a place, where it is on the plane.
fn point_of(place: &str) -> Result<Option<Pt>, Fail> {
    let (x, y) = place.split_once(' ').ok_or("a place")?;
    Ok(Pt::of(read_i64(x.as_bytes())?, read_i64(y.as_bytes())?))
}

fn point(place: &str) -> Result<Pt, Fail> {
    Ok(point_of(place)?.ok_or("a point of the plane")?)
}

// The box between two places, where there is one.
fn box_between(places: &str) -> Result<Option<BBox>, Fail> {
    let (min, max) = places.split_once(',').ok_or("two places")?;
    Ok(BBox::of(point(min)?, point(max)?))
}

fn bounds(places: &str) -> Result<BBox, Fail> {
    Ok(box_between(places)?.ok_or("a box")?)
}

fn points(alloc: Global, places: &str) -> Result<Points, Fail> {
    let mut list = Points::new(alloc);
    for place in places.split(',') {
        if list.push(point(place)?).is_err() {
            return Err(Fail::from("no memory"));
        }
    }
    Ok(list)
}

// A square with a hole, which the word `holed` stands for.
const HOLED: &str = "0 0,10 0,10 10,0 10,0 0/4 4,6 4,6 6,4 6,4 4";

fn rings(alloc: Global, lists: &str) -> Result<Rings, Fail> {
    let lists = if lists == "holed" { HOLED } else { lists };
    let mut all = Rings::new(alloc);
    for places in lists.split('/') {
        if all.push(points(alloc, places)?).is_err() {
            return Err(Fail::from("no memory"));
        }
    }
    Ok(all)
}

fn poly(alloc: Global, lists: &str) -> Result<Poly, Fail> {
    match Poly::of(rings(alloc, lists)?) {
        Ok(poly) => Ok(poly),
        Err(_) => Err(Fail::from("no polygon")),
    }
}

fn line(alloc: Global, places: &str) -> Result<Line, Fail> {
    match Line::of(points(alloc, places)?) {
        Ok(line) => Ok(line),
        Err(_) => Err(Fail::from("no line")),
    }
}

// The part of a word and its places.
fn part(alloc: Global, word: &str, places: &str) -> Result<Part, Fail> {
    match word {
        "spot" => Ok(Part::Spot(point(places)?)),
        "line" => Ok(Part::Chain(line(alloc, places)?)),
        _ => Ok(Part::Face(poly(alloc, places)?)),
    }
}

// A shape of one part.
fn of_part(alloc: Global, part: Part) -> Result<Shape, Fail> {
    let mut parts = Parts::new(alloc);
    if parts.push(part).is_err() {
        return Err(Fail::from("no memory"));
    }
    match Shape::of(parts) {
        Ok(shape) => Ok(shape),
        Err(_) => Err(Fail::from("no shape")),
    }
}

// The shape of a point, of a box or of one part.
fn shape(alloc: Global, text: &str) -> Result<Shape, Fail> {
    let (word, places) = text.split_once(' ').ok_or("a shape")?;
    match word {
        "point" => Ok(Shape::point(alloc, point(places)?)?),
        "box" => Ok(Shape::rect(alloc, bounds(places)?)?),
        _ => of_part(alloc, part(alloc, word, places)?),
    }
}

fn disc(text: &str) -> Result<Area, Fail> {
    let (place, radius) = text.split_once(',').ok_or("a disc")?;
    let radius = read_u64(radius.as_bytes())?;
    Ok(Area::Disc(point(place)?, u32::try_from(radius)?))
}

// The area of a box, a disc or a figure.
fn area(alloc: Global, text: &str) -> Result<Area, Fail> {
    let (word, places) = text.split_once(' ').ok_or("an area")?;
    match word {
        "box" => Ok(Area::Rect(bounds(places)?)),
        "disc" => disc(places),
        _ => Ok(Area::Figure(shape(alloc, text)?)),
    }
}

fn seg(places: &str) -> Result<Seg, Fail> {
    let (a, b) = places.split_once(',').ok_or("two places")?;
    Ok(Seg {
        a: point(a)?,
        b: point(b)?,
    })
}

fn push_place(out: &mut Text, p: Pt) -> Result<(), Fail> {
    push_i64(out, i64::from(p.x()))?;
    out.push(b" ")?;
    push_i64(out, i64::from(p.y()))?;
    Ok(())
}

fn place_text(alloc: Global, p: Pt) -> Result<Text, Fail> {
    let mut text = Text::new(alloc);
    push_place(&mut text, p)?;
    Ok(text)
}

fn box_text(alloc: Global, b: BBox) -> Result<Text, Fail> {
    let mut text = place_text(alloc, b.min())?;
    text.push(b",")?;
    push_place(&mut text, b.max())?;
    Ok(text)
}

fn number_text(alloc: Global, n: u64) -> Result<Text, Fail> {
    let mut text = Text::new(alloc);
    push_u64(&mut text, n)?;
    Ok(text)
}

// Whether so many points are the parts of a shape.
fn are_shape(alloc: Global, count: u64) -> Result<bool, Fail> {
    let mut parts = Parts::new(alloc);
    for _ in 0..count {
        if parts.push(Part::Spot(point("0 0")?)).is_err() {
            return Err(Fail::from("no memory"));
        }
    }
    Ok(Shape::of(parts).is_ok())
}

// Whether places make what a word stands for.
fn is_made(alloc: Global, word: &str, places: &str) -> Result<bool, Fail> {
    match word {
        "point" => Ok(point_of(places)?.is_some()),
        "box" => Ok(box_between(places)?.is_some()),
        "line" => Ok(Line::of(points(alloc, places)?).is_ok()),
        "face" => Ok(Poly::of(rings(alloc, places)?).is_ok()),
        "ring" => Ok(points(alloc, places)?.is_closed()),
        _ => are_shape(alloc, read_u64(places.as_bytes())?),
    }
}

// In each line a word and places, and whether they make what the word stands for; a ring is closed.
const MADE: &str = "
    point 1000000000 -1000000000 => yes
    point 1000000001 0 => no
    point 0 -1000000001 => no
    box 0 0,0 0 => yes
    box 0 1,5 0 => no
    box 1 0,0 5 => no
    line 0 0 => no
    line 0 0,0 0 => yes
    face 0 0,1 0,0 0 => no
    face 0 0,1 0,1 1,0 1 => no
    face 0 0,10 0,10 10,0 10,0 0 => yes
    points 0 => no
    points 10000 => yes
    points 10001 => no
    ring 1 2 => yes
    ring 0 0,10 0,10 10,0 10,0 0 => yes
    ring 0 0,1 0,0 1 => no
    ";

struct Made;

impl Answers for Made {
    fn answer(alloc: Global, case: &str) -> Result<Text, Fail> {
        let (word, places) = case.split_once(' ').ok_or("a word")?;
        yes_or_no(alloc, is_made(alloc, word, places)?)
    }
}

#[test]
fn what_is_no_figure_is_refused(rt: HostRuntime) -> Result<(), Fail> {
    let alloc = rt.alloc();
    assert!(rt; !Points::new(alloc).is_closed());
    assert!(rt; Poly::of(Rings::new(alloc)).is_err());
    are_answered::<Made>(&rt, alloc, MADE)
}

// A number of a shape or of places, or a box or a place.
fn measure(alloc: Global, word: &str, of: &str) -> Result<Text, Fail> {
    match word {
        "positions" => number_text(alloc, shape(alloc, of)?.copy(alloc)?.positions()),
        "bounds" => box_text(alloc, box_of(&shape(alloc, of)?)),
        "alone" => box_text(alloc, with_shape(None, &shape(alloc, of)?)),
        "centre" => place_text(alloc, centre(box_of(&shape(alloc, of)?))),
        "round" => box_text(alloc, area_box(&area(alloc, of)?)),
        "root" => number_text(alloc, floor_root(read_u64(of.as_bytes())?)),
        _ => measure_two(alloc, word, of),
    }
}

// A number of two, which a semicolon parts.
fn measure_two(alloc: Global, word: &str, two: &str) -> Result<Text, Fail> {
    let (one, other) = two.split_once(';').ok_or("two")?;
    match word {
        "distance" => number_text(alloc, dist2(point(one)?, point(other)?)),
        "away" => number_text(alloc, box_dist2(point(one)?, bounds(other)?)),
        _ => box_text(alloc, with_shape(Some(bounds(one)?), &shape(alloc, other)?)),
    }
}

// Squares of distances, and roots; sums below 0 are halved downwards too.
const MEASURES: &str = "
    positions face holed => 10
    positions point 3 -4 => 1
    positions box 0 0,10 5 => 5
    bounds point 3 -4 => 3 -4,3 -4
    alone point 3 -4 => 3 -4,3 -4
    both 3 -4,3 -4;box 0 0,10 5 => 0 -4,10 5
    centre line 0 3,-1 0 => -1 1
    round disc 1000000000 0,5 => 999999995 -5,1000000000 5
    distance 0 0;3 4 => 25
    distance 1000000000 1000000000;-1000000000 -1000000000 => 8000000000000000000
    away 13 14;0 0,10 10 => 25
    away 10 3;0 0,10 10 => 0
    away -2 5;0 0,10 10 => 4
    root 0 => 0
    root 2499 => 49
    root 2500 => 50
    root 7999999999999999999 => 2828427124
    root 18446744073709551615 => 4294967295
    ";

struct Measures;

impl Answers for Measures {
    fn answer(alloc: Global, case: &str) -> Result<Text, Fail> {
        let (word, of) = case.split_once(' ').ok_or("a word")?;
        measure(alloc, word, of)
    }
}

#[test]
fn measures_are_taken(rt: HostRuntime) -> Result<(), Fail> {
    are_answered::<Measures>(&rt, rt.alloc(), MEASURES)
}

// On which side of a segment a place is, as a word.
fn side(segment: Seg, p: Pt) -> &'static str {
    match orient(segment.a, segment.b, p) {
        1 => "left",
        -1 => "right",
        _ => "on",
    }
}

// Whether segments meet, the one way and, turned about, the other.
fn meet(one: Seg, other: Seg) -> bool {
    let turned = Seg {
        a: other.b,
        b: other.a,
    };
    meets(one, other) && meets(turned, Seg { a: one.b, b: one.a })
}

fn apart(one: Seg, other: Seg) -> bool {
    let turned = Seg {
        a: other.b,
        b: other.a,
    };
    !meets(one, other) && !meets(turned, Seg { a: one.b, b: one.a })
}

// Whether a place is in a polygon, and a point there meets and lies in it: all of this, none or some.
fn is_inside(alloc: Global, place: &str, lists: &str) -> Result<&'static str, Fail> {
    let inside = in_poly(point(place)?, &poly(alloc, lists)?);
    let spot = of_part(alloc, Part::Spot(point(place)?))?;
    let area = Area::Figure(of_part(alloc, Part::Face(poly(alloc, lists)?))?);
    match (inside, intersects(&spot, &area), within(&spot, &area)) {
        (true, true, true) => Ok("all"),
        (false, false, false) => Ok("none"),
        _ => Ok("some"),
    }
}

// Whether a question on two figures is answered by yes.
fn holds(alloc: Global, word: &str, one: &str, other: &str) -> Result<bool, Fail> {
    match word {
        "meet" => Ok(meet(seg(one)?, seg(other)?)),
        "apart" => Ok(apart(seg(one)?, seg(other)?)),
        "touches" => Ok(intersects(&shape(alloc, one)?, &area(alloc, other)?)),
        "lies" => Ok(within(&shape(alloc, one)?, &area(alloc, other)?)),
        _ => {
            let way = seg(one)?;
            Ok(way_meets(way.a, way.b, &area(alloc, other)?))
        }
    }
}

struct Pairs;

impl Answers for Pairs {
    fn answer(alloc: Global, case: &str) -> Result<Text, Fail> {
        let (word, two) = case.split_once(' ').ok_or("a word")?;
        let (one, other) = two.split_once(';').ok_or("two")?;
        match word {
            "side" => Ok(Text::of(alloc, side(seg(one)?, point(other)?).as_bytes())?),
            "inside" => Ok(Text::of(alloc, is_inside(alloc, one, other)?.as_bytes())?),
            _ => yes_or_no(alloc, holds(alloc, word, one, other)?),
        }
    }
}

// Touching at an end, an end inside, crossing and apart; on one line, overlapping and apart; boxes that meet where the segments do not.
const SEGMENTS: &str = "
    side 0 0,4 0;1 1 => left
    side 0 0,4 0;1 -1 => right
    side -1000000000 -1000000000,1000000000 1000000000;0 0 => on
    side -1000000000 -1000000000,1000000000 -1000000000;1000000000 1000000000 => left
    meet 0 0,4 0;4 0,8 3 => yes
    meet 0 0,4 0;2 0,2 5 => yes
    meet 0 0,4 4;0 4,4 0 => yes
    apart 0 0,4 4;5 0,6 1 => yes
    meet 0 0,6 6;4 4,9 9 => yes
    apart 0 0,2 2;4 4,9 9 => yes
    apart 0 0,9 9;6 1,9 2 => yes
    ";

// An edge, a vertex, the hole, its edge, inside, left of all and right of all; edges through vertices; faces; ways across the hole,
// beside it, in it, across the square and past it.
const POLYGONS: &str = "
    inside 5 0;holed => all
    inside 0 0;holed => all
    inside 5 5;holed => none
    inside 4 5;holed => all
    inside 2 2;holed => all
    inside -1 4;holed => none
    inside 11 4;holed => none
    inside 0 0;0 -4,4 0,0 4,-4 0,0 -4 => all
    inside -5 0;0 -4,4 0,0 4,-4 0,0 -4 => none
    inside -3 4;0 -4,4 0,0 4,-4 0,0 -4 => none
    inside -3 -4;0 -4,4 0,0 4,-4 0,0 -4 => none
    lies face holed;face holed => yes
    lies face holed;box 0 0,10 10 => yes
    touches face holed;face holed => yes
    lies face 3 3,7 3,7 7,3 7,3 3;face holed => no
    lies face 3 3,7 3,7 7,3 7,3 3;box 0 0,10 10 => yes
    touches face 3 3,7 3,7 7,3 7,3 3;face holed => yes
    lies line 2 5,8 5;face holed => no
    passes 2 5,8 5;face holed => yes
    passes 2 5,8 5;box 0 0,10 10 => yes
    lies line 2 2,8 2;face holed => yes
    passes 2 2,8 2;face holed => yes
    passes 2 2,8 2;box 0 0,10 10 => yes
    lies line 5 5,5 5;face holed => no
    passes 5 5,5 5;face holed => no
    passes 5 5,5 5;box 0 0,10 10 => yes
    lies line -5 5,15 5;face holed => no
    passes -5 5,15 5;face holed => yes
    passes -5 5,15 5;box 0 0,10 10 => yes
    lies line -5 5,5 25;face holed => no
    passes -5 5,5 25;face holed => no
    passes -5 5,5 25;box 0 0,10 10 => no
    ";

// Boxes, also of no size; a segment that is tangent to a disc at its foot, one further out, past an end, with an end on the border, and of
// no length; a border far from the centre and one in the disc; the corners of the plane, and the doubled middles there.
const BOXES_AND_DISCS: &str = "
    touches spot 11 11;box 0 0,10 10 => no
    touches spot 10 4;box 0 0,10 10 => yes
    touches spot 2 2;box 2 2,2 2 => yes
    touches spot 2 3;box 2 2,2 2 => no
    touches line -9 5,9 5;disc 0 0,5 => yes
    passes -9 5,9 5;disc 0 0,5 => yes
    touches line -9 6,9 6;disc 0 0,5 => no
    passes -9 6,9 6;disc 0 0,5 => no
    touches line 4 4,9 9;disc 0 0,5 => no
    passes 4 4,9 9;disc 0 0,5 => no
    touches line 3 4,9 9;disc 0 0,5 => yes
    passes 3 4,9 9;disc 0 0,5 => yes
    touches line 5 0,5 0;disc 0 0,5 => yes
    passes 5 0,5 0;disc 0 0,5 => yes
    touches line 50 50,50 50;disc 0 0,5 => no
    passes 50 50,50 50;disc 0 0,5 => no
    touches face -90 -90,90 -90,90 90,-90 90,-90 -90;disc 0 0,5 => yes
    lies face -90 -90,90 -90,90 90,-90 90,-90 -90;disc 0 0,5 => no
    touches face -3 -3,3 -3,3 3,-3 3,-3 -3;disc 0 0,5 => yes
    lies face -3 -3,3 -3,3 3,-3 3,-3 -3;disc 0 0,5 => yes
    touches face -4 -4,4 -4,4 4,-4 4,-4 -4;disc 0 0,5 => yes
    lies face -4 -4,4 -4,4 4,-4 4,-4 -4;disc 0 0,5 => no
    touches spot 1000000000 1000000000;disc -1000000000 1000000000,2000000000 => yes
    touches line -1000000000 -1000000000,1000000000 1000000000;disc -1000000000 1000000000,2000000000 => yes
    touches spot 1000000000 1000000000;disc -1000000000 -1000000000,2000000000 => no
    touches line -1000000000 -1000000000,1000000000 1000000000;disc -1000000000 -1000000000,2000000000 => yes
    touches spot 1000000000 1000000000;disc 1000000000 -1000000000,1414213563 => no
    touches line -1000000000 -1000000000,1000000000 1000000000;disc 1000000000 -1000000000,1414213563 => yes
    touches spot 1000000000 1000000000;disc 1000000000 -1000000000,1414213562 => no
    touches line -1000000000 -1000000000,1000000000 1000000000;disc 1000000000 -1000000000,1414213562 => no
    lies line -1000000000 -1000000000,1000000000 1000000000;face -1000000000 -1000000000,1000000000 -1000000000,1000000000 1000000000,-1000000000 1000000000,-1000000000 -1000000000 => yes
    ";

#[test]
fn pairs_of_figures(rt: HostRuntime) -> Result<(), Fail> {
    let alloc = rt.alloc();
    are_answered::<Pairs>(&rt, alloc, SEGMENTS)?;
    are_answered::<Pairs>(&rt, alloc, POLYGONS)?;
    are_answered::<Pairs>(&rt, alloc, BOXES_AND_DISCS)
}
