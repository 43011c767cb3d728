//! RFC 7946, section 3.1: positions, lines and polygons. `count` is the number of positions so far.

ghost use Rattle.std.specs.Prelude.{◌≡◌, true, IfOk};
ghost use Rattle.serde_json.specs.View.{view, items_view, number_view};
ghost use Rattle.planar_geom.specs.Points as plane;
ghost use Rattle.geojson_model.specs.Answers.{Gives};
ghost use Rattle.geo_text.specs.Walks as walks;

use crate::faults::ShapeFault;
use geo_text::GeoFault;
use planar_geom::{Line, MAX_COORD, MAX_POSITIONS, Points, Poly, Pt, Rings};
use serde_json::{Number, Value};
use std::alloc::Global;

fn is_coordinate(a: i64) -> bool
    ensures { result ≡ plane.is_coordinate a }
{
    -MAX_COORD <= a && a <= MAX_COORD
}

fn coordinate(number: &Number) -> Result<i64, ShapeFault>
    ensures value { Gives (λ a. a) result (walks.coordinate (number_view number.now)) }
    ensures in_plane { IfOk result (λ a. plane.is_coordinate a ≡ true) }
{
    if number.is_f64() {
        return Err(ShapeFault::Refused(GeoFault::NotWhole));
    }
    match number.as_i64() {
        Some(a) if is_coordinate(a) => Ok(a),
        _ => Err(ShapeFault::Refused(GeoFault::OutOfRange)),
    }
}

fn pair<'a>(x: &'a Value, y: &'a Value) -> Result<(&'a Number, &'a Number), ShapeFault>
    ensures { Gives (λ p. (number_view p.0.now, number_view p.1.now)) result (walks.pair (view x.now) (view y.now)) }
{
    match (x, y) {
        (Value::Number(x), Value::Number(y)) => Ok((x, y)),
        _ => Err(ShapeFault::Refused(GeoFault::BadPosition)),
    }
}

// An altitude behind the pair is not interpreted.
fn pair_before<'a>(
    x: &'a Value,
    y: &'a Value,
    altitude: &Value,
) -> Result<(&'a Number, &'a Number), ShapeFault>
    ensures { Gives (λ p. (number_view p.0.now, number_view p.1.now)) result
        (walks.free_third (view altitude.now) (walks.pair (view x.now) (view y.now))) }
{
    match altitude {
        Value::Number(_) => pair(x, y),
        _ => Err(ShapeFault::Refused(GeoFault::BadPosition)),
    }
}

fn numbers(items: &[Value]) -> Result<(&Number, &Number), ShapeFault>
    ensures { Gives (λ p. (number_view p.0.now, number_view p.1.now)) result (walks.numbers (items_view items.now)) }
{
    match items {
        [] => Err(ShapeFault::Refused(GeoFault::BadPosition)),
        [_] => Err(ShapeFault::Refused(GeoFault::BadPosition)),
        [x, y] => pair(x, y),
        [x, y, altitude] => pair_before(x, y, altitude),
        [_, _, _, _, ..] => Err(ShapeFault::Refused(GeoFault::BadPosition)),
    }
}

/// The items of a value that must be an array.
pub(crate) fn array_of(value: &Value) -> Result<&[Value], ShapeFault>
    ensures { Gives (λ items. items_view items.now) result (walks.array_of (view value.now)) }
{
    match value {
        Value::Array(items) => Ok(items.as_slice()),
        _ => Err(ShapeFault::Refused(GeoFault::BadPosition)),
    }
}

#[tactic(auto, unfolding(geo_text::specs::Walks::point))]
fn point(value: &Value) -> Result<Pt, ShapeFault>
    ensures { Gives (λ p. p) result (walks.point (view value.now)) }
{
    let items = array_of(value)?;
    let (x, y) = numbers(items)?;
    let x = coordinate(x)?;
    let y = coordinate(y)?;
    match Pt::of(x, y) {
        Some(p) => Ok(p),
        None => unreachable!(),
    }
}

/// A position, and how many there are with it.
#[tactic(auto, unfolding(geo_text::specs::Walks::position))]
pub(crate) fn position(value: &Value, count: u32) -> Result<(Pt, u32), ShapeFault>
    ensures { Gives (λ p. p) result (walks.position (view value.now) count) }
{
    if count >= MAX_POSITIONS {
        return Err(ShapeFault::Refused(GeoFault::TooMany));
    }
    let p = point(value)?;
    Ok((p, count + 1))
}

fn positions(alloc: Global, items: &[Value], count: u32) -> Result<(Points, u32), ShapeFault>
    ensures { Gives (λ p. p) result (walks.positions (items_view items.now) count) }
{
    let mut points = Points::new(alloc);
    let mut count = count;
    for item in items {
        let (point, after) = position(item, count)?;
        if points.push(point).is_err() {
            return Err(ShapeFault::Memory);
        }
        count = after;
    }
    Ok((points, count))
}

#[tactic(auto, unfolding(geo_text::specs::Walks::positions_of))]
fn positions_of(alloc: Global, value: &Value, count: u32) -> Result<(Points, u32), ShapeFault>
    ensures { Gives (λ p. p) result (walks.positions_of (view value.now) count) }
{
    let items = array_of(value)?;
    positions(alloc, items, count)
}

/// A line of two or more positions.
#[tactic(auto, unfolding(geo_text::specs::Walks::line))]
pub(crate) fn line(alloc: Global, value: &Value, count: u32) -> Result<(Line, u32), ShapeFault>
    ensures { Gives (λ p. p) result (walks.line (view value.now) count) }
{
    let (points, count) = positions_of(alloc, value, count)?;
    match Line::of(points) {
        Ok(line) => Ok((line, count)),
        Err(_) => Err(ShapeFault::Refused(GeoFault::TooFew)),
    }
}

// A ring of four or more positions, the first of which is its last.
#[tactic(auto, unfolding(geo_text::specs::Walks::ring))]
fn ring(alloc: Global, value: &Value, count: u32) -> Result<(Points, u32), ShapeFault>
    ensures { Gives (λ p. p) result (walks.ring (view value.now) count) }
{
    let (points, count) = positions_of(alloc, value, count)?;
    if points.as_slice().len() < 4 {
        return Err(ShapeFault::Refused(GeoFault::TooFew));
    }
    if !points.is_closed() {
        return Err(ShapeFault::Refused(GeoFault::BadRing));
    }
    Ok((points, count))
}

fn rings(alloc: Global, items: &[Value], count: u32) -> Result<(Rings, u32), ShapeFault>
    ensures { Gives (λ p. p) result (walks.rings (items_view items.now) count) }
{
    let mut all = Rings::new(alloc);
    let mut count = count;
    for item in items {
        let (points, after) = ring(alloc, item, count)?;
        if all.push(points).is_err() {
            return Err(ShapeFault::Memory);
        }
        count = after;
    }
    Ok((all, count))
}

/// A polygon of one or more rings.
#[tactic(auto, unfolding(geo_text::specs::Walks::polygon))]
pub(crate) fn polygon(alloc: Global, value: &Value, count: u32) -> Result<(Poly, u32), ShapeFault>
    ensures { Gives (λ p. p) result (walks.polygon (view value.now) count) }
{
    let items = array_of(value)?;
    let (rings, count) = rings(alloc, items, count)?;
    match Poly::of(rings) {
        Ok(poly) => Ok((poly, count)),
        // Each ring was looked at, so there is none.
        Err(_) => Err(ShapeFault::Refused(GeoFault::TooFew)),
    }
}
