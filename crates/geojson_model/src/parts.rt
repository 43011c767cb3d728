//! The parts of a geometry that is no collection, put behind those found before.

ghost use Rattle.std.specs.Prelude.{◌≡◌};
ghost use Rattle.serde_json.specs.View.{view, items_view};
ghost use Rattle.geo_text.specs.Walks.{each};
ghost use Rattle.geojson_model.specs.Answers.{Gives};
ghost use Rattle.geo_text.specs.Geometries as geo;
ghost use Rattle.geojson_model.specs.Behind.{behind};

use crate::faults::ShapeFault;
use crate::members::coordinates;
use crate::positions::{array_of, line, polygon, position};
use geo_text::{Base, GeoFault};
use planar_geom::{Part, Parts};
use serde_json::Value;
use std::alloc::Global;

#[tactic(auto, unfolding(geo_text::specs::Geometries::part))]
fn part_of(alloc: Global, base: Base, value: &Value, count: u32) -> Result<(Part, u32), ShapeFault>
    ensures { Gives (λ p. p) result (geo.part base (view value.now) count) }
{
    match base {
        Base::Spot => {
            let (point, count) = position(value, count)?;
            Ok((Part::Spot(point), count))
        }
        Base::Chain => {
            let (line, count) = line(alloc, value, count)?;
            Ok((Part::Chain(line), count))
        }
        Base::Face => {
            let (poly, count) = polygon(alloc, value, count)?;
            Ok((Part::Face(poly), count))
        }
    }
}

#[tactic(auto, unfolding(geo_text::specs::Geometries::single))]
fn single(
    alloc: Global,
    parts: &mut Parts,
    base: Base,
    value: &Value,
    count: u32,
) -> Result<u32, ShapeFault>
    ensures { Gives (λ n. (parts.new, n)) result (behind parts.old (geo.single base (view value.now) count)) }
{
    let (part, count) = part_of(alloc, base, value, count)?;
    if parts.push(part).is_err() {
        return Err(ShapeFault::Memory);
    }
    Ok(count)
}

fn each_part(
    alloc: Global,
    parts: &mut Parts,
    base: Base,
    items: &[Value],
    count: u32,
) -> Result<u32, ShapeFault>
    ensures { Gives (λ n. (parts.new, n)) result
        (behind parts.old (each (geo.part base) (items_view items.now) count)) }
{
    let mut count = count;
    for item in items {
        let (part, after) = part_of(alloc, base, item, count)?;
        if parts.push(part).is_err() {
            return Err(ShapeFault::Memory);
        }
        count = after;
    }
    Ok(count)
}

#[tactic(auto, unfolding(geo_text::specs::Geometries::many))]
fn many(
    alloc: Global,
    parts: &mut Parts,
    base: Base,
    value: &Value,
    count: u32,
) -> Result<u32, ShapeFault>
    ensures { Gives (λ n. (parts.new, n)) result (behind parts.old (geo.many base (view value.now) count)) }
{
    let items = array_of(value)?;
    each_part(alloc, parts, base, items, count)
}

/// The one part at `coordinates`.
#[tactic(auto, unfolding(geo_text::specs::Geometries::single_at))]
pub(crate) fn single_at(
    alloc: Global,
    parts: &mut Parts,
    base: Base,
    value: &Value,
    count: u32,
) -> Result<u32, ShapeFault>
    ensures { Gives (λ n. (parts.new, n)) result (behind parts.old (geo.single_at base (view value.now) count)) }
{
    let found = coordinates(value)?;
    single(alloc, parts, base, found, count)
}

/// The parts at `coordinates`.
#[tactic(auto, unfolding(geo_text::specs::Geometries::many_at))]
pub(crate) fn many_at(
    alloc: Global,
    parts: &mut Parts,
    base: Base,
    value: &Value,
    count: u32,
) -> Result<u32, ShapeFault>
    ensures { Gives (λ n. (parts.new, n)) result (behind parts.old (geo.many_at base (view value.now) count)) }
{
    let found = coordinates(value)?;
    many(alloc, parts, base, found, count)
}
