//! The shape of a text.

ghost use Rattle.std.specs.Prelude.{◌≡◌, Ok, IfOk};
ghost use Rattle.serde_json.specs.View.{view, items_view};
ghost use Rattle.geojson_model.specs.Answers.{Gives};
ghost use Rattle.geo_text.specs.Geometries as geo;
ghost use Rattle.geo_text.specs.Texts as texts;
ghost use Rattle.geojson_model.specs.Behind.{behind};

use crate::faults::ShapeFault;
use crate::geometries::geometry;
use crate::members::{array_at, object_only, there, type_of};
use crate::stored::{stored_bounds, stored_point};
use geo_text::{GeoFault, GeoType};
use planar_geom::{NoMemory, Parts, Shape};
use serde_json::Value;
use std::alloc::Global;

// RFC 7946, section 3.2.
#[tactic(auto, unfolding(geo_text::specs::Geometries::feature))]
fn feature(alloc: Global, parts: &mut Parts, value: &Value, count: u32) -> Result<u32, ShapeFault>
    ensures { Gives (λ n. (parts.new, n)) result (behind parts.old (geo.feature (view value.now) count)) }
{
    let found = there(value.get("geometry"))?;
    let inner = object_only(found)?;
    geometry(alloc, parts, inner, count)
}

#[tactic(auto, unfolding(geo_text::specs::Geometries::only_feature))]
fn only_feature(
    alloc: Global,
    parts: &mut Parts,
    type_: GeoType,
    value: &Value,
    count: u32,
) -> Result<u32, ShapeFault>
    ensures { Gives (λ n. (parts.new, n)) result (behind parts.old (geo.only_feature type_ (view value.now) count)) }
{
    match type_ {
        GeoType::Feature => feature(alloc, parts, value, count),
        GeoType::Point
        | GeoType::MultiPoint
        | GeoType::LineString
        | GeoType::MultiLineString
        | GeoType::Polygon
        | GeoType::MultiPolygon
        | GeoType::GeometryCollection
        | GeoType::FeatureCollection => Err(ShapeFault::Refused(GeoFault::BadType)),
    }
}

#[tactic(auto, unfolding(geo_text::specs::Geometries::feature_item))]
fn feature_item(
    alloc: Global,
    parts: &mut Parts,
    value: &Value,
    count: u32,
) -> Result<u32, ShapeFault>
    ensures { Gives (λ n. (parts.new, n)) result (behind parts.old (geo.feature_item (view value.now) count)) }
{
    let type_ = type_of(value)?;
    only_feature(alloc, parts, type_, value, count)
}

fn feature_items(
    alloc: Global,
    parts: &mut Parts,
    items: &[Value],
    count: u32,
) -> Result<u32, ShapeFault>
    ensures { Gives (λ n. (parts.new, n)) result
        (behind parts.old (geo.parts_of_each geo.feature_item (items_view items.now) count)) }
{
    let mut count = count;
    for item in items {
        count = feature_item(alloc, parts, item, count)?;
    }
    Ok(count)
}

// RFC 7946, section 3.3.
#[tactic(auto, unfolding(geo_text::specs::Geometries::features))]
fn features(alloc: Global, parts: &mut Parts, value: &Value, count: u32) -> Result<u32, ShapeFault>
    ensures { Gives (λ n. (parts.new, n)) result (behind parts.old (geo.features (view value.now) count)) }
{
    let items = array_at(value, "features")?;
    feature_items(alloc, parts, items, count)
}

fn object(
    alloc: Global,
    parts: &mut Parts,
    type_: GeoType,
    value: &Value,
) -> Result<u32, ShapeFault>
    ensures { Gives (λ n. (parts.new, n)) result (behind parts.old (geo.top_of type_ (view value.now))) }
{
    match type_ {
        GeoType::Feature => feature(alloc, parts, value, 0),
        GeoType::FeatureCollection => features(alloc, parts, value, 0),
        GeoType::Point
        | GeoType::MultiPoint
        | GeoType::LineString
        | GeoType::MultiLineString
        | GeoType::Polygon
        | GeoType::MultiPolygon
        | GeoType::GeometryCollection => geometry(alloc, parts, value, 0),
    }
}

#[tactic(auto, unfolding(geo_text::specs::Geometries::shape))]
fn shape_of_value(alloc: Global, value: &Value) -> Result<Shape, ShapeFault>
    ensures { Gives (λ s. s) result (geo.shape (view value.now)) }
{
    let type_ = type_of(value)?;
    let mut parts = Parts::new(alloc);
    let count = object(alloc, &mut parts, type_, value)?;
    if count == 0 {
        return Err(ShapeFault::Refused(GeoFault::NotSpatial));
    }
    match Shape::of(parts) {
        Ok(shape) => Ok(shape),
        Err(_) => unreachable!(),
    }
}

fn walked(alloc: Global, text: &[u8]) -> Result<Shape, ShapeFault>
    ensures { Gives (λ s. s) result (texts.walked text.now) }
{
    match Value::from_slice(alloc, text) {
        Ok(value) => shape_of_value(alloc, &value),
        Err(error) => {
            if error.is_memory() {
                Err(ShapeFault::Memory)
            } else {
                Err(ShapeFault::Refused(GeoFault::NotJson))
            }
        }
    }
}

fn given(shape: Result<Shape, NoMemory>) -> Result<Shape, ShapeFault>
    ensures { (s : geo.Shape) → IfOk shape (λ given. given ≡ s) → Gives (λ own. own) result (Ok s) }
{
    match shape {
        Ok(shape) => Ok(shape),
        Err(NoMemory) => Err(ShapeFault::Memory),
    }
}

/// The shape of a GeoJSON text, or the first fault met in it.
/// The texts that are stored for points and boxes are read without JSON.
pub fn shape_of(alloc: Global, text: &[u8]) -> Result<Shape, ShapeFault>
    ensures { Gives (λ s. s) result (texts.shape_of text.now) }
{
    if let Some(p) = stored_point(text) {
        return given(Shape::point(alloc, p));
    }
    if let Some(b) = stored_bounds(text) {
        return given(Shape::rect(alloc, b));
    }
    walked(alloc, text)
}
