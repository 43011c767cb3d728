//! RFC 7946, section 1.4: the type of an object, and its members.

ghost use Rattle.std.specs.Prelude.{◌≡◌, option_map};
ghost use Rattle.serde_json.specs.View.{view, items_view};
ghost use Rattle.geojson_model.specs.Answers.{Gives};
ghost use Rattle.geo_text.specs.Geometries as geo;

use crate::faults::ShapeFault;
use geo_text::{GeoFault, GeoType};
use serde_json::Value;

fn type_named(name: &str) -> Result<GeoType, ShapeFault>
    ensures { Gives (λ t. t) result (geo.type_named name.now) }
{
    match name {
        "Point" => Ok(GeoType::Point),
        "MultiPoint" => Ok(GeoType::MultiPoint),
        "LineString" => Ok(GeoType::LineString),
        "MultiLineString" => Ok(GeoType::MultiLineString),
        "Polygon" => Ok(GeoType::Polygon),
        "MultiPolygon" => Ok(GeoType::MultiPolygon),
        "GeometryCollection" => Ok(GeoType::GeometryCollection),
        "Feature" => Ok(GeoType::Feature),
        "FeatureCollection" => Ok(GeoType::FeatureCollection),
        _ => Err(ShapeFault::Refused(GeoFault::BadType)),
    }
}

/// The type of an object.
pub(crate) fn type_of(value: &Value) -> Result<GeoType, ShapeFault>
    ensures { Gives (λ t. t) result (geo.type_of (view value.now)) }
{
    match value.get("type").and_then(Value::as_str) {
        Some(name) => type_named(name),
        None => Err(ShapeFault::Refused(GeoFault::NotSpatial)),
    }
}

/// The items of the array at a member.
pub(crate) fn array_at<'a>(value: &'a Value, name: &str) -> Result<&'a [Value], ShapeFault>
    ensures { Gives (λ items. items_view items.now) result (geo.array_at name.now (view value.now)) }
{
    match value.get(name) {
        Some(Value::Array(items)) => Ok(items.as_slice()),
        Some(_) => Err(ShapeFault::Refused(GeoFault::NotSpatial)),
        None => Err(ShapeFault::Refused(GeoFault::NotSpatial)),
    }
}

/// The value of a member that must be there.
pub(crate) fn there(found: Option<&Value>) -> Result<&Value, ShapeFault>
    ensures { Gives (λ v. view v.now) result (geo.there (option_map (λ v. view v.now) found.entry)) }
{
    match found {
        Some(value) => Ok(value),
        None => Err(ShapeFault::Refused(GeoFault::NotSpatial)),
    }
}

fn array_only(value: &Value) -> Result<&Value, ShapeFault>
    ensures { Gives (λ v. view v.now) result (geo.array_only (view value.now)) }
{
    match value {
        Value::Array(_) => Ok(value),
        _ => Err(ShapeFault::Refused(GeoFault::NotSpatial)),
    }
}

/// The value, which must be an object.
pub(crate) fn object_only(value: &Value) -> Result<&Value, ShapeFault>
    ensures { Gives (λ v. view v.now) result (geo.object_only (view value.now)) }
{
    match value {
        Value::Object(_) => Ok(value),
        _ => Err(ShapeFault::Refused(GeoFault::NotSpatial)),
    }
}

/// The array at `coordinates`.
#[tactic(auto, unfolding(geo_text::specs::Geometries::coordinates))]
pub(crate) fn coordinates(value: &Value) -> Result<&Value, ShapeFault>
    ensures { Gives (λ v. view v.now) result (geo.coordinates (view value.now)) }
{
    let found = there(value.get("coordinates"))?;
    array_only(found)
}
