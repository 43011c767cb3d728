//! RFC 7946, section 3.1: geometry objects, and collections of them.

ghost use Rattle.std.specs.Prelude.{◌≡◌, None};
ghost use Rattle.serde_json.specs.View.{view, items_view};
ghost use Rattle.geojson_model.specs.Answers.{Gives};
ghost use Rattle.geo_text.specs.Geometries as geo;
ghost use Rattle.geojson_model.specs.Behind.{behind};
ghost use Rattle.geojson_model.specs.Behind as behinds;

use crate::faults::ShapeFault;
use crate::members::{array_at, type_of};
use crate::parts::{many_at, single_at};
use geo_text::{Base, GeoFault, GeoType};
use planar_geom::Parts;
use serde_json::Value;
use std::alloc::Global;

fn is_collection(type_: GeoType) -> bool
    ensures { result ≡ behinds.is_collection type_ }
{
    matches!(type_, GeoType::GeometryCollection)
}

// The parts of a geometry that is no collection.
fn plain(
    alloc: Global,
    parts: &mut Parts,
    type_: GeoType,
    value: &Value,
    count: u32,
) -> Result<u32, ShapeFault>
    ensures { Gives (λ n. (parts.new, n)) result (behind parts.old (geo.of_type type_ (view value.now) None count)) }
{
    match type_ {
        GeoType::Point => single_at(alloc, parts, Base::Spot, value, count),
        GeoType::MultiPoint => many_at(alloc, parts, Base::Spot, value, count),
        GeoType::LineString => single_at(alloc, parts, Base::Chain, value, count),
        GeoType::MultiLineString => many_at(alloc, parts, Base::Chain, value, count),
        GeoType::Polygon => single_at(alloc, parts, Base::Face, value, count),
        GeoType::MultiPolygon => many_at(alloc, parts, Base::Face, value, count),
        GeoType::GeometryCollection => Err(ShapeFault::Refused(GeoFault::NotSpatial)),
        GeoType::Feature => Err(ShapeFault::Refused(GeoFault::BadType)),
        GeoType::FeatureCollection => Err(ShapeFault::Refused(GeoFault::BadType)),
    }
}

/// The parts of a geometry, put behind those found before, and the number of positions then.
/// JSON nests 127 deep at most.
pub(crate) fn geometry(
    alloc: Global,
    parts: &mut Parts,
    value: &Value,
    count: u32,
) -> Result<u32, ShapeFault>
    ensures { Gives (λ n. (parts.new, n)) result (behind parts.old (geo.geometry (view value.now) count)) }
{
    let type_ = type_of(value)?;
    if !is_collection(type_) {
        return plain(alloc, parts, type_, value, count);
    }
    let items = array_at(value, "geometries")?;
    let mut count = count;
    for item in items {
        count = geometry(alloc, parts, item, count)?;
    }
    Ok(count)
}
