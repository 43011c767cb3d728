//! The types of GeoJSON objects, and the kinds of their parts.

/// The nine types of GeoJSON objects (RFC 7946, section 1.4).
#[derive(Clone, Copy, Debug, PartialEq, Eq)]
pub enum GeoType {
    Point,
    MultiPoint,
    LineString,
    MultiLineString,
    Polygon,
    MultiPolygon,
    GeometryCollection,
    Feature,
    FeatureCollection,
}

/// The three kinds of part that geometries are made of.
#[derive(Clone, Copy, Debug, PartialEq, Eq)]
pub enum Base {
    Spot,
    Chain,
    Face,
}
