//! What is wrong with a text that is no shape.
//!
//! Running out of memory is no fault of a text: a reader that may run out answers with a type of its own, in which the
//! fault is one case.

/// Why a text is no shape.
#[derive(Clone, Copy, Debug, PartialEq, Eq)]
pub enum GeoFault {
    /// The text is no JSON, or not UTF-8.
    NotJson,
    /// A value that is no GeoJSON object, lacks its member, or has no position at all.
    NotSpatial,
    /// A `type` that RFC 7946 does not name, or that may not stand in this place.
    BadType,
    /// A coordinate with a fraction or an exponent.
    NotWhole,
    /// A coordinate beyond 1,000,000,000.
    OutOfRange,
    /// A ring whose first position is not its last.
    BadRing,
    /// A line under two positions, a ring under four, a polygon without a ring.
    TooFew,
    /// More than 10,000 positions.
    TooMany,
    /// What stands in the place of a position is no array of two or three numbers.
    BadPosition,
}
