//! Why a reader gave no shape.

use geo_text::GeoFault;

/// Why a text gave no shape.
#[derive(Clone, Copy, Debug, PartialEq, Eq)]
pub enum ShapeFault {
    /// The text is refused: the first fault met in it.
    Refused(GeoFault),
    /// Want of memory, whatever the text is.
    Memory,
}
