//! Commands that search the objects of a key.

use byte_text::Name;
use planar_geom::{Area, Pt};
use world_data::Query;

/// Where an area is from: given in the words, or the shape of an object (its key and id) when the command is done.
#[derive(Drop)]
pub enum AreaWords {
    Given(Area),
    Of(Name, Name),
}

/// A search: of all objects of a key (SCAN), of those in an area (WITHIN, INTERSECTS), or of the nearest (NEARBY).
/// Where an area is an object's, the query's rule holds the box of the one point (0, 0) until the command is done.
#[derive(Drop)]
pub enum SearchCommand {
    Scan {
        key: Name,
        query: Query,
    },
    Area {
        key: Name,
        query: Query,
        area: AreaWords,
    },
    Nearby {
        key: Name,
        query: Query,
        at: Pt,
        reach: Option<u32>,
    },
}
