//! Queries over the objects of one key: SCAN, WITHIN and INTERSECTS by id, NEARBY by distance from a point.
#![tactic(auto)]

mod near_pages;
mod pages;

pub use near_pages::near_page;
pub use pages::page;
