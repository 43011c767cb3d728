//! The shape of an object as the area of a search or of a fence.

ghost use Rattle.std.specs.Prelude.{◌≡◌, IfOk};

use byte_text::NoMemory;
use planar_geom::{Area, Shape};
use std::alloc::Global;

/// A shape as an area, in memory of its own.
pub fn figure_of(alloc: Global, shape: &Shape) -> Result<Area, NoMemory>
    ensures { IfOk result (λ area. area ≡ Area.Figure shape.now) }
{
    match shape.copy(alloc) {
        Ok(copy) => Ok(Area::Figure(copy)),
        Err(_) => Err(NoMemory),
    }
}
