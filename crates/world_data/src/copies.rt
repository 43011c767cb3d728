//! Copies of values of the crates below, in memory of their own.

ghost use Rattle.std.specs.Prelude.{◌≡◌, IfOk};

use byte_text::{Name, NoMemory, Request};
use planar_geom::Area;
use std::alloc::Global;

// The same area.
pub(crate) fn copy_area(alloc: Global, area: &Area) -> Result<Area, NoMemory>
    ensures { IfOk result (λ copy. copy ≡ area.now) }
{
    match area {
        Area::Rect(rect) => Ok(Area::Rect(*rect)),
        Area::Disc(centre, radius) => Ok(Area::Disc(*centre, *radius)),
        Area::Figure(shape) => Ok(Area::Figure(shape.copy(alloc)?)),
    }
}

// The same pattern, or none.
pub(crate) fn copy_pattern(alloc: Global, pattern: &Option<Name>) -> Result<Option<Name>, NoMemory>
    ensures { IfOk result (λ copy. copy ≡ pattern.now) }
{
    match pattern {
        Some(name) => Ok(Some(name.copy(alloc)?)),
        None => Ok(None),
    }
}

// The same words.
pub(crate) fn copy_request(alloc: Global, words: &Request) -> Result<Request, NoMemory>
    ensures { IfOk result (λ copy. copy ≡ words.now) }
{
    let mut copy = Request::new(alloc);
    for at in 0..words.words() {
        copy.push(words.word(at))?;
    }
    Ok(copy)
}
