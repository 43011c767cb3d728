//! The place that SET puts an object at.

ghost use Rattle.std.specs.Prelude.{◌≡◌, [], ◌∷◌, IfOk, IfErr};
ghost use Rattle.geo_text.specs.Texts.{point_text, bounds_text, corners as box_corners};
ghost use Rattle.planar_geom.specs.declared.shapes.Part.TheVariants.{Spot, Face};
ghost use Rattle.world_model.specs.Commands.{SetOptions};
ghost use Rattle.cmd_words.specs.Sets.{LacksOption, TakesPlace, ReadsPlace};

use crate::faults::CommandFault;
use crate::request_reader::Reader;
use byte_text::Text;
use geojson_model::{push_bounds, push_point};
use planar_geom::{BBox, Pt, Shape};
use std::alloc::Global;

/// The word that a place begins with.
#[derive(Clone, Copy)]
pub(crate) enum PlaceWord {
    Point,
    Bounds,
    Object,
}

// Reads the word that a place begins with, where one is next.
fn place_word(reader: &mut Reader) -> Option<PlaceWord>
    ensures { TakesPlace reader.old reader.new result }
{
    if reader.takes(b"POINT") {
        Some(PlaceWord::Point)
    } else if reader.takes(b"BOUNDS") {
        Some(PlaceWord::Bounds)
    } else if reader.takes(b"OBJECT") {
        Some(PlaceWord::Object)
    } else {
        None
    }
}

/// Reads a place behind these options, of which no further one is next: `POINT lat lon`,
/// `BOUNDS minlat minlon maxlat maxlon`, or `OBJECT` and a GeoJSON text. The text that is stored, and its shape.
pub(crate) fn read_place(reader: &mut Reader) -> Result<(Text, Shape), CommandFault>
    ensures { (o : SetOptions) → LacksOption o reader.old.left → ReadsPlace o reader.old reader.new result }
{
    match place_word(reader) {
        Some(PlaceWord::Point) => {
            let at = reader.point()?;
            point_object(reader.alloc(), at)
        }
        Some(PlaceWord::Bounds) => {
            let bounds = reader.bounds()?;
            bounds_object(reader.alloc(), bounds)
        }
        Some(PlaceWord::Object) => reader.geojson(),
        None => Err(reader.refusal()),
    }
}

// The bytes of the longest text that is stored for a point: 30 before the position, two coordinates of up to 11 bytes
// with `[`, `,` and `]`, and the `}`. Usual positions are a few digits shorter, and an allocator mostly gives all of
// them the same room: so the digits are not counted. (A text that grows to the position would keep room for 60 bytes.)
const POINT_ROOM: usize = 30 + 25 + 1;

// The text and shape of a point.
fn point_object(alloc: Global, at: Pt) -> Result<(Text, Shape), CommandFault>
    ensures ok { IfOk result (λ t. t ≡ (point_text at, Spot at ∷ [])) }
    ensures err { IfErr result (λ why. why ≡ CommandFault.Memory) }
{
    let Ok(mut text) = Text::with_room(alloc, POINT_ROOM) else {
        return Err(CommandFault::Memory);
    };
    let Ok(()) = push_point(&mut text, at) else {
        return Err(CommandFault::Memory);
    };
    match Shape::point(alloc, at) {
        Ok(shape) => Ok((text, shape)),
        Err(_) => Err(CommandFault::Memory),
    }
}

// The text and shape of a box.
fn bounds_object(alloc: Global, bounds: BBox) -> Result<(Text, Shape), CommandFault>
    ensures ok { IfOk result (λ t. t ≡ (bounds_text bounds, Face (box_corners bounds ∷ []) ∷ [])) }
    ensures err { IfErr result (λ why. why ≡ CommandFault.Memory) }
{
    let mut text = Text::new(alloc);
    let Ok(()) = push_bounds(&mut text, bounds) else {
        return Err(CommandFault::Memory);
    };
    match Shape::rect(alloc, bounds) {
        Ok(shape) => Ok((text, shape)),
        Err(_) => Err(CommandFault::Memory),
    }
}
