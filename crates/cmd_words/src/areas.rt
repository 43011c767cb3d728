//! The areas that are searched: a box, a disc, a GeoJSON text, or the shape of an object.

ghost use Rattle.std.specs.Prelude.{◌≡◌, IfOk, IfErr};
ghost use Rattle.world_model.specs.Commands.{nowhere as the_origin};
ghost use Rattle.cmd_words.specs.Progress.{Parses, ParsesAhead};
ghost use Rattle.cmd_words.specs.Areas.{box_area, figure_area as figure_pieces, an_area, behind_area, TakesArea};
ghost use Rattle.cmd_words.specs.declared.areas.AreaWord.TheVariants as at;

use crate::faults::CommandFault;
use crate::reader_values::box_between;
use crate::request_reader::Reader;
use byte_text::Text;
use planar_geom::{Area, BBox, Shape};
use std::alloc::Global;
use std::marker::Model;
use world_model::AreaWords;

/// An area as words give it: the area, or what holds the place of an object's, where it is from, and its GeoJSON text
/// where it is given by one.
pub(crate) struct SoughtArea {
    area: Area,
    pub(crate) from: AreaWords,
    pub(crate) text: Option<Text>,
}

impl Drop for SoughtArea {
    fn drop(self) {
        let SoughtArea {
            area: _,
            from: _,
            text: _,
        } = self;
    }
}

impl Model for SoughtArea {
    ghost use Rattle.world_model.specs.Commands.{AreaRead};
    ghost use Rattle.cmd_words.specs.Areas.{area_words};

    ghost Value = { AreaRead };

    ghost view = { λ a. record { from = a.from; area = a.area; words = area_words a.from a.text } };
}

impl SoughtArea {
    /// The area, and where it is from.
    pub(crate) fn parts(self) -> (Area, AreaWords)
        ensures { result ≡ (self.area, self.from) }
    {
        let SoughtArea {
            area,
            from,
            text: _,
        } = self;
        (area, from)
    }
}

/// The word that an area begins with.
#[derive(Clone, Copy)]
pub(crate) enum AreaWord {
    Bounds,
    Object,
    Circle,
    Get,
}

/// Reads the word that an area begins with, where one is next.
pub(crate) fn area_word(reader: &mut Reader) -> Option<AreaWord>
    ensures { TakesArea reader.old reader.new result }
{
    if reader.takes(b"BOUNDS") {
        Some(AreaWord::Bounds)
    } else if reader.takes(b"OBJECT") {
        Some(AreaWord::Object)
    } else if reader.takes(b"CIRCLE") {
        Some(AreaWord::Circle)
    } else if reader.takes(b"GET") {
        Some(AreaWord::Get)
    } else {
        None
    }
}

/// Reads an area, and where it is from.
pub(crate) fn read_area(reader: &mut Reader) -> Result<SoughtArea, CommandFault>
    ensures { ParsesAhead an_area reader.old reader.new result }
{
    match area_word(reader) {
        Some(word) => read_behind(reader, word),
        None => Err(reader.refusal()),
    }
}

/// Reads what stands behind the word of an area: `minlat minlon maxlat maxlon` behind BOUNDS, a GeoJSON text behind
/// OBJECT, `lat lon meters` behind CIRCLE, `key id` behind GET.
pub(crate) fn read_behind(reader: &mut Reader, word: AreaWord) -> Result<SoughtArea, CommandFault>
    ensures { Parses (behind_area word) reader.old reader.new result }
{
    match word {
        AreaWord::Bounds => {
            let rect = reader.bounds()?;
            Ok(rect_area(rect))
        }
        AreaWord::Object => read_figure(reader),
        AreaWord::Circle => read_disc(reader),
        AreaWord::Get => {
            let (key, id) = reader.key_and_id()?;
            Ok(SoughtArea {
                area: nowhere(),
                from: AreaWords::Of(key, id),
                text: None,
            })
        }
    }
}

// A GeoJSON text.
fn read_figure(reader: &mut Reader) -> Result<SoughtArea, CommandFault>
    ensures { Parses (behind_area at.Object) reader.old reader.new result }
{
    let (text, shape) = reader.geojson()?;
    figure_area(reader.alloc(), text, shape)
}

// `lat lon meters`
fn read_disc(reader: &mut Reader) -> Result<SoughtArea, CommandFault>
    ensures { Parses (behind_area at.Circle) reader.old reader.new result }
{
    let centre = reader.point()?;
    let radius = reader.meters()?;
    Ok(SoughtArea {
        area: Area::Disc(centre, radius),
        from: AreaWords::Given(Area::Disc(centre, radius)),
        text: None,
    })
}

/// The area of a box that is given.
pub(crate) fn rect_area(rect: BBox) -> SoughtArea
    ensures { result ≡ box_area rect }
{
    SoughtArea {
        area: Area::Rect(rect),
        from: AreaWords::Given(Area::Rect(rect)),
        text: None,
    }
}

// The area of a shape that is given by a text.
fn figure_area(alloc: Global, text: Text, shape: Shape) -> Result<SoughtArea, CommandFault>
    ensures ok { IfOk result (λ a. a ≡ figure_pieces (text, shape)) }
    ensures err { IfErr result (λ why. why ≡ CommandFault.Memory) }
{
    match shape.copy(alloc) {
        Ok(copy) => Ok(SoughtArea {
            area: Area::Figure(shape),
            from: AreaWords::Given(Area::Figure(copy)),
            text: Some(text),
        }),
        Err(_) => Err(CommandFault::Memory),
    }
}

// What stands in the place of an area that is an object's shape.
fn nowhere() -> Area
    ensures { result ≡ the_origin }
{
    Area::Rect(box_between(0, 0, 0, 0))
}
