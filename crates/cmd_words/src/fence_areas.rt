//! What a channel watches, as the words behind its options say it.

ghost use Rattle.std.specs.Prelude.{◌≡◌};
ghost use Rattle.cmd_words.specs.Progress.{Reads, ParsesAhead};
ghost use Rattle.cmd_words.specs.FenceAreas.{around, beside, given_area, near_area, fence_area, watch_of, from_of};

use crate::areas::{SoughtArea, read_area};
use crate::faults::CommandFault;
use crate::fence_options::FenceOptions;
use crate::request_reader::Reader;
use byte_text::Name;
use planar_geom::{Area, Pt};
use world_data::{Kind, Watch};
use world_model::AreaWords;

/// What is watched: an area, the points so many meters around one, or the objects of a key whose ids meet a pattern,
/// within so many meters of each.
#[derive(Drop)]
pub(crate) enum FenceArea {
    Given(SoughtArea),
    Around(Pt, u32),
    Beside(Name, Name, u32),
}

impl FenceArea {
    /// The watch of a channel of this kind, and where its area is from.
    pub(crate) fn watch(self, kind: Kind, nodwell: bool) -> (Watch, Option<AreaWords>)
        ensures { result ≡ (watch_of kind nodwell self, from_of self) }
    {
        match self {
            FenceArea::Given(sought) => {
                let (area, from) = sought.parts();
                (Watch::Zone(kind, area), Some(from))
            }
            FenceArea::Around(centre, radius) => {
                (Watch::Zone(Kind::Near, Area::Disc(centre, radius)), None)
            }
            FenceArea::Beside(key, pattern, meters) => {
                (Watch::Roam(key, pattern, meters, nodwell), None)
            }
        }
    }
}

/// Reads what a channel of this kind watches, behind its options, FENCE among them: an area, and behind NEARBY
/// `POINT lat lon meters` or `ROAM key pattern meters`.
pub(crate) fn read_fence_area(
    reader: &mut Reader,
    kind: Kind,
    options: &FenceOptions,
) -> Result<FenceArea, CommandFault>
    ensures { ParsesAhead (fence_area kind options.now) reader.old reader.new result }
{
    if !options.fence {
        return Err(reader.refusal());
    }
    match kind {
        Kind::Within => read_given(reader),
        Kind::Intersects => read_given(reader),
        Kind::Near => read_near(reader, options),
    }
}

// An area.
fn read_given(reader: &mut Reader) -> Result<FenceArea, CommandFault>
    ensures { ParsesAhead given_area reader.old reader.new result }
{
    let area = read_area(reader)?;
    Ok(FenceArea::Given(area))
}

// `POINT lat lon meters`, but not behind NODWELL, or `ROAM key pattern meters`, but not behind DETECT.
fn read_near(reader: &mut Reader, options: &FenceOptions) -> Result<FenceArea, CommandFault>
    ensures { ParsesAhead (near_area options.now) reader.old reader.new result }
{
    if reader.takes_due(!options.nodwell, b"POINT") {
        read_around(reader)
    } else if reader.takes_due(options.detect.is_none(), b"ROAM") {
        read_beside(reader)
    } else {
        Err(reader.refusal())
    }
}

// `lat lon meters`
fn read_around(reader: &mut Reader) -> Result<FenceArea, CommandFault>
    ensures { Reads around reader.old reader.new result }
{
    let centre = reader.point()?;
    let radius = reader.meters()?;
    Ok(FenceArea::Around(centre, radius))
}

// `key pattern meters`
fn read_beside(reader: &mut Reader) -> Result<FenceArea, CommandFault>
    ensures { Reads beside reader.old reader.new result }
{
    let key = reader.name()?;
    let pattern = reader.glob()?;
    let meters = reader.meters()?;
    Ok(FenceArea::Beside(key, pattern, meters))
}
