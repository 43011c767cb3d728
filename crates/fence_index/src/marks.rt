//! What is kept of a channel that is prepared.

ghost use Rattle.std.specs.Prelude.{◌≡◌, IfOk};
ghost use Rattle.fence_index.specs.Marks.{mark_of, watched_box};

use byte_text::{Name, NoMemory};
use planar_geom::{BBox, area_box};
use std::alloc::Global;
use world_data::{Channel, Watch};

/// What the index asks of a channel: its key, the box of its area (none where it roams), and whether it wants
/// `outside`.
#[derive(Drop)]
pub struct Mark {
    pub key: Name,
    pub area: Option<BBox>,
    pub outside: bool,
}

impl Mark {
    /// That of the channel, in memory of its own.
    pub(crate) fn of(alloc: Global, channel: &Channel) -> Result<Mark, NoMemory>
        ensures { IfOk result (λ mark. mark ≡ mark_of channel.now) }
    {
        Ok(Mark {
            key: channel.fence.key.copy(alloc)?,
            area: watched_box(&channel.fence.watch),
            outside: channel.fence.wanted.outside,
        })
    }
}

/// The box of the area that is watched. One that roams watches none.
pub(crate) fn watched_box(watch: &Watch) -> Option<BBox>
    ensures { result ≡ watched_box watch.now }
{
    match watch {
        Watch::Zone(_, area) => Some(area_box(area)),
        Watch::Roam(_, _, _, _) => None,
    }
}
