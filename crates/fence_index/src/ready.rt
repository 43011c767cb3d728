//! A channel that is ready to be put.

ghost use Rattle.std.specs.Prelude.{◌≡◌, IfOk};
ghost use Rattle.fence_index.specs.Marks.{mark_of};
ghost use Rattle.fence_index.specs.Boxed.{IsFresh};

use crate::key_boxes::KeyBoxes;
use crate::marks::Mark;
use byte_text::NoMemory;
use std::alloc::Global;
use world_data::Channel;

/// What the index asks of a channel, and the boxes of its key as they are to be where it is the first.
#[derive(Drop)]
pub(crate) struct Ready {
    pub(crate) mark: Mark,
    pub(crate) boxes: KeyBoxes,
}

impl Ready {
    pub(crate) fn of(alloc: Global, channel: &Channel) -> Result<Ready, NoMemory>
        ensures mark { IfOk result (λ ready. ready.mark ≡ mark_of channel.now) }
        ensures boxes { IfOk result (λ ready. IsFresh (mark_of channel.now) ready.boxes) }
    {
        Ok(Ready {
            mark: Mark::of(alloc, channel)?,
            boxes: KeyBoxes::of(alloc, channel)?,
        })
    }
}
