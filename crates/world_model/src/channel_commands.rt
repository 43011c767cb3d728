//! Commands that set channels, take them out and list them.

use crate::search_commands::AreaWords;
use byte_text::Name;
use world_data::Channel;

/// A command on channels. Where an area is an object's, the fence's watch holds the box of the one point (0, 0) until
/// the command is done, and the channel's words end before the area's. The channel's deadline is `None` until then:
/// `seconds` from that moment on, where there are some.
#[derive(Drop)]
pub enum ChannelCommand {
    Setchan {
        channel: Channel,
        area: Option<AreaWords>,
        seconds: Option<u32>,
    },
    Delchan {
        name: Name,
    },
    Pdelchan {
        glob: Name,
    },
    Chans {
        glob: Name,
    },
}
