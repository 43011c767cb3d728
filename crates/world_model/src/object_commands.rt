//! Commands on the objects of a key, and on all objects.

use byte_text::{Name, Text};
use planar_geom::Shape;
use world_data::{Fields, NameList, Shown};

/// Whether a SET is done for an object of any kind, for an absent one alone (NX), or for one that is there alone (XX).
#[derive(Clone, Copy, Debug, PartialEq, Eq)]
pub enum Only {
    Any,
    Absent,
    Present,
}

/// A command on objects. `cleared` are the names of fields that are written 0.
#[derive(Drop)]
pub enum ObjectCommand {
    Set {
        key: Name,
        id: Name,
        fields: Fields,
        cleared: NameList,
        seconds: Option<u32>,
        only: Only,
        text: Text,
        shape: Shape,
    },
    Get {
        key: Name,
        id: Name,
        with_fields: bool,
        shown: Shown,
    },
    Del {
        key: Name,
        id: Name,
    },
    Pdel {
        key: Name,
        glob: Name,
    },
    Drop {
        key: Name,
    },
    Fset {
        key: Name,
        id: Name,
        fields: Fields,
        cleared: NameList,
    },
    Fget {
        key: Name,
        id: Name,
        field: Name,
    },
    Expire {
        key: Name,
        id: Name,
        seconds: u32,
    },
    Persist {
        key: Name,
        id: Name,
    },
    Ttl {
        key: Name,
        id: Name,
    },
    Keys {
        glob: Name,
    },
    Bounds {
        key: Name,
    },
    Stats {
        keys: NameList,
    },
    Flush,
    Shrink,
}
