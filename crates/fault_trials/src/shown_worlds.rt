//! What a leader's world shows at a moment, with which the world that a node has published is compared.

use crate::faults::Fault;
use byte_text::{Name, Text, push_u64};
use repl_node::Node;
use std::alloc::Global;
use tile_core::Core;
use world_data::Object;

// An object's key and id, and all else of it as a text.
#[derive(Drop)]
struct ShownObject {
    key: Name,
    id: Name,
    look: Text,
}

/// The objects of a world, and how many channels it has.
#[derive(Drop)]
pub(crate) struct Shown {
    objects: Vec<ShownObject>,
    channels: u64,
}

// What there is of an object beside its key and its id: its text, its deadline and its fields.
fn look_of(object: &Object) -> Result<Text, Fault> {
    let mut look = object.text.copy()?;
    if let Some(deadline) = object.deadline {
        look.push(b" until ")?;
        push_u64(&mut look, deadline)?;
    }
    for place in 0..object.fields.len() {
        look.push(b" ")?;
        look.push(object.fields.name(place).bytes())?;
        look.push(b"=")?;
        object.fields.show(place, &mut look)?;
    }
    Ok(look)
}

// The objects of a core, in their order.
fn objects_of(alloc: Global, core: &Core) -> Result<Vec<ShownObject>, Fault> {
    let mut objects: Vec<ShownObject> = Vec::new(alloc);
    for _ in 0..core.objects() {
        let after = objects.last().map(|last| (&last.key, &last.id));
        let Some(object) = core.next_object(after) else {
            return Err(Fault::Step);
        };
        let shown = ShownObject {
            key: object.key.copy(alloc)?,
            id: object.id.copy(alloc)?,
            look: look_of(object)?,
        };
        objects.push(shown)?;
    }
    Ok(objects)
}

impl Shown {
    /// What a core shows.
    pub(crate) fn of(alloc: Global, core: &Core) -> Result<Shown, Fault> {
        Ok(Shown {
            objects: objects_of(alloc, core)?,
            channels: core.channels(),
        })
    }

    /// Whether a node has published the same.
    pub(crate) fn is_of(&self, node: &Node) -> Result<bool, Fault> {
        if node.objects() != self.objects.len() as u64 || node.channels() != self.channels {
            return Ok(false);
        }
        for shown in self.objects.as_slice() {
            let Some(object) = node.get(&shown.key, &shown.id) else {
                return Ok(false);
            };
            let look = look_of(object)?;
            if look.bytes() != shown.look.bytes() {
                return Ok(false);
            }
        }
        Ok(true)
    }
}
