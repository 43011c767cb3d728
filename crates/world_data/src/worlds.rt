//! Worlds, and the changes of them.
//!
//! What makes and changes a `World`, its `Objects` and its `Channels` is called by tests alone: these are the types that
//! the definitions speak of, for which the server keeps slots and trees. `World::fold` is the definition of a change as
//! a plain program.

ghost use Rattle.std.specs.Prelude.{◌≡◌, OnOk, OnErr};
ghost use Rattle.world_data.specs.Worlds.{empty_world, after};

use crate::channels::{Channel, Channels};
use crate::objects::{Object, Objects};
use byte_text::{Name, NoMemory};
use std::alloc::Global;

/// What the server holds: objects and channels, each in their order.
pub struct World {
    pub objects: Objects,
    pub channels: Channels,
}

impl Drop for World {
    fn drop(self) {
        let World {
            objects: _,
            channels: _,
        } = self;
    }
}

/// A change of a world.
#[derive(Drop)]
pub enum Change {
    Put(Object),
    /// A key and an id.
    Del(Name, Name),
    /// A key.
    Drop(Name),
    Flush,
    SetChan(Channel),
    /// A name.
    DelChan(Name),
}

impl World {
    /// The empty world. What is put into it takes its memory from `alloc`.
    pub fn new(alloc: Global) -> World
        ensures { result ≡ empty_world }
    {
        World {
            objects: Objects::new(alloc),
            channels: Channels::new(alloc),
        }
    }

    /// Makes the world the one after the change. For want of memory, which comes at a put or a setting alone, it is as
    /// before.
    pub fn fold(&mut self, change: Change) -> Result<(), NoMemory>
        ensures ok { OnOk result (self.new ≡ after self.old change) }
        ensures err { OnErr result (self.new ≡ self.old) }
    {
        match change {
            Change::Put(object) => self.objects.put(object),
            Change::Del(key, id) => {
                self.objects.remove(&key, &id);
                Ok(())
            }
            Change::Drop(key) => {
                self.objects.remove_key(&key);
                Ok(())
            }
            Change::Flush => {
                self.objects.clear();
                self.channels.clear();
                Ok(())
            }
            Change::SetChan(channel) => self.channels.put(channel),
            Change::DelChan(name) => {
                self.channels.remove(&name);
                Ok(())
            }
        }
    }
}
