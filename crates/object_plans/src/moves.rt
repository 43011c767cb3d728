//! What is done to the objects of a world.

use byte_text::Name;
use world_model::{NameList, Object};

/// What is done to the objects.
#[derive(Drop)]
pub enum ObjectChange {
    /// They stay as they are.
    Stay,
    /// The object is put in its place.
    Put(Object),
    /// The object of this key and this id is taken out.
    Delete(Name, Name),
    /// The objects of a key that have these ids are taken out.
    DeleteEach(Name, NameList),
    /// The objects of this key are taken out.
    DropKey(Name),
    /// All objects are.
    Clear,
}
