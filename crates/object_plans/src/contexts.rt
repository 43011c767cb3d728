//! What the plan of a command on objects reads.

use keyspace::Keyspace;

/// The objects of a world as they are kept, what stands beside them, and the moment.
#[derive(Clone, Copy)]
pub struct ObjectContext<'a> {
    /// The objects of the world.
    pub objects: &'a Keyspace,
    /// The bytes of the records of all objects.
    pub total: u64,
    /// The bytes of the records of all channels.
    pub channels: u64,
    /// The moment, in milliseconds.
    pub now: u64,
}
