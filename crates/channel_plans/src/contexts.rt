//! What the plan of a request reads.

use channel_hub::Hub;
use keyspace::Keyspace;
use session_table::Subscriptions;

/// A world as it is kept, the session that asks, and the moment.
#[derive(Clone, Copy)]
pub struct Context<'a> {
    /// The objects of the world.
    pub objects: &'a Keyspace,
    /// The bytes of the records of all objects.
    pub total: u64,
    /// The channels of the world.
    pub hub: &'a Hub,
    /// The bytes of the records of all channels.
    pub channels: u64,
    /// The subscriptions of the session that asks.
    pub subs: &'a Subscriptions,
    /// The moment, in milliseconds.
    pub now: u64,
}
