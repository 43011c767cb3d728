//! What a request will do, by what it changes: objects, channels, or the subscriptions of its session.

use byte_text::Text;
use object_plans::Plan;
use session_table::Subscriptions;
use world_model::{Channel, NameList};

/// What is done to the channels.
#[derive(Drop)]
pub enum ChannelChange {
    /// The channel is put in its place.
    Set(Channel),
    /// The channels of these names are taken out.
    Drop(NameList),
}

/// What a request will do that changes channels.
#[derive(Drop)]
pub struct ChannelPlan {
    /// The frame of its reply.
    pub frame: Text,
    /// What is done to the channels.
    pub action: ChannelChange,
    /// The bytes of the records of the changes.
    pub length: u64,
    /// The weight of the channels after them.
    pub weight: u64,
}

/// What a request will do that subscribes.
#[derive(Drop)]
pub struct Confirmed {
    /// The frames of its replies, one for each word.
    pub frames: Vec<Text>,
    /// The subscriptions that its session has then.
    pub subs: Subscriptions,
}

/// What a request will do.
#[derive(Drop)]
pub enum Planned {
    /// It answers, and may change objects.
    Objects(Plan),
    /// It answers, and changes channels.
    Channels(ChannelPlan),
    /// It confirms subscriptions.
    Subscribed(Confirmed),
}
