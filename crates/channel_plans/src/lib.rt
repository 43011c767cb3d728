//! Plans of the commands on channels and of subscriptions, and what any request will do: to objects, to channels, or to
//! the subscriptions of its session.
#![tactic(auto)]

mod channels;
mod commands;
mod contexts;
mod planned;
mod setchans;
mod subscribing;

pub use commands::plan_channel;
pub use contexts::Context;
pub use planned::{ChannelChange, ChannelPlan, Confirmed, Planned};
pub use subscribing::plan_subscribe;
