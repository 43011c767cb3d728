//! Plans: what a request will do in a world, its reply and its change, before anything is changed.
#![tactic(auto)]

mod requests;
mod sessions;

pub use channel_plans::{ChannelChange, ChannelPlan, Confirmed, Context, Planned};
pub use object_plans::{MOST_KEPT, ObjectChange, Plan};
pub use requests::plan_asked;
