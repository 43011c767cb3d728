//! Messages to the sessions that hear them. They are staged in each session's mailbox before anything is changed, and
//! placed by calls that take no memory; a session whose queue has no room for what it is brought is cut, and loses its
//! subscriptions.
#![tactic(auto)]

mod fans;
mod frames;
mod held;
mod listening;
mod mailboxes;
mod marks;
mod sessions;

pub use fans::{place_staged, stage_message, unstage};
pub use held::{SubscribeFault, Subscription, Subscriptions};
pub use mailboxes::Mailbox;
pub use sessions::{Session, Stage};
