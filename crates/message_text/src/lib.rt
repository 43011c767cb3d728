//! Payloads of messages: what a channel tells of a change, as JSON (RFC 8259) in one spelling.
#![tactic(auto)]

mod messages;
mod parts;

pub use messages::push_message;
