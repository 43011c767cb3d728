//! Definitions of queries, of fences and of the messages that a change raises on them.
#![tactic(auto)]
