//! Which channels of a key a change may concern: those that are named raise what there is to raise, and the others
//! raise nothing. The boxes of the areas stand in trees, those of each key by themselves, so that a change visits few
//! nodes where few channels are near.
#![tactic(auto)]

mod box_sets;
mod indexes;
mod key_boxes;
mod key_lists;
mod laws;
mod marks;
mod nearness;
mod ready;

pub use indexes::FenceIndex;
pub use laws::{unconcerned_are_silent, unconcerned_by_del, unconcerned_by_put, watch_is_whole};
