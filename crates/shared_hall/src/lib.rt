//! A hall that many threads share: one core over a disk under the turn lock. Each call is one turn and makes the
//! entries of that turn in the hall's one history.
#![tactic(auto)]

mod acts;
mod answers;
mod halls;
mod laws;
mod places;
mod values;
mod works;

pub use halls::{HallSeat, SharedHall};
pub use laws::{followers_outlive_leaders, followers_show_histories, histories_are_lives};
pub use places::{Begun, HallCore, Place};
pub use works::{Asking, HallAnswer, HallWork, Taking, Ticking};
