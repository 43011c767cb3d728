//! Plans of the commands on objects: what they will do in a world, the reply and the change, before anything is
//! changed.
#![tactic(auto)]

mod answers;
mod beside;
mod changes;
mod commands;
mod contexts;
mod deadlines;
mod deletes;
mod fields;
mod figures;
mod frames;
mod limits;
mod listings;
mod moves;
mod plans;
mod puts;
mod reads;

pub use answers::{say_count, say_frame, say_refusal, short_frame};
pub use changes::plan_missing;
pub use commands::plan_object;
pub use contexts::ObjectContext;
pub use figures::figure_of;
pub use frames::frame_in;
pub use limits::MOST_KEPT;
pub use listings::or_refusal;
pub use moves::ObjectChange;
pub use plans::Plan;
pub use puts::deadline_after;
