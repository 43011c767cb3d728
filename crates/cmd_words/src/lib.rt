//! The words of requests, read as commands.
#![tactic(auto)]

mod areas;
mod channel_words;
mod channels;
mod command_names;
mod commands;
mod conditions;
mod faults;
mod fence_areas;
mod fence_options;
mod fields;
mod laws;
mod listed_names;
mod name_lists;
mod object_places;
mod objects;
mod reader_values;
mod request_reader;
mod scans;
mod search_options;
mod searches;
mod sessions;
mod set_options;
mod setchans;
mod sets;
mod tests_read;
mod word_kinds;

pub use commands::command_of;
pub use faults::CommandFault;
pub use laws::served_commands;
