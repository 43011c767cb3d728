//! WebSockets as links of the server: each binary message of a client is the text of one request, and each frame goes
//! out as one binary message.
#![tactic(auto)]

mod answer_texts;
mod frames;
mod greetings;
mod heads;
mod lines;
mod list_talks;
mod origins;
mod page;
mod pieces;
mod requests;
mod talks;
#[cfg(test)]
mod tests;
mod unread;
mod web_links;
mod ws_talks;

pub use answer_texts::{answer_text, own_page};
pub use frames::frame_end;
pub use greetings::{Greeting, MAX_HEAD, greet};
pub use heads::{Answer, Head, Upgrade, answer_to};
pub use list_talks::{ListTalk, Listening, Saying};
pub use origins::is_allowed;
pub use requests::is_one_request;
pub use talks::{Message, Said, Talk, TalkFault, Told};
pub use web_links::{Phase, WebLink};
pub use ws_talks::{MAX_MESSAGE, WsTalk, limits};
