//! Why words are refused, and why a command that was read is not done.

use byte_text::Text;
use geo_text::GeoFault;

/// How a list of words is refused. The texts are the first 64 bytes of the word at fault; of `WrongCount` the command's
/// name in lower case.
#[derive(Drop)]
pub enum WordFault {
    /// The first word is no command name.
    Unknown(Text),
    /// The words ran out, or one stands behind a complete command.
    WrongCount(Text),
    /// Any other word.
    Invalid(Text),
    /// A coordinate is due, and the word is a decimal fraction.
    Fraction(Text),
    /// A GeoJSON text is due, and the word is refused as one.
    Geo(GeoFault),
}

/// Why a command that was read is not done.
#[derive(Clone, Copy, Debug, PartialEq, Eq)]
pub enum Refusal {
    /// No object has the key.
    KeyNotFound,
    /// The key has no object of this id.
    IdNotFound,
    /// The object would have more fields than [`world_data::MAX_FIELDS`].
    TooManyFields,
    /// The world has as many objects as it may have.
    TooManyObjects,
    /// The world has as many channels as it may have.
    TooManyChannels,
    /// The session would have more subscriptions than [`world_data::MAX_SUBS`].
    TooManySubscriptions,
    /// The records of the world would pass [`world_data::MAX_WEIGHT`].
    DatabaseFull,
    /// A reply would pass [`world_data::MAX_REPLY`].
    ReplyTooLong,
    /// A session with subscriptions is served four commands alone.
    Subscribed,
}
