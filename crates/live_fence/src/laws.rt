//! Each law is the contract of a function that changes nothing; the laws that it stands on are called in it.

ghost use Rattle.live_fence.specs.Laws.{OwnAreCut, OthersAreWhole, MessagesAreShown, PayloadsAreMessages};
ghost use Rattle.live_fence.specs.Laws.{PayloadsArePlaced, PairsAsk};

use byte_text::frame_texts_differ;
use delivery_model::{room_laws, staging_laws};

/// What a live search asks for: a channel of the session's own name without a deadline, a subscription to it, and at
/// the end its deletion.
pub fn pair_laws()
    ensures { PairsAsk }
{}

/// What is shown of replies: of a message of the session's live fence its payload alone, every other reply as it is.
pub fn shown_laws()
    ensures own { OwnAreCut }
    ensures others { OthersAreWhole }
{
    frame_texts_differ();
}

/// What a session is shown of the messages that it hears: change by change those of its live fence as their payloads
/// alone, none lost and none twice, and each other frame as it is.
pub fn message_laws()
    ensures shown { MessagesAreShown }
    ensures payloads { PayloadsAreMessages }
    ensures placed { PayloadsArePlaced }
{
    frame_texts_differ();
    staging_laws();
    room_laws();
}
