//! What a session hears of a message: its frames for the name of the channel and for the patterns that the name meets.

ghost use Rattle.std.specs.Prelude.{◌≡◌, ◌++◌, ◌∷◌, [], filter, map, OnOk, if◌then◌else◌};
ghost use Rattle.std.specs.List.{list_any};
ghost use Rattle.world_model.specs.Halls.{frames_for, holds_name, pattern_meets, message_frame as frame_of_message};
ghost use Rattle.world_model.specs.Halls.{pattern_frame as frame_of_pattern};
ghost use Rattle.session_table.specs.Mail.{Stages};
ghost use Rattle.session_table.specs.Sessions.{AreSoundSubs};

use crate::Subscriptions;
use crate::frames::Sending;
use crate::mailboxes::Mailbox;
use byte_text::{Name, NoMemory};

// Whether one of them is a subscription to this name.
fn has_name(subs: &Subscriptions, name: &Name) -> bool
    ensures { result ≡ list_any (holds_name name.now) subs.now }
{
    subs.is_held(name, false)
}

// Stages a message where its channel's name is subscribed to. For want of memory nothing is staged.
fn stage_name(
    subs: &Subscriptions,
    sending: &mut Sending<'_>,
    mail: &mut Mailbox,
) -> Result<(), NoMemory>
    ensures message { sending.new ≡ sending.old }
    ensures frames { mail.new.frames ≡ mail.old.frames }
    ensures staged { OnOk result
        (Stages (if list_any (holds_name sending.old.0) subs.now then frame_of_message sending.old ∷ [] else [])
        mail.old mail.new) }
{
    if !has_name(subs, sending.name()) {
        return Ok(());
    }
    sending.stage_for_name(mail)
}

// Stages a message for each pattern that its channel's name meets, in the order of subscribing. For want of memory a
// part may be staged.
fn stage_patterns(
    subs: &Subscriptions,
    sending: &mut Sending<'_>,
    mail: &mut Mailbox,
) -> Result<(), NoMemory>
    requires { AreSoundSubs subs.now }
    ensures message { sending.new ≡ sending.old }
    ensures frames { mail.new.frames ≡ mail.old.frames }
    ensures staged { OnOk result
        (Stages (map (λ s. frame_of_pattern s.word sending.old) (filter (pattern_meets sending.old.0) subs.now))
        mail.old mail.new) }
{
    for i in 0..subs.len() {
        sending.stage_for(subs.at(i), mail)?;
    }
    Ok(())
}

/// Stages a message for those of the subscriptions that hear it: for the name of its channel, and then for each pattern
/// that the name meets. What there is no room for may be left out. For want of memory a part may be staged.
pub(crate) fn stage_heard(
    subs: &Subscriptions,
    sending: &mut Sending<'_>,
    mail: &mut Mailbox,
) -> Result<(), NoMemory>
    requires { AreSoundSubs subs.now }
    ensures message { sending.new ≡ sending.old }
    ensures frames { mail.new.frames ≡ mail.old.frames }
    ensures staged { OnOk result (Stages (frames_for sending.old subs.now) mail.old mail.new) }
{
    // Most sessions hold nothing that hears it, and are passed by at this one look.
    if !subs.may_hear(sending.mark()) {
        return Ok(());
    }
    if !mail.has_room_left() {
        return Ok(());
    }
    stage_name(subs, sending, mail)?;
    stage_patterns(subs, sending, mail)
}
