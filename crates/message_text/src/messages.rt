//! The payload of a message.
//!
//! A payload is written straight into the text, and cut off again if memory runs out.

ghost use Rattle.std.specs.Prelude.{◌≡◌, ◌++◌, true, OnOk, OnErr, length, take, option_map};
ghost use Rattle.fence_model.specs.Messages.{set_payload, del_payload, drop_payload, roam_payload};
ghost use Rattle.message_text.specs.Payloads.{has_objects, is_roamed, payload_of, set_of};
ghost use Rattle.message_text.specs.Parts.{roam_head};

use crate::parts::{push_fields, push_names, push_other, push_set};
use byte_text::{Name, NoMemory, Text, push_json};
use world_data::{Channel, Detect, Object, Raised};

#[tactic(auto, using(byte_text::specs::TextLaws::kept))]
fn push_area(into: &mut Text, hook: &Name, detect: Detect, object: &Object) -> Result<(), NoMemory>
    ensures ok { OnOk result (into.new ≡ into.old ++ set_payload hook.now detect object.now) }
    ensures kept { take (length into.old) into.new ≡ into.old }
{
    push_set(into, hook, detect, object)?;
    push_fields(into, &object.fields)?;
    into.push(b"}")
}

// What stands before the other object of a pair: it has come near, or gone away.
fn roam_head(detect: Detect) -> &'static [u8]
    ensures { result.now ≡ roam_head detect }
{
    match detect {
        Detect::Far => b",\"faraway\":",
        _ => b",\"nearby\":",
    }
}

#[tactic(auto, using(byte_text::specs::TextLaws::kept))]
fn push_roam(
    into: &mut Text,
    hook: &Name,
    detect: Detect,
    object: &Object,
    other: &Object,
) -> Result<(), NoMemory>
    ensures ok { OnOk result (into.new ≡ into.old ++ roam_payload hook.now object.now (other.now, detect)) }
    ensures kept { take (length into.old) into.new ≡ into.old }
{
    push_set(into, hook, detect, object)?;
    push_fields(into, &object.fields)?;
    into.push(roam_head(detect))?;
    push_other(into, object, other)?;
    into.push(b"}")
}

#[tactic(auto, using(byte_text::specs::TextLaws::kept))]
fn push_del(into: &mut Text, hook: &Name, key: &Name, id: &Name) -> Result<(), NoMemory>
    ensures ok { OnOk result (into.new ≡ into.old ++ del_payload hook.now key.now id.now) }
    ensures kept { take (length into.old) into.new ≡ into.old }
{
    into.push(b"{\"command\":\"del\",\"hook\":")?;
    push_json(into, hook.bytes())?;
    into.push(b",")?;
    push_names(into, key, id)?;
    into.push(b"}")
}

#[tactic(auto, using(byte_text::specs::TextLaws::kept))]
fn push_drop(into: &mut Text, hook: &Name, key: &Name) -> Result<(), NoMemory>
    ensures ok { OnOk result (into.new ≡ into.old ++ drop_payload hook.now key.now) }
    ensures kept { take (length into.old) into.new ≡ into.old }
{
    into.push(b"{\"command\":\"drop\",\"hook\":")?;
    push_json(into, hook.bytes())?;
    into.push(b",\"key\":")?;
    push_json(into, key.bytes())?;
    into.push(b"}")
}

fn is_roamed(detect: Detect) -> bool
    ensures { result ≡ is_roamed detect }
{
    matches!(detect, Detect::Near | Detect::Far)
}

// The payload of what a put raises.
fn push_put(
    into: &mut Text,
    hook: &Name,
    detect: Detect,
    object: &Object,
    other: Option<&Object>,
) -> Result<(), NoMemory>
    ensures ok { OnOk result
        (into.new ≡ into.old ++ set_of hook.now detect object.now (option_map (λ o. o.now) other.entry)) }
    ensures kept { take (length into.old) into.new ≡ into.old }
{
    match other {
        Some(other) if is_roamed(detect) => push_roam(into, hook, detect, object, other),
        _ => push_area(into, hook, detect, object),
    }
}

fn push_payload(
    into: &mut Text,
    channel: &Channel,
    raised: Raised,
    object: Option<&Object>,
    other: Option<&Object>,
) -> Result<(), NoMemory>
    requires { has_objects raised (option_map (λ o. o.now) object) (option_map (λ o. o.now) other) ≡ true }
    ensures ok { OnOk result
        (into.new ≡ into.old ++ payload_of channel.now raised (option_map (λ o. o.now) object.entry)
        (option_map (λ o. o.now) other.entry)) }
    ensures kept { take (length into.old) into.new ≡ into.old }
{
    let hook = &channel.name;
    match (raised, object) {
        (Raised::Drop, _) => push_drop(into, hook, &channel.fence.key),
        (Raised::Del, Some(object)) => push_del(into, hook, &object.key, &object.id),
        (Raised::Set(detect), Some(object)) => push_put(into, hook, detect, object, other),
        (_, None) => unreachable!(),
    }
}

/// Appends the payload of what a change raises on a channel: of `set` and `del` on `object`, of a pair of roaming
/// objects on `object` and `other`, of `drop` on the channel's key. For want of memory the text is as before.
pub fn push_message(
    into: &mut Text,
    channel: &Channel,
    raised: Raised,
    object: Option<&Object>,
    other: Option<&Object>,
) -> Result<(), NoMemory>
    requires { has_objects raised (option_map (λ o. o.now) object) (option_map (λ o. o.now) other) ≡ true }
    ensures ok { OnOk result
        (into.new ≡ into.old ++ payload_of channel.now raised (option_map (λ o. o.now) object.entry)
        (option_map (λ o. o.now) other.entry)) }
    ensures err { OnErr result (into.new ≡ into.old) }
{
    let before = into.len();
    match push_payload(into, channel, raised, object, other) {
        Ok(()) => Ok(()),
        Err(NoMemory) => {
            into.truncate(before);
            Err(NoMemory)
        }
    }
}
