//! The parts of a payload. What they leave behind for want of memory begins with the old text, and the caller cuts it
//! off.

ghost use Rattle.std.specs.Prelude.{◌≡◌, ◌<◌, ◌++◌, ◌∷◌, OnOk, length, take, flat_map, slice_get, IfSome, codes};
ghost use Rattle.fence_model.specs.Messages.{detect_name};
ghost use Rattle.message_text.specs.Parts.{names_part, object_part, detect_part, set_part, field_part, fields_part};
ghost use Rattle.message_text.specs.Parts.{meters_of, other_part};

use byte_text::{Name, NoMemory, Text, push_json, push_u64};
use planar_geom::{box_of, centre, dist2, floor_root};
use world_data::{Detect, Fields, Object};

// The word of DETECT, or `roam`.
fn detect_name(detect: Detect) -> &'static [u8]
    ensures { result.now ≡ detect_name detect }
{
    match detect {
        Detect::Inside => b"inside",
        Detect::Outside => b"outside",
        Detect::Enter => b"enter",
        Detect::Exit => b"exit",
        Detect::Cross => b"cross",
        Detect::Near | Detect::Far => b"roam",
    }
}

/// Appends a key and an id.
#[tactic(auto, using(byte_text::specs::TextLaws::kept))]
pub(crate) fn push_names(into: &mut Text, key: &Name, id: &Name) -> Result<(), NoMemory>
    ensures ok { OnOk result (into.new ≡ into.old ++ names_part key.now id.now) }
    ensures kept { take (length into.old) into.new ≡ into.old }
{
    into.push(b"\"key\":")?;
    push_json(into, key.bytes())?;
    into.push(b",\"id\":")?;
    push_json(into, id.bytes())
}

/// Appends key, id and text of an object.
#[tactic(auto, using(byte_text::specs::TextLaws::kept))]
pub(crate) fn push_object(into: &mut Text, object: &Object) -> Result<(), NoMemory>
    ensures ok { OnOk result (into.new ≡ into.old ++ object_part object.now) }
    ensures kept { take (length into.old) into.new ≡ into.old }
{
    push_names(into, &object.key, &object.id)?;
    into.push(b",\"object\":")?;
    into.push(object.text.bytes())
}

// Appends what stands before a channel's name.
#[tactic(auto, using(byte_text::specs::TextLaws::kept))]
fn push_detect(into: &mut Text, detect: Detect) -> Result<(), NoMemory>
    ensures ok { OnOk result (into.new ≡ into.old ++ detect_part detect) }
    ensures kept { take (length into.old) into.new ≡ into.old }
{
    into.push(b"{\"command\":\"set\",\"detect\":\"")?;
    into.push(detect_name(detect))?;
    into.push(b"\",\"hook\":")
}

/// Appends all of a set in front of its fields.
#[tactic(auto, using(byte_text::specs::TextLaws::kept))]
pub(crate) fn push_set(
    into: &mut Text,
    hook: &Name,
    detect: Detect,
    object: &Object,
) -> Result<(), NoMemory>
    ensures ok { OnOk result (into.new ≡ into.old ++ set_part hook.now detect object.now) }
    ensures kept { take (length into.old) into.new ≡ into.old }
{
    push_detect(into, detect)?;
    push_json(into, hook.bytes())?;
    into.push(b",")?;
    push_object(into, object)
}

#[tactic(auto, using(byte_text::specs::TextLaws::kept))]
fn push_field(into: &mut Text, fields: &Fields, i: usize) -> Result<(), NoMemory>
    requires { i < length fields.now }
    ensures ok { OnOk result (IfSome (slice_get fields.now i) (λ f. into.new ≡ into.old ++ field_part f)) }
    ensures kept { take (length into.old) into.new ≡ into.old }
{
    push_json(into, fields.name(i).bytes())?;
    into.push(b":")?;
    fields.show_json(i, into)
}

// Appends a field that is not the first.
#[tactic(auto, using(byte_text::specs::TextLaws::kept))]
fn push_next(into: &mut Text, fields: &Fields, i: usize) -> Result<(), NoMemory>
    requires { i < length fields.now }
    ensures ok { OnOk result (IfSome (slice_get fields.now i) (λ f. into.new ≡ into.old ++ 44 ∷ field_part f)) }
    ensures kept { take (length into.old) into.new ≡ into.old }
{
    into.push(b",")?;
    push_field(into, fields, i)
}

/// Appends the fields, where there are some.
#[tactic(auto, using(byte_text::specs::TextLaws::kept))]
pub(crate) fn push_fields(into: &mut Text, fields: &Fields) -> Result<(), NoMemory>
    ensures ok { OnOk result (into.new ≡ into.old ++ fields_part fields.now) }
    ensures kept { take (length into.old) into.new ≡ into.old }
{
    if fields.len() == 0 {
        return Ok(());
    }
    into.push(b",\"fields\":{")?;
    push_field(into, fields, 0)?;
    for i in 1..fields.len() {
        push_next(into, fields, i)?;
    }
    into.push(b"}")
}

/// Appends the other object of a roaming pair, with the distance of the two.
#[tactic(auto, using(byte_text::specs::TextLaws::kept))]
pub(crate) fn push_other(into: &mut Text, object: &Object, other: &Object) -> Result<(), NoMemory>
    ensures ok { OnOk result (into.new ≡ into.old ++ other_part object.now other.now) }
    ensures kept { take (length into.old) into.new ≡ into.old }
{
    into.push(b"{")?;
    push_object(into, other)?;
    into.push(b",\"meters\":")?;
    push_u64(into, meters_between(object, other))?;
    into.push(b"}")
}

// The whole meters between the centres of the boxes of two objects.
fn meters_between(object: &Object, other: &Object) -> u64
    ensures { result ≡ meters_of object.now other.now }
{
    floor_root(dist2(centre(box_of(&object.shape)), centre(box_of(&other.shape))))
}
