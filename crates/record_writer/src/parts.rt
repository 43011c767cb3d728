//! The parts of a record's text: its words as bulk strings (RESP2).

ghost use Rattle.std.specs.Prelude.{◌≡◌, ◌<◌, ◌++◌, ◌∷◌, [], true, codes, length, take, flat_map, OnOk};
ghost use Rattle.std.specs.List.{list_all};
ghost use Rattle.byte_text.specs.Lines.{bulk_text};
ghost use Rattle.world_data.specs.Records.{is_kept_deadline, is_kept_field, is_kept_value, deadline_words, field_words};
ghost use Rattle.world_data.specs.Filters.{are_fields, value_text};
ghost use Rattle.record_writer.specs.Texts.{words_text};

use byte_text::{Name, NoMemory, Text, push_bulk};
use itoa::Buffer;
use world_data::{Fields, Value};

// Appends the word that writes a value.
#[tactic(auto, using(byte_text::specs::TextLaws::kept))]
fn push_value(into: &mut Text, value: &Value) -> Result<(), NoMemory>
    ensures ok { OnOk result (into.new ≡ into.old ++ bulk_text (value_text value.now)) }
    ensures kept { take (length into.old) into.new ≡ into.old }
    ensures is_kept { OnOk result (is_kept_value value.now ≡ true) }
{
    match value {
        Value::Whole(number) => push_bulk(into, Buffer::new().format(*number).as_bytes()),
        Value::Word(text) => push_bulk(into, text.bytes()),
    }
}

// Appends the words of a field: `FIELD name value`.
#[tactic(auto, using(byte_text::specs::TextLaws::kept))]
fn push_field(into: &mut Text, name: &Name, value: &Value) -> Result<(), NoMemory>
    ensures ok { OnOk result (into.new ≡ into.old ++ words_text (field_words (name.now, value.now))) }
    ensures kept { take (length into.old) into.new ≡ into.old }
    ensures is_kept { OnOk result (is_kept_field (name.now, value.now) ≡ true) }
{
    push_bulk(into, b"FIELD")?;
    push_bulk(into, name.bytes())?;
    push_value(into, value)
}

/// Appends the words of all fields.
#[tactic(auto, using(byte_text::specs::TextLaws::kept))]
pub(crate) fn push_fields(into: &mut Text, fields: &Fields) -> Result<(), NoMemory>
    ensures ok { OnOk result (into.new ≡ into.old ++ words_text (flat_map field_words fields.now)) }
    ensures kept { take (length into.old) into.new ≡ into.old }
    ensures fields { are_fields fields.now ≡ true }
    ensures are_kept { OnOk result (list_all is_kept_field fields.now ≡ true) }
{
    for i in 0..fields.len() {
        push_field(into, fields.name(i), fields.value(i))?;
    }
    Ok(())
}

/// Appends the words of a deadline: `AT moment`, or none.
#[tactic(auto, using(byte_text::specs::TextLaws::kept))]
pub(crate) fn push_deadline(into: &mut Text, deadline: Option<u64>) -> Result<(), NoMemory>
    ensures ok { OnOk result (into.new ≡ into.old ++ words_text (deadline_words deadline)) }
    ensures kept { take (length into.old) into.new ≡ into.old }
    ensures is_kept { is_kept_deadline deadline ≡ true }
{
    match deadline {
        Some(moment) => {
            push_bulk(into, b"AT")?;
            push_bulk(into, Buffer::new().format(moment).as_bytes())
        }
        None => Ok(()),
    }
}
