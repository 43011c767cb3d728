//! The lengths that the records of changes have in the log.

ghost use Rattle.std.specs.Prelude.{◌≡◌, ◌≤◌, ◌+◌, ◌*◌, ◌^◌, length, decimal, flat_map};
ghost use Rattle.byte_text.specs.Lines.{line, bulk_text};
ghost use Rattle.world_data.specs.Filters.{value_text};
ghost use Rattle.world_data.specs.Limits.{max_weight};
ghost use Rattle.world_data.specs.Records.{record_len, field_words, deadline_words};
ghost use Rattle.world_data.specs.declared.worlds.Change.TheVariants as change;
ghost use Rattle.record_writer.specs.Lengths.{HasFewFields};
ghost use Rattle.record_writer.specs.Lengths.{words_len};

use byte_text::{Name, Request};
use itoa::Buffer;
use world_data::{Channel, Fields, Object, Value};

// How many digits a number has.
fn digits_of(n: u64) -> u64
    ensures value { result ≡ length (decimal n) }
    ensures short { result ≤ 20 }
{
    let mut count = 1;
    let mut rest = n;
    while rest >= 10 {
        rest /= 10;
        count += 1;
    }
    count
}

// The bytes of a line of a mark and a number.
fn line_len(n: u64) -> u64
    ensures value { result ≡ length (line 42 (decimal n)) }
    ensures short { result ≤ 23 }
{
    digits_of(n) + 3
}

// The bytes of a word in a request.
fn bulk_len(word: &[u8]) -> u64
    ensures value { result ≡ length (bulk_text word.now) }
    ensures short { result ≤ length word.now + 25 }
{
    line_len(word.len() as u64) + word.len() as u64 + 2
}

// The bytes of a name in a request.
fn name_len(name: &Name) -> u64
    ensures value { result ≡ length (bulk_text name.now) }
    ensures short { result ≤ 280 }
{
    bulk_len(name.bytes())
}

// The bytes of the word that writes a value.
fn value_len(value: &Value) -> u64
    ensures value { result ≡ length (bulk_text (value_text value.now)) }
    ensures short { result ≤ 280 }
{
    match value {
        Value::Whole(number) => bulk_len(Buffer::new().format(*number).as_bytes()),
        Value::Word(text) => name_len(text),
    }
}

// The bytes of the words of a field: `FIELD name value`.
fn field_len(name: &Name, value: &Value) -> u64
    ensures value { result ≡ words_len (field_words (name.now, value.now)) }
    ensures short { result ≤ 600 }
{
    bulk_len(b"FIELD") + name_len(name) + value_len(value)
}

// The bytes of the words of all fields.
fn fields_len(fields: &Fields) -> u64
    requires { length fields.now ≤ max_weight }
    ensures value { result ≡ words_len (flat_map field_words fields.now) }
    ensures short { result ≤ 2 ^ 38 + 2 ^ 37 }
{
    let mut sum = 0;
    for i in 0..fields.len() {
        sum += field_len(fields.name(i), fields.value(i));
    }
    sum
}

// How many words tell a deadline: `AT moment`, or none.
fn deadline_count(deadline: Option<u64>) -> u64
    ensures value { result ≡ length (deadline_words deadline) }
    ensures short { result ≤ 2 }
{
    match deadline {
        Some(_) => 2,
        None => 0,
    }
}

// The bytes of these words.
fn deadline_len(deadline: Option<u64>) -> u64
    ensures value { result ≡ words_len (deadline_words deadline) }
    ensures short { result ≤ 100 }
{
    match deadline {
        Some(moment) => bulk_len(b"AT") + bulk_len(Buffer::new().format(moment).as_bytes()),
        None => 0,
    }
}

/// The length of the record of a put of this object: the request `SET key id`, its fields and its deadline, and `OBJECT
/// text`.
pub fn put_len(object: &Object) -> u64
    requires { HasFewFields object.now }
    ensures value { result ≡ record_len (change.Put object.now) }
    ensures short { result ≤ 2 ^ 63 + 2 ^ 39 }
{
    let count = 5 + 3 * object.fields.len() as u64 + deadline_count(object.deadline);
    let names = name_len(&object.key) + name_len(&object.id);
    let extras = fields_len(&object.fields) + deadline_len(object.deadline);
    let text = bulk_len(b"OBJECT") + bulk_len(object.text.bytes());
    line_len(count) + bulk_len(b"SET") + names + extras + text
}

/// The length of the record of a del: the request `DEL key id`.
pub fn del_len(key: &Name, id: &Name) -> u64
    ensures value { result ≡ record_len (change.Del key.now id.now) }
    ensures short { result ≤ 1000 }
{
    line_len(3) + bulk_len(b"DEL") + name_len(key) + name_len(id)
}

/// The length of the record of a drop: the request `DROP key`.
pub fn drop_len(key: &Name) -> u64
    ensures value { result ≡ record_len (change.Drop key.now) }
    ensures short { result ≤ 1000 }
{
    line_len(2) + bulk_len(b"DROP") + name_len(key)
}

/// The length of the record of a flush: the request `FLUSHDB`.
pub fn flush_len() -> u64
    ensures value { result ≡ record_len change.Flush }
    ensures short { result ≤ 1000 }
{
    line_len(1) + bulk_len(b"FLUSHDB")
}

// The bytes of all words of a request.
fn words_len(words: &Request) -> u64
    ensures value { result ≡ words_len words.now }
    ensures short { result ≤ 2 ^ 36 }
{
    let mut sum = 0;
    for at in 0..words.words() {
        sum += bulk_len(words.word(at));
    }
    sum
}

/// The length of the record of a channel: the request `SETCHAN name`, its deadline, and its words. That of the change
/// that takes it out is no longer.
pub fn channel_len(channel: &Channel) -> u64
    ensures value { result ≡ record_len (change.SetChan channel.now) }
    ensures short { result ≤ 2 ^ 40 }
    ensures drop { record_len (change.DelChan channel.now.name) ≤ result }
{
    let count = 2 + deadline_count(channel.deadline) + channel.words.words() as u64;
    let head = line_len(count) + bulk_len(b"SETCHAN") + name_len(&channel.name);
    head + deadline_len(channel.deadline) + words_len(&channel.words)
}

/// The length of the record of a change that takes a channel out: the request `DELCHAN name`.
pub fn delchan_len(name: &Name) -> u64
    ensures value { result ≡ record_len (change.DelChan name.now) }
    ensures short { result ≤ 1000 }
{
    line_len(2) + bulk_len(b"DELCHAN") + name_len(name)
}
