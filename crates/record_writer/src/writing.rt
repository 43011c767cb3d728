//! The record of a change is written.

ghost use Rattle.std.specs.Prelude.{◌≡◌, ◌++◌, ◌∷◌, [], ◌+◌, ◌*◌, ◌≤◌, true, codes, length, take, decimal, OnOk, OnErr};
ghost use Rattle.byte_text.specs.Lines.{line, bulk_text};
ghost use Rattle.world_data.specs.Records.{is_kept, deadline_words, record_writer, record_reader};
ghost use Rattle.world_data.specs.declared.worlds.Change.TheVariants as change;

use crate::parts::{push_deadline, push_fields};
use byte_text::{Name, NoMemory, Text, push_array_head, push_bulk, push_words};
use world_data::{Change, Channel, Object};

// How many words tell a deadline: `AT moment`, or none.
fn deadline_count(deadline: Option<u64>) -> u128
    ensures value { result ≡ length (deadline_words deadline) }
    ensures short { result ≤ 2 }
{
    match deadline {
        Some(_) => 2,
        None => 0,
    }
}

// How many words the record of a put has: `SET key id`, its fields and its deadline, and `OBJECT text`. Of 128 bits, so
// that no count of fields is too great.
fn put_count(object: &Object) -> u128
    ensures { result ≡ length (record_reader (change.Put object.now)) }
{
    5 + 3 * object.fields.len() as u128 + deadline_count(object.deadline)
}

// Appends the head of five words and the word `SET`, as one piece.
fn push_short_head(into: &mut Text) -> Result<(), NoMemory>
    ensures ok { OnOk result (into.new ≡ into.old ++ (line 42 (decimal 5) ++ bulk_text (codes "SET"))) }
    ensures err { OnErr result (into.new ≡ into.old) }
{
    into.push(b"*5\r\n$3\r\nSET\r\n")
}

// Appends the head of so many words, and the word `SET`.
#[tactic(auto, using(byte_text::specs::TextLaws::kept))]
fn push_long_head(into: &mut Text, count: u128) -> Result<(), NoMemory>
    ensures ok { OnOk result (into.new ≡ into.old ++ (line 42 (decimal count) ++ bulk_text (codes "SET"))) }
    ensures kept { take (length into.old) into.new ≡ into.old }
{
    push_array_head(into, count)?;
    push_bulk(into, b"SET")
}

// The same: most objects have neither fields nor a deadline, so their records begin alike.
#[tactic(auto, using(byte_text::specs::TextLaws::kept))]
fn push_put_head(into: &mut Text, count: u128) -> Result<(), NoMemory>
    ensures ok { OnOk result (into.new ≡ into.old ++ (line 42 (decimal count) ++ bulk_text (codes "SET"))) }
    ensures kept { take (length into.old) into.new ≡ into.old }
{
    if count == 5 {
        push_short_head(into)
    } else {
        push_long_head(into, count)
    }
}

// Appends the word `OBJECT`, as one piece.
fn push_object_word(into: &mut Text) -> Result<(), NoMemory>
    ensures ok { OnOk result (into.new ≡ into.old ++ bulk_text (codes "OBJECT")) }
    ensures err { OnErr result (into.new ≡ into.old) }
{
    into.push(b"$6\r\nOBJECT\r\n")
}

/// Appends the record of an object's put. At want of memory a part of it may stand behind what was there.
#[tactic(auto, using(byte_text::specs::TextLaws::kept))]
pub fn push_put(into: &mut Text, object: &Object) -> Result<(), NoMemory>
    ensures ok { OnOk result (into.new ≡ into.old ++ record_writer (change.Put object.now)) }
    ensures kept { take (length into.old) into.new ≡ into.old }
    ensures is_kept { OnOk result (is_kept (change.Put object.now) ≡ true) }
{
    push_put_head(into, put_count(object))?;
    push_bulk(into, object.key.bytes())?;
    push_bulk(into, object.id.bytes())?;
    push_fields(into, &object.fields)?;
    push_deadline(into, object.deadline)?;
    push_object_word(into)?;
    push_bulk(into, object.text.bytes())
}

/// Appends the record of the del of a key and an id. At want of memory a part of it may stand behind what was there.
#[tactic(auto, using(byte_text::specs::TextLaws::kept))]
pub fn push_del(into: &mut Text, key: &Name, id: &Name) -> Result<(), NoMemory>
    ensures ok { OnOk result (into.new ≡ into.old ++ record_writer (change.Del key.now id.now)) }
    ensures kept { take (length into.old) into.new ≡ into.old }
    ensures is_kept { OnOk result (is_kept (change.Del key.now id.now) ≡ true) }
{
    push_array_head(into, 3)?;
    push_bulk(into, b"DEL")?;
    push_bulk(into, key.bytes())?;
    push_bulk(into, id.bytes())
}

/// Appends the record of the drop of a key. At want of memory a part of it may stand behind what was there.
#[tactic(auto, using(byte_text::specs::TextLaws::kept))]
pub fn push_drop(into: &mut Text, key: &Name) -> Result<(), NoMemory>
    ensures ok { OnOk result (into.new ≡ into.old ++ record_writer (change.Drop key.now)) }
    ensures kept { take (length into.old) into.new ≡ into.old }
    ensures is_kept { OnOk result (is_kept (change.Drop key.now) ≡ true) }
{
    push_array_head(into, 2)?;
    push_bulk(into, b"DROP")?;
    push_bulk(into, key.bytes())
}

/// Appends the record of a flush. At want of memory a part of it may stand behind what was there.
#[tactic(auto, using(byte_text::specs::TextLaws::kept))]
pub fn push_flush(into: &mut Text) -> Result<(), NoMemory>
    ensures ok { OnOk result (into.new ≡ into.old ++ record_writer change.Flush) }
    ensures kept { take (length into.old) into.new ≡ into.old }
    ensures is_kept { OnOk result (is_kept change.Flush ≡ true) }
{
    push_array_head(into, 1)?;
    push_bulk(into, b"FLUSHDB")
}

// How many words the record of a setting has: `SETCHAN name`, its deadline, and the channel's words.
fn setchan_count(channel: &Channel) -> u128
    ensures { result ≡ length (record_reader (change.SetChan channel.now)) }
{
    2 + deadline_count(channel.deadline) + channel.words.words() as u128
}

/// Appends the record of the setting of a channel. At want of memory a part of it may stand behind what was there.
#[tactic(auto, using(byte_text::specs::TextLaws::kept))]
pub fn push_setchan(into: &mut Text, channel: &Channel) -> Result<(), NoMemory>
    ensures ok { OnOk result (into.new ≡ into.old ++ record_writer (change.SetChan channel.now)) }
    ensures kept { take (length into.old) into.new ≡ into.old }
    ensures is_kept { OnOk result (is_kept (change.SetChan channel.now) ≡ true) }
{
    push_array_head(into, setchan_count(channel))?;
    push_bulk(into, b"SETCHAN")?;
    push_bulk(into, channel.name.bytes())?;
    push_deadline(into, channel.deadline)?;
    push_words(into, &channel.words)
}

/// Appends the record of the deletion of a channel. At want of memory a part of it may stand behind what was there.
#[tactic(auto, using(byte_text::specs::TextLaws::kept))]
pub fn push_delchan(into: &mut Text, name: &Name) -> Result<(), NoMemory>
    ensures ok { OnOk result (into.new ≡ into.old ++ record_writer (change.DelChan name.now)) }
    ensures kept { take (length into.old) into.new ≡ into.old }
    ensures is_kept { OnOk result (is_kept (change.DelChan name.now) ≡ true) }
{
    push_array_head(into, 2)?;
    push_bulk(into, b"DELCHAN")?;
    push_bulk(into, name.bytes())
}

fn push_change(into: &mut Text, change: &Change) -> Result<(), NoMemory>
    ensures ok { OnOk result (into.new ≡ into.old ++ record_writer change.now) }
    ensures kept { take (length into.old) into.new ≡ into.old }
{
    match change {
        Change::Put(object) => push_put(into, object),
        Change::Del(key, id) => push_del(into, key, id),
        Change::Drop(key) => push_drop(into, key),
        Change::Flush => push_flush(into),
        Change::SetChan(channel) => push_setchan(into, channel),
        Change::DelChan(name) => push_delchan(into, name),
    }
}

/// Appends the record of a change. At want of memory the text is as before.
pub fn push_record(into: &mut Text, change: &Change) -> Result<(), NoMemory>
    ensures ok { OnOk result (into.new ≡ into.old ++ record_writer change.now) }
    ensures err { OnErr result (into.new ≡ into.old) }
{
    let before = into.len();
    let pushed = push_change(into, change);
    into.keep_if(pushed, before)
}
