//! What a version of the log can say.

ghost use Rattle.std.specs.Prelude.{◌≡◌};
ghost use Rattle.std.specs.List.{list_any};
ghost use Rattle.log_record.specs.Versions.{least_version as least, has_text, is_text, names_text, setting_version, text_version};
ghost use Rattle.record_reader.specs.Versions.{IsSaid};

use crate::faults::RecordFault;
use world_data::{Change, Channel, Fields, Test, Tests, Value, Values};

/// The change, where a side of this version can say it.
pub(crate) fn said_in(change: Change, version: u8) -> Result<Change, RecordFault>
    ensures { IsSaid version change result }
{
    if least_version(&change) <= version {
        return Ok(change);
    }
    // By a call, so that the parts of the change are not proved to be dropped here.
    drop(change);
    Err(RecordFault::Version)
}

// The least version that can say the change.
fn least_version(change: &Change) -> u8
    ensures { result ≡ least change.now }
{
    match change {
        Change::Put(object) => text_version(has_text(&object.fields)),
        Change::SetChan(channel) => setting_version(channel),
        Change::Del(_, _) => 1,
        Change::Drop(_) => 1,
        Change::Flush => 1,
        Change::DelChan(_) => 1,
    }
}

// The version with which deadlines of channels came, or that of the tests.
fn setting_version(channel: &Channel) -> u8
    ensures { result ≡ setting_version channel.now }
{
    if channel.deadline.is_some() {
        return 3;
    }
    text_version(name_text(&channel.fence.tests))
}

// The version with which texts came, or the first.
fn text_version(some: bool) -> u8
    ensures { result ≡ text_version some }
{
    if some { 2 } else { 1 }
}

fn is_text(value: &Value) -> bool
    ensures { result ≡ is_text value.now }
{
    match value {
        Value::Whole(_) => false,
        Value::Word(_) => true,
    }
}

// Whether some field has a text.
fn has_text(fields: &Fields) -> bool
    ensures { result ≡ has_text fields.now }
{
    for i in 0..fields.len() {
        if is_text(fields.value(i)) {
            return true;
        }
    }
    false
}

// Whether some value is a text.
fn hold_text(values: &Values) -> bool
    ensures { result ≡ list_any is_text values.now }
{
    for i in 0..values.len() {
        if is_text(values.at(i)) {
            return true;
        }
    }
    false
}

fn names_text(test: &Test) -> bool
    ensures { result ≡ names_text test.now }
{
    match test {
        Test::Range(_, _, _) => false,
        Test::Same(_, _) => true,
        Test::Among(_, values) => hold_text(values),
    }
}

// Whether some test names a text.
fn name_text(tests: &Tests) -> bool
    ensures { result ≡ list_any names_text tests.now }
{
    for i in 0..tests.len() {
        if names_text(tests.at(i)) {
            return true;
        }
    }
    false
}
