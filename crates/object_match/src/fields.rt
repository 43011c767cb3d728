//! Whether the fields of an object pass the tests of a query or a channel, and the value that a field has.

ghost use Rattle.std.specs.Prelude.{◌≡◌, ◌++◌, OnOk, OnErr};
ghost use Rattle.std.specs.List.{list_any};
ghost use Rattle.world_data.specs.Filters.{passes, passes_one, value_of, at_least, at_most, is_within, same_value};
ghost use Rattle.world_data.specs.Filters.{zero_value, value_text};

use byte_text::{Name, NoMemory, Text};
use ordered_lists::is_same;
use world_data::{Fields, Test, Tests, Value, Values};

/// Whether the fields pass all tests. A missing field reads the number 0.
pub fn passes(tests: &Tests, fields: &Fields) -> bool
    ensures { result ≡ passes tests.now fields.now }
{
    for i in 0..tests.len() {
        if !passes_one(tests.at(i), fields) {
            return false;
        }
    }
    true
}

/// Whether the field of this name has the value. A missing field has the number 0.
pub fn has_value(fields: &Fields, name: &Name, value: &Value) -> bool
    ensures { result ≡ same_value (value_of fields.now name.now) value.now }
{
    let missing = missing();
    value_of(fields, name, &missing).is_same(value)
}

/// Appends the value of the field of this name, 0 where it is missing, as a reply shows it. For want of memory the text
/// is as before.
pub fn show_value(fields: &Fields, name: &Name, into: &mut Text) -> Result<(), NoMemory>
    ensures ok { OnOk result (into.new ≡ into.old ++ value_text (value_of fields.now name.now)) }
    ensures err { OnErr result (into.new ≡ into.old) }
{
    let missing = missing();
    value_of(fields, name, &missing).show(into)
}

// What a missing field reads.
fn missing() -> Value
    ensures { result ≡ zero_value }
{
    Value::Whole(0)
}

// The value of the field of this name, or what a missing field reads.
fn value_of<'a>(fields: &'a Fields, name: &Name, missing: &'a Value) -> &'a Value
    requires { missing.now ≡ zero_value }
    ensures { result.now ≡ value_of fields.now name.now }
{
    for i in 0..fields.len() {
        if is_same(fields.name(i), name) {
            return fields.value(i);
        }
    }
    missing
}

// Whether the fields pass a test.
fn passes_one(test: &Test, fields: &Fields) -> bool
    ensures { result ≡ passes_one fields.now test.now }
{
    let missing = missing();
    match test {
        Test::Range(name, low, high) => is_within(value_of(fields, name, &missing), *low, *high),
        Test::Same(name, text) => value_of(fields, name, &missing).is_word(text),
        Test::Among(name, values) => is_among(value_of(fields, name, &missing), values),
    }
}

// Whether a value is a number within these bounds; no text is.
fn is_within(value: &Value, low: Option<i64>, high: Option<i64>) -> bool
    ensures { result ≡ is_within low high value.now }
{
    match value {
        Value::Whole(number) => at_least(low, *number) && at_most(high, *number),
        Value::Word(_) => false,
    }
}

// Whether a number is at least a bound; no bound is below every number.
fn at_least(low: Option<i64>, number: i64) -> bool
    ensures { result ≡ at_least low number }
{
    match low {
        Some(low) => low <= number,
        None => true,
    }
}

// Whether a number is at most a bound; no bound is above every number.
fn at_most(high: Option<i64>, number: i64) -> bool
    ensures { result ≡ at_most high number }
{
    match high {
        Some(high) => number <= high,
        None => true,
    }
}

// Whether a value is one of these.
fn is_among(value: &Value, values: &Values) -> bool
    ensures { result ≡ list_any (same_value value.now) values.now }
{
    for i in 0..values.len() {
        if value.is_same(values.at(i)) {
            return true;
        }
    }
    false
}
