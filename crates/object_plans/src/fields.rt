//! Fields of an object, and values that are given to them.

ghost use Rattle.std.specs.Prelude.{◌≡◌, ◌≤◌, true, drop, length, option_map, IfOk};
ghost use Rattle.world_data.specs.Filters.{with_values};
ghost use Rattle.world_model.specs.Effects.{fields_of, given_and_cleared};
ghost use Rattle.object_plans.specs.Covered.{behind};

use byte_text::{Name, NoMemory};
use ordered_lists::is_same;
use std::alloc::Global;
use world_data::Value;
use world_model::{Fields, NameList, Object};

// The fields with these values given.
fn with_given(alloc: Global, fields: Fields, given: &Fields) -> Result<Fields, NoMemory>
    ensures { IfOk result (λ new. new ≡ with_values fields given.now) }
{
    let mut fields = fields;
    // What the order of the fields is, is known where they are counted.
    let _count = fields.len();
    for i in 0..given.len() {
        fields.set(given.name(i).copy(alloc)?, given.value(i).copy(alloc)?)?;
    }
    Ok(fields)
}

/// The fields with these values given, and with those of the names in `cleared` taken away.
pub(crate) fn with_values(
    alloc: Global,
    fields: Fields,
    given: &Fields,
    cleared: &NameList,
) -> Result<Fields, NoMemory>
    ensures { IfOk result (λ new. new ≡ with_values fields (given_and_cleared given.now cleared.now)) }
{
    // What is counted stands in order.
    let _count = fields.len();
    let mut fields = with_given(alloc, fields, given)?;
    for i in 0..cleared.len() {
        let name = cleared.at(i);
        fields.set(name.copy(alloc)?, Value::Whole(0))?;
    }
    Ok(fields)
}

// The place of the next field, behind the one at a place where that is called so.
fn next_from(fields: &Fields, at: usize, name: &Name) -> usize
    requires { at ≤ length fields.now }
    ensures next { drop result fields.now ≡ behind name.now (drop at fields.now) }
    ensures within { result ≤ length fields.now }
{
    if at == fields.len() {
        return at;
    }
    if is_same(fields.name(at), name) {
        return at + 1;
    }
    at
}

// Whether each of the fields is given a value, so that they are what is given then. Both stand in the order of their
// names, so they are gone over once.
fn are_given(fields: &Fields, given: &Fields) -> bool
    ensures { result ≡ true → with_values fields.now given.now ≡ given.now }
{
    let mut at = 0;
    for i in 0..given.len() {
        at = next_from(fields, at, given.name(i));
    }
    at == fields.len()
}

// Whether the fields are what is given, once these values are given and those of the names in `cleared` taken away.
fn are_whole(fields: &Fields, given: &Fields, cleared: &NameList) -> bool
    ensures { result ≡ true → with_values fields.now (given_and_cleared given.now cleared.now) ≡ given.now }
{
    if cleared.len() > 0 {
        return false;
    }
    are_given(fields, given)
}

// The fields with these values given, and with those of the names in `cleared` taken away. None is copied where each is
// given another value, as by those who write the same fields again and again.
fn fields_after(
    alloc: Global,
    fields: &Fields,
    given: Fields,
    cleared: &NameList,
) -> Result<Fields, NoMemory>
    ensures { IfOk result (λ new. new ≡ with_values fields.now (given_and_cleared given cleared.now)) }
{
    if are_whole(fields, &given, cleared) {
        return Ok(given);
    }
    with_values(alloc, fields.copy(alloc)?, &given, cleared)
}

/// The fields of the object that stands there, if one does, with these values given, and with those of the names in
/// `cleared` taken away.
pub(crate) fn whole_fields(
    alloc: Global,
    old: Option<&Object>,
    given: Fields,
    cleared: &NameList,
) -> Result<Fields, NoMemory>
    ensures { IfOk result (λ fields. fields
        ≡ with_values (fields_of (option_map (λ o. o.now) old.entry)) (given_and_cleared given cleared.now)) }
{
    match old {
        Some(object) => fields_after(alloc, &object.fields, given, cleared),
        None => fields_after(alloc, &Fields::new(alloc), given, cleared),
    }
}
