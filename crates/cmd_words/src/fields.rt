//! The fields that a command gives: of each name the last value counts.

ghost use Rattle.std.specs.Prelude.{◌≡◌, [], ◌∷◌, ◌++◌, map, IfOk, IfErr, OnOk};
ghost use Rattle.world_data.specs.Filters.{with_values};
ghost use Rattle.world_model.specs.Commands.{nonzero_of, cleared_of};
ghost use Rattle.cmd_words.specs.Sets.{mark_of};

use crate::faults::CommandFault;
use byte_text::Name;
use std::alloc::Global;
use world_model::{Fields, NameList, Value};

/// The fields whose value is not 0, and the names of those whose value is 0, both in byte order of the names.
pub(crate) fn fields_of(
    alloc: Global,
    given: Vec<(Name, Value)>,
) -> Result<(Fields, NameList), CommandFault>
    ensures ok { IfOk result (λ r. (r.0 ≡ nonzero_of given.items) × (r.1 ≡ cleared_of given.items)) }
    ensures err { IfErr result (λ why. why ≡ CommandFault.Memory) }
{
    let mut fields = Fields::new(alloc);
    // The names that are written 0, each with the value 1: a later value of another kind takes the name out again.
    let mut zeros = Fields::new(alloc);
    for (name, value) in given {
        set_mark(alloc, &mut zeros, &name, &value)?;
        set(&mut fields, name, value)?;
    }
    let cleared = names_of(alloc, &zeros)?;
    Ok((fields, cleared))
}

// Marks the name as one that is written this value. Where no name has a mark and this one gets none, nothing is copied.
#[tactic(auto, using(crate::proofs::FieldValues::no_mark))]
fn set_mark(
    alloc: Global,
    zeros: &mut Fields,
    name: &Name,
    value: &Value,
) -> Result<(), CommandFault>
    ensures ok { OnOk result (zeros.new ≡ with_values zeros.old ((name.now, mark_of value.now) ∷ [])) }
    ensures err { IfErr result (λ why. why ≡ CommandFault.Memory) }
{
    if zeros.len() == 0 && !value.is_none() {
        return Ok(());
    }
    let Ok(name) = name.copy(alloc) else {
        return Err(CommandFault::Memory);
    };
    set(zeros, name, mark(value))
}

// What marks a field of this value: 1 where no field has it, and 0 otherwise.
fn mark(value: &Value) -> Value
    ensures { result ≡ mark_of value.now }
{
    if value.is_none() {
        Value::Whole(1)
    } else {
        Value::Whole(0)
    }
}

// Gives the field of this name the value.
fn set(fields: &mut Fields, name: Name, value: Value) -> Result<(), CommandFault>
    ensures ok { OnOk result (fields.new ≡ with_values fields.old ((name, value) ∷ [])) }
    ensures err { IfErr result (λ why. why ≡ CommandFault.Memory) }
{
    match fields.set(name, value) {
        Ok(()) => Ok(()),
        Err(_) => Err(CommandFault::Memory),
    }
}

// The names of the fields, in order.
fn names_of(alloc: Global, fields: &Fields) -> Result<NameList, CommandFault>
    ensures ok { IfOk result (λ names. names ≡ map (λ f. f.0) fields.now) }
    ensures err { IfErr result (λ why. why ≡ CommandFault.Memory) }
{
    let mut names = NameList::new(alloc);
    for at in 0..fields.len() {
        let Ok(name) = fields.name(at).copy(alloc) else {
            return Err(CommandFault::Memory);
        };
        push_name(&mut names, name)?;
    }
    Ok(names)
}

/// Puts a name last.
pub(crate) fn push_name(names: &mut NameList, name: Name) -> Result<(), CommandFault>
    ensures ok { OnOk result (names.new ≡ names.old ++ name ∷ []) }
    ensures err { IfErr result (λ why. why ≡ CommandFault.Memory) }
{
    match names.push(name) {
        Ok(()) => Ok(()),
        Err(_) => Err(CommandFault::Memory),
    }
}
