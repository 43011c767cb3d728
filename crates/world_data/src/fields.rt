//! The fields of an object.

ghost use Rattle.std.specs.Prelude.{◌≡◌, ◌<◌, ◌≤◌, [], ◌∷◌, ◌++◌, true, length, IfOk, IfErr, IfSome, OnOk, OnErr};
ghost use Rattle.std.specs.Prelude.{slice_get};
ghost use Rattle.std.specs.List.{insert, slice_set};
ghost use Rattle.byte_text.specs.Names.{before};
ghost use Rattle.ordered_lists.specs.Lists.{IsHeld, IsFree};
ghost use Rattle.world_data.specs.Filters.{are_fields, value_json, value_text, with_values};

use crate::values::Value;
use byte_text::{Name, NoMemory, Text};
use ordered_lists::{insert_at, is_before};
use std::alloc::Global;
use std::marker::Model;

/// Names with values, in byte order of the names, no name twice, no value 0 and no text of a number.
#[derive(Drop)]
pub struct Fields {
    list: Vec<(Name, Value)>,
}

impl Model for Fields {
    ghost use Rattle.std.specs.Prelude.{List, ◌≡◌, true};
    ghost use Rattle.world_data.specs.Filters.{Field, are_fields};

    ghost Value = { List Field };

    ghost view = { λ f. f.list.items };

    ghost invariant = { λ f. are_fields f.list.items ≡ true };
}

impl Fields {
    /// No field yet. What is set takes its memory from `alloc`.
    pub fn new(alloc: Global) -> Fields
        ensures { result ≡ [] }
    {
        Fields {
            list: Vec::new(alloc),
        }
    }

    /// The same fields in memory of their own.
    pub fn copy(&self, alloc: Global) -> Result<Fields, NoMemory>
        ensures { IfOk result (λ fields. fields ≡ self.now) }
    {
        let mut list = Vec::with_capacity(alloc, self.list.len())?;
        for field in self.list.as_slice() {
            let name = field.0.copy(alloc)?;
            let value = field.1.copy(alloc)?;
            list.push((name, value))?;
        }
        Ok(Fields { list })
    }

    /// How many fields there are.
    pub fn len(&self) -> usize
        ensures count { result ≡ length self.now }
        ensures fields { are_fields self.now ≡ true }
    {
        self.list.len()
    }

    /// The name of the field at a place, counted from 0.
    pub fn name(&self, i: usize) -> &Name
        requires { i < length self.now }
        ensures { IfSome (slice_get self.now i) (λ f. result.now ≡ f.0) }
    {
        &self.list[i].0
    }

    /// The value of the field at a place, counted from 0.
    pub fn value(&self, i: usize) -> &Value
        requires { i < length self.now }
        ensures { IfSome (slice_get self.now i) (λ f. result.now ≡ f.1) }
    {
        &self.list[i].1
    }

    /// Appends the value of the field at a place, counted from 0, as a reply shows it. For want of memory the text is as
    /// before.
    pub fn show(&self, i: usize, into: &mut Text) -> Result<(), NoMemory>
        requires { i < length self.now }
        ensures ok { OnOk result (IfSome (slice_get self.now i) (λ f. into.new ≡ into.old ++ value_text f.1)) }
        ensures err { OnErr result (into.new ≡ into.old) }
    {
        self.value(i).show(into)
    }

    /// Appends the value of the field at a place, counted from 0, as a message shows it. For want of memory the text is
    /// as before.
    pub fn show_json(&self, i: usize, into: &mut Text) -> Result<(), NoMemory>
        requires { i < length self.now }
        ensures ok { OnOk result (IfSome (slice_get self.now i) (λ f. into.new ≡ into.old ++ value_json f.1)) }
        ensures err { OnErr result (into.new ≡ into.old) }
    {
        self.value(i).show_json(into)
    }

    /// Gives the field of this name the value, and takes it away where the value is 0 (or the text of a number, which no
    /// field has). For want of memory the fields are as before.
    pub fn set(&mut self, name: Name, value: Value) -> Result<(), NoMemory>
        ensures ok { OnOk result (self.new ≡ with_values self.old ((name, value) ∷ [])) }
        ensures err { OnErr result (self.new ≡ self.old) }
    {
        match place_of(self.list.as_slice(), &name) {
            Ok(at) => {
                if value.is_none() {
                    self.list.remove(at);
                } else {
                    write_at(&mut self.list, at, (name, value));
                }
                Ok(())
            }
            Err(at) => {
                if value.is_none() {
                    return Ok(());
                }
                put_at(&mut self.list, at, (name, value))
            }
        }
    }
}

// Writes a field over the one at a place.
fn write_at(list: &mut Vec<(Name, Value)>, at: usize, field: (Name, Value))
    requires { at < length list.old.items }
    ensures { list.new.items ≡ slice_set list.old.items at field }
{
    list[at] = field;
}

// Puts a field at a place, with room for no more fields than there are then. For want of memory the list is as before.
fn put_at(list: &mut Vec<(Name, Value)>, at: usize, field: (Name, Value)) -> Result<(), NoMemory>
    requires { at ≤ length list.old.items }
    ensures ok { OnOk result (list.new.items ≡ insert list.old.items at field) }
    ensures err { OnErr result (list.new.items ≡ list.old.items) }
{
    list.reserve_exact(1)?;
    insert_at(list, at, field)
}

// The place of the field of this name, or, where there is none, the place where it would go.
fn place_of(list: &[(Name, Value)], name: &Name) -> Result<usize, usize>
    ensures held { IfOk result (λ at. IsHeld (λ f. before f.0 name.now) (λ f. before name.now f.0) list.now at) }
    ensures free { IfErr result (λ at. IsFree (λ f. before f.0 name.now) (λ f. before name.now f.0) list.now at) }
{
    for (at, field) in list.iter().enumerate() {
        if is_before(name, &field.0) {
            return Err(at);
        }
        if !is_before(&field.0, name) {
            return Ok(at);
        }
    }
    Err(list.len())
}
