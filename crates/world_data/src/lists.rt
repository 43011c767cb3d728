//! Lists of names and of values.

ghost use Rattle.std.specs.Prelude.{◌≡◌, ◌<◌, [], ◌∷◌, ◌++◌, length, slice_get, Some, IfOk, IfErr, OnOk, OnErr};

use crate::values::Value;
use byte_text::{Name, NoMemory};
use std::alloc::Global;
use std::marker::Model;

/// A list of names.
#[derive(Drop)]
pub struct NameList {
    list: Vec<Name>,
}

impl Model for NameList {
    ghost use Rattle.std.specs.Prelude.{List, ℕ};

    ghost Value = { List (List ℕ) };

    ghost view = { λ n. n.list.items };
}

impl NameList {
    /// No name yet. What is pushed takes its memory from `alloc`.
    pub fn new(alloc: Global) -> NameList
        ensures { result ≡ [] }
    {
        NameList {
            list: Vec::new(alloc),
        }
    }

    /// The same names in memory of their own.
    pub fn copy(&self, alloc: Global) -> Result<NameList, NoMemory>
        ensures { IfOk result (λ names. names ≡ self.now) }
    {
        let mut list = Vec::new(alloc);
        for name in self.list.as_slice() {
            list.push(name.copy(alloc)?)?;
        }
        Ok(NameList { list })
    }

    /// How many names there are.
    pub fn len(&self) -> usize
        ensures { result ≡ length self.now }
    {
        self.list.len()
    }

    /// The name at a place, counted from 0.
    pub fn at(&self, i: usize) -> &Name
        requires { i < length self.now }
        ensures { slice_get self.now i ≡ Some result.now }
    {
        &self.list[i]
    }

    /// Lets all names go.
    pub fn clear(&mut self)
        ensures { self.new ≡ [] }
    {
        self.list.clear();
    }

    /// Puts a name last. For want of memory the list stays as it was, and the name is handed back.
    pub fn push(&mut self, item: Name) -> Result<(), Name>
        ensures ok { OnOk result (self.new ≡ self.old ++ item ∷ []) }
        ensures err { OnErr result (self.new ≡ self.old) }
        ensures handed_back { IfErr result (λ back. back ≡ item) }
    {
        match self.list.push(item) {
            Ok(()) => Ok(()),
            Err(full) => Err(full.value),
        }
    }
}

/// A list of values.
#[derive(Drop)]
pub struct Values {
    list: Vec<Value>,
}

impl Model for Values {
    ghost use Rattle.std.specs.Prelude.{List};
    ghost use Rattle.world_data.specs.declared.values.Value.{Value as FieldValue};

    ghost Value = { List FieldValue };

    ghost view = { λ n. n.list.items };
}

impl Values {
    /// No value yet. What is pushed takes its memory from `alloc`.
    pub fn new(alloc: Global) -> Values
        ensures { result ≡ [] }
    {
        Values {
            list: Vec::new(alloc),
        }
    }

    /// The same values in memory of their own.
    pub fn copy(&self, alloc: Global) -> Result<Values, NoMemory>
        ensures { IfOk result (λ values. values ≡ self.now) }
    {
        let mut list = Vec::with_capacity(alloc, self.list.len())?;
        for value in self.list.as_slice() {
            list.push(value.copy(alloc)?)?;
        }
        Ok(Values { list })
    }

    /// How many values there are.
    pub fn len(&self) -> usize
        ensures { result ≡ length self.now }
    {
        self.list.len()
    }

    /// The value at a place, counted from 0.
    pub fn at(&self, i: usize) -> &Value
        requires { i < length self.now }
        ensures { slice_get self.now i ≡ Some result.now }
    {
        &self.list[i]
    }

    /// Lets all values go.
    pub fn clear(&mut self)
        ensures { self.new ≡ [] }
    {
        self.list.clear();
    }

    /// Puts a value last. For want of memory the list stays as it was, and the value is handed back.
    pub fn push(&mut self, item: Value) -> Result<(), Value>
        ensures ok { OnOk result (self.new ≡ self.old ++ item ∷ []) }
        ensures err { OnErr result (self.new ≡ self.old) }
        ensures handed_back { IfErr result (λ back. back ≡ item) }
    {
        match self.list.push(item) {
            Ok(()) => Ok(()),
            Err(full) => Err(full.value),
        }
    }
}
