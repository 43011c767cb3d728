//! Tests on the fields of objects.

ghost use Rattle.std.specs.Prelude.{◌≡◌, ◌<◌, [], ◌∷◌, ◌++◌, length, slice_get, Some, IfOk, IfErr, OnOk, OnErr};

use crate::lists::Values;
use byte_text::{Name, NoMemory};
use std::alloc::Global;
use std::marker::Model;

/// What the value of a field has to be: a number within a range (`None` is its endless end), a text, or one of some
/// values.
#[derive(Drop)]
pub enum Test {
    Range(Name, Option<i64>, Option<i64>),
    Same(Name, Name),
    Among(Name, Values),
}

impl Test {
    ghost use Rattle.std.specs.Prelude.{◌≡◌, IfOk};

    /// The same test in memory of its own.
    pub fn copy(&self, alloc: Global) -> Result<Test, NoMemory>
        ensures { IfOk result (λ test. test ≡ self.now) }
    {
        match self {
            Test::Range(name, low, high) => Ok(Test::Range(name.copy(alloc)?, *low, *high)),
            Test::Same(name, text) => Ok(Test::Same(name.copy(alloc)?, text.copy(alloc)?)),
            Test::Among(name, values) => Ok(Test::Among(name.copy(alloc)?, values.copy(alloc)?)),
        }
    }
}

/// A list of tests.
#[derive(Drop)]
pub struct Tests {
    list: Vec<Test>,
}

impl Model for Tests {
    ghost use Rattle.std.specs.Prelude.{List};
    ghost use Rattle.world_data.specs.declared.filters.Test.{Test};

    ghost Value = { List Test };

    ghost view = { λ t. t.list.items };
}

impl Tests {
    /// No test yet. What is pushed takes its memory from `alloc`.
    pub fn new(alloc: Global) -> Tests
        ensures { result ≡ [] }
    {
        Tests {
            list: Vec::new(alloc),
        }
    }

    /// The same tests in memory of their own.
    pub fn copy(&self, alloc: Global) -> Result<Tests, NoMemory>
        ensures { IfOk result (λ tests. tests ≡ self.now) }
    {
        let mut list = Vec::new(alloc);
        for test in self.list.as_slice() {
            list.push(test.copy(alloc)?)?;
        }
        Ok(Tests { list })
    }

    /// How many tests there are.
    pub fn len(&self) -> usize
        ensures { result ≡ length self.now }
    {
        self.list.len()
    }

    /// The test at a place, counted from 0.
    pub fn at(&self, i: usize) -> &Test
        requires { i < length self.now }
        ensures { slice_get self.now i ≡ Some result.now }
    {
        &self.list[i]
    }

    /// Lets all tests go.
    pub fn clear(&mut self)
        ensures { self.new ≡ [] }
    {
        self.list.clear();
    }

    /// Puts a test last. For want of memory the list stays as it was, and the test is handed back.
    pub fn push(&mut self, item: Test) -> Result<(), Test>
        ensures ok { OnOk result (self.new ≡ self.old ++ item ∷ []) }
        ensures err { OnErr result (self.new ≡ self.old) }
        ensures handed_back { IfErr result (λ back. back ≡ item) }
    {
        match self.list.push(item) {
            Ok(()) => Ok(()),
            Err(full) => Err(full.value),
        }
    }
}
