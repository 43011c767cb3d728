//! Slots of channels, found by the channels' names.
//!
//! One more name can be put in without taking memory: beside a place in the map, that takes a copy of it. The copy is
//! prepared as room for the longest name, since a channel is put by what its fence asks for, whatever it is called.

ghost use Rattle.std.specs.Prelude.{◌≡◌, ℕ, List, [], true, if◌then◌else◌, Some, None, OnOk};
ghost use Rattle.byte_text.specs.Names.{same};
ghost use Rattle.channel_hub.specs.Named.{slot_in};

use byte_text::{MAX_NAME, Name, NoMemory};
use indexmap::IndexMap;
use std::alloc::Global;
use std::marker::Model;

/// Slots, each under a name.
pub(crate) struct SlotsByName {
    slots: IndexMap<Vec<u8>, usize>,
    // The key of the next name: empty, with room for the longest.
    key: Option<Vec<u8>>,
}

impl Drop for SlotsByName {
    fn drop(self) {
        let SlotsByName { slots: _, key: _ } = self;
    }
}

impl Model for SlotsByName {
    ghost use Rattle.std.specs.Prelude.{[], ◌≡◌, ◌≤◌, ◌&&◌, nat_lt, is_some, map, vec_len, vec_capacity, IfSome};
    ghost use Rattle.indexmap.specs.IndexMap.{spare};
    ghost use Rattle.byte_text.specs.Names.{max_name};
    ghost use Rattle.channel_hub.specs.Named.{Named};

    ghost Value = { Named };

    ghost view = { λ n. record {
      slots = map (λ e. (e.0.items, e.1)) n.slots.entries;
      ready = is_some n.key && nat_lt 0 (spare n.slots);
    } };

    ghost invariant = { λ n. IfSome n.key
        (λ key. (key.items ≡ []) × (vec_len key ≡ 0) × (max_name ≤ vec_capacity key)) };
}

impl SlotsByName {
    /// No name. It takes no memory; names take it from `alloc`.
    pub(crate) fn new(alloc: Global) -> SlotsByName
        ensures { result.slots ≡ [] }
    {
        SlotsByName {
            slots: IndexMap::new(alloc),
            key: None,
        }
    }

    /// Takes all memory that one more name needs.
    pub(crate) fn prepare(&mut self, alloc: Global) -> Result<(), NoMemory>
        ensures slots { self.new.slots ≡ self.old.slots }
        ensures ok { OnOk result (self.new.ready ≡ true) }
        ensures ready { self.old.ready ≡ true → self.new.ready ≡ true }
    {
        if self.slots.reserve(1).is_err() {
            return Err(NoMemory);
        }
        if self.key.is_none() {
            let Ok(key) = Vec::with_capacity(alloc, MAX_NAME) else {
                return Err(NoMemory);
            };
            self.key = Some(key);
        }
        Ok(())
    }

    /// Puts a slot under a name, in place of the one that stood there. It takes no memory.
    pub(crate) fn put(&mut self, name: &Name, slot: usize)
        requires { self.old.ready ≡ true }
        ensures { (n : List ℕ) → slot_in self.new.slots n
            ≡ (if same name.now n then Some slot else slot_in self.old.slots n) }
    {
        let Some(mut key) = self.key.take() else {
            unreachable!();
        };
        match key.extend_from_slice(name.bytes()) {
            Ok(()) => {}
            Err(_) => unreachable!(),
        }
        match self.slots.insert(key, slot) {
            Ok(_) => {}
            Err(_) => unreachable!(),
        }
    }

    /// Takes a name away. What was ready stays ready.
    pub(crate) fn take_out(&mut self, name: &Name)
        ensures slots { (n : List ℕ) → slot_in self.new.slots n
            ≡ (if same name.now n then None else slot_in self.old.slots n) }
        ensures ready { self.old.ready ≡ true → self.new.ready ≡ true }
    {
        self.slots.swap_remove(name.bytes());
    }

    /// Takes all names away. What was ready stays ready.
    pub(crate) fn clear(&mut self)
        ensures slots { self.new.slots ≡ [] }
        ensures ready { self.old.ready ≡ true → self.new.ready ≡ true }
    {
        self.slots.clear();
    }

    /// The slot under a name, where there is one.
    pub(crate) fn get(&self, name: &Name) -> Option<usize>
        ensures { result ≡ slot_in self.now.slots name.now }
    {
        self.slots.get(name.bytes()).copied()
    }
}
