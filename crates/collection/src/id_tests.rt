//! A test of the keys of objects by an id.

ghost use Rattle.std.specs.Prelude.{◌≡◌};

use byte_text::Name;
use ordered_lists::is_before;
use run_list::Before;
use slab::Slab;
use world_data::Object;

/// The test of the keys whose objects stand before an id.
#[derive(Drop)]
pub(crate) struct IsBefore<'a> {
    pub(crate) slots: &'a Slab<Object>,
    pub(crate) id: &'a Name,
}

impl<'a> Before for IsBefore<'a> {
    ghost use Rattle.slab.specs.Slab.{get};
    ghost use Rattle.collection.specs.Slotted.{stands_before};

    ghost before = { λ t key. stands_before t.id.now (get t.slots.now key) };

    fn is_before(&self, number: usize) -> bool {
        match self.slots.get(number) {
            Some(object) => is_before(&object.id, self.id),
            None => false,
        }
    }
}
