//! The keys of objects that have a deadline, in order of deadline and id.

ghost use Rattle.std.specs.Prelude.{◌≡◌, ◌+◌, ◌≤◌, ◌&&◌, ◌||◌, ℕ, true, false, not, nat_eq, nat_lt, is_some, length};
ghost use Rattle.std.specs.Prelude.{if◌then◌else◌, Some};
ghost use Rattle.byte_text.specs.Names.{before};
ghost use Rattle.slab.specs.Slab.{get};
ghost use Rattle.ordered_lists.specs.Lists.{ascends};
ghost use Rattle.collection.specs.Deadlines.{expires_before, slot_before, is_expiring, is_among, due_order, rank_of};

use ordered_lists::{is_before, is_same};
use run_list::{Before, RunList};
use slab::Slab;
use world_data::Object;

/// The test of the keys whose objects expire before that of one key.
#[derive(Drop)]
struct ExpiresBefore<'a> {
    slots: &'a Slab<Object>,
    key: usize,
}

impl<'a> Before for ExpiresBefore<'a> {
    ghost use Rattle.slab.specs.Slab.{get};
    ghost use Rattle.collection.specs.Deadlines.{due_order};

    ghost before = { λ t key. due_order (get t.slots.now) key t.key };

    fn is_before(&self, number: usize) -> bool {
        match self.slots.get(number) {
            Some(object) => match self.slots.get(self.key) {
                Some(other) => expires_before(object, other),
                None => true,
            },
            None => false,
        }
    }
}

/// Puts a key among these where its object has a deadline, for which there is room then.
pub(crate) fn put_due(dues: &mut RunList, slots: &Slab<Object>, key: usize)
    requires order { ascends (due_order (get slots.now)) dues.old.items ≡ true }
    requires apart { (k : ℕ) → is_among k dues.old.items ≡ true
        → (due_order (get slots.now) k key || due_order (get slots.now) key k) ≡ true }
    requires room { is_expiring (get slots.now key) ≡ true → 1 ≤ dues.old.spare }
    ensures order { ascends (due_order (get slots.now)) dues.new.items ≡ true }
    ensures among { (k : ℕ)
        → is_among k dues.new.items ≡ (is_among k dues.old.items || (nat_eq k key && is_expiring (get slots.now key))) }
    ensures room { length dues.new.items + dues.new.spare ≡ length dues.old.items + dues.old.spare }
{
    if has_due(slots, key) {
        let at = dues.place_of(&ExpiresBefore { slots, key });
        dues.insert(at, key);
    }
}

/// Takes a key out of these where its object has a deadline.
pub(crate) fn take_due(dues: &mut RunList, slots: &Slab<Object>, key: usize)
    requires order { ascends (due_order (get slots.now)) dues.old.items ≡ true }
    requires there { is_among key dues.old.items ≡ is_expiring (get slots.now key) }
    ensures order { ascends (due_order (get slots.now)) dues.new.items ≡ true }
    ensures among { (k : ℕ) → is_among k dues.new.items ≡ (is_among k dues.old.items && not (nat_eq k key)) }
    ensures room { length dues.new.items + dues.new.spare ≡ length dues.old.items + dues.old.spare }
{
    if has_due(slots, key) {
        let at = dues.place_of(&ExpiresBefore { slots, key });
        let _ = dues.remove(at);
    }
}

/// Takes a key that moves out of these where its object has a deadline.
pub(crate) fn take_moved(dues: &mut RunList, slots: &Slab<Object>, key: usize, moves: bool)
    requires order { ascends (due_order (get slots.now)) dues.old.items ≡ true }
    requires there { is_among key dues.old.items ≡ is_expiring (get slots.now key) }
    ensures order { ascends (due_order (get slots.now)) dues.new.items ≡ true }
    ensures among { moves ≡ true → (k : ℕ)
        → is_among k dues.new.items ≡ (is_among k dues.old.items && not (nat_eq k key)) }
    ensures stays { moves ≡ false → dues.new ≡ dues.old }
    ensures room { length dues.new.items + dues.new.spare ≡ length dues.old.items + dues.old.spare }
{
    if moves {
        take_due(dues, slots, key);
    }
}

/// Puts a key that moves among these where its object has a deadline, for which there is room then.
pub(crate) fn put_moved(dues: &mut RunList, slots: &Slab<Object>, key: usize, moves: bool)
    requires order { moves ≡ true → ascends (due_order (get slots.now)) dues.old.items ≡ true }
    requires apart { moves ≡ true → (k : ℕ) → is_among k dues.old.items ≡ true
        → (due_order (get slots.now) k key || due_order (get slots.now) key k) ≡ true }
    requires room { moves ≡ true → is_expiring (get slots.now key) ≡ true → 1 ≤ dues.old.spare }
    ensures order { moves ≡ true → ascends (due_order (get slots.now)) dues.new.items ≡ true }
    ensures among { moves ≡ true → (k : ℕ)
        → is_among k dues.new.items ≡ (is_among k dues.old.items || (nat_eq k key && is_expiring (get slots.now key))) }
    ensures stays { moves ≡ false → dues.new ≡ dues.old }
    ensures room { length dues.new.items + dues.new.spare ≡ length dues.old.items + dues.old.spare }
{
    if moves {
        put_due(dues, slots, key);
    }
}

/// Whether a key has another place among these once an object stands in the place of its own: unless both have the
/// same deadline and id.
pub(crate) fn is_moved(slots: &Slab<Object>, key: usize, object: &Object) -> bool
    ensures { result ≡ false → rank_of (get slots.now key) ≡ rank_of (Some object.now) }
{
    match slots.get(key) {
        Some(old) => old.deadline != object.deadline || !is_same(&old.id, &object.id),
        None => true,
    }
}

// Whether there is an object of this key, and it has a deadline.
fn has_due(slots: &Slab<Object>, key: usize) -> bool
    ensures { result ≡ is_expiring (get slots.now key) }
{
    match slots.get(key) {
        Some(object) => object.deadline.is_some(),
        None => false,
    }
}

// Whether an object expires before another, or at the same moment with an id that stands before the other's. No
// deadline counts as the moment 0.
fn expires_before(object: &Object, other: &Object) -> bool
    ensures { result ≡ expires_before object.now other.now }
{
    let first = object.deadline.unwrap_or(0);
    let second = other.deadline.unwrap_or(0);
    first < second || (first == second && is_before(&object.id, &other.id))
}
