//! The key whose object expires first.
//!
//! What is due is found one object at a time. Of the least deadline so much is known at any time that keys are looked
//! at only where something may be due, and only those from one place on: a known moment is no later than any deadline,
//! and the keys in front of a known place have later ones. So what expires at one moment is found in one walk through
//! the keys, and each object in steps in the logarithm and the root of its key's objects.

ghost use Rattle.std.specs.Prelude.{◌≡◌, IfSome};
ghost use Rattle.collection.specs.Objects.{least_due};
ghost use Rattle.keyspace.specs.FirstDue.{IsKnown, IsSoonest, Soonest, has_due, noted, sooner};

use crate::keyed_collections::KeyedCollection;

/// The place of the first key with the least deadline, and that deadline. A place and a moment are known.
pub(crate) fn soonest(list: &[KeyedCollection], known: (usize, u64)) -> Option<(usize, u64)>
    requires { IsKnown list.now known }
    ensures { Soonest list.now result }
{
    match first_known(list, known) {
        Some(at) => Some((at, known.1)),
        None => first_of_all(list),
    }
}

/// What is known once an object with this deadline is put.
pub(crate) fn noted(known: (usize, u64), deadline: Option<u64>) -> (usize, u64)
    ensures { result ≡ noted known deadline }
{
    match deadline {
        Some(due) => { if known.1 < due { known } else { (0, due) } }
        None => known,
    }
}

// The place of the first key with the known moment as its least deadline.
fn first_known(list: &[KeyedCollection], known: (usize, u64)) -> Option<usize>
    requires { IsKnown list.now known }
    ensures { IfSome result (λ at. IsSoonest list.now at known.1) }
{
    for at in known.0..list.len() {
        if has_due(list[at].objects().least_due(), known.1) {
            return Some(at);
        }
    }
    None
}

// Whether this is the deadline.
fn has_due(deadline: Option<u64>, due: u64) -> bool
    ensures { result ≡ has_due due deadline }
{
    match deadline {
        Some(deadline) => deadline == due,
        None => false,
    }
}

// The place of the first key with the least deadline, and that deadline, where nothing is known.
fn first_of_all(list: &[KeyedCollection]) -> Option<(usize, u64)>
    ensures { Soonest list.now result }
{
    let mut found = None;
    for (at, keyed) in list.iter().enumerate() {
        found = sooner(found, at, keyed.objects().least_due());
    }
    found
}

// The deadline found so far, with its place, or the one at the next place where that is sooner.
fn sooner(found: Option<(usize, u64)>, at: usize, due: Option<u64>) -> Option<(usize, u64)>
    ensures { result ≡ sooner found at due }
{
    match (found, due) {
        (Some((first, least)), Some(due)) => {
            if due < least {
                Some((at, due))
            } else {
                Some((first, least))
            }
        }
        (None, Some(due)) => Some((at, due)),
        (found, None) => found,
    }
}
