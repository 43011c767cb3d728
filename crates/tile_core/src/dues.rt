//! Expiry: the objects whose deadline has come are taken out before anything else is done, and put back where that
//! cannot be.
//!
//! Expired objects are deleted, not hidden: each by a change of its own, with its record, in order of deadline, key and
//! id, before the command is looked at. No deadline is looked for where none can have come: the core keeps a moment
//! until which no object is due.

ghost use Rattle.std.specs.Prelude.{◌≡◌, ◌≢◌, ◌≤◌, ◌<◌, ◌+◌, ◌^◌, [], true, false, filter, length, IfOk, Ok, OnErr};
ghost use Rattle.world_data.specs.Expiry.{is_due};
ghost use Rattle.world_data.specs.Records.{weight};
ghost use Rattle.keyspace.specs.Entries.{objects_in};
ghost use Rattle.object_plans.specs.Kept.{AreKept, most_kept};
ghost use Rattle.object_plans.specs.Moves.{world_of};
ghost use Rattle.record_writer.specs.Lengths.{HaveFewFields};
ghost use Rattle.tile_core.specs.Dues.{IsNotBefore, AreDueFrom, HaveRoom, IsTaken, IsTakenOut, IsExpired, with_back};

use crate::growths::{Growths, grown};
use byte_text::NoMemory;
use keyspace::Keyspace;
use record_writer::{del_len, put_len};
use rtree::{Steps, Visits};
use std::alloc::Global;
use world_model::Object;

/// The objects that were taken out, in the order in which they expire.
#[derive(Drop)]
pub(crate) struct Expired {
    pub(crate) held: Vec<Object>,
    /// The bytes of the records of their dels.
    pub(crate) length: u64,
    /// The weight of the world without them.
    pub(crate) weight: u64,
    /// No deadline of what is left comes before this moment.
    pub(crate) due_from: u64,
}

// Takes the object out that expires first, and says whether one is due. For want of memory all is as before.
fn take_next<G: Growths>(
    objects: &mut Keyspace,
    gone: &mut Expired,
    now: u64,
    steps: &mut Steps<Visits>,
    growths: &mut G,
) -> Result<bool, NoMemory>
    requires few { HaveFewFields (objects_in objects.old) }
    requires rest { gone.old.weight ≡ weight (world_of (objects_in objects.old)) }
    requires short { gone.old.length ≤ most_kept }
    requires room { HaveRoom objects.old gone.old.held.items }
    ensures taken { result ≡ Ok true → IsTakenOut (objects_in objects.old) now
        (objects_in objects.new)
        gone.old.held.items gone.new.held.items gone.old.length gone.new.length gone.old.weight gone.new.weight }
    ensures none { result ≡ Ok false → filter (is_due now) (objects_in objects.new) ≡ [] }
    ensures room { HaveRoom objects.new gone.new.held.items }
    ensures stays { result ≢ Ok true → objects_in objects.new ≡ objects_in objects.old }
    ensures held { result ≢ Ok true → gone.new.held.items ≡ gone.old.held.items }
    ensures sums { result ≢ Ok true → gone.new ≡ record gone.old { held = gone.new.held } }
{
    grown(growths)?;
    if gone.held.reserve(1).is_err() {
        return Err(NoMemory);
    }
    let Some(object) = objects.take_due(now, steps) else {
        return Ok(false);
    };
    gone.length += del_len(&object.key, &object.id);
    gone.weight -= put_len(&object);
    gone.held.push_reserved(object);
    Ok(true)
}

/// Puts back what was taken out, for which there is room.
pub(crate) fn put_back(objects: &mut Keyspace, held: Vec<Object>, steps: &mut Steps<Visits>)
    requires room { HaveRoom objects.old held.items }
    requires few { length (objects_in objects.old) + length held.items < 2 ^ 32 }
    ensures { objects_in objects.new ≡ with_back (objects_in objects.old) held.items }
{
    let mut held = held;
    while let Some(last) = held.pop() {
        objects.put(last, steps);
    }
}

/// Gives up the keys of what was taken out, where no object of them is left.
pub(crate) fn release(objects: &mut Keyspace, held: Vec<Object>)
    ensures { objects_in objects.new ≡ objects_in objects.old }
{
    for object in held {
        objects.give_up(&object.key);
    }
}

// Takes all objects out that are due. For want of memory the objects are as before.
fn take_due<G: Growths>(
    alloc: Global,
    objects: &mut Keyspace,
    total: u64,
    now: u64,
    steps: &mut Steps<Visits>,
    growths: &mut G,
) -> Result<Expired, NoMemory>
    requires { AreKept (objects_in objects.old) total }
    ensures taken { IfOk result (λ g. IsTaken (objects_in objects.old) now total
        (objects_in objects.new) g.held.items g.length g.weight) }
    ensures none { IfOk result (λ g. filter (is_due now) (objects_in objects.new) ≡ []) }
    ensures room { IfOk result (λ g. HaveRoom objects.new g.held.items) }
    ensures err { OnErr result (objects_in objects.new ≡ objects_in objects.old) }
{
    let mut gone = Expired {
        held: Vec::new(alloc),
        length: 0,
        weight: total,
        due_from: 0,
    };
    loop {
        match take_next(objects, &mut gone, now, steps, growths) {
            Ok(true) => {}
            Ok(false) => return Ok(gone),
            Err(NoMemory) => {
                put_back(objects, gone.held, steps);
                return Err(NoMemory);
            }
        }
    }
}

/// The earlier of a moment and a deadline, where there is one.
pub(crate) fn earlier(due_from: u64, deadline: Option<u64>) -> u64
    ensures least { result ≤ due_from }
    ensures due_from { IsNotBefore result deadline }
{
    match deadline {
        Some(deadline) => due_from.min(deadline),
        None => due_from,
    }
}

// The least deadline of the objects, or the greatest moment where there is none.
fn least_deadline(objects: &Keyspace) -> u64
    ensures { AreDueFrom result (objects_in objects.now) }
{
    objects.least_due().unwrap_or(u64::MAX)
}

/// Takes the objects out that are due now, where no deadline comes before `due_from`. For want of memory the objects
/// are as before.
pub(crate) fn expire<G: Growths>(
    alloc: Global,
    objects: &mut Keyspace,
    total: u64,
    due_from: u64,
    now: u64,
    steps: &mut Steps<Visits>,
    growths: &mut G,
) -> Result<Expired, NoMemory>
    requires kept { AreKept (objects_in objects.old) total }
    requires due_from { AreDueFrom due_from (objects_in objects.old) }
    ensures expired { IfOk result (λ g. IsExpired (objects_in objects.old) now total (objects_in objects.new) g) }
    ensures room { IfOk result (λ g. HaveRoom objects.new g.held.items) }
    ensures err { OnErr result (objects_in objects.new ≡ objects_in objects.old) }
{
    grown(growths)?;
    if now < due_from {
        return Ok(Expired {
            held: Vec::new(alloc),
            length: 0,
            weight: total,
            due_from,
        });
    }
    let mut gone = take_due(alloc, objects, total, now, steps, growths)?;
    gone.due_from = least_deadline(objects);
    Ok(gone)
}
