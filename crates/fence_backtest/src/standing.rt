//! Where objects of a key stand, stretch by stretch of the changes.
//!
//! Each stretch is gone through by itself, side by side with the others. Of each id that it puts or deletes it has a
//! table of where the object stands behind it; what stood before it is found in the tables of the stretches before. No
//! object is copied: its place is that of the put that brought it.

ghost use Rattle.std.specs.Prelude.{◌≡◌, ◌≤◌, ◌<◌, ◌+◌, ◌*◌, ◌^◌, ◌==◌, ℕ, List, Option, Some, None, slice_get, length, IfOk, OnOk};
ghost use Rattle.std.specs.Cmp.Lexicographic.{pointwise};
ghost use Rattle.std.specs.HashMap.{get, Updates};
ghost use Rattle.std.specs.List.{AllZip, range_with_len};
ghost use Rattle.byte_text.specs.Names.{Bytes};
ghost use Rattle.world_data.specs.declared.worlds.Change.{Change};
ghost use Rattle.world_data.specs.declared.worlds.World.{World};
ghost use Rattle.fence_backtest.specs.Cuts.{IsCut};
ghost use Rattle.fence_backtest.specs.Standing.{AreStretches, IsPlaced, IsStretch, IsStretchAt, StoodSo};
ghost use Rattle.fence_backtest.specs.Standing.{behind, behind_at, nowhere, old_of, places_behind, stood_here};

use crate::cuts::{Cuts, cuts_of};
use crate::in_order::InOrder;
use byte_text::{Name, NoMemory};
use ordered_lists::is_same;
use rayon::prelude::*;
use std::alloc::{AllocError, Global};
use std::collections::HashMap;
use std::marker::Model;
use std::thread::Threads;
use world_data::Change;

/// Where the object stood that a change puts or deletes.
#[derive(Clone, Copy, Debug, PartialEq, Eq)]
pub(crate) enum Stood {
    /// Where a put of the same stretch brought it, or nowhere.
    Here(Option<usize>),
    /// Where it stood before the stretch.
    Before,
}

/// What a stretch of changes does to the places where objects of a key stand.
#[derive(Drop)]
pub(crate) struct Stretch {
    from: usize,
    // Where the objects of the ids that it puts or deletes stand behind it.
    named: HashMap<Name, Option<usize>>,
    // Whether no object that stood before it stands behind it, but by a put of it.
    emptied: bool,
    olds: Vec<Stood>,
}

impl Model for Stretch {
    ghost use Rattle.fence_backtest.specs.Standing.{Known};

    ghost Value = { Known };

    ghost view = { λ s. record { from = s.from; named = s.named.entries; emptied = s.emptied; olds = s.olds.items } };
}

impl Stretch {
    /// The place of its first change.
    pub(crate) fn from(&self) -> usize
        ensures { result ≡ self.now.from }
    {
        self.from
    }

    /// How many changes it has.
    pub(crate) fn len(&self) -> usize
        ensures { result ≡ length self.now.olds }
    {
        self.olds.len()
    }

    /// Where the object stood that one of its changes puts or deletes.
    pub(crate) fn old(&self, at: usize) -> Stood
        requires { at < length self.now.olds }
        ensures { slice_get self.now.olds at ≡ Some result }
    {
        self.olds[at]
    }

    // Where the object of this id stands behind it, by where it stood before.
    fn behind(&self, id: &Name, before: Option<usize>) -> Option<usize>
        ensures { result ≡ behind_at self.now id.now before }
    {
        match self.named.get(id) {
            Some(place) => *place,
            None if self.emptied => None,
            None => before,
        }
    }
}

// Where the object of an id stands behind these stretches, before which none stood.
fn place_behind(stretches: &[Stretch], id: &Name) -> Option<usize>
    ensures { result ≡ places_behind nowhere stretches.now id.now }
{
    let mut place = None;
    for stretch in stretches {
        place = stretch.behind(id, place);
    }
    place
}

/// Where the object stood that a change puts or deletes, of a stretch behind these.
pub(crate) fn old_place(before: &[Stretch], change: &Change, stood: Stood) -> Option<usize>
    ensures { result ≡ old_of (places_behind nowhere before.now) change.now stood }
{
    match stood {
        Stood::Here(place) => place,
        Stood::Before => match change {
            Change::Put(object) => place_behind(before, &object.id),
            Change::Del(_, id) => place_behind(before, id),
            _ => None,
        },
    }
}

/// Stretches of one length, of which the last may be shorter.
#[derive(Drop)]
pub(crate) struct Stretches {
    pub(crate) size: usize,
    pub(crate) list: Vec<Stretch>,
}

/// The stretches of changes, gone through side by side.
pub(crate) fn all_stretches<R: Threads + Sync>(
    rt: &R,
    alloc: Global,
    key: &Name,
    changes: &InOrder,
) -> Result<Stretches, NoMemory>
    ensures { IfOk result (λ found. AreStretches key.now changes.now found.size found.list.items) }
{
    let cuts = cuts_of(rt, changes.len());
    match each_stretch(rt, alloc, key, changes, cuts) {
        Ok(Ok(list)) => Ok(Stretches {
            size: cuts.size,
            list,
        }),
        Ok(Err(NoMemory)) => Err(NoMemory),
        Err(AllocError) => Err(NoMemory),
    }
}

// Each stretch of these cuts.
fn each_stretch<R: Threads + Sync>(
    rt: &R,
    alloc: Global,
    key: &Name,
    changes: &InOrder,
    cuts: Cuts,
) -> Result<Result<Vec<Stretch>, NoMemory>, AllocError>
    requires cut { IsCut (length changes.now) cuts.count cuts.size }
    ensures { IfOk result (λ all. IfOk all (λ list.
        AllZip (IsStretchAt key.now changes.now cuts.size) (range_with_len 0 cuts.count) list.items)) }
{
    (0..cuts.count)
        .into_par_iter()
        .with_min_len(1)
        .map(
            |at: usize| -> Result<Stretch, NoMemory>
                requires { at * cuts.size < length changes.now }
                ensures { IfOk result (IsStretchAt key.entry.now changes.entry.now cuts.size at) }
            { stretch_at(alloc, key, changes, cuts.size, at) },
        )
        .collect(rt, alloc)
}

// The stretch of this number.
fn stretch_at(
    alloc: Global,
    key: &Name,
    changes: &InOrder,
    size: usize,
    at: usize,
) -> Result<Stretch, NoMemory>
    requires { at * size < length changes.now }
    ensures { IfOk result (IsStretchAt key.now changes.now size at) }
{
    let all = changes.len();
    let from = at * size;
    stretch_of(alloc, key, changes, from, size.min(all - from))
}

// The stretch of so many changes from a place on.
fn stretch_of(
    alloc: Global,
    key: &Name,
    changes: &InOrder,
    from: usize,
    len: usize,
) -> Result<Stretch, NoMemory>
    requires within { from + len ≤ length changes.now }
    requires fits { from + len < 2 ^ 64 }
    ensures place { IfOk result (λ stretch. stretch.from ≡ from) }
    ensures long { IfOk result (λ stretch. (length stretch.olds ≡ len) × (from + len < 2 ^ 64)) }
    ensures goes { IfOk result (IsStretch key.now changes.now) }
{
    let mut named: HashMap<Name, Option<usize>> = HashMap::new(alloc);
    let mut emptied = false;
    let mut olds = Vec::with_capacity(alloc, len)?;
    for at in 0..len {
        let change = changes.at(from + at);
        let old = take_change(alloc, key, &mut named, &mut emptied, from + at, change)?;
        olds.push(old)?;
    }
    Ok(Stretch {
        from,
        named,
        emptied,
        olds,
    })
}

// Does a change to a table of places: where the object stood that it puts or deletes.
fn take_change(
    alloc: Global,
    key: &Name,
    named: &mut HashMap<Name, Option<usize>>,
    emptied: &mut bool,
    at: usize,
    change: &Change,
) -> Result<Stood, NoMemory>
    ensures { (changes : List Change) (places : Bytes → Option ℕ) (w : World)
        → slice_get changes at ≡ Some change.now
        → IsPlaced key.now changes (behind named.old.entries emptied.old places) w
        → IfOk result (StoodSo key.now changes places named.new.entries emptied.new w change.now) }
{
    match change {
        Change::Put(object) => {
            if is_same(&object.key, key) {
                return put_there(alloc, named, *emptied, &object.id, Some(at));
            }
            Ok(Stood::Here(None))
        }
        Change::Del(other, id) => {
            if is_same(other, key) {
                return put_there(alloc, named, *emptied, id, None);
            }
            Ok(Stood::Here(None))
        }
        Change::Drop(other) => {
            if is_same(other, key) {
                named.clear();
                *emptied = true;
            }
            Ok(Stood::Here(None))
        }
        Change::Flush => {
            named.clear();
            *emptied = true;
            Ok(Stood::Here(None))
        }
        Change::SetChan(_) => Ok(Stood::Here(None)),
        Change::DelChan(_) => Ok(Stood::Here(None)),
    }
}

// Puts a place, or that none is there, at an id: where its object stood.
fn put_there(
    alloc: Global,
    named: &mut HashMap<Name, Option<usize>>,
    emptied: bool,
    id: &Name,
    place: Option<usize>,
) -> Result<Stood, NoMemory>
    ensures stood { IfOk result (λ stood. stood ≡ stood_here (get (pointwise ◌==◌) named.old id.now) emptied) }
    ensures updates { OnOk result (Updates (pointwise ◌==◌) named.old named.new id.now (Some place)) }
{
    let id = id.copy(alloc)?;
    match named.insert(id, place) {
        Ok(Some(old)) => Ok(Stood::Here(old)),
        Ok(None) if emptied => Ok(Stood::Here(None)),
        Ok(None) => Ok(Stood::Before),
        Err(_) => Err(NoMemory),
    }
}
