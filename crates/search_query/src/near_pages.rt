//! Pages of what a query finds, the nearest first.
//!
//! A page is sorted by distance alone, by a sort that keeps what is equal: the objects come in order of id, so ties do
//! too.

ghost use Rattle.std.specs.Prelude.{◌≡◌, ◌<◌, ◌+◌, ◌^◌, List, [], true, not, length, IfOk, OnOk};
ghost use Rattle.byte_text.specs.Globs.{is_sound_glob};
ghost use Rattle.fence_model.specs.Queries.{IsPageOf, near_matches, page_ids};
ghost use Rattle.world_data.specs.declared.objects.Object.{Object};
ghost use Rattle.search_query.specs.Pages.{IsEnough};
ghost use Rattle.search_query.specs.Found.{is_reached, IsCountBehind, AreIdsBehind};

use crate::pages::{end_page, is_past, note};
use byte_text::NoMemory;
use collection::{Collection, FoundObjects};
use planar_geom::Pt;
use rtree::{Ledger, Steps};
use std::alloc::Global;
use world_data::{NameList, Page, Query};

/// The page of what the query finds among the objects of a key no further from the point than the reach, where there is
/// one: the nearest first, by the distance to their boxes, and of those that are as near the lesser id; their ids from
/// place `cursor` on, at most `limit`, and where the next page begins; of a count the number of all that is found. The
/// objects are walked by distance, until one is found behind the page, and the steps rise by the nodes of the tree that
/// are visited. For want of memory the page may hold anything.
pub fn near_page<L: Ledger>(
    alloc: Global,
    collection: &Collection,
    at: Pt,
    reach: Option<u32>,
    query: &Query,
    into: &mut Page,
    steps: &mut Steps<L>,
) -> Result<(), NoMemory>
    requires { is_sound_glob query.now.glob ≡ true }
    ensures { OnOk result (IsPageOf query.now (near_matches query.now at reach collection.now.objects) into.new) }
{
    into.ids.clear();
    let found = list_nearest(alloc, collection, at, reach, query, &mut into.ids, steps)?;
    end_page(query, found, into);
    Ok(())
}

// Lists the ids of a page, the nearest first, none of a count, and gives the number of all that is found; once one is
// found behind the page, or what is left is out of reach, the rest is not looked at.
fn list_nearest<L: Ledger>(
    alloc: Global,
    collection: &Collection,
    at: Pt,
    reach: Option<u32>,
    query: &Query,
    ids: &mut NameList,
    steps: &mut Steps<L>,
) -> Result<u64, NoMemory>
    requires pattern { is_sound_glob query.now.glob ≡ true }
    requires empty { ids.old ≡ [] }
    ensures count { IfOk result (λ n. IsEnough query.now (near_matches query.now at reach collection.now.objects) n) }
    ensures ids { OnOk result (ids.new ≡ page_ids query.now (near_matches query.now at reach collection.now.objects)) }
{
    // That objects can be counted is what their number says.
    let _count = collection.len();
    let mut walk = collection.near(alloc, at)?;
    let mut nearest = FoundObjects::new(alloc);
    let mut found = 0;
    while let Some(distance) = walk.next(&mut nearest, steps)? {
        if is_beyond(reach, distance) {
            return Ok(found);
        }
        found = note_all(alloc, &nearest, query, found, ids)?;
        if is_past(query, found) {
            return Ok(found);
        }
    }
    Ok(found)
}

// Whether what is this far away, squared, is further than the reach, where there is one.
fn is_beyond(reach: Option<u32>, squared: u64) -> bool
    ensures { result ≡ not (is_reached reach squared) }
{
    match reach {
        Some(meters) => u64::from(meters) * u64::from(meters) < squared,
        None => false,
    }
}

// Notes all these objects behind those that were found.
fn note_all(
    alloc: Global,
    objects: &FoundObjects<'_>,
    query: &Query,
    found: u64,
    ids: &mut NameList,
) -> Result<u64, NoMemory>
    requires pattern { is_sound_glob query.now.glob ≡ true }
    requires seen { (seen : List Object) × (found ≡ length seen) }
    requires room { found + length objects.now < 2 ^ 64 }
    ensures count { IfOk result (IsCountBehind query.now objects.now found) }
    ensures ids { OnOk result (AreIdsBehind query.now objects.now found ids.old ids.new) }
{
    let mut all = found;
    for i in 0..objects.len() {
        all = note(alloc, query, objects.at(i), all, ids)?;
    }
    Ok(all)
}
