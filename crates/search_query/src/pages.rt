//! Pages of what a query finds, by id.

ghost use Rattle.std.specs.Prelude.{◌≡◌, ◌<◌, ◌≤◌, ◌+◌, ◌^◌, ◌++◌, ◌∷◌, [], List, ◌&&◌, true, false, not};
ghost use Rattle.std.specs.Prelude.{if◌then◌else◌, length, filter, reverse, slice_get, Some, nat_lt, nat_le, IfOk};
ghost use Rattle.std.specs.Prelude.{OnOk};
ghost use Rattle.fence_model.specs.Queries.{IsPageOf, matches, meets_query, page_ids, is_count};
ghost use Rattle.world_data.specs.declared.objects.Object.{Object};
ghost use Rattle.byte_text.specs.Globs.{is_sound_glob};
ghost use Rattle.world_data.specs.declared.channels.Kind.{Kind};
ghost use Rattle.world_data.specs.declared.queries.Rule.TheVariants.{InArea};
ghost use Rattle.collection.specs.Meeting.{IsVisited};
ghost use Rattle.search_query.specs.Directions.{is_down, has_area};
ghost use Rattle.search_query.specs.Pages.{is_past, IsEnough};

use byte_text::{Name, NoMemory};
use collection::{Collection, FoundObjects};
use object_match::meets_query;
use planar_geom::{Area, area_box, area_is_whole, met_is_near};
use rtree::{Ledger, Steps};
use std::alloc::Global;
use world_data::{NameList, Object, Page, Query, Rule, Shown};

/// The page of what the query finds among the objects of a key: their ids from place `cursor` on, at most `limit`, and
/// where the next page begins; of a count the number of all that is found. Where the query has an area only objects are
/// looked at whose box meets the area's box, and the steps rise by the nodes of the tree that are visited, one at least
/// where there is an object; where it has none no node is visited. For want of memory the page may hold anything.
pub fn page<L: Ledger>(
    alloc: Global,
    collection: &Collection,
    query: &Query,
    into: &mut Page,
    steps: &mut Steps<L>,
) -> Result<(), NoMemory>
    requires pattern { is_sound_glob query.now.glob ≡ true }
    ensures page { OnOk result (IsPageOf query.now (matches query.now collection.now.objects) into.new) }
    ensures visits { has_area query.now.rule ≡ true → IsVisited collection.now.objects steps.old.count steps.new.count }
    ensures none { has_area query.now.rule ≡ false → steps.new.count ≡ steps.old.count }
{
    into.ids.clear();
    let found = match &query.rule {
        Rule::InArea(_, area) => list_met(alloc, collection, area, query, &mut into.ids, steps)?,
        Rule::All | Rule::Descending | Rule::Nearest => {
            list_ids(alloc, collection, query, &mut into.ids)?
        }
    };
    end_page(query, found, into);
    Ok(())
}

/// Notes behind the ids of a page where the next one begins, and of a count how many were found.
pub(crate) fn end_page(query: &Query, found: u64, page: &mut Page)
    ensures { (all : List Object) → page.old.ids ≡ page_ids query.now all → IsEnough query.now all found
        → IsPageOf query.now all page.new }
{
    if is_count(query.shown) {
        page.count = found;
        page.cursor = 0;
        return;
    }
    let next = u64::from(query.cursor) + u64::from(query.limit);
    page.count = 0;
    page.cursor = if next < found { next } else { 0 };
}

// Lists the ids of a page, none of a count, and gives the number of all that is found; once one is found behind the
// page, the rest is not looked at.
fn list_ids(
    alloc: Global,
    collection: &Collection,
    query: &Query,
    ids: &mut NameList,
) -> Result<u64, NoMemory>
    requires pattern { is_sound_glob query.now.glob ≡ true }
    requires empty { ids.old ≡ [] }
    ensures count { IfOk result (λ n. IsEnough query.now (matches query.now collection.now.objects) n) }
    ensures ids { OnOk result (ids.new ≡ page_ids query.now (matches query.now collection.now.objects)) }
{
    let mut found = 0;
    for i in 0..collection.len() {
        let object = in_turn(collection, i, is_down(&query.rule));
        found = note(alloc, query, object, found, ids)?;
        if is_past(query, found) {
            return Ok(found);
        }
    }
    Ok(found)
}

// The same where the query has an area: objects are looked at whose box meets the area's box.
fn list_met<L: Ledger>(
    alloc: Global,
    collection: &Collection,
    area: &Area,
    query: &Query,
    ids: &mut NameList,
    steps: &mut Steps<L>,
) -> Result<u64, NoMemory>
    requires pattern { is_sound_glob query.now.glob ≡ true }
    requires empty { ids.old ≡ [] }
    requires area { (kind : Kind) × (query.now.rule ≡ InArea kind area.now) }
    ensures count { IfOk result (λ n. IsEnough query.now (matches query.now collection.now.objects) n) }
    ensures ids { OnOk result (ids.new ≡ page_ids query.now (matches query.now collection.now.objects)) }
    ensures visits { IsVisited collection.now.objects steps.old.count steps.new.count }
{
    // Laws, of which nothing is left at run time.
    met_is_near();
    area_is_whole(area);
    let mut met = FoundObjects::new(alloc);
    collection.met(alloc, area_box(area), &mut met, steps)?;
    let mut found = 0;
    for i in 0..met.len() {
        found = note(alloc, query, met.at(i), found, ids)?;
        if is_past(query, found) {
            return Ok(found);
        }
    }
    Ok(found)
}

/// Whether a page is asked for, and of so many that were found one is behind it.
pub(crate) fn is_past(query: &Query, found: u64) -> bool
    ensures { result ≡ is_past query.now found }
{
    !is_count(query.shown) && u64::from(query.cursor) + u64::from(query.limit) < found
}

// The i-th object by ascending id, or by descending.
fn in_turn(collection: &Collection, i: usize, down: bool) -> &Object
    requires { i < length collection.now.objects }
    ensures { slice_get (if down then reverse collection.now.objects else collection.now.objects) i ≡ Some result.now }
{
    if down {
        collection.at(collection.len() - 1 - i)
    } else {
        collection.at(i)
    }
}

fn is_down(rule: &Rule) -> bool
    ensures { result ≡ is_down rule.now }
{
    matches!(rule, Rule::Descending)
}

/// Notes the next object behind those that were found: where it meets the query it is found too, and its id is listed
/// where it is on the page. Gives the number of all that is found.
pub(crate) fn note(
    alloc: Global,
    query: &Query,
    object: &Object,
    found: u64,
    ids: &mut NameList,
) -> Result<u64, NoMemory>
    requires pattern { is_sound_glob query.now.glob ≡ true }
    requires room { found + 1 < 2 ^ 64 }
    ensures count { (seen : List Object) → found ≡ length seen
        → IfOk result (λ n. n ≡ length (seen ++ filter (meets_query query.now) (object.now ∷ []))) }
    ensures ids { (seen : List Object) → found ≡ length seen → ids.old ≡ page_ids query.now seen
        → OnOk result (ids.new ≡ page_ids query.now (seen ++ filter (meets_query query.now) (object.now ∷ []))) }
{
    if !meets_query(query, object) {
        return Ok(found);
    }
    if is_on_page(query, found) {
        add_id(alloc, ids, &object.id)?;
    }
    Ok(found + 1)
}

// Whether what is found at this place is on the page.
fn is_on_page(query: &Query, place: u64) -> bool
    ensures { result
        ≡ (not (is_count query.now.shown) && nat_le query.now.cursor place
        && nat_lt place (query.now.cursor + query.now.limit)) }
{
    let first = u64::from(query.cursor);
    !is_count(query.shown) && first <= place && place < first + u64::from(query.limit)
}

// Whether the number alone is asked for.
fn is_count(shown: Shown) -> bool
    ensures { result ≡ is_count shown }
{
    matches!(shown, Shown::Count)
}

// Puts an id last.
fn add_id(alloc: Global, ids: &mut NameList, id: &Name) -> Result<(), NoMemory>
    ensures { OnOk result (ids.new ≡ ids.old ++ id.now ∷ []) }
{
    match ids.push(id.copy(alloc)?) {
        Ok(()) => Ok(()),
        Err(_) => Err(NoMemory),
    }
}
