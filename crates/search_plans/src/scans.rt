//! SCAN, and pages of what a search found, which are not built on once they would be too long.

ghost use Rattle.std.specs.Prelude.{◌≡◌, ◌≢◌, ◌<◌, ◌+◌, ◌≤◌, ℕ, List, [], true, length, map, take, All, IfOk, IfErr, OnOk};
ghost use Rattle.byte_text.specs.Globs.{is_sound_glob};
ghost use Rattle.byte_text.specs.Replies.{frame_text};
ghost use Rattle.world_data.specs.Limits.{max_reply};
ghost use Rattle.fence_model.specs.Queries.{IsPageOf, matches, near_matches};
ghost use Rattle.world_data.specs.declared.objects.Object.{Object};
ghost use Rattle.world_model.specs.Effects.{effect, says, within_reply};
ghost use Rattle.world_model.specs.Replies.{page_reply, item_reply};
ghost use Rattle.world_model.specs.declared.commands.Command.TheVariants as command;
ghost use Rattle.world_model.specs.declared.search_commands.SearchCommand.TheVariants as of_search;
ghost use Rattle.keyspace.specs.Entries.{objects_in};
ghost use Rattle.object_plans.specs.Kept.{AreKept};
ghost use Rattle.object_plans.specs.Listings.{joined, AreItems, IsTooLong};
ghost use Rattle.object_plans.specs.Moves.{world_in};
ghost use Rattle.object_plans.specs.Plans.{IsPlan, Says};
ghost use Rattle.search_plans.specs.Pages.{listing, objects_of_ids, IsFirst};

use byte_text::{Name, NoMemory, Text};
use collection::Collection;
use keyspace::Keyspace;
use object_plans::{Plan, or_refusal, say_count};
use planar_geom::Pt;
use reply_text::{ItemFrames, ReplyFault};
use rtree::{Steps, Visits};
use search_query::{near_page, page};
use std::alloc::Global;
use world_model::{Page, Query, Shown};

// Puts the object last whose id stands at a place of a page.
fn push_found(
    items: &mut ItemFrames,
    objects: &Collection,
    query: &Query,
    page: &Page,
    i: usize,
) -> Result<(), ReplyFault>
    requires shown { query.now.shown ≢ Shown.Count }
    requires within { i < length page.now.ids }
    requires items { AreItems (map (item_reply query.now) (objects_of_ids objects.now.objects
        (take i page.now.ids))) items.old }
    ensures ok { OnOk result (AreItems (map
        (item_reply query.now) (objects_of_ids objects.now.objects (take (i + 1) page.now.ids))) items.new) }
    ensures too_long { IfErr result (IsTooLong (joined (map
        (item_reply query.now) (objects_of_ids objects.now.objects (take (i + 1) page.now.ids))))) }
{
    match objects.get(page.ids.at(i)) {
        Some(object) => items.push_object(query, object),
        None => Ok(()),
    }
}

// The frame of a page of the objects of a key. An id without an object shows nothing.
fn page_frame(
    alloc: Global,
    objects: &Collection,
    query: &Query,
    page: &Page,
) -> Result<Text, ReplyFault>
    requires shown { query.now.shown ≢ Shown.Count }
    ensures ok { IfOk result (λ t. (t ≡ frame_text (listing query.now page.now.cursor
        (objects_of_ids objects.now.objects page.now.ids))) × (length t ≤ max_reply)) }
    ensures too_long { IfErr result (IsTooLong (listing query.now page.now.cursor
        (objects_of_ids objects.now.objects page.now.ids))) }
{
    let mut items = ItemFrames::new(alloc);
    for i in 0..page.ids.len() {
        push_found(&mut items, objects, query, page, i)?;
    }
    items.page(alloc, page.cursor)
}

// The answer of a page of what was found among the objects of a key.
fn say_page(
    alloc: Global,
    objects: &Collection,
    total: u64,
    query: &Query,
    page: &Page,
) -> Result<Plan, NoMemory>
    ensures { (found : List Object) → All (IsFirst objects.now.objects) found → IsPageOf query.now found page.now
        → IfOk result (Says (within_reply (says (page_reply query.now found))) total) }
{
    if query.shown == Shown::Count {
        return say_count(alloc, total, page.count);
    }
    let frame = or_refusal(alloc, page_frame(alloc, objects, query, page))?;
    Ok(Plan::reply(frame, total))
}

/// What a query by id or by area will answer over the objects of its key. The steps count the nodes that are visited.
pub(crate) fn plan_page(
    alloc: Global,
    objects: &Collection,
    total: u64,
    query: &Query,
    steps: &mut Steps<Visits>,
) -> Result<Plan, NoMemory>
    requires pattern { is_sound_glob query.now.glob ≡ true }
    ensures { IfOk result (Says (within_reply (says
        (page_reply query.now (matches query.now objects.now.objects)))) total) }
{
    // What stands by id is known where the objects are counted.
    let _count = objects.len();
    let mut found = Page::new(alloc);
    page(alloc, objects, query, &mut found, steps)?;
    say_page(alloc, objects, total, query, &found)
}

/// What a query by distance will answer over the objects of its key. The steps count the nodes that are visited.
pub(crate) fn plan_near_page(
    alloc: Global,
    objects: &Collection,
    total: u64,
    query: &Query,
    at: Pt,
    reach: Option<u32>,
    steps: &mut Steps<Visits>,
) -> Result<Plan, NoMemory>
    requires pattern { is_sound_glob query.now.glob ≡ true }
    ensures { IfOk result (Says (within_reply (says
        (page_reply query.now (near_matches query.now at reach objects.now.objects)))) total) }
{
    // What stands by id is known where the objects are counted.
    let _count = objects.len();
    let mut found = Page::new(alloc);
    near_page(alloc, objects, at, reach, query, &mut found, steps)?;
    say_page(alloc, objects, total, query, &found)
}

/// What SCAN will do.
pub(crate) fn plan_scan(
    alloc: Global,
    objects: &Keyspace,
    total: u64,
    key: &Name,
    query: &Query,
    steps: &mut Steps<Visits>,
) -> Result<Plan, NoMemory>
    requires kept { AreKept (objects_in objects.now) total }
    requires pattern { is_sound_glob query.now.glob ≡ true }
    ensures { IfOk result (λ p. (now : ℕ) → IsPlan (objects_in objects.now)
        (effect (world_in objects.now) now [] (command.Search (of_search.Scan key.now query.now))) p) }
{
    match objects.collection(key) {
        Some(found) => plan_page(alloc, found, total, query, steps),
        None => plan_page(alloc, &Collection::new(alloc), total, query, steps),
    }
}
