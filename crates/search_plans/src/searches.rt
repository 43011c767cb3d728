//! WITHIN, INTERSECTS and NEARBY: objects are searched by area and by distance.

ghost use Rattle.std.specs.Prelude.{◌≡◌, ℕ, [], true, IfOk};
ghost use Rattle.byte_text.specs.Globs.{is_sound_glob};
ghost use Rattle.fence_model.specs.Queries.{matches};
ghost use Rattle.world_data.specs.Worlds.{objects_of};
ghost use Rattle.world_model.specs.Effects.{effect, rule_over, says, within_reply};
ghost use Rattle.world_model.specs.Replies.{page_reply};
ghost use Rattle.world_model.specs.declared.search_commands.AreaWords.TheVariants as area_words;
ghost use Rattle.world_model.specs.declared.commands.Command.TheVariants as command;
ghost use Rattle.world_model.specs.declared.search_commands.SearchCommand.TheVariants as of_search;
ghost use Rattle.keyspace.specs.Entries.{objects_in};
ghost use Rattle.object_plans.specs.Kept.{AreKept};
ghost use Rattle.object_plans.specs.Moves.{world_in};
ghost use Rattle.object_plans.specs.Plans.{IsPlan, Says};

use crate::scans::{plan_near_page, plan_page};
use byte_text::{Name, NoMemory};
use collection::Collection;
use object_plans::{ObjectContext, Plan, figure_of, plan_missing};
use planar_geom::{Area, Pt};
use rtree::{Steps, Visits};
use std::alloc::Global;
use world_model::{AreaWords, Query, Rule};

// Puts the area into the rule, where that is of an area.
fn put_area(rule: &mut Rule, area: Area)
    ensures { rule.new ≡ rule_over rule.old area }
{
    if let Rule::InArea(_, sought) = rule {
        *sought = area;
    }
}

// The query with the area in its place.
fn query_over(query: Query, area: Area) -> Query
    ensures { result ≡ record query { rule = rule_over query.rule area } }
{
    let mut query = query;
    put_area(&mut query.rule, area);
    query
}

// What a search over an area will answer.
fn plan_over(
    alloc: Global,
    context: ObjectContext<'_>,
    key: &Name,
    query: Query,
    area: Area,
    steps: &mut Steps<Visits>,
) -> Result<Plan, NoMemory>
    requires pattern { is_sound_glob query.glob ≡ true }
    ensures { IfOk result (Says (within_reply (says
        (page_reply query (matches (record query { rule = rule_over query.rule area }) (objects_of
        (world_in context.entry.objects.now) key.now))))) context.entry.total) }
{
    let query = query_over(query, area);
    match context.objects.collection(key) {
        Some(found) => plan_page(alloc, found, context.total, &query, steps),
        None => plan_page(alloc, &Collection::new(alloc), context.total, &query, steps),
    }
}

// What WITHIN and INTERSECTS will do over an area that their words give.
fn plan_given(
    alloc: Global,
    context: ObjectContext<'_>,
    key: &Name,
    query: Query,
    area: Area,
    steps: &mut Steps<Visits>,
) -> Result<Plan, NoMemory>
    requires kept { AreKept (objects_in context.objects.now) context.total }
    requires pattern { is_sound_glob query.glob ≡ true }
    ensures { IfOk result (λ p. (now : ℕ) → IsPlan (objects_in context.entry.objects.now)
        (effect (world_in context.entry.objects.now) now [] (command.Search (of_search.Area key.now query
        (area_words.Given area)))) p) }
{
    plan_over(alloc, context, key, query, area, steps)
}

// What WITHIN and INTERSECTS will do over the shape of an object, which has to be there.
fn plan_figure(
    alloc: Global,
    context: ObjectContext<'_>,
    key: &Name,
    query: Query,
    of_key: &Name,
    id: &Name,
    steps: &mut Steps<Visits>,
) -> Result<Plan, NoMemory>
    requires kept { AreKept (objects_in context.objects.now) context.total }
    requires pattern { is_sound_glob query.glob ≡ true }
    ensures { IfOk result (λ p. (now : ℕ) → IsPlan (objects_in context.entry.objects.now)
        (effect (world_in context.entry.objects.now) now [] (command.Search (of_search.Area key.now query
        (area_words.Of of_key.now id.now)))) p) }
{
    let Some(object) = context.objects.get(of_key, id) else {
        return plan_missing(alloc, context.objects, context.total, of_key);
    };
    let area = figure_of(alloc, &object.shape)?;
    plan_over(alloc, context, key, query, area, steps)
}

/// What WITHIN and INTERSECTS will do.
pub(crate) fn plan_area(
    alloc: Global,
    context: ObjectContext<'_>,
    key: &Name,
    query: Query,
    area: AreaWords,
    steps: &mut Steps<Visits>,
) -> Result<Plan, NoMemory>
    requires kept { AreKept (objects_in context.objects.now) context.total }
    requires pattern { is_sound_glob query.glob ≡ true }
    ensures { IfOk result (λ p. (now : ℕ) → IsPlan (objects_in context.entry.objects.now)
        (effect (world_in context.entry.objects.now) now [] (command.Search (of_search.Area key.now query area))) p) }
{
    match area {
        AreaWords::Given(area) => plan_given(alloc, context, key, query, area, steps),
        AreaWords::Of(of_key, id) => plan_figure(alloc, context, key, query, &of_key, &id, steps),
    }
}

/// What NEARBY will do.
pub(crate) fn plan_nearby(
    alloc: Global,
    context: ObjectContext<'_>,
    key: &Name,
    query: &Query,
    at: Pt,
    reach: Option<u32>,
    steps: &mut Steps<Visits>,
) -> Result<Plan, NoMemory>
    requires kept { AreKept (objects_in context.objects.now) context.total }
    requires pattern { is_sound_glob query.now.glob ≡ true }
    ensures { IfOk result (λ p. (now : ℕ) → IsPlan (objects_in context.entry.objects.now)
        (effect (world_in context.entry.objects.now) now [] (command.Search
        (of_search.Nearby key.now query.now at reach))) p) }
{
    match context.objects.collection(key) {
        Some(found) => plan_near_page(alloc, found, context.total, query, at, reach, steps),
        None => plan_near_page(
            alloc,
            &Collection::new(alloc),
            context.total,
            query,
            at,
            reach,
            steps,
        ),
    }
}
