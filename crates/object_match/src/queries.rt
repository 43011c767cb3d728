//! Whether an object meets a query.

ghost use Rattle.std.specs.Prelude.{◌≡◌, true};
ghost use Rattle.byte_text.specs.Globs.{is_sound_glob};
ghost use Rattle.fence_model.specs.Queries.{meets_query, meets_rule};
ghost use Rattle.world_data.specs.declared.objects.Object.{Object};

use crate::areas::meets_area;
use crate::fields::passes;
use crate::patterns::meets_glob;
use planar_geom::Shape;
use world_data::{Object, Query, Rule};

/// Whether the object meets MATCH, the tests and the area of the query.
pub fn meets_query(query: &Query, object: &Object) -> bool
    requires { is_sound_glob query.now.glob ≡ true }
    ensures { result ≡ meets_query query.now object.now }
{
    meets_glob(&query.glob, &object.id)
        && passes(&query.tests, &object.fields)
        && meets_rule(&query.rule, &object.shape)
}

// Whether the shape meets the area of the rule, where it has one.
fn meets_rule(rule: &Rule, shape: &Shape) -> bool
    ensures { (o : Object) → o.shape ≡ shape.now → result ≡ meets_rule rule.now o }
{
    match rule {
        Rule::InArea(kind, area) => meets_area(*kind, area, shape),
        Rule::All | Rule::Descending | Rule::Nearest => true,
    }
}
