//! Queries: which objects are sought, in which order, and how they are shown.

ghost use Rattle.std.specs.Prelude.{◌≡◌, []};

use crate::channels::Kind;
use crate::filters::Tests;
use crate::lists::NameList;
use byte_text::Name;
use planar_geom::Area;
use std::alloc::Global;

/// How objects are shown: their number, or of each its id, its text, the centre of its box or its bounds.
#[derive(Clone, Copy, Debug, PartialEq, Eq)]
pub enum Shown {
    Count,
    Ids,
    Objects,
    Points,
    Bounds,
}

/// Which objects are sought: all by id, all by id downwards, those that meet an area, or the nearest first.
pub enum Rule {
    All,
    Descending,
    InArea(Kind, Area),
    Nearest,
}

impl Drop for Rule {
    fn drop(self) {
        match self {
            Rule::All => {}
            Rule::Descending => {}
            Rule::InArea(_, _) => {}
            Rule::Nearest => {}
        }
    }
}

/// A query. `bare` leaves the fields out; a page begins at the place `cursor` and has at most `limit` items.
pub struct Query {
    pub rule: Rule,
    pub glob: Option<Name>,
    pub tests: Tests,
    pub cursor: u32,
    pub limit: u32,
    pub bare: bool,
    pub shown: Shown,
}

impl Drop for Query {
    fn drop(self) {
        let Query {
            rule: _,
            glob: _,
            tests: _,
            cursor: _,
            limit: _,
            bare: _,
            shown: _,
        } = self;
    }
}

/// A page of a query: the ids of its items and where the next page begins, or the number of all matches alone.
#[derive(Drop)]
pub struct Page {
    pub ids: NameList,
    pub cursor: u64,
    pub count: u64,
}

impl Page {
    /// An empty page. Its ids take their memory from `alloc`.
    pub fn new(alloc: Global) -> Page
        ensures ids { result.ids ≡ [] }
        ensures cursor { result.cursor ≡ 0 }
        ensures count { result.count ≡ 0 }
    {
        Page {
            ids: NameList::new(alloc),
            cursor: 0,
            count: 0,
        }
    }
}
