//! What a tree of boxes takes in, finds and lets go: places in a drawn order, windows, and the nearest of a place.

use crate::places::{Places, window_side};
use rtree::{Ids, NearWalk, NoLedger, Steps, Tree};
use std::alloc::Global;

// How many of the nearest are sought.
const NEAREST: usize = 10;

/// How many pairs were put in, found or taken out, and the sum of their numbers.
#[derive(Drop)]
pub(crate) struct Tally {
    pub(crate) pairs: u64,
    pub(crate) sum: u64,
}

impl Tally {
    fn new() -> Tally {
        Tally { pairs: 0, sum: 0 }
    }

    fn add(&mut self, id: usize) {
        self.pairs = self.pairs.wrapping_add(1);
        self.sum = self.sum.wrapping_add(id as u64);
    }

    fn add_all(&mut self, ids: &Ids) {
        for i in 0..ids.len() {
            self.add(ids.at(i));
        }
    }
}

/// Puts so many places in, numbered in order, each by itself as a collection does.
pub(crate) fn insert_places(tree: &mut Tree, count: u64, seed: u64) -> Tally {
    let mut tally = Tally::new();
    let mut places = Places::of(seed);
    let mut steps = Steps::new(NoLedger);
    for number in 0..count {
        let id = number as usize;
        let Some(place) = places.draw_box(0) else {
            break;
        };
        if tree.reserve(1).is_err() {
            break;
        }
        tree.insert(place, id, &mut steps);
        tally.add(id);
    }
    tally
}

/// Takes out the first of the places that were put in.
pub(crate) fn remove_places(tree: &mut Tree, count: u64, seed: u64) -> Tally {
    let mut tally = Tally::new();
    let mut places = Places::of(seed);
    let mut steps = Steps::new(NoLedger);
    for number in 0..count {
        let id = number as usize;
        let Some(place) = places.draw_box(0) else {
            break;
        };
        if tree.remove(place, id, &mut steps) {
            tally.add(id);
        }
    }
    tally
}

/// Searches so many windows, in each of which ten of `among` places stand on average.
pub(crate) fn search_windows(
    alloc: Global,
    tree: &Tree,
    among: u64,
    count: u64,
    seed: u64,
) -> Tally {
    let side = window_side(among);
    let mut tally = Tally::new();
    let mut places = Places::of(seed);
    let mut ids = Ids::new(alloc);
    let mut steps = Steps::new(NoLedger);
    for _ in 0..count {
        let Some(window) = places.draw_box(side) else {
            break;
        };
        ids.clear();
        if tree.search(&window, &mut ids, &mut steps).is_err() {
            break;
        }
        tally.add_all(&ids);
    }
    tally
}

/// Seeks the nearest of so many places.
pub(crate) fn seek_nearest(alloc: Global, tree: &Tree, count: u64, seed: u64) -> Tally {
    let mut tally = Tally::new();
    let mut places = Places::of(seed);
    let mut ids = Ids::new(alloc);
    let mut steps = Steps::new(NoLedger);
    for _ in 0..count {
        let Some(from) = places.draw_place() else {
            break;
        };
        let Ok(mut walk) = NearWalk::of(tree, from) else {
            break;
        };
        ids.clear();
        // Each turn gives one at least, or ends.
        for _ in 0..NEAREST {
            if ids.len() >= NEAREST {
                break;
            }
            let Ok(Some(_)) = walk.next(&mut ids, &mut steps) else {
                break;
            };
        }
        tally.add_all(&ids);
    }
    tally
}
