//! The tree beside a plain list of pairs, and how many nodes searches visit.

use planar_geom::{BBox, Pt, box_dist2};
use rtree::{Ids, Ledger, NearWalk, NoLedger, Steps, Tree, Visits};
use std::alloc::Global;
use std::process::Abort;

fn square(rt: &impl Abort, x: u32, y: u32, side: u16) -> BBox {
    let low = Pt::of(i64::from(x), i64::from(y));
    let high = Pt::of(
        i64::from(x) + i64::from(side),
        i64::from(y) + i64::from(side),
    );
    BBox::of(low.expect(rt, "a point"), high.expect(rt, "a point")).expect(rt, "a box")
}

fn is_same(a: BBox, b: BBox) -> bool {
    let (a_low, b_low, a_high, b_high) = (a.min(), b.min(), a.max(), b.max());
    a_low.x() == b_low.x()
        && a_low.y() == b_low.y()
        && a_high.x() == b_high.x()
        && a_high.y() == b_high.y()
}

// The plain program: takes one such pair out of a list.
fn take_out(list: &mut Vec<(BBox, usize)>, b: BBox, id: usize) -> bool {
    for i in 0..list.len() {
        let (bounds, number) = list[i];
        if number == id && is_same(bounds, b) {
            let _ = list.swap_remove(i);
            return true;
        }
    }
    false
}

// How many pairs meet a box, and the sum of their numbers.
fn met(list: &Vec<(BBox, usize)>, b: BBox) -> (usize, u64) {
    let mut count = 0usize;
    let mut sum = 0u64;
    for (bounds, id) in list {
        if bounds.meets(b) {
            count = count.wrapping_add(1);
            sum = sum.wrapping_add(*id as u64);
        }
    }
    (count, sum)
}

fn found(rt: &impl Abort, alloc: Global, tree: &Tree, b: BBox) -> (usize, u64) {
    let mut ids = Ids::new(alloc);
    let searched = tree.search(&b, &mut ids, &mut Steps::new(NoLedger));
    assert!(rt; searched.is_ok(), "searched");
    let mut sum = 0u64;
    for i in 0..ids.len() {
        sum = sum.wrapping_add(ids.at(i) as u64);
    }
    (ids.len(), sum)
}

// How many pairs stand at a squared distance from a point.
fn standing_at(list: &Vec<(BBox, usize)>, p: Pt, distance: u64) -> usize {
    let mut count = 0usize;
    for (bounds, _) in list {
        if box_dist2(p, *bounds) == distance {
            count = count.wrapping_add(1);
        }
    }
    count
}

#[test]
fn keeps_a_list(rt: HostRuntime) {
    let alloc = rt.alloc();
    let mut tree = Tree::new(alloc);
    let mut list = Vec::new(alloc);
    let mut steps = Steps::new(NoLedger);
    for n in 0..600u32 {
        let b = square(&rt, n * 7 % 40, n * 11 % 30, (n % 3) as u16);
        let id = (n % 5) as usize;
        if n % 3 == 2 {
            let other = square(&rt, n * 5 % 40, n * 3 % 30, (n % 2) as u16);
            let removed = tree.remove(other, id, &mut steps);
            assert_eq!(rt; removed, take_out(&mut list, other, id));
            assert_eq!(rt; tree.remove(b, id, &mut steps), take_out(&mut list, b, id));
        } else if tree.reserve(1).is_ok() && list.push((b, id)).is_ok() {
            tree.insert(b, id, &mut steps);
        }
        let window = square(&rt, n % 40, n % 30, 4);
        assert_eq!(rt; found(&rt, alloc, &tree, window), met(&list, window));
    }
    for n in 0..600u32 {
        let b = square(&rt, n * 7 % 40, n * 11 % 30, (n % 3) as u16);
        let id = (n % 5) as usize;
        let removed = tree.remove(b, id, &mut steps);
        assert_eq!(rt; removed, take_out(&mut list, b, id));
    }
    assert_eq!(rt; list.len(), 0);
    assert_eq!(rt; found(&rt, alloc, &tree, square(&rt, 0, 0, 100)), (0, 0));
}

#[test]
fn walks_by_distance(rt: HostRuntime) {
    let alloc = rt.alloc();
    let mut tree = Tree::new(alloc);
    let mut list = Vec::new(alloc);
    let mut steps = Steps::new(NoLedger);
    for n in 0..80u32 {
        let b = square(&rt, n * 7 % 40, n * 11 % 30, (n % 3) as u16);
        if tree.reserve(1).is_ok() && list.push((b, n as usize)).is_ok() {
            tree.insert(b, n as usize, &mut steps);
        }
    }
    let from = square(&rt, 17, 11, 0).min();
    let Ok(mut walk) = NearWalk::of(&tree, from) else {
        panic!(rt; "a walk");
    };
    let mut ids = Ids::new(alloc);
    for distance in 0..900u64 {
        let there = standing_at(&list, from, distance);
        if there > 0 {
            ids.clear();
            let answer = walk.next(&mut ids, &mut steps);
            assert_eq!(rt; answer.ok(), Some(Some(distance)));
            assert_eq!(rt; ids.len(), there);
        }
    }
    assert_eq!(rt; walk.next(&mut ids, &mut steps).ok(), Some(None));
}

// A point at each of 100 by 100 places, ten apart, with a number each.
fn grid<L: Ledger>(rt: &impl Abort, alloc: Global, steps: &mut Steps<L>) -> Tree {
    let mut tree = Tree::new(alloc);
    for i in 0..100u32 {
        for j in 0..100u32 {
            if tree.reserve(1).is_ok() {
                let place = square(rt, 10 * i, 10 * j, 0);
                tree.insert(place, (100 * i + j) as usize, steps);
            }
        }
    }
    tree
}

// Each of 1,000 searches visits a node of each level, and 10,000 pairs need four levels of 16.
const LEAST_VISITS: u64 = 4_000;

#[test]
fn visits_few_nodes(rt: HostRuntime) {
    let alloc = rt.alloc();
    let tree = grid(&rt, alloc, &mut Steps::new(NoLedger));
    let mut visits = Steps::new(Visits::new());
    let mut ids = Ids::new(alloc);
    for m in 0..1000u32 {
        let place = square(&rt, 10 * (m / 10), 100 * (m % 10), 0);
        assert!(rt; tree.search(&place, &mut ids, &mut visits).is_ok());
    }
    assert_eq!(rt; ids.len(), 1000);
    let count = visits.ledger().count();
    assert!(rt; LEAST_VISITS <= count && count <= 300_000);
    let _ = rt.println(count);
    ids.clear();
    assert!(rt; ids.is_empty());
    let mut visits = Steps::new(Visits::new());
    for m in 0..1000u32 {
        let place = square(&rt, 10 * (m / 10), 100 * (m % 10), 0).min();
        if let Ok(mut walk) = NearWalk::of(&tree, place) {
            assert_eq!(rt; walk.next(&mut ids, &mut visits).ok(), Some(Some(0)));
        }
    }
    assert_eq!(rt; ids.len(), 1000);
    let count = visits.ledger().count();
    assert!(rt; LEAST_VISITS <= count && count <= 300_000);
    let _ = rt.println(count);
}

// Among more than 4,096 pairs, where 5,904 of 10,000 insertions and as many removals are made, each visits a
// node of each of four levels.
const LEAST_VISITS_OF_CHANGES: u64 = 4 * 5_904;

#[test]
fn changes_visit_each_level(rt: HostRuntime) {
    let mut visits = Steps::new(Visits::new());
    let mut tree = grid(&rt, rt.alloc(), &mut visits);
    let count = visits.ledger().count();
    assert!(rt; LEAST_VISITS_OF_CHANGES <= count && count <= 500_000);
    let _ = rt.println(count);
    let mut visits = Steps::new(Visits::new());
    for i in 0..100u32 {
        for j in 0..100u32 {
            let place = square(&rt, 10 * i, 10 * j, 0);
            assert!(rt; tree.remove(place, (100 * i + j) as usize, &mut visits));
        }
    }
    let count = visits.ledger().count();
    assert!(rt; LEAST_VISITS_OF_CHANGES <= count && count <= 500_000);
    let _ = rt.println(count);
}

#[test]
fn goes_on_counting(rt: HostRuntime) {
    let mut before = Visits::new();
    before.visit();
    let mut steps = Steps::new(before);
    let tree = Tree::new(rt.alloc());
    let mut ids = Ids::new(rt.alloc());
    let nowhere = square(&rt, 0, 0, 0);
    assert!(rt; tree.search(&nowhere, &mut ids, &mut steps).is_ok());
    assert_eq!(rt; steps.ledger().count(), 1);
    assert_eq!(rt; steps.ledger().visits(), Some(1));
    assert_eq!(rt; NoLedger.visits(), None);
}
