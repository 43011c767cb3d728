//! A list beside a plain one.

ghost use Rattle.std.specs.Prelude.{◌≤◌};

use run_list::*;
use std::test::Fail;

// A test that the numbers below one pass.
#[derive(Drop)]
struct Below(usize);

impl Before for Below {
    ghost use Rattle.std.specs.Prelude.{nat_lt};

    ghost before = { λ b x. nat_lt x b.0 };

    fn is_before(&self, number: usize) -> bool {
        number < self.0
    }
}

// The next of a row of numbers that look like any.
fn next(seed: &mut u64) -> usize {
    let mut x = *seed;
    x ^= x << 13;
    x ^= x >> 7;
    x ^= x << 17;
    *seed = x;
    (x >> 11) as usize
}

// Puts a number at the same place of both.
fn put(list: &mut RunList, plain: &mut Vec<usize>, i: usize, x: usize) -> Result<(), Fail> {
    list.reserve(1)?;
    if i <= list.len() && i <= plain.len() {
        list.insert(i, x);
        plain.insert(i, x)?;
    }
    Ok(())
}

// Puts the numbers below one in front of all, from the least on.
fn put_in_front(list: &mut RunList, count: usize)
    requires { count ≤ list.old.spare }
{
    for x in 0..count {
        list.insert(0, x);
    }
}

// Takes the numbers at the same place out of both: whether they are the same.
fn take(list: &mut RunList, plain: &mut Vec<usize>, i: usize) -> bool {
    i < list.len() && i < plain.len() && list.remove(i) == plain.remove(i)
}

// Whether both hold the same, read one by one and run by run.
fn same(list: &RunList, plain: &[usize]) -> bool {
    if list.len() != plain.len() {
        return false;
    }
    for (i, x) in plain.iter().enumerate() {
        if i >= list.len() || list.at(i) != *x {
            return false;
        }
        let run = list.run_at(i);
        if run.len() == 0 || run[0] != *x {
            return false;
        }
    }
    true
}

#[test]
fn a_list_is_as_a_plain_one(rt: HostRuntime) -> Result<(), Fail> {
    let mut list = RunList::new(rt.alloc());
    let mut plain: Vec<usize> = Vec::new(rt.alloc());
    let mut seed: u64 = 88_172_645_463_325_252;
    for x in 0..3000 {
        let i = next(&mut seed) % (list.len() + 1);
        put(&mut list, &mut plain, i, x)?;
    }
    assert_eq!(rt; list.len(), 3000);
    assert!(rt; same(&list, plain.as_slice()));
    for x in 0..4000 {
        let i = next(&mut seed) % (list.len() + 1);
        if x % 3 == 0 {
            put(&mut list, &mut plain, i, x)?;
        } else if i < list.len() {
            assert!(rt; take(&mut list, &mut plain, i));
        }
    }
    assert!(rt; same(&list, plain.as_slice()));
    for _ in 0..3000 {
        let i = next(&mut seed) % (list.len() + 1);
        if i < list.len() {
            assert!(rt; take(&mut list, &mut plain, i));
        }
    }
    assert!(rt; same(&list, plain.as_slice()));
    Ok(())
}

#[test]
fn places_are_found(rt: HostRuntime) -> Result<(), Fail> {
    let mut list = RunList::new(rt.alloc());
    list.reserve(1)?;
    list.insert(0, 10);
    list.reserve(1)?;
    list.insert(1, 20);
    assert_eq!(rt; list.place_of(&Below(5)), 0);
    assert_eq!(rt; list.place_of(&Below(20)), 1);
    assert_eq!(rt; list.place_of(&Below(21)), 2);
    Ok(())
}

#[test]
fn a_stretch_is_taken_out(rt: HostRuntime) -> Result<(), Fail> {
    let mut list = RunList::new(rt.alloc());
    let mut plain: Vec<usize> = Vec::new(rt.alloc());
    for x in 0..2000 {
        let i = list.len();
        put(&mut list, &mut plain, i, x)?;
    }
    assert_eq!(rt; list.len(), 2000);
    list.remove_between(100, 1900);
    assert_eq!(rt; list.len(), 200);
    assert_eq!(rt; list.at(99), 99);
    assert_eq!(rt; list.at(100), 1900);
    list.remove_between(0, 200);
    assert_eq!(rt; list.len(), 0);
    Ok(())
}

#[test]
fn room_that_was_taken_is_enough(rt: HostRuntime) -> Result<(), Fail> {
    let mut list = RunList::new(rt.alloc());
    list.reserve(4000)?;
    put_in_front(&mut list, 4000);
    assert_eq!(rt; list.len(), 4000);
    for i in 0..list.len() {
        assert_eq!(rt; list.at(i), 3999 - i);
    }
    Ok(())
}

// Whether the numbers of a list from a place on are those of a plain one.
fn same_from(list: &RunList, plain: &[usize], i: usize) -> bool {
    if i > list.len() || i > plain.len() {
        return false;
    }
    let mut rest = list.numbers_from(i);
    for x in &plain[i..] {
        if rest.next() != Some(*x) {
            return false;
        }
    }
    rest.next().is_none()
}

#[test]
fn numbers_that_fail_are_taken_out(rt: HostRuntime) -> Result<(), Fail> {
    let mut list = RunList::new(rt.alloc());
    let mut plain: Vec<usize> = Vec::new(rt.alloc());
    let mut seed: u64 = 88_172_645_463_325_252;
    for x in 0..2500 {
        let i = next(&mut seed) % (list.len() + 1);
        put(&mut list, &mut plain, i, x)?;
    }
    assert!(rt; same_from(&list, plain.as_slice(), 0));
    assert!(rt; same_from(&list, plain.as_slice(), 1200));
    assert!(rt; same_from(&list, plain.as_slice(), 2500));
    list.retain(&Below(40));
    plain.retain(|x| *x < 40);
    assert_eq!(rt; list.len(), 40);
    assert!(rt; same(&list, plain.as_slice()));
    assert!(rt; same_from(&list, plain.as_slice(), 0));
    Ok(())
}
