//! Parts that count their clones and drops: each is cloned once, and dropped once whatever becomes of its collection; what was
//! cloned before a refusal is dropped.

use crate::given::{same, under};
use starlark_map::small_set::SmallSet;
use starlark_map::vec2::Vec2;
use starlark_map::{ReadyTable, ToOwnedKey};
use starlark_vecmap::VecMap;
use std::alloc::{AllocError, Global};
use std::cell::Cell;
use std::test::Fail;

// How many clones were made and parts dropped, and how many clones are made before the next is refused.
#[derive(Drop)]
struct Counts {
    cloned: Cell<usize>,
    dropped: Cell<usize>,
    left: Cell<usize>,
}

#[derive_where(PartialEq, Eq)]
struct Part<'a> {
    #[derive_where(skip(EqHashOrd))]
    counts: &'a Counts,
}

impl<'a> Drop for Part<'a> {
    fn drop(self) {
        let Part { counts } = self;
        counts.dropped.set(counts.dropped.get().wrapping_add(1));
    }
}

impl<'a> Clone for Part<'a> {
    fn clone(&self) -> Result<Part<'a>, AllocError> {
        let counts = self.counts;
        if counts.left.get() == 0 {
            return Err(AllocError);
        }
        counts.left.set(counts.left.get().wrapping_sub(1));
        counts.cloned.set(counts.cloned.get().wrapping_add(1));
        Ok(Part { counts })
    }
}

impl<'a> ToOwnedKey<Part<'a>> for Part<'a> {
    fn to_owned_key(&self, _alloc: Global) -> Result<Part<'a>, AllocError> {
        self.clone()
    }
}

fn allowing(clones: usize) -> Counts {
    Counts {
        cloned: Cell::new(0),
        dropped: Cell::new(0),
        left: Cell::new(clones),
    }
}

// How many clones were made and how many parts dropped.
fn counted(counts: &Counts) -> (usize, usize) {
    (counts.cloned.get(), counts.dropped.get())
}

type Pairs<'a> = Vec2<Part<'a>, Part<'a>>;

// So many pairs.
fn pairs(alloc: Global, counts: &Counts, count: u32) -> Result<Pairs<'_>, AllocError> {
    let mut list = Vec2::new(alloc);
    for _ in 0..count {
        list.push(Part { counts }, Part { counts })?;
    }
    Ok(list)
}

type Entries<'a> = VecMap<Part<'a>, Part<'a>>;

// So many entries of one hash.
fn entries(alloc: Global, counts: &Counts, count: u32) -> Result<Entries<'_>, AllocError> {
    let mut map = VecMap::new(alloc);
    for _ in 0..count {
        map.insert_hashed_unique_unchecked(under(7, Part { counts }), Part { counts })?;
    }
    Ok(map)
}

// So many items of one hash.
fn items(alloc: Global, counts: &Counts, count: u32) -> Result<ReadyTable<Part<'_>>, AllocError> {
    let mut table = ReadyTable::new(alloc);
    for _ in 0..count {
        table.insert_unique(7, Part { counts })?;
    }
    Ok(table)
}

// Whether there was a clone. It is dropped, and what it was cloned of.
fn clones<C: Clone + Drop>(whole: C) -> bool {
    whole.clone().is_ok()
}

fn clones_pairs(list: Pairs<'_>) -> bool {
    list.clone().is_ok()
}

fn clones_entries(map: Entries<'_>) -> bool {
    map.clone().is_ok()
}

// A key under its hash, of a key that is referred to, and of a query.
fn clones_key(alloc: Global, counts: &Counts) -> bool {
    let key = under(7, Part { counts });
    let cloned = key.clone().is_ok() && key.as_ref().cloned().is_ok();
    cloned && key.as_ref().owned::<Part<'_>>(alloc).is_ok()
}

// Case: each item is cloned once
#[test]
fn clones_each_part_once(rt: HostRuntime) -> Result<(), Fail> {
    let counts = allowing(100);
    same(&rt, clones_pairs(pairs(rt.alloc(), &counts, 3)?), true);
    same(&rt, counted(&counts), (6, 12));
    same(&rt, clones_entries(entries(rt.alloc(), &counts, 3)?), true);
    same(&rt, counted(&counts), (12, 24));
    same(&rt, clones(items(rt.alloc(), &counts, 3)?), true);
    same(&rt, counted(&counts), (15, 30));
    same(&rt, clones_key(rt.alloc(), &counts), true);
    same(&rt, counted(&counts), (18, 34));
    Ok(())
}

// Each clone of six, or of three, is the one that is refused.
// Case: a refused clone drops what it made
#[test]
fn drops_what_was_cloned_before_a_refusal(rt: HostRuntime) -> Result<(), Fail> {
    for left in 0..6usize {
        let counts = allowing(left);
        same(&rt, clones_pairs(pairs(rt.alloc(), &counts, 3)?), false);
        same(&rt, counted(&counts), (left, left.wrapping_add(6)));
        let counts = allowing(left);
        same(&rt, clones_entries(entries(rt.alloc(), &counts, 3)?), false);
        same(&rt, counted(&counts), (left, left.wrapping_add(6)));
        let counts = allowing(left / 2);
        same(&rt, clones(items(rt.alloc(), &counts, 3)?), false);
        same(
            &rt,
            counted(&counts),
            (left / 2, (left / 2).wrapping_add(3)),
        );
    }
    Ok(())
}

// How many parts are dropped once a list of forty pairs was cut by each of these calls.
fn cuts(mut list: Pairs<'_>, counts: &Counts) -> [usize; 5] {
    list.truncate(30);
    let truncated = counts.dropped.get();
    let mut asked = 0u32;
    list.retain(|_, _| {
        asked = asked.wrapping_add(1);
        asked % 2 == 0
    });
    let retained = counts.dropped.get();
    if 1 < list.len() {
        drop(list.remove(1));
    }
    let removed = counts.dropped.get();
    drop(list.pop());
    let popped = counts.dropped.get();
    list.clear();
    [truncated, retained, removed, popped, counts.dropped.get()]
}

// Case: each item is dropped once
#[test]
fn drops_each_pair_once(rt: HostRuntime) -> Result<(), Fail> {
    let counts = allowing(0);
    let found = cuts(pairs(rt.alloc(), &counts, 40)?, &counts);
    same(&rt, found, [20, 50, 52, 54, 80]);
    Ok(())
}

// How many items a walk has left after one of each end, where it is let go.
fn leaves<I: ExactSizeIterator + DoubleEndedIterator>(mut walk: I) -> usize
where
    I::Item: Drop,
    requires front { (state : I) → I.can_next state }
    requires back { (state : I) → I.can_next_back state }
{
    drop(walk.next());
    drop(walk.next_back());
    walk.len()
}

// Case: a walk that is let go drops what it leaves
#[test]
fn drops_what_a_walk_leaves(rt: HostRuntime) -> Result<(), Fail> {
    let counts = allowing(0);
    let alloc = rt.alloc();
    same(&rt, leaves(pairs(alloc, &counts, 5)?.into_iter()), 3);
    same(&rt, counted(&counts), (0, 10));
    same(&rt, leaves(entries(alloc, &counts, 5)?.into_iter()), 3);
    same(
        &rt,
        leaves(entries(alloc, &counts, 5)?.into_iter_hashed()),
        3,
    );
    same(&rt, leaves(entries(alloc, &counts, 5)?.into_keys()), 3);
    same(&rt, leaves(entries(alloc, &counts, 5)?.into_values()), 3);
    same(&rt, counted(&counts), (0, 50));
    Ok(())
}

// What is left of three items once one was taken out, and of a walk over all that was let go at the first.
fn leaves_items(mut table: ReadyTable<Part<'_>>) -> (usize, usize) {
    if let Some(slot) = table.find(7, |_| true) {
        drop(table.remove(slot));
    }
    let left = table.len();
    let mut walk = table.into_iter();
    drop(walk.next());
    (left, walk.len())
}

// Case: each item is dropped once
#[test]
fn drops_each_item_of_a_table_once(rt: HostRuntime) -> Result<(), Fail> {
    let counts = allowing(0);
    same(&rt, leaves_items(items(rt.alloc(), &counts, 3)?), (2, 1));
    same(&rt, counted(&counts), (0, 3));
    let mut table = items(rt.alloc(), &counts, 40)?;
    table.clear();
    same(&rt, counted(&counts), (0, 43));
    Ok(())
}

// How many parts are dropped once a table of forty items kept every second, and once it kept none.
fn retains(mut table: ReadyTable<Part<'_>>, counts: &Counts) -> [usize; 2] {
    let mut asked = 0u32;
    table.retain(|_| {
        asked = asked.wrapping_add(1);
        asked % 2 == 0
    });
    let half = counts.dropped.get();
    table.retain(|_| false);
    [half, counts.dropped.get()]
}

// Case: each item is dropped once
#[test]
fn drops_each_item_that_is_not_kept(rt: HostRuntime) -> Result<(), Fail> {
    let counts = allowing(0);
    let found = retains(items(rt.alloc(), &counts, 40)?, &counts);
    same(&rt, found, [20, 40]);
    same(&rt, counted(&counts), (0, 40));
    Ok(())
}

type Set<'a> = SmallSet<Part<'a>>;

// A set of this many elements under different hashes. All elements are equal.
fn elements(alloc: Global, counts: &Counts, count: u32) -> Result<Set<'_>, AllocError> {
    let mut set = SmallSet::new(alloc);
    for hash in 0..count {
        set.insert_hashed(under(hash, Part { counts }))?;
    }
    Ok(set)
}

// How many parts are dropped once an element under a hash was removed, and whether it was there. The query is dropped too.
fn removes<'a>(mut set: Set<'a>, counts: &'a Counts, hash: u32) -> (bool, usize) {
    let query = under(hash, Part { counts });
    let there = set.shift_remove_hashed(query.as_ref());
    (there, counts.dropped.get())
}

// Without an index and with one.
// Case: each item is dropped once
#[test]
fn drops_an_element_that_is_removed(rt: HostRuntime) -> Result<(), Fail> {
    for count in [3, 40] {
        let counts = allowing(0);
        let found = removes(elements(rt.alloc(), &counts, count)?, &counts, 1);
        same(&rt, found, (true, 1));
        same(&rt, counts.dropped.get(), (count as usize).wrapping_add(1));
    }
    Ok(())
}

// An item that appends its digit to a number when it is dropped.
struct Digit<'a> {
    digit: u64,
    number: &'a Cell<u64>,
}

impl<'a> Drop for Digit<'a> {
    fn drop(self) {
        let Digit { digit, number } = self;
        number.set(number.get().wrapping_mul(10).wrapping_add(digit));
    }
}

// Cuts the pairs of 1 and 4, 2 and 5, and 3 and 6 to the first, and then to none.
fn cuts_digits(alloc: Global, number: &Cell<u64>) -> Result<(), AllocError> {
    let mut list = Vec2::with_capacity(alloc, 3)?;
    for digit in 1..4u64 {
        let second = digit.wrapping_add(3);
        drop(list.push(
            Digit { digit, number },
            Digit {
                digit: second,
                number,
            },
        ));
    }
    list.truncate(1);
    list.clear();
    Ok(())
}

#[test]
fn first_parts_are_dropped_before_second_parts(rt: HostRuntime) {
    let number = Cell::new(0);
    same(&rt, cuts_digits(rt.alloc(), &number), Ok(()));
    same(&rt, number.get(), 326514);
}
