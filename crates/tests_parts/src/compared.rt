//! Keys of few hashes which note with what they are compared: a look-up asks each key of its hash once at most, and no other.
ghost use Rattle.std.proofs.Common.{◌%◌, rules};
ghost use Rattle.std.specs.Cmp.Rules.{comparing, hashing};
ghost use Rattle.std.specs.Hash as fed;
ghost use Rattle.std.specs.Ordering.{on};
ghost use Rattle.std.specs.Prelude.{nat_eq};

use crate::given::same;
use starlark_map::ordered_set::OrderedSet;
use starlark_map::small_map::SmallMap;
use starlark_map::small_set::SmallSet;
use starlark_map::unordered_map::UnorderedMap;
use std::alloc::Global;
use std::cell::Cell;
use std::hash::{Hash, Hasher};

// Which keys of its hash a key was compared with since it was wiped, and how often amiss: with one of them a second time,
// or with one of another hash.
#[derive(Drop)]
struct Notes {
    seen: Cell<u32>,
    amiss: Cell<u32>,
}

impl Notes {
    // Notes a comparison of two numbers below 128.
    fn note(&self, sought: u32, found: u32) {
        let bit = 1u32 << (found / 4 % 32);
        if sought % 4 != found % 4 || self.seen.get() & bit != 0 {
            self.amiss.set(self.amiss.get().wrapping_add(1));
        }
        self.seen.set(self.seen.get() | bit);
    }
}

// A number that feeds its remainder by 4 alone.
#[derive(Drop)]
struct Noted<'a> {
    number: u32,
    notes: &'a Notes,
}

impl<'a> PartialEq for Noted<'a> {
    ghost eq = { on (λ k. k.number) nat_eq };

    ghost laws = { Prim.search (comparing, rules) };

    fn eq(&self, other: &Noted<'a>) -> bool {
        self.notes.note(self.number, other.number);
        self.number == other.number
    }
}

impl<'a> Eq for Noted<'a> {
    ghost laws = { Prim.search (comparing, rules) };
}

impl<'a> Hash for Noted<'a> {
    ghost hash_input = { λ k. fed.u32 (k.number % 4) };

    ghost respects_eq = { Prim.search (hashing, rules) };

    fn hash<H: Hasher>(&self, state: &mut H) {
        (self.number % 4).hash(state);
    }
}

// The key of a number, after the notes were wiped.
fn key(notes: &Notes, number: u32) -> Noted<'_> {
    notes.seen.set(0);
    Noted { number, notes }
}

// Puts so many keys in, finds each, puts it again and takes it out: how many of these went as they should.
fn small(alloc: Global, notes: &Notes, count: u32) -> u32 {
    let mut map: SmallMap<Noted<'_>, u32> = SmallMap::new(alloc);
    let mut right = 0u32;
    for number in 0..count {
        let put = matches!(map.insert(key(notes, number), number), Ok(None));
        right = right.wrapping_add(u32::from(put));
    }
    for number in (0..count).rev() {
        let found = map.get(&key(notes, number)) == Some(&number);
        let again = matches!(map.insert(key(notes, number), number), Ok(Some(_)));
        let taken = map.shift_remove(&key(notes, number)) == Some(number);
        right = right.wrapping_add(u32::from(found && again && taken));
    }
    right
}

// The same of a map without order, where each key is put in once more at last.
fn unordered(alloc: Global, notes: &Notes, count: u32) -> u32 {
    let mut map: UnorderedMap<Noted<'_>, u32> = UnorderedMap::new(alloc);
    let mut right = 0u32;
    for number in 0..count {
        let put = matches!(map.insert(key(notes, number), number), Ok(None));
        right = right.wrapping_add(u32::from(put));
    }
    for number in 0..count {
        let found = map.get(&key(notes, number)) == Some(&number);
        let taken = map.remove(&key(notes, number)) == Some(number);
        let put = matches!(map.insert(key(notes, number), number), Ok(None));
        right = right.wrapping_add(u32::from(found && taken && put));
    }
    right
}

// Puts each element in twice, by a call of each kind, and takes it out: how many of these went as they should.
fn set(alloc: Global, notes: &Notes, count: u32) -> u32 {
    let mut set: SmallSet<Noted<'_>> = SmallSet::new(alloc);
    let mut right = 0u32;
    for number in 0..count {
        let put = set.get_or_insert(key(notes, number)).is_ok();
        let again = set.get_or_insert(key(notes, number)).is_ok();
        let there = matches!(set.insert(key(notes, number)), Ok(false));
        right = right.wrapping_add(u32::from(put && again && there));
    }
    for number in (0..count).rev() {
        let found = set.contains(&key(notes, number));
        let taken = set.shift_remove(&key(notes, number));
        right = right.wrapping_add(u32::from(found && taken));
    }
    right
}

// Tries each element, a new one and one that is there.
fn ordered(alloc: Global, notes: &Notes, count: u32) -> u32 {
    let mut set: OrderedSet<Noted<'_>> = OrderedSet::new(alloc);
    let mut right = 0u32;
    for number in 0..count {
        let put = set.try_insert(key(notes, number)).is_ok();
        let again = set.try_insert(key(notes, number)).is_err();
        right = right.wrapping_add(u32::from(put && again));
    }
    right
}

// Goes to the entry of each key twice, where it is lacking and where it is there: how many keys there are then.
fn entered(alloc: Global, notes: &Notes, count: u32) -> usize {
    let mut map: SmallMap<Noted<'_>, u32> = SmallMap::new(alloc);
    for number in 0..count {
        let _ = map.entry(key(notes, number)).or_insert(number);
        let _ = map.entry(key(notes, number)).or_insert(number);
    }
    map.len()
}

// Case: a look-up compares a query with each key of its hash at most once
#[test]
fn compares_keys_of_entries_once(rt: HostRuntime) {
    let notes = Notes {
        seen: Cell::new(0),
        amiss: Cell::new(0),
    };
    same(&rt, entered(rt.alloc(), &notes, 10), 10);
    same(&rt, entered(rt.alloc(), &notes, 100), 100);
    same(&rt, notes.amiss.get(), 0);
}

// Case: a look-up compares a query with each key of its hash at most once
#[test]
fn compares_elements_of_sets_once(rt: HostRuntime) {
    let notes = Notes {
        seen: Cell::new(0),
        amiss: Cell::new(0),
    };
    for count in [10, 100] {
        same(&rt, set(rt.alloc(), &notes, count), count.wrapping_mul(2));
        same(&rt, ordered(rt.alloc(), &notes, count), count);
    }
    same(&rt, notes.amiss.get(), 0);
}

// Short lists have no index, long ones have one.
// Case: a look-up compares a query with each key of its hash at most once
#[test]
fn compares_keys_of_one_hash_once(rt: HostRuntime) {
    let notes = Notes {
        seen: Cell::new(0),
        amiss: Cell::new(0),
    };
    same(&rt, small(rt.alloc(), &notes, 10), 20);
    same(&rt, small(rt.alloc(), &notes, 100), 200);
    same(&rt, unordered(rt.alloc(), &notes, 100), 200);
    same(&rt, notes.amiss.get(), 0);
}
