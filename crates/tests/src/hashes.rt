//! How often a key is hashed.
ghost use Rattle.std.proofs.Common.{[], refl};

use crate::given::same;
use starlark_map::StarlarkHasher;
use starlark_map::ordered_map::OrderedMap;
use starlark_map::ordered_set::OrderedSet;
use starlark_map::small_map::SmallMap;
use starlark_map::small_set::SmallSet;
use starlark_map::unordered_map::UnorderedMap;
use starlark_map::unordered_set::UnorderedSet;
use std::alloc::{AllocError, Global};
use std::cell::Cell;
use std::hash::{Hash, Hasher};
use std::test::Fail;

// A key that counts how often it is hashed.
#[derive(Drop)]
#[derive_where(PartialEq, Eq)]
struct Counted<'a> {
    key: u32,
    #[derive_where(skip(EqHashOrd))]
    calls: &'a Cell<u32>,
}

impl<'a> Hash for Counted<'a> {
    ghost hash_input = { λ _. [] };

    ghost respects_eq = { λ x y same. refl };

    fn hash<H: Hasher>(&self, _state: &mut H) {
        self.calls.set(self.calls.get().wrapping_add(1));
    }
}

fn counting(key: u32, calls: &Cell<u32>) -> Counted<'_> {
    Counted { key, calls }
}

// How often a key is hashed where it is put into an ordered map by `entry` and looked up, and into a set, an ordered set and an
// unordered map.
fn hashed_by(alloc: Global, calls: &Cell<u32>) -> [u32; 5] {
    let mut map: OrderedMap<Counted<'_>, u32> = OrderedMap::new(alloc);
    let _ = map.entry(counting(1, calls)).or_insert(10);
    let entered = calls.replace(0);
    let _ = map.get(&counting(1, calls));
    let found = calls.replace(0);
    let mut set: SmallSet<Counted<'_>> = SmallSet::new(alloc);
    let _ = set.get_or_insert(counting(1, calls)).is_ok();
    let inserted = calls.replace(0);
    let mut ordered: OrderedSet<Counted<'_>> = OrderedSet::new(alloc);
    let _ = ordered.try_insert(counting(1, calls)).is_ok();
    let tried = calls.replace(0);
    let mut unordered: UnorderedMap<Counted<'_>, u32> = UnorderedMap::new(alloc);
    let _ = unordered.insert(counting(1, calls), 10).is_ok();
    [entered, found, inserted, tried, calls.replace(0)]
}

// How often a key is hashed by `insert` of a set of each kind, and of an ordered map.
fn hashed_by_insert(alloc: Global, calls: &Cell<u32>) -> [u32; 4] {
    let mut set: SmallSet<Counted<'_>> = SmallSet::new(alloc);
    let _ = set.insert(counting(1, calls)).is_ok();
    let small = calls.replace(0);
    let mut ordered: OrderedSet<Counted<'_>> = OrderedSet::new(alloc);
    let _ = ordered.insert(counting(1, calls)).is_ok();
    let of_ordered = calls.replace(0);
    let mut unordered: UnorderedSet<Counted<'_>> = UnorderedSet::new(alloc);
    let _ = unordered.insert(counting(1, calls)).is_ok();
    let of_unordered = calls.replace(0);
    let mut map: OrderedMap<Counted<'_>, u32> = OrderedMap::new(alloc);
    let _ = map.insert(counting(1, calls), 10).is_ok();
    [small, of_ordered, of_unordered, calls.replace(0)]
}

// Case: a key is hashed once, when it is inserted
#[test]
fn hashes_a_key_once_by_each_call(rt: HostRuntime) {
    let calls = Cell::new(0u32);
    same(&rt, hashed_by(rt.alloc(), &calls), [1; 5]);
    same(&rt, hashed_by_insert(rt.alloc(), &calls), [1; 4]);
}

// Case: a key is hashed once, when it is inserted
// An insertion hashes its key once. What follows goes by the hash that stands with the key.
#[test]
fn hashes_a_key_once(rt: HostRuntime) -> Result<(), Fail> {
    let calls = Cell::new(0u32);
    let mut map: SmallMap<Counted, u32> = SmallMap::new(rt.alloc());
    let key = Counted {
        key: 1,
        calls: &calls,
    };
    same(&rt, map.insert(key, 10).is_ok(), true);
    same(&rt, calls.get(), 1);
    let mut hasher = StarlarkHasher::new();
    map.hash_ordered(&mut hasher);
    map.reverse();
    same(&rt, map.eq_ordered(&map), true);
    same(&rt, calls.get(), 1);
    Ok(())
}

// How often a key is hashed where an ordered map of it and an ordered set are hashed.
fn hashed_with(alloc: Global, calls: &Cell<u32>) -> Result<(u32, u32), AllocError> {
    let map = OrderedMap::from_iter(alloc, [(counting(1, calls), 10u32)])?;
    let set = OrderedSet::from_iter(alloc, [counting(1, calls)])?;
    let made = calls.replace(0);
    let mut hasher = StarlarkHasher::new();
    map.hash(&mut hasher);
    set.hash(&mut hasher);
    Ok((made, calls.get()))
}

// Rust's test: ordered_map::test_keys_are_not_hashed_when_map_is_hashed
// Rust's test: ordered_set::test_keys_are_not_hashed_when_map_is_hashed
#[test]
fn hashes_no_key_anew(rt: HostRuntime) {
    let calls = Cell::new(0u32);
    same(&rt, hashed_with(rt.alloc(), &calls), Ok((2, 0)));
}
