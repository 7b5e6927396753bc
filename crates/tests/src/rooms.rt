//! With how much room a collection begins that is made of an iterator's items, and how large an index is.

use crate::given::{same, under};
use starlark_map::ordered_map::OrderedMap;
use starlark_map::ordered_set::OrderedSet;
use starlark_map::small_map::SmallMap;
use starlark_map::small_set::SmallSet;
use starlark_map::sorted_map::SortedMap;
use starlark_map::sorted_set::SortedSet;
use starlark_map::unordered_map::UnorderedMap;
use starlark_map::unordered_set::UnorderedSet;
use starlark_map::vec2::Vec2;
use std::alloc::{AllocError, Global};
use std::process::Abort;
use std::test::Fail;

// The capacities of a map and a set of so many items, and of a map and a set of items that stand under hashes.
fn capacities(alloc: Global, n: u32) -> [Option<usize>; 4] {
    [
        map_capacity(SmallMap::from_iter(alloc, (0..n).map(|i| (i, i)))),
        set_capacity(SmallSet::from_iter(alloc, 0..n)),
        map_capacity(SmallMap::from_iter_hashed(alloc, (0..n).map(|i| (under(i, i), i)))),
        set_capacity(SmallSet::from_iter_hashed(alloc, (0..n).map(|i| under(i, i)))),
    ]
}

fn map_capacity<E: Drop>(made: Result<SmallMap<u32, u32>, E>) -> Option<usize> {
    made.ok().map(|map| map.capacity())
}

fn set_capacity<E: Drop>(made: Result<SmallSet<u32>, E>) -> Option<usize> {
    made.ok().map(|set| set.capacity())
}

// The capacities of a list of pairs that is new, and after one push and after five.
fn growing(alloc: Global) -> Result<[usize; 3], Fail> {
    let mut list = Vec2::new(alloc);
    let none = list.capacity();
    list.push(0u32, 0u32)?;
    let one = list.capacity();
    for item in 1..5u32 {
        list.push(item, item)?;
    }
    Ok([none, one, list.capacity()])
}

// Case: a list of pairs grows to four, and then to twice its capacity
#[test]
fn grows_lists_of_pairs(rt: HostRuntime) -> Result<(), Fail> {
    same(&rt, growing(rt.alloc())?, [0, 4, 8]);
    Ok(())
}

// The capacity and the room of a map of this many entries that lost the last one and dropped its index.
fn slimmed(alloc: Global, count: u32) -> Result<(usize, usize, usize), Fail> {
    let mut map = SmallMap::new(alloc);
    for key in 0..count {
        map.insert(key, key)?;
    }
    let _ = map.pop();
    map.maybe_drop_index();
    Ok((map.len(), map.capacity(), map.room()))
}

// Case: no room is left once the index was dropped at the threshold
#[test]
fn has_no_room_without_its_index(rt: HostRuntime) -> Result<(), Fail> {
    same(&rt, slimmed(rt.alloc(), 17)?, (16, 32, 0));
    Ok(())
}

// Case: `clear` leaves the capacity of a map
#[test]
fn keeps_its_capacity_when_cleared(rt: HostRuntime) -> Result<(), Fail> {
    let mut map: SmallMap<u32, u32> = SmallMap::with_capacity(rt.alloc(), 40)?;
    for key in 0..3u32 {
        map.insert(key, key)?;
    }
    map.clear();
    same(&rt, (map.len(), map.capacity()), (0, 40));
    Ok(())
}

// Growing step by step would leave room for 8 and for 64.
// Case: `from_iter` begins with room for what its iterator promises
#[test]
fn begins_with_room_for_the_items(rt: HostRuntime) {
    for n in [5, 40] {
        same(&rt, capacities(rt.alloc(), n), [Some(n as usize); 4]);
    }
}

// How many pairs a map has room for that was made of one pair so many times over, and one that was made for so many.
fn unordered_rooms(alloc: Global, n: u32) -> Result<(usize, usize), Fail> {
    let made = UnorderedMap::from_iter(alloc, (0..n).map(|_| (1u64, 2u64)))?;
    let reserved: UnorderedMap<u64, u64> = UnorderedMap::with_capacity(alloc, n as usize)?;
    Ok((made.len().wrapping_add(made.room()), reserved.room()))
}

// Growing step by step would leave less.
// Case: `from_iter` begins with room for what its iterator promises
#[test]
fn begins_unordered_with_room_for_the_items(rt: HostRuntime) -> Result<(), Fail> {
    for n in [5, 40] {
        let (made, reserved) = unordered_rooms(rt.alloc(), n)?;
        same(&rt, made, reserved);
    }
    Ok(())
}

// How many pairs the map of the standard library has room for that takes the pairs of an unordered map of so many.
fn hash_map_capacity(alloc: Global, n: u32) -> Result<usize, Fail> {
    let map = UnorderedMap::from_iter(alloc, (0..n).map(|i| (i, i)))?;
    Ok(map.into_hash_map()?.capacity())
}

// Case: a map of the standard library is made no larger than its pairs need
#[test]
fn makes_no_larger_hash_map_than_it_needs(rt: HostRuntime) -> Result<(), Fail> {
    let capacity = hash_map_capacity(rt.alloc(), 100)?;
    same(&rt, capacity, capacity.clamp(100, 224));
    Ok(())
}

// The iterators promise more items than can be addressed. All items are one and the same: begun with less room, a type
// would go through all of them.
// Case: `from_iter` begins with room for what its iterator promises
#[test]
fn is_refused_the_room_for_what_is_promised(rt: HostRuntime) {
    let alloc = rt.alloc();
    let pairs = || (0..u64::MAX).map(|_| (7u32, 70u32));
    let items = || (0..u64::MAX).map(|_| 7u32);
    same(&rt, OrderedMap::from_iter(alloc, pairs()).is_err(), true);
    same(&rt, SortedMap::from_iter(alloc, pairs()).is_err(), true);
    same(&rt, UnorderedMap::from_iter(alloc, pairs()).is_err(), true);
    same(&rt, OrderedSet::from_iter(alloc, items()).is_err(), true);
    same(&rt, SortedSet::from_iter(alloc, items()).is_err(), true);
    same(&rt, UnorderedSet::from_iter(alloc, items()).is_err(), true);
}

// Ends the process where the index of a map has not slots for 100 entries at least, and for twice as many at most, as a
// table makes room for.
fn serves_100(rt: &impl Abort, map: &SmallMap<u32, u32>) {
    if let Some(table) = map.index() {
        let slots = table.len().wrapping_add(table.room());
        same(rt, slots, slots.clamp(100, 200));
    }
    same(rt, map.index().is_some(), true);
}

fn reserved(alloc: Global) -> Result<SmallMap<u32, u32>, AllocError> {
    let mut map = SmallMap::new(alloc);
    map.reserve(100)?;
    Ok(map)
}

fn grown(alloc: Global) -> Result<SmallMap<u32, u32>, Fail> {
    let mut map = SmallMap::new(alloc);
    for key in 0..100u32 {
        map.insert(key, key)?;
    }
    Ok(map)
}

// Case: an index is no larger than it needs to be
#[test]
fn makes_no_larger_index_than_it_needs(rt: HostRuntime) -> Result<(), Fail> {
    serves_100(&rt, &SmallMap::with_capacity(rt.alloc(), 100)?);
    serves_100(&rt, &reserved(rt.alloc())?);
    serves_100(&rt, &grown(rt.alloc())?);
    Ok(())
}
