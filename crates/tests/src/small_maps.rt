//! How often a closure is asked that a search by hash is given, and the index of a map, as a table.

use crate::given::{same, under};
use starlark_map::StarlarkHashValue;
use starlark_map::small_map::SmallMap;
use std::alloc::Global;
use std::test::Fail;

type Numbers = SmallMap<u32, u32>;

// The key 2 under 9, and the key 1 under 3 and under 8. The keys from 100 up to a number follow, under their own hashes.
fn rows(alloc: Global, more: u32) -> Result<Numbers, Fail> {
    let mut map = SmallMap::new(alloc);
    for (hash, key, value) in [(9, 2, 20), (3, 1, 10), (8, 1, 30)] {
        map.insert_hashed(under(hash, key), value)?;
    }
    for key in 100..more {
        map.insert(key, key)?;
    }
    Ok(map)
}

// Without an index, and with one.
const MORE: [u32; 2] = [101, 140];

// How often a closure is asked that refuses the keys under a hash, and the place of the key 1 under it.
fn search(map: &Numbers, hash: u32) -> (u32, Option<usize>) {
    let hash = StarlarkHashValue::new_unchecked(hash);
    let mut calls = 0u32;
    let _ = map.find_by_hash(hash, |_| {
        calls = calls.wrapping_add(1);
        false
    });
    (calls, map.find_by_hash(hash, |key| *key == 1))
}

// Case: a search by hash asks its closure about the keys of that hash alone
#[test]
fn asks_about_the_keys_of_a_hash(rt: HostRuntime) -> Result<(), Fail> {
    for more in MORE {
        let mut map = rows(rt.alloc(), more)?;
        map.insert_hashed(under(8, 5), 50)?;
        same(&rt, search(&map, 8), (2, Some(2)));
        same(&rt, search(&map, 9), (1, None));
        same(&rt, search(&map, 7), (0, None));
    }
    Ok(())
}

// How many entries the index finds, each by its index in the list under its key's hash.
fn found_by_index(map: &Numbers) -> u32 {
    let Some(table) = map.index() else {
        return 0;
    };
    let mut found = 0u32;
    let mut index = 0u32;
    for (key, _) in map.iter_hashed() {
        if table.find(key.hash(), |at| *at == index).is_some() {
            found = found.wrapping_add(1);
        }
        index = index.wrapping_add(1);
    }
    found
}

#[test]
fn has_each_entry_in_its_index(rt: HostRuntime) -> Result<(), Fail> {
    let mut map = rows(rt.alloc(), 140)?;
    same(&rt, found_by_index(&map), 43);
    let _ = map.shift_remove_index(0);
    map.reverse();
    same(&rt, found_by_index(&map), 42);
    map.sort_keys()?;
    same(&rt, found_by_index(&map), 42);
    Ok(())
}

// Rust's test: small_map::test_clone
#[test]
fn copies_walks(rt: HostRuntime) -> Result<(), Fail> {
    let map = SmallMap::from_iter(rt.alloc(), [(1u32, 10u32), (3, 30)])?;
    let (keys, values, entries) = (map.keys(), map.values(), map.iter());
    let (more, other) = (keys.clone()?, values.clone()?);
    same(&rt, entries.clone()?.last(), entries.last());
    same(&rt, (keys.count(), keys_sum(more)), (2, 4));
    same(&rt, (values.count(), keys_sum(other)), (2, 40));
    Ok(())
}

fn keys_sum<'a, I: ExactSizeIterator<Item = &'a u32>>(walk: I) -> u32
    requires { I.can_next walk }
{
    let _ = walk.len();
    let mut sum = 0u32;
    for item in walk {
        sum = sum.wrapping_add(*item);
    }
    sum
}
