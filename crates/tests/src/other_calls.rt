//! Calls on other collections that the player has no command for.

use crate::given::same;
use starlark_map::ordered_set::OrderedSet;
use starlark_map::small_set::SmallSet;
use starlark_map::sorted_set::SortedSet;
use starlark_map::unordered_map::{Entry, UnorderedMap};
use std::test::Fail;

#[test]
fn takes_a_set_that_ascends(rt: HostRuntime) {
    let set: SortedSet<u32> = SortedSet::new_unchecked(OrderedSet::new(rt.alloc()));
    same(&rt, set.len(), 0);
}

// The key of a vacant entry, where it is vacant.
fn vacant_key(map: &mut UnorderedMap<u64, u64>, key: u64) -> Option<u64> {
    match map.entry(key) {
        Entry::Vacant(entry) => Some(entry.into_key()),
        Entry::Occupied(_entry) => None,
    }
}

#[test]
fn gives_the_key_back(rt: HostRuntime) -> Result<(), Fail> {
    let mut map = UnorderedMap::from_iter(rt.alloc(), [(1, 2)])?;
    same(&rt, vacant_key(&mut map, 7), Some(7));
    same(&rt, vacant_key(&mut map, 1), None);
    same(&rt, map.len(), 1);
    Ok(())
}

#[test]
fn finds_owned_texts_by_lent_ones(rt: HostRuntime) -> Result<(), Fail> {
    let mut words: SmallSet<String> = SmallSet::new(rt.alloc());
    same(&rt, words.get_or_insert_owned("a")?.as_str(), "a");
    same(&rt, words.get_or_insert_owned("a")?.as_str(), "a");
    same(&rt, words.len(), 1);
    same(&rt, words.contains("a"), true);
    Ok(())
}
