//! Calls of maps that no command of the player makes, and a closure that is not called where memory is refused.

use crate::given::{count_tens, gives, same, tens, under};
use starlark_map::NoRoom;
use starlark_map::ordered_set::{OrderedSet, TryInsertError};
use starlark_map::small_map::SmallMap;
use starlark_map::small_set::SmallSet;
use starlark_map::sorted_map::SortedMap;
use starlark_map::unordered_map::UnorderedMap;
use starlark_runs::collection;
use std::alloc::{AllocError, Global};

// How many of five entries stand in a map that is collected anew as they stood, and how many it has.
fn anew(alloc: Global) -> Result<(u32, usize), AllocError> {
    let map = tens(alloc, 5)?;
    Ok(count_tens(&collection::collected_anew(alloc, map)?))
}

#[test]
fn collects_anew(rt: HostRuntime) {
    gives(&rt, anew(rt.alloc()), anew(rt.alloc()), (5, 5));
}

// How many entries are written by the laws on a new map and on one without room, of which one is written twice.
fn written(alloc: Global) -> Result<(usize, usize), AllocError> {
    let in_order = collection::written_in_order(alloc, (1u32, 1u32), (2, 2), (1, 3))?;
    let none = SmallMap::new(alloc);
    let without_room = collection::written_with_room(none, (1u32, 1u32), (2, 2), (1, 3))?;
    Ok((in_order.len(), without_room.len()))
}

#[test]
fn writes_entries_by_laws(rt: HostRuntime) {
    gives(&rt, written(rt.alloc()), written(rt.alloc()), (2, 2));
}

// How often the closure was called, and the value of 1 in what came of the map.
fn mapped(alloc: Global) -> Result<(u32, Option<u32>), AllocError> {
    let map = UnorderedMap::from_iter(alloc, [(1u32, 10u32), (2, 20)])?;
    let mut calls = 0u32;
    let mapped = map.map_values(|value: u32| {
        calls = calls.wrapping_add(1);
        value.wrapping_add(1)
    });
    let (Ok(map) | Err(map)) = mapped;
    Ok((calls, map.get(&1u32).copied()))
}

// Case: a refused `map_values` has not called its closure
#[test]
fn maps_each_value_once_or_none(rt: HostRuntime) {
    for found in [mapped(rt.alloc()), mapped(rt.alloc())] {
        if found == Ok((0, Some(10))) || found.is_err() {
            continue;
        }
        same(&rt, found, Ok((2, Some(11))));
    }
}

// A map of sixteen entries without room, after three items were to be put in: its length, and the values of the three keys. Of
// the items one is new.
fn extended(alloc: Global) -> Result<(bool, usize, [Option<u32>; 3]), AllocError> {
    let mut map = tens(alloc, 16)?.clone()?;
    let done = map.extend([(5, 500), (100, 1), (6, 600)]).is_ok();
    let (known, new) = (map.get(&5).copied(), map.get(&100).copied());
    Ok((done, map.len(), [known, new, map.get(&6).copied()]))
}

// Case: a refused `extend` keeps the items before the one that is refused
#[test]
fn extends_up_to_the_item_that_is_refused(rt: HostRuntime) {
    let done = (true, 17, [Some(500), Some(1), Some(600)]);
    let refused = (false, 16, [Some(500), None, Some(60)]);
    for found in [extended(rt.alloc()), extended(rt.alloc())] {
        if found.is_ok() && found != Ok(refused) {
            same(&rt, found, Ok(done));
        }
    }
}

// How many items an iterator was asked for by `extend` of a map and of a set, and how many went in. Each item is new.
fn asked(alloc: Global) -> [(u32, bool, usize); 2] {
    let mut map = SmallMap::new(alloc);
    let mut asked = 0u32;
    let done = map
        .extend((0..40u32).map(|key| {
            asked = asked.wrapping_add(1);
            (key, key)
        }))
        .is_ok();
    let of_map = (asked, done, map.len());
    let mut set = SmallSet::new(alloc);
    let mut asked = 0u32;
    let done = set
        .extend((0..40u32).map(|key| {
            asked = asked.wrapping_add(1);
            key
        }))
        .is_ok();
    [of_map, (asked, done, set.len())]
}

// Case: `extend` asks its iterator for no item behind the one that is refused
#[test]
fn asks_for_no_item_behind_the_refused_one(rt: HostRuntime) {
    for (asked, done, taken) in asked(rt.alloc()) {
        let wanted = if done { 40 } else { taken.wrapping_add(1) };
        same(&rt, (asked as usize, taken <= 40), (wanted, true));
    }
}

// The length of a map without room, and what an insertion that is refused hands back.
fn inserted(alloc: Global) -> Result<(usize, Option<(u32, u32)>), AllocError> {
    let mut map = tens(alloc, 17)?;
    let _ = map.pop();
    map.maybe_drop_index();
    let refused = match map.insert(100, 1) {
        Ok(_) => None,
        Err(NoRoom(entry)) => Some(entry),
    };
    Ok((map.len(), refused))
}

// Case: a refused insertion hands the entry back
#[test]
fn hands_a_refused_entry_back(rt: HostRuntime) {
    for found in [inserted(rt.alloc()), inserted(rt.alloc())] {
        if found.is_ok() && found != Ok((16, Some((100, 1)))) {
            same(&rt, found, Ok((17, None)));
        }
    }
}

// The first key of a map that is sorted, or of the source that came back.
fn sorted(alloc: Global) -> Result<(bool, Option<u32>), AllocError> {
    let mut map = SmallMap::new(alloc);
    for (hash, key) in [(9, 2), (3, 1)] {
        map.insert_hashed(under(hash, key), 0u32)?;
    }
    Ok(match SortedMap::from_small_map(map) {
        Ok(sorted) => (true, sorted.keys().next().copied()),
        Err(source) => (false, source.keys().next().copied()),
    })
}

// Case: a source that cannot be sorted comes back as it was
#[test]
fn hands_a_refused_source_back(rt: HostRuntime) {
    for found in [sorted(rt.alloc()), sorted(rt.alloc())] {
        if found.is_ok() && found != Ok((false, Some(2))) {
            same(&rt, found, Ok((true, Some(1))));
        }
    }
}

// The length of a set without room, and the element that `try_insert` hands back where it finds no memory.
fn tried(alloc: Global) -> Result<(usize, Option<u32>), AllocError> {
    let mut set = OrderedSet::from_iter(alloc, [1u32])?;
    let refused = match set.try_insert(2) {
        Ok(()) => None,
        Err(TryInsertError::Memory(NoRoom(element))) => Some(element),
        Err(TryInsertError::Occupied(_)) => Some(1),
    };
    Ok((set.len(), refused))
}

// Case: `try_insert` without memory hands the element back
#[test]
fn hands_a_refused_element_back(rt: HostRuntime) {
    for found in [tried(rt.alloc()), tried(rt.alloc())] {
        if found.is_ok() && found != Ok((1, Some(2))) {
            same(&rt, found, Ok((2, None)));
        }
    }
}

// How many of four texts a set took that has room for them.
fn owned(alloc: Global) -> Result<(usize, bool), AllocError> {
    let mut set: SmallSet<String> = SmallSet::with_capacity(alloc, 4)?;
    for text in ["a", "b", "a", ""] {
        let _ = set.get_or_insert_owned(text)?;
    }
    Ok((set.len(), set.capacity() == 4))
}

// Case: an owned text is made and inserted where there is room
#[test]
fn inserts_owned_texts_into_room(rt: HostRuntime) {
    gives(&rt, owned(rt.alloc()), owned(rt.alloc()), (3, true));
}

// The numbers of two texts in a set without room, and of the first one again.
fn numbered(alloc: Global) -> Result<[usize; 3], AllocError> {
    let mut set: SmallSet<String> = SmallSet::new(alloc);
    let first = set.index_or_insert_owned("a")?;
    let second = set.index_or_insert_owned("b")?;
    Ok([first, second, set.index_or_insert_owned("a")?])
}

#[test]
fn numbers_texts(rt: HostRuntime) {
    gives(&rt, numbered(rt.alloc()), numbered(rt.alloc()), [0, 1, 0]);
}
