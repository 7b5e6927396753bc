//! The ordinary adaptors over each walk of a list of pairs, a table or an unordered map.

use crate::adaptors::{
    KEYS, PAIRS, counts, first, first_given, gives, gives_in_some_order, lent, raised,
    second_raised, written,
};
use starlark_map::ReadyTable;
use starlark_map::unordered_map::UnorderedMap;
use starlark_map::vec2::Vec2;
use std::alloc::{AllocError, Global};
use std::test::Fail;

fn pairs(alloc: Global) -> Result<Vec2<u32, u32>, AllocError> {
    Vec2::from_iter(alloc, PAIRS)
}

#[test]
fn lists_of_pairs(rt: HostRuntime) -> Result<(), Fail> {
    let alloc = rt.alloc();
    let what = pairs(alloc)?;
    counts(&rt, what.iter(), 3);
    gives(&rt, alloc, what.iter(), first, &[3, 2]);
    counts(&rt, (&what).into_iter(), 3);
    gives(&rt, alloc, (&what).into_iter(), first, &[3, 2]);
    counts(&rt, pairs(alloc)?.into_iter(), 3);
    gives(&rt, alloc, pairs(alloc)?.into_iter(), first_given, &[3, 2]);
    Ok(())
}

fn table(alloc: Global) -> Result<ReadyTable<u32>, AllocError> {
    let mut what = ReadyTable::new(alloc);
    for key in KEYS {
        what.insert_unique(u64::from(key), key)?;
    }
    Ok(what)
}

// The item of a table, by value.
fn item(item: (u64, u32)) -> u32 {
    item.1
}

#[test]
fn tables(rt: HostRuntime) -> Result<(), Fail> {
    let alloc = rt.alloc();
    let mut what = table(alloc)?;
    counts(&rt, what.iter(), 3);
    gives_in_some_order(&rt, alloc, what.iter(), lent, &[2, 3]);
    counts(&rt, (&what).into_iter(), 3);
    gives_in_some_order(&rt, alloc, (&what).into_iter(), lent, &[2, 3]);
    counts(&rt, what.iter_mut(), 3);
    gives_in_some_order(&rt, alloc, what.iter_mut(), written, &[2, 3]);
    counts(&rt, table(alloc)?.into_iter(), 3);
    gives_in_some_order(&rt, alloc, table(alloc)?.into_iter(), item, &[2, 3]);
    Ok(())
}

fn unordered_map(alloc: Global) -> Result<UnorderedMap<u32, u32>, AllocError> {
    UnorderedMap::from_iter(alloc, PAIRS)
}

#[test]
fn unordered_maps(rt: HostRuntime) -> Result<(), Fail> {
    let alloc = rt.alloc();
    let what = unordered_map(alloc)?;
    counts(&rt, what.entries_unordered(), 3);
    gives_in_some_order(&rt, alloc, what.entries_unordered(), first, &[2, 3]);
    counts(&rt, what.keys_unordered(), 3);
    gives_in_some_order(&rt, alloc, what.keys_unordered(), lent, &[2, 3]);
    counts(&rt, what.values_unordered(), 3);
    gives_in_some_order(&rt, alloc, what.values_unordered(), lent, &[10, 20, 30]);
    Ok(())
}

#[test]
fn unordered_maps_lend_pairs(rt: HostRuntime) -> Result<(), Fail> {
    let alloc = rt.alloc();
    let mut what = unordered_map(alloc)?;
    gives_in_some_order(
        &rt,
        alloc,
        what.entries_unordered_mut(),
        second_raised,
        &[11, 21, 31],
    );
    gives_in_some_order(&rt, alloc, what.values_unordered(), lent, &[11, 21, 31]);
    Ok(())
}

#[test]
fn unordered_maps_lend_values(rt: HostRuntime) -> Result<(), Fail> {
    let alloc = rt.alloc();
    let mut what = unordered_map(alloc)?;
    gives_in_some_order(
        &rt,
        alloc,
        what.values_unordered_mut(),
        raised,
        &[11, 21, 31],
    );
    gives_in_some_order(&rt, alloc, what.values_unordered(), lent, &[11, 21, 31]);
    Ok(())
}

#[test]
fn unordered_maps_count_lent_values(rt: HostRuntime) -> Result<(), Fail> {
    let mut what = unordered_map(rt.alloc())?;
    counts(&rt, what.values_unordered_mut(), 3);
    Ok(())
}
