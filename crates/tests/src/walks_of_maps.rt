//! The ordinary adaptors over each walk of a map.

use crate::adaptors::{
    PAIRS, counts, first, first_given, given, gives, lent, raised, second_raised,
};
use starlark_map::Hashed;
use starlark_map::ordered_map::OrderedMap;
use starlark_map::small_map::SmallMap;
use starlark_map::sorted_map::SortedMap;
use std::alloc::{AllocError, Global};
use std::test::Fail;

// The values as they were inserted, and as they ascend.
const VALUES: [u32; 3] = [30, 10, 20];

const TENS: [u32; 3] = [10, 20, 30];

// The values as they were inserted, after 1 was added to each.
const RAISED: [u32; 3] = [31, 11, 21];

// The keys above 1 as they were inserted, and as they ascend.
const HIGH: [u32; 2] = [3, 2];

const LOW: [u32; 2] = [2, 3];

// The value of an entry.
fn hashed(entry: (Hashed<&u32>, &u32)) -> u32 {
    *entry.1
}

// The value of an entry by value.
fn hashed_given(entry: (Hashed<u32>, u32)) -> u32 {
    entry.1
}

fn small(alloc: Global) -> Result<SmallMap<u32, u32>, AllocError> {
    SmallMap::from_iter(alloc, PAIRS)
}

#[test]
fn small_maps(rt: HostRuntime) -> Result<(), Fail> {
    let alloc = rt.alloc();
    let what = small(alloc)?;
    counts(&rt, what.iter(), 3);
    gives(&rt, alloc, what.iter(), first, &HIGH);
    counts(&rt, what.iter_hashed(), 3);
    gives(&rt, alloc, what.iter_hashed(), hashed, &VALUES);
    counts(&rt, what.keys(), 3);
    gives(&rt, alloc, what.keys(), lent, &HIGH);
    counts(&rt, what.values(), 3);
    gives(&rt, alloc, what.values(), lent, &VALUES);
    counts(&rt, (&what).into_iter(), 3);
    gives(&rt, alloc, (&what).into_iter(), first, &HIGH);
    Ok(())
}

#[test]
fn small_maps_by_value(rt: HostRuntime) -> Result<(), Fail> {
    let alloc = rt.alloc();
    counts(&rt, small(alloc)?.into_iter(), 3);
    gives(&rt, alloc, small(alloc)?.into_iter(), first_given, &HIGH);
    counts(&rt, small(alloc)?.into_keys(), 3);
    gives(&rt, alloc, small(alloc)?.into_keys(), given, &HIGH);
    counts(&rt, small(alloc)?.into_values(), 3);
    gives(&rt, alloc, small(alloc)?.into_values(), given, &VALUES);
    counts(&rt, small(alloc)?.into_iter_hashed(), 3);
    gives(
        &rt,
        alloc,
        small(alloc)?.into_iter_hashed(),
        hashed_given,
        &VALUES,
    );
    Ok(())
}

#[test]
fn small_maps_lend_pairs(rt: HostRuntime) -> Result<(), Fail> {
    let alloc = rt.alloc();
    let mut what = small(alloc)?;
    gives(&rt, alloc, what.iter_mut(), second_raised, &RAISED);
    gives(&rt, alloc, what.values(), lent, &RAISED);
    Ok(())
}

#[test]
fn small_maps_lend_values(rt: HostRuntime) -> Result<(), Fail> {
    let alloc = rt.alloc();
    let mut what = small(alloc)?;
    gives(&rt, alloc, what.values_mut(), raised, &RAISED);
    gives(&rt, alloc, what.values(), lent, &RAISED);
    Ok(())
}

#[test]
fn small_maps_count_lent_pairs(rt: HostRuntime) -> Result<(), Fail> {
    let mut what = small(rt.alloc())?;
    counts(&rt, what.iter_mut(), 3);
    Ok(())
}

fn ordered(alloc: Global) -> Result<OrderedMap<u32, u32>, AllocError> {
    OrderedMap::from_iter(alloc, PAIRS)
}

#[test]
fn ordered_maps(rt: HostRuntime) -> Result<(), Fail> {
    let alloc = rt.alloc();
    let what = ordered(alloc)?;
    counts(&rt, what.iter(), 3);
    gives(&rt, alloc, what.iter(), first, &HIGH);
    counts(&rt, what.iter_hashed(), 3);
    gives(&rt, alloc, what.iter_hashed(), hashed, &VALUES);
    counts(&rt, what.keys(), 3);
    gives(&rt, alloc, what.keys(), lent, &HIGH);
    counts(&rt, what.values(), 3);
    gives(&rt, alloc, what.values(), lent, &VALUES);
    counts(&rt, (&what).into_iter(), 3);
    gives(&rt, alloc, (&what).into_iter(), first, &HIGH);
    Ok(())
}

#[test]
fn ordered_maps_by_value(rt: HostRuntime) -> Result<(), Fail> {
    let alloc = rt.alloc();
    counts(&rt, ordered(alloc)?.into_iter(), 3);
    gives(&rt, alloc, ordered(alloc)?.into_iter(), first_given, &HIGH);
    Ok(())
}

fn sorted(alloc: Global) -> Result<SortedMap<u32, u32>, AllocError> {
    SortedMap::from_iter(alloc, PAIRS)
}

#[test]
fn sorted_maps(rt: HostRuntime) -> Result<(), Fail> {
    let alloc = rt.alloc();
    let what = sorted(alloc)?;
    counts(&rt, what.iter(), 3);
    gives(&rt, alloc, what.iter(), first, &LOW);
    counts(&rt, what.iter_hashed(), 3);
    gives(&rt, alloc, what.iter_hashed(), hashed, &TENS);
    counts(&rt, what.keys(), 3);
    gives(&rt, alloc, what.keys(), lent, &LOW);
    counts(&rt, what.values(), 3);
    gives(&rt, alloc, what.values(), lent, &TENS);
    counts(&rt, (&what).into_iter(), 3);
    gives(&rt, alloc, (&what).into_iter(), first, &LOW);
    Ok(())
}

#[test]
fn sorted_maps_by_value(rt: HostRuntime) -> Result<(), Fail> {
    let alloc = rt.alloc();
    counts(&rt, sorted(alloc)?.into_iter(), 3);
    gives(&rt, alloc, sorted(alloc)?.into_iter(), first_given, &LOW);
    Ok(())
}
