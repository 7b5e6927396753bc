//! The ordinary adaptors over each walk of a set.

use crate::adaptors::{KEYS, counts, given, gives, lent};
use starlark_map::Hashed;
use starlark_map::ordered_set::OrderedSet;
use starlark_map::small_set::SmallSet;
use starlark_map::sorted_set::SortedSet;
use starlark_map::sorted_vec::SortedVec;
use std::alloc::{AllocError, Global};
use std::test::Fail;

// The keys above 1 as they were inserted, and as they ascend.
const HIGH: [u32; 2] = [3, 2];

const LOW: [u32; 2] = [2, 3];

// The element under a hash.
fn hashed(element: Hashed<&u32>) -> u32 {
    *element.into_key()
}

// The element under a hash, by value.
fn hashed_given(element: Hashed<u32>) -> u32 {
    element.into_key()
}

fn small(alloc: Global) -> Result<SmallSet<u32>, AllocError> {
    SmallSet::from_iter(alloc, KEYS)
}

#[test]
fn small_sets(rt: HostRuntime) -> Result<(), Fail> {
    let alloc = rt.alloc();
    let what = small(alloc)?;
    let other = SmallSet::from_iter(alloc, [4, 1])?;
    counts(&rt, what.iter(), 3);
    gives(&rt, alloc, what.iter(), lent, &HIGH);
    counts(&rt, what.iter_hashed(), 3);
    gives(&rt, alloc, what.iter_hashed(), hashed, &HIGH);
    counts(&rt, (&what).into_iter(), 3);
    gives(&rt, alloc, (&what).into_iter(), lent, &HIGH);
    counts(&rt, what.difference(&other), 2);
    gives(&rt, alloc, what.difference(&other), lent, &HIGH);
    counts(&rt, what.union(&other), 4);
    gives(&rt, alloc, what.union(&other), lent, &[3, 2, 4]);
    Ok(())
}

#[test]
fn small_sets_by_value(rt: HostRuntime) -> Result<(), Fail> {
    let alloc = rt.alloc();
    counts(&rt, small(alloc)?.into_iter(), 3);
    gives(&rt, alloc, small(alloc)?.into_iter(), given, &HIGH);
    counts(&rt, small(alloc)?.into_iter_hashed(), 3);
    gives(
        &rt,
        alloc,
        small(alloc)?.into_iter_hashed(),
        hashed_given,
        &HIGH,
    );
    Ok(())
}

fn ordered(alloc: Global) -> Result<OrderedSet<u32>, AllocError> {
    OrderedSet::from_iter(alloc, KEYS)
}

#[test]
fn ordered_sets(rt: HostRuntime) -> Result<(), Fail> {
    let alloc = rt.alloc();
    let what = ordered(alloc)?;
    let other = OrderedSet::from_iter(alloc, [4, 1])?;
    counts(&rt, what.iter(), 3);
    gives(&rt, alloc, what.iter(), lent, &HIGH);
    counts(&rt, what.iter_hashed(), 3);
    gives(&rt, alloc, what.iter_hashed(), hashed, &HIGH);
    counts(&rt, (&what).into_iter(), 3);
    gives(&rt, alloc, (&what).into_iter(), lent, &HIGH);
    counts(&rt, what.union(&other), 4);
    gives(&rt, alloc, what.union(&other), lent, &[3, 2, 4]);
    Ok(())
}

#[test]
fn ordered_sets_by_value(rt: HostRuntime) -> Result<(), Fail> {
    let alloc = rt.alloc();
    counts(&rt, ordered(alloc)?.into_iter(), 3);
    gives(&rt, alloc, ordered(alloc)?.into_iter(), given, &HIGH);
    Ok(())
}

fn sorted(alloc: Global) -> Result<SortedSet<u32>, AllocError> {
    SortedSet::from_iter(alloc, KEYS)
}

#[test]
fn sorted_sets(rt: HostRuntime) -> Result<(), Fail> {
    let alloc = rt.alloc();
    let what = sorted(alloc)?;
    let other = SortedSet::from_iter(alloc, [4, 1])?;
    counts(&rt, what.iter(), 3);
    gives(&rt, alloc, what.iter(), lent, &LOW);
    counts(&rt, (&what).into_iter(), 3);
    gives(&rt, alloc, (&what).into_iter(), lent, &LOW);
    counts(&rt, what.union(&other), 4);
    gives(&rt, alloc, what.union(&other), lent, &[2, 3, 4]);
    Ok(())
}

#[test]
fn sorted_sets_by_value(rt: HostRuntime) -> Result<(), Fail> {
    let alloc = rt.alloc();
    counts(&rt, sorted(alloc)?.into_iter(), 3);
    gives(&rt, alloc, sorted(alloc)?.into_iter(), given, &LOW);
    Ok(())
}

fn ascending(alloc: Global) -> Result<SortedVec<u32>, AllocError> {
    SortedVec::from_iter(alloc, KEYS)
}

#[test]
fn sorted_vectors(rt: HostRuntime) -> Result<(), Fail> {
    let alloc = rt.alloc();
    let what = ascending(alloc)?;
    counts(&rt, what.iter(), 3);
    gives(&rt, alloc, what.iter(), lent, &LOW);
    Ok(())
}

#[test]
fn sorted_vectors_by_value(rt: HostRuntime) -> Result<(), Fail> {
    let alloc = rt.alloc();
    counts(&rt, ascending(alloc)?.into_iter(), 3);
    gives(&rt, alloc, ascending(alloc)?.into_iter(), given, &LOW);
    Ok(())
}
