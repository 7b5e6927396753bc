//! Lists, entries and tables of items without size: they are counted and lent as others are, and need no memory.

use crate::given::{same, under};
use starlark_map::ReadyTable;
use starlark_map::vec2::{ValuesMut, Vec2};
use starlark_vecmap::VecMap;
use std::alloc::Global;
use std::fmt::Debug;
use std::test::Fail;

// Five equal pairs.
fn five<A: Copy + Drop, B: Copy + Drop>(alloc: Global, pair: (A, B)) -> Result<Vec2<A, B>, Fail> {
    let mut list = Vec2::new(alloc);
    for _ in 0..5 {
        if list.push(pair.0, pair.1).is_err() {
            return Err("no room".into());
        }
    }
    Ok(list)
}

// How many pairs a walk has from either end, the last and the first of those that are given, and how many are left.
fn walked<A: Drop + Debug, B: Drop + Debug>(
    list: Vec2<A, B>,
) -> (usize, usize, Option<(A, B)>, Option<(A, B)>, usize) {
    let (forth, back) = (list.iter().count(), list.iter().rev().count());
    let mut walk = list.into_iter();
    let (last, first) = (walk.next_back(), walk.next());
    (forth, back, last, first, walk.len())
}

// Case: pairs of which a part has no size
#[test]
fn parts_without_size(rt: HostRuntime) -> Result<(), Fail> {
    let list = five(rt.alloc(), ((), 7u32))?;
    same(&rt, list.capacity(), 8);
    same(&rt, walked(list), (5, 5, Some(((), 7)), Some(((), 7)), 3));
    let list = five(rt.alloc(), (7u32, ()))?;
    same(&rt, list.capacity(), 8);
    same(&rt, walked(list), (5, 5, Some((7, ())), Some((7, ())), 3));
    let list = five(rt.alloc(), ((), ()))?;
    same(&rt, list.capacity(), 8);
    same(&rt, walked(list), (5, 5, Some(((), ())), Some(((), ())), 3));
    Ok(())
}

#[test]
fn values_without_size_are_lent(rt: HostRuntime) -> Result<(), Fail> {
    let mut list = five(rt.alloc(), (((), ()), ()))?;
    let mut walk = list.iter_firsts_mut();
    same(&rt, walk.next_back().is_some(), true);
    let mut values = ValuesMut::of(walk);
    same(&rt, values.next().is_some(), true);
    same(&rt, (values.len(), values.count()), (3, 3));
    Ok(())
}

#[test]
fn items_without_size_stand_in_a_table(rt: HostRuntime) -> Result<(), Fail> {
    let mut table = ReadyTable::new(rt.alloc());
    for hash in 0u64..5 {
        table.insert_unique(hash << 61, ())?;
    }
    same(&rt, table.iter_mut().count(), 5);
    same(&rt, table.find(3 << 61, |_| true).is_some(), true);
    same(&rt, table.into_iter().count(), 5);
    Ok(())
}

#[test]
fn entries_without_size_keep_their_hashes(rt: HostRuntime) -> Result<(), Fail> {
    let mut map: VecMap<(), ()> = VecMap::new(rt.alloc());
    for hash in [7, 9] {
        map.insert_hashed_unique_unchecked(under(hash, ()), ())?;
    }
    same(&rt, map.get_index_of_hashed(under(9, &())), Some(1));
    same(&rt, map.values_mut().count(), 2);
    same(&rt, map.pop(), Some((under(9, ()), ())));
    Ok(())
}
