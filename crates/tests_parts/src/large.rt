//! Lists that are too large, and memory that is given back.

use crate::given::same;
use starlark_map::ReadyTable;
use starlark_map::small_map::SmallMap;
use starlark_map::vec2::Vec2;
use std::alloc::Global;
use std::test::Fail;

// How many items a list of one pair asked an iterator of so many for, and its length then.
fn asked(alloc: Global, count: u64) -> Result<(u32, usize), Fail> {
    let mut list: Vec2<u64, u64> = Vec2::new(alloc);
    list.push(1, 2)?;
    let mut asked = 0u32;
    let _ = list.extend((0..count).map(|i| {
        asked = asked.wrapping_add(1);
        (i, i)
    }));
    Ok((asked, list.len()))
}

// What cannot be addressed is refused before the iterator is asked.
// Case: `extend` asks its iterator for no item behind the one that is refused
#[test]
fn asks_for_no_item_once_it_is_refused(rt: HostRuntime) -> Result<(), Fail> {
    same(&rt, asked(rt.alloc(), 3)?, (3, 4));
    same(&rt, asked(rt.alloc(), u64::MAX)?, (0, 1));
    Ok(())
}

// How many lists of a gigabyte each, one after the other, had their memory, of so many.
fn gigabytes(alloc: Global, count: u32) -> u32 {
    let mut made = 0u32;
    for _ in 0..count {
        if Vec2::<u64, u64>::with_capacity(alloc, 67108864).is_ok() {
            made = made.wrapping_add(1);
        }
    }
    made
}

// More in all than addresses reach: 150 terabytes, of 128. No byte of them is touched.
// Case: memory is given back
#[test]
fn gives_its_memory_back(rt: HostRuntime) {
    same(&rt, gigabytes(rt.alloc(), 150000), 150000);
}

// A map of this many keys: whether it has an index, and what it finds at one of the keys and at one that is not there.
fn many(alloc: Global, count: u32) -> Result<(bool, Option<u32>, Option<u32>), Fail> {
    let mut map = SmallMap::new(alloc);
    for key in 0..count {
        map.insert(key, key)?;
    }
    let found = map.get(&count.wrapping_sub(1)).copied();
    Ok((map.index().is_some(), found, map.get(&count).copied()))
}

// More than 16 bits number.
// Case: a map of seventy thousand entries
#[test]
fn indexes_many_entries(rt: HostRuntime) -> Result<(), Fail> {
    same(&rt, many(rt.alloc(), 70000)?, (true, Some(69999), None));
    Ok(())
}

// Two gigabytes of pairs, and a table and a map for two million items.
// Case: room for two gigabytes, and for two million entries
#[test]
fn makes_room_for_many(rt: HostRuntime) {
    let alloc = rt.alloc();
    let list = Vec2::<u64, u64>::with_capacity(alloc, 134217729);
    same(&rt, list.is_ok(), true);
    let table = ReadyTable::<u64>::with_capacity(alloc, 2000000);
    same(&rt, table.is_ok(), true);
    let map = SmallMap::<u32, u32>::with_capacity(alloc, 2000000);
    same(&rt, map.is_ok(), true);
}

// An item of 128 bytes.
type Wide = [u64; 16];

// Case: items of more than a hundred bytes
#[test]
fn keeps_large_items(rt: HostRuntime) -> Result<(), Fail> {
    let mut list: Vec2<Wide, u8> = Vec2::new(rt.alloc());
    let mut table: ReadyTable<Wide> = ReadyTable::new(rt.alloc());
    for item in 0..40u64 {
        list.push([item; 16], 0)?;
        table.insert_unique(item, [item; 16])?;
    }
    same(&rt, list.get(39), Some((&[39; 16], &0)));
    let slot = table.find(39, |item| *item == [39; 16]);
    same(&rt, slot.is_some(), true);
    Ok(())
}
