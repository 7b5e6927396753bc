//! Tables of items under hashes of 64 bits, and the words of a hasher.

use crate::given::same;
use starlark_map::{ReadyTable, StarlarkHasher};
use std::alloc::{AllocError, Global};
use std::hash::Hasher;
use std::test::Fail;

// The slot of an item under 7.
fn slot_of(table: &ReadyTable<char>, item: char) -> Option<usize> {
    table.find(7, |other| *other == item)
}

// What is removed at the slot of an item under 7.
fn removed(table: &mut ReadyTable<char>, item: char) -> Option<(u64, char)> {
    match slot_of(table, item) {
        Some(slot) => table.remove(slot),
        None => None,
    }
}

// Case: one of three items under one hash is removed
#[test]
fn removes_one_of_a_hash(rt: HostRuntime) -> Result<(), Fail> {
    let mut table = ReadyTable::new(rt.alloc());
    for item in ['a', 'b', 'c'] {
        table.insert_unique(7, item)?;
    }
    same(&rt, removed(&mut table, 'b'), Some((7, 'b')));
    same(&rt, slot_of(&table, 'a').is_some(), true);
    same(&rt, slot_of(&table, 'b').is_some(), false);
    same(&rt, slot_of(&table, 'c').is_some(), true);
    Ok(())
}

// Case: a search of a table is shown items of exactly its hash
#[test]
fn shows_items_of_one_hash(rt: HostRuntime) -> Result<(), Fail> {
    let mut table = ReadyTable::new(rt.alloc());
    for hash in [1, 4294967297, 9223372036854775809] {
        table.insert_unique(hash, 'a')?;
    }
    let mut calls = 0u32;
    let found = table.find(1, |_| {
        calls = calls.wrapping_add(1);
        false
    });
    same(&rt, (found, calls), (None, 1));
    Ok(())
}

// The numbers below this one, each under hash 0, of which every second was removed.
fn halved(alloc: Global, count: u32) -> Result<ReadyTable<u32>, AllocError> {
    let mut table = ReadyTable::new(alloc);
    for item in 0..count {
        table.insert_unique(0, item)?;
    }
    for item in 0..count {
        if item % 2 == 1 {
            if let Some(slot) = table.find(0, |other| *other == item) {
                let _ = table.remove(slot);
            }
        }
    }
    Ok(table)
}

// Case: a thousand items under one hash, of which every second is removed
#[test]
fn finds_what_is_left_under_a_hash(rt: HostRuntime) -> Result<(), Fail> {
    let table = halved(rt.alloc(), 1000)?;
    same(&rt, table.len(), 500);
    for item in 0..1000u32 {
        let found = table.find(0, |other| *other == item).is_some();
        same(&rt, (item, found), (item, item % 2 == 0));
    }
    Ok(())
}

fn of_bytes(bytes: &[u8]) -> u64 {
    let mut hasher = StarlarkHasher::new();
    hasher.write(bytes);
    hasher.finish()
}

// Case: bytes fed to a hasher, in groups of eight, four, two and one
#[test]
fn feeds_bytes_in_words(rt: HostRuntime) {
    same(&rt, of_bytes(&[1, 0, 0, 0, 0, 0, 0, 0]), 0x517cc1b727220a95);
    same(&rt, of_bytes(&[0, 0, 0, 0, 0, 0, 1]), 0x517cc1b727220a95);
}
