//! Tables of items under hashes of 64 bits.

use crate::given::gives;
use starlark_map::ReadyTable;
use std::alloc::{AllocError, Global};

// A table with room for three that has forty, copied where there is room for as many again: how many of them are found in the
// copy, and whether there was room at first and for more at last.
fn copied(alloc: Global) -> Result<(u64, bool, bool), AllocError> {
    let mut table = ReadyTable::with_capacity(alloc, 3)?;
    let begun = 3 <= table.room();
    for item in 0u64..40 {
        table.insert_unique(item, item)?;
    }
    table.reserve(40)?;
    let copy = table.clone()?;
    let mut found = 0u64;
    for item in 0u64..40 {
        if copy.find_item(item, |other| *other == item) == Some(&item) {
            found = found.wrapping_add(1);
        }
    }
    Ok((found, begun, 40 <= table.room()))
}

#[test]
fn takes_items_and_is_copied(rt: HostRuntime) {
    gives(
        &rt,
        copied(rt.alloc()),
        copied(rt.alloc()),
        (40, true, true),
    );
}

// Whether a table of two items shows a vacant slot under a hash.
fn shows_vacant(alloc: Global, hash: u64) -> Result<bool, AllocError> {
    let mut table = ReadyTable::new(alloc);
    table.insert_unique(7, 'a')?;
    table.insert_unique(8, 'b')?;
    Ok(table.vacancy(hash).is_some())
}

// A slot is answered where a look shows one, which no clause promises: under a tag that no item has. None is under a hash
// that an item has.
#[test]
fn shows_a_vacant_slot(rt: HostRuntime) {
    for (hash, wanted) in [(7, false), (33554432, true)] {
        gives(
            &rt,
            shows_vacant(rt.alloc(), hash),
            shows_vacant(rt.alloc(), hash),
            wanted,
        );
    }
}

// How many of ten insertions into a table are done.
fn inserted(table: &mut ReadyTable<u64>) -> u32 {
    let mut done = 0u32;
    for item in 0..10u64 {
        if table.insert_unique(item, item).is_ok() {
            done = done.wrapping_add(1);
        }
    }
    done
}

// How many of ten are done into a table with room for them, and again once it was cleared.
fn filled(alloc: Global) -> Result<(u32, u32), AllocError> {
    let mut table = ReadyTable::with_capacity(alloc, 10)?;
    let first = inserted(&mut table);
    table.clear();
    Ok((first, inserted(&mut table)))
}

// Case: a table takes what it has room for, and as much once it is cleared
#[test]
fn refuses_no_item_that_it_has_room_for(rt: HostRuntime) {
    gives(&rt, filled(rt.alloc()), filled(rt.alloc()), (10, 10));
}
