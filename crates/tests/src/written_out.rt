//! The forms of `smallmap!` and `smallset!`, and the room that they begin with.

use crate::given::same;
use starlark_map::small_map::SmallMap;
use starlark_map::small_set::SmallSet;
use starlark_map::{smallmap, smallset};
use std::test::Fail;

// Case: a map that is written out may be empty
#[test]
fn writes_maps_out(rt: HostRuntime) -> Result<(), Fail> {
    let none: SmallMap<u32, u32> = smallmap![rt.alloc();]?;
    same(&rt, (none.get(&7), none.capacity()), (None, 0));
    let one = smallmap![rt.alloc(); 7u32 => 70u32,]?;
    same(&rt, (one.get(&7), one.capacity()), (Some(&70), 1));
    Ok(())
}

// Case: a map that is written out takes the last value of a key
// Growing step by step would leave room for 8, and in the tests of one entry for 4.
#[test]
fn reserves_for_what_is_written_out(rt: HostRuntime) -> Result<(), Fail> {
    let map = smallmap![rt.alloc(); 0u32 => 0u32, 1 => 10, 2 => 20, 3 => 30, 0 => 40]?;
    same(&rt, (map.len(), map.capacity()), (4, 5));
    let set = smallset![rt.alloc(); 0u32, 1, 2, 3, 4]?;
    same(&rt, (set.len(), set.capacity()), (5, 5));
    Ok(())
}

#[test]
fn writes_sets_out(rt: HostRuntime) -> Result<(), Fail> {
    let none: SmallSet<u32> = smallset![rt.alloc();]?;
    same(&rt, (none.first(), none.capacity()), (None, 0));
    let one = smallset![rt.alloc(); 3u32,]?;
    same(&rt, (one.first(), one.capacity()), (Some(&3), 1));
    Ok(())
}
