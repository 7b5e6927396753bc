//! How many bytes each collection takes, whatever its items are, beside the blocks that it asks for.

use crate::given::same;
use starlark_map::ReadyTable;
use starlark_map::ordered_map::OrderedMap;
use starlark_map::ordered_set::OrderedSet;
use starlark_map::small_map::SmallMap;
use starlark_map::small_set::SmallSet;
use starlark_map::sorted_map::SortedMap;
use starlark_map::sorted_set::SortedSet;
use starlark_map::sorted_vec::SortedVec;
use starlark_map::unordered_map::UnorderedMap;
use starlark_map::unordered_set::UnorderedSet;
use starlark_map::vec2::Vec2;
use std::hash::Hash;
use std::mem::size_of;

fn sizes<K: Ord + Hash, V>() -> [usize; 11] {
    [
        size_of::<Vec2<K, V>>(),
        size_of::<SortedVec<K>>(),
        size_of::<ReadyTable<K>>(),
        size_of::<SmallMap<K, V>>(),
        size_of::<SmallSet<K>>(),
        size_of::<OrderedMap<K, V>>(),
        size_of::<OrderedSet<K>>(),
        size_of::<SortedMap<K, V>>(),
        size_of::<SortedSet<K>>(),
        size_of::<UnorderedMap<K, V>>(),
        size_of::<UnorderedSet<K>>(),
    ]
}

#[test]
fn takes_these_bytes(rt: HostRuntime) {
    let wanted = [24, 24, 40, 32, 32, 32, 32, 32, 32, 40, 40];
    same(&rt, sizes::<u32, u32>(), wanted);
    same(&rt, sizes::<String, u64>(), wanted);
}
