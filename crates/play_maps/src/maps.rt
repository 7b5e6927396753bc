//! The maps and pair lists of a script.

use crate::{ordered_maps, pair_lists, small_maps, sorted_maps};
use play_words::{Call, Fault, Key, Out, Slots};
use starlark_map::ordered_map::OrderedMap;
use starlark_map::small_map::SmallMap;
use starlark_map::sorted_map::SortedMap;
use starlark_map::vec2::Vec2;
use std::alloc::Global;

/// The maps and pair lists of a script, four of each type.
#[derive(Drop)]
pub struct Maps<K: Key> {
    small: Slots<SmallMap<K, i64>>,
    ordered: Slots<OrderedMap<K, i64>>,
    sorted: Slots<SortedMap<K, i64>>,
    pairs: Slots<Vec2<K, i64>>,
}

impl<K: Key> Maps<K> {
    /// Empty ones.
    pub fn new(alloc: Global) -> Maps<K> {
        Maps {
            small: small_maps(alloc),
            ordered: ordered_maps(alloc),
            sorted: sorted_maps(alloc),
            pairs: pair_lists(alloc),
        }
    }

    /// Plays a command on a map or a pair list; the kind is `sm`, `om`, `tm` or `v2`.
    pub fn play(&mut self, call: Call<'_>, out: &mut Out) -> Result<(), Fault> {
        let Call {
            kind,
            slot,
            op,
            words,
        } = call;
        match kind {
            "sm" => small_maps::play(&mut self.small, slot, op, words, out),
            "om" => ordered_maps::play(&mut self.ordered, &self.small, slot, op, words, out),
            "tm" => {
                sorted_maps::play(
                    &mut self.sorted,
                    &self.small,
                    &self.ordered,
                    slot,
                    op,
                    words,
                    out,
                )
            }
            "v2" => pair_lists::play(&mut self.pairs, slot, op, words, out),
            _ => Err(Fault::BadLine),
        }
    }
}

fn small_maps<K: Key>(alloc: Global) -> Slots<SmallMap<K, i64>> {
    Slots::new(
        SmallMap::new(alloc),
        SmallMap::new(alloc),
        SmallMap::new(alloc),
        SmallMap::new(alloc),
    )
}

fn ordered_maps<K: Key>(alloc: Global) -> Slots<OrderedMap<K, i64>> {
    Slots::new(
        OrderedMap::new(alloc),
        OrderedMap::new(alloc),
        OrderedMap::new(alloc),
        OrderedMap::new(alloc),
    )
}

fn sorted_maps<K: Key>(alloc: Global) -> Slots<SortedMap<K, i64>> {
    Slots::new(
        SortedMap::new(alloc),
        SortedMap::new(alloc),
        SortedMap::new(alloc),
        SortedMap::new(alloc),
    )
}

fn pair_lists<K: Key>(alloc: Global) -> Slots<Vec2<K, i64>> {
    Slots::new(
        Vec2::new(alloc),
        Vec2::new(alloc),
        Vec2::new(alloc),
        Vec2::new(alloc),
    )
}
