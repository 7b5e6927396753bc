//! The unordered collections of a script.

use crate::{unordered_maps, unordered_sets};
use play_words::{Call, Fault, Key, Out, Slots};
use starlark_map::unordered_map::UnorderedMap;
use starlark_map::unordered_set::UnorderedSet;
use std::alloc::Global;

/// The unordered maps and sets of a script, four of each type.
#[derive(Drop)]
pub struct Tables<K: Key> {
    maps: Slots<UnorderedMap<K, i64>>,
    sets: Slots<UnorderedSet<K>>,
}

impl<K: Key> Tables<K> {
    /// Empty ones.
    pub fn new(alloc: Global) -> Tables<K> {
        Tables {
            maps: maps(alloc),
            sets: sets(alloc),
        }
    }

    /// Plays a command on an unordered map or set; the kind is `um` or `us`.
    pub fn play(&mut self, call: Call<'_>, out: &mut Out) -> Result<(), Fault> {
        let Call {
            kind,
            slot,
            op,
            words,
        } = call;
        match kind {
            "um" => unordered_maps::play(&mut self.maps, slot, op, words, out),
            "us" => unordered_sets::play(&mut self.sets, slot, op, words, out),
            _ => Err(Fault::BadLine),
        }
    }
}

fn maps<K: Key>(alloc: Global) -> Slots<UnorderedMap<K, i64>> {
    Slots::new(
        UnorderedMap::new(alloc),
        UnorderedMap::new(alloc),
        UnorderedMap::new(alloc),
        UnorderedMap::new(alloc),
    )
}

fn sets<K: Key>(alloc: Global) -> Slots<UnorderedSet<K>> {
    Slots::new(
        UnorderedSet::new(alloc),
        UnorderedSet::new(alloc),
        UnorderedSet::new(alloc),
        UnorderedSet::new(alloc),
    )
}
