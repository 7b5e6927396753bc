//! The sets and sorted vectors of a script.

use crate::{ordered_sets, small_sets, sorted_sets, sorted_vectors};
use play_words::{Call, Fault, Key, Out, Slot, Slots, Words};
use starlark_map::ordered_set::OrderedSet;
use starlark_map::small_set::SmallSet;
use starlark_map::sorted_set::SortedSet;
use starlark_map::sorted_vec::SortedVec;
use std::alloc::Global;

/// The sets and sorted vectors of a script, four of each type.
#[derive(Drop)]
pub struct Sets<K: Key> {
    small: Slots<SmallSet<K>>,
    ordered: Slots<OrderedSet<K>>,
    sorted: Slots<SortedSet<K>>,
    vectors: Slots<SortedVec<K>>,
}

impl<K: Key> Sets<K> {
    /// Empty ones.
    pub fn new(alloc: Global) -> Sets<K> {
        Sets {
            small: small_sets(alloc),
            ordered: ordered_sets(alloc),
            sorted: sorted_sets(alloc),
            vectors: sorted_vectors(alloc),
        }
    }

    /// Plays a command on a set or a sorted vector; the kind is `ss`, `os`, `ts` or `tv`.
    pub fn play(&mut self, call: Call<'_>, out: &mut Out) -> Result<(), Fault> {
        let Call {
            kind,
            slot,
            op,
            words,
        } = call;
        match kind {
            "ss" => small_sets::play(&mut self.small, slot, op, words, out),
            "os" => ordered_sets::play(&mut self.ordered, &self.small, slot, op, words, out),
            "ts" => self.sorted_set(slot, op, words, out),
            "tv" => sorted_vectors::play(&mut self.vectors, slot, op, words, out),
            _ => Err(Fault::BadLine),
        }
    }

    fn sorted_set(
        &mut self,
        slot: Slot,
        op: &str,
        words: Words<'_>,
        out: &mut Out,
    ) -> Result<(), Fault> {
        sorted_sets::play(
            &mut self.sorted,
            &self.small,
            &self.ordered,
            &self.vectors,
            slot,
            op,
            words,
            out,
        )
    }
}

fn small_sets<K: Key>(alloc: Global) -> Slots<SmallSet<K>> {
    Slots::new(
        SmallSet::new(alloc),
        SmallSet::new(alloc),
        SmallSet::new(alloc),
        SmallSet::new(alloc),
    )
}

fn ordered_sets<K: Key>(alloc: Global) -> Slots<OrderedSet<K>> {
    Slots::new(
        OrderedSet::new(alloc),
        OrderedSet::new(alloc),
        OrderedSet::new(alloc),
        OrderedSet::new(alloc),
    )
}

fn sorted_sets<K: Key>(alloc: Global) -> Slots<SortedSet<K>> {
    Slots::new(
        SortedSet::new(alloc),
        SortedSet::new(alloc),
        SortedSet::new(alloc),
        SortedSet::new(alloc),
    )
}

fn sorted_vectors<K: Key>(alloc: Global) -> Slots<SortedVec<K>> {
    Slots::new(
        SortedVec::new(alloc),
        SortedVec::new(alloc),
        SortedVec::new(alloc),
        SortedVec::new(alloc),
    )
}
