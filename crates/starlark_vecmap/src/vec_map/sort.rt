//! Sorting a `VecMap` by its keys.
ghost use Rattle.std.specs.Prelude.{◌≡◌, IfOk, IsOk, OnOk, OnErr, MatchBool};
ghost use Rattle.starlark_hash.specs.Sort.{Ascends, sorted_by_key};
ghost use Rattle.starlark_vec2.specs.Sort.{Moves};
ghost use Rattle.starlark_vecmap.specs.EntryList.{with_entries};

use super::VecMap;
use crate::columns::keys_ascend;
use std::alloc::AllocError;
use std::cmp::Ordering;

impl<K, V> VecMap<K, V> {
    /// Sorts the entries by key. Those with equal keys keep their order. If the keys ascend already, it returns at once
    /// and needs no memory. If memory is refused, the map is unchanged.
    pub fn sort_keys(&mut self) -> Result<(), AllocError>
    where
        K: Ord,
        ensures sorted { OnOk result (self.new ≡ with_entries self.old (sorted_by_key K.cmp self.old.entries)) }
        ensures unchanged { OnErr result (self.new ≡ self.old) }
        ensures at_once { Ascends K.cmp self.old.entries → IsOk result × (self.new ≡ self.old) }
    {
        if self.is_sorted_by_key() {
            return Ok(());
        }
        self.sort_columns()
    }

    // Sorts the entries of a map whose keys do not ascend. It asks for memory.
    fn sort_columns(&mut self) -> Result<(), AllocError>
    where
        K: Ord,
        ensures sorted { OnOk result (self.new ≡ with_entries self.old (sorted_by_key K.cmp self.old.entries)) }
        ensures unchanged { OnErr result (self.new ≡ self.old) }
    {
        self.columns.sort_pairs_by(
            |d: &((K, V), u32), e: &((K, V), u32)| -> Ordering
                ensures { result ≡ K.cmp d.now.0.0 e.now.0.0 }
            { d.0.0.cmp(&e.0.0) },
        )
    }

    /// Sorts the entries as `sort_keys` does, and returns the new index of each entry, by its old index. It needs
    /// memory even if the keys ascend already. It is refused if there is no memory, or if indices do not fit in 32
    /// bits; the map is then unchanged.
    pub fn sort_keys_with_moves(&mut self) -> Result<Vec<u32>, AllocError>
    where
        K: Ord,
        ensures sorted { OnOk result (self.new ≡ with_entries self.old (sorted_by_key K.cmp self.old.entries)) }
        ensures moves { IfOk result (λ to. Moves self.old.entries to.items self.new.entries) }
        ensures unchanged { OnErr result (self.new ≡ self.old) }
    {
        self.columns.sort_pairs_with_moves_by(
            |d: &(u32, ((K, V), u32)), e: &(u32, ((K, V), u32))| -> Ordering
                ensures { result ≡ K.cmp d.now.1.0.0 e.now.1.0.0 }
            { d.1.0.0.cmp(&e.1.0.0) },
        )
    }

    /// Whether the keys ascend. Equal keys may be next to each other.
    #[inline]
    pub fn is_sorted_by_key(&self) -> bool
    where
        K: Ord,
        ensures { MatchBool result (Ascends K.cmp self.now.entries) (Ascends K.cmp self.now.entries → ⊥) }
    {
        keys_ascend(self.columns.firsts())
    }
}
