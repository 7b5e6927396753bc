//! The order of a `SmallMap`'s entries.
ghost use Rattle.std.specs.Prelude.{◌≡◌, reverse, true, false, IsOk, OnErr, OnOk};
ghost use Rattle.starlark_hash.specs.Sort.{Ascends, sorted_by_key};
ghost use Rattle.starlark_small.specs.Sort.{SortsByKey, Turns};
ghost use Rattle.starlark_small.specs.Index.{IndexFollows, IsIndexed};
ghost use Rattle.starlark_vecmap.specs.EntryList.{with_entries};

use super::SmallMap;
use crate::index::Index;
use starlark_vecmap::VecMap;
use std::alloc::AllocError;

impl<K: Eq, V> SmallMap<K, V> {
    /// Sorts the entries by key. Those with equal keys keep their order. If the keys ascend already, nothing changes,
    /// and no memory is asked for. If memory is refused, the entries are unchanged. Capacity and hash index stay.
    pub fn sort_keys(&mut self) -> Result<(), AllocError>
    where
        K: Ord,
        ensures { SortsByKey K.eq K.cmp self.old self.new result }
    {
        sort_indexed(&mut self.entries, &mut self.index)
    }

    /// Reverses the order of the entries. Capacity and hash index stay.
    pub fn reverse(&mut self)
        ensures { Turns K.eq self.old self.new }
    {
        reverse_indexed(&mut self.entries, &mut self.index);
    }
}

// Sorts a list by key, and its hash index with it. Without a hash index, the list's own sort asks whether the keys
// ascend.
fn sort_indexed<K: Ord, V>(entries: &mut VecMap<K, V>, index: &mut Index) -> Result<(), AllocError>
    requires { IsIndexed entries.old.entries index.old }
    ensures sorted { OnOk result (entries.new ≡ with_entries entries.old (sorted_by_key K.cmp entries.old.entries)) }
    ensures unchanged { OnErr result ((entries.new ≡ entries.old) × (index.new ≡ index.old)) }
    ensures at_once { Ascends K.cmp entries.old.entries → IsOk result × (entries.new ≡ entries.old) × (index.new ≡ index.old) }
    ensures follows { IndexFollows entries.old index.old entries.new index.new }
{
    if index.table().is_none() {
        return entries.sort_keys();
    }
    if entries.is_sorted_by_key() {
        return Ok(());
    }
    if sort_and_rename(entries, index) {
        return Ok(());
    }
    entries.sort_keys()?;
    index.clear();
    index.note_all(entries);
    Ok(())
}

// Sorts the list, and writes the new indices into the hash index in one pass over its slots. Returns `false`, and
// changes nothing, if there is no dense hash index, or if memory for the moves is refused.
fn sort_and_rename<K: Ord, V>(entries: &mut VecMap<K, V>, index: &mut Index) -> bool
    requires { IsIndexed entries.old.entries index.old }
    ensures sorted { result ≡ true → entries.new ≡ with_entries entries.old (sorted_by_key K.cmp entries.old.entries) }
    ensures unchanged { result ≡ false → (entries.new ≡ entries.old) × (index.new ≡ index.old) }
    ensures follows { IndexFollows entries.old index.old entries.new index.new }
{
    if !index.is_dense() {
        return false;
    }
    let Ok(to) = entries.sort_keys_with_moves() else {
        return false;
    };
    index.rename(to.as_slice());
    true
}

// Reverses a list, and its hash index with it.
fn reverse_indexed<K, V>(entries: &mut VecMap<K, V>, index: &mut Index)
    requires { IsIndexed entries.old.entries index.old }
    ensures entries { entries.new ≡ with_entries entries.old (reverse entries.old.entries) }
    ensures follows { IndexFollows entries.old index.old entries.new index.new }
{
    if index.is_dense() {
        index.reverse();
        entries.reverse();
        return;
    }
    index.clear();
    entries.reverse();
    index.note_all(entries);
}
