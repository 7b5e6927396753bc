//! The order of the entries.
ghost use Rattle.std.specs.Prelude.{◌≡◌, reverse, IsOk, IsSorted, OnErr, OnOk};
ghost use Rattle.std.specs.HashMap.{IsReordered};
ghost use Rattle.starlark_dict.specs.Dict.{keys, IsUnchanged, IsUnique, KeepsMemory};
ghost use Rattle.starlark_dict.specs.Sort.{sorted_by_key};

use super::Dict;
use std::alloc::AllocError;
use std::hash::Hash;

impl<K: Eq + Hash, V> Dict<K, V> {
    /// Sorts by key; entries with equal keys keep their order. Where the keys ascend already it asks for no memory. A
    /// refusal leaves the entries as they were.
    pub fn sort_keys(&mut self) -> Result<(), AllocError>
    where
        K: Ord,
        // On success the keys ascend.
        ensures entries { OnOk result (self.new.entries ≡ sorted_by_key K.cmp self.old.entries) }
        ensures sorted { OnOk result (IsSorted K.cmp (keys self.new)) }

        // On failure the entries stay. Keys that ascend are never refused.
        ensures err { OnErr result (IsUnchanged self.old self.new) }
        ensures succeeds { IsSorted K.cmp (keys self.old) → IsOk result }

        // Either way each key has what it had, and no room is lost.
        ensures reordered { IsReordered K.eq self.old self.new }
        ensures memory { KeepsMemory self.old self.new }
        ensures unique { IsUnique K.eq self.new }
    {
        let sorted = self.map.sort_keys();
        prove!(self.map.iter_hashed().len() == self.map.len());
        sorted
    }

    /// Reverses the order of the entries.
    pub fn reverse(&mut self)
        ensures entries { self.new.entries ≡ reverse self.old.entries }
        ensures reordered { IsReordered K.eq self.old self.new }
        ensures memory { KeepsMemory self.old self.new }
        ensures unique { IsUnique K.eq self.new }
    {
        self.map.reverse();
        prove!(self.map.iter_hashed().len() == self.map.len());
    }
}
