//! Values of a `SmallMap` for writing.
ghost use Rattle.std.specs.Prelude.{◌≡◌, ◌<◌, length, map, IfSome, Some};
ghost use Rattle.std.specs.Borrow.{sem};
ghost use Rattle.std.specs.Option.{option_copied_mut};
ghost use Rattle.starlark_hash.specs.Entries.{value_at};
ghost use Rattle.starlark_hash.specs.HashValue.{hash_of, key_of};
ghost use Rattle.starlark_hash.specs.Hasher.{own_hash};
ghost use Rattle.starlark_hash.specs.Lookup.{found};
ghost use Rattle.starlark_small.specs.Lookup.{HasKey, get};
ghost use Rattle.starlark_small.specs.Lend.{lends_value, lends_get};

use super::SmallMap;
use starlark_hash::{Hashed, Query};
use std::hash::Hash;

impl<K: Eq, V> SmallMap<K, V> {
    /// The value under this hash whose key the query stands for, for writing. The map ends with what is left in it, and
    /// all else is unchanged. Without such an entry the call returns `None`, and the map is unchanged.
    #[inline(always)]
    pub fn get_mut_hashed<Q: Query<K>>(&mut self, key: Hashed<Q>) -> Option<&mut V>
        // What the map is once the reference has ended.
        ensures* writes_back { sem 𝓛 (lends_get K.row V.row K.PartialEq self.entry (Q.stands_for (key_of key)) (hash_of key) result) }
        // What is found comes back; then the query stands for one of the map's keys.
        ensures value { option_copied_mut result ≡ found (Q.stands_for (key_of key)) (hash_of key) self.old.entries }
        ensures key { IfSome result (λ _. HasKey (Q.stands_for (key_of key)) self.old) }
    {
        match self.get_index_of_hashed(key) {
            Some(index) => Some(self.value_at_mut(index)),
            None => None,
        }
    }

    /// The value under the query's own hash whose key the query stands for, for writing. The map ends with what is left
    /// in it, and all else is unchanged. Without such an entry the call returns `None`, and the map is unchanged.
    #[inline(always)]
    pub fn get_mut<Q: Query<K> + Hash>(&mut self, key: Q) -> Option<&mut V>
        // What the map is once the reference has ended.
        ensures* writes_back { sem 𝓛 (lends_get K.row V.row K.PartialEq self.entry (Q.stands_for key) (own_hash Q.hash_input key) result) }
        // What is found comes back; then the query stands for one of the map's keys.
        ensures value { option_copied_mut result ≡ get Q.stands_for Q.hash_input self.old key }
        ensures key { IfSome result (λ _. HasKey (Q.stands_for key) self.old) }
    {
        self.get_mut_hashed(Hashed::new(key))
    }

    /// The value at an index, for writing. The map ends with what is left in it, and all else is unchanged. The call is
    /// for the layer above, which has the index from a look-up.
    #[inline]
    pub fn value_at_mut(&mut self, index: usize) -> &mut V
        requires { index < length self.old.entries }
        ensures* writes_back { sem 𝓛 (lends_value K.row V.row K.PartialEq self.entry index result) }
        ensures value { value_at self.old.entries (Some index) ≡ Some result.now }
    {
        let (_, value) = self.entries.get_unchecked_mut(index);
        value
    }
}
