//! The look-ups of a `SmallSet`: under a precomputed hash, under the query's own hash, and by index.
ghost use Rattle.std.specs.Option.{option_copied, option_map};
ghost use Rattle.std.specs.Prelude.{◌≡◌, ◌-◌, IfSome, IsTrue, length, slice_get, is_some};
ghost use Rattle.starlark_hash.specs.Entries.{entry_key};
ghost use Rattle.starlark_hash.specs.HashValue.{hash_of, key_of};
ghost use Rattle.starlark_hash.specs.Hasher.{own_hash};
ghost use Rattle.starlark_hash.specs.Lookup.{found, found_key};
ghost use Rattle.starlark_small.specs.Lookup.{HasKey, NamesIndex, contains, get_key};

use super::SmallSet;
use starlark_hash::{Equivalent, Hashed, Query};
use std::hash::Hash;

impl<T: Eq> SmallSet<T> {
    /// Returns the element under the query's own hash that the query stands for.
    #[inline(always)]
    pub fn get<Q: Query<T> + Hash>(&self, value: Q) -> Option<&T>
        // The stored element that is found comes back, and the query stands for it.
        ensures element { option_copied result ≡ get_key Q.stands_for Q.hash_input self.now value }
        ensures there { is_some result ≡ contains Q.stands_for Q.hash_input self.now value }
        ensures equivalent { IfSome result (λ element. IsTrue (Q.stands_for value element.now)) }
    {
        self.get_hashed(Hashed::new(value))
    }

    /// Returns the element under this hash that the query stands for.
    #[inline(always)]
    #[tactic(auto, using(crate::proofs::Callers::lookups))]
    pub fn get_hashed<Q: Query<T>>(&self, value: Hashed<Q>) -> Option<&T>
        // The stored element that is found comes back, and the query stands for it.
        ensures element { option_copied result ≡ found_key (Q.stands_for (key_of value)) (hash_of value) self.now.entries }
        ensures there { is_some result ≡ is_some (found (Q.stands_for (key_of value)) (hash_of value) self.now.entries) }
        ensures equivalent { IfSome result (λ element. IsTrue (Q.stands_for (key_of value) element.now)) }
    {
        let (_, element, _) = self.map.get_full_hashed(value)?;
        Some(element)
    }

    /// Returns the index of the element under the query's own hash that the query stands for.
    #[inline(always)]
    pub fn get_index_of<Q: Query<T> + Hash>(&self, value: Q) -> Option<usize>
        ensures { NamesIndex (Q.stands_for value) (own_hash Q.hash_input value) self.now result }
    {
        self.map.get_index_of(value)
    }

    /// Returns the index of the element under this hash that the query stands for.
    #[inline(always)]
    pub fn get_index_of_hashed<Q: Query<T>>(&self, value: Hashed<Q>) -> Option<usize>
        ensures { NamesIndex (Q.stands_for (key_of value)) (hash_of value) self.now result }
    {
        self.map.get_index_of_hashed(value)
    }

    /// Returns the index of the element under this hash that is equivalent to the query, which is passed by value and
    /// dropped.
    #[inline]
    pub fn get_index_of_hashed_by_value<Q: Equivalent<T> + Drop>(
        &self,
        value: Hashed<Q>,
    ) -> Option<usize>
        ensures { NamesIndex (Q.equivalent (key_of value)) (hash_of value) self.now result }
    {
        self.map.get_index_of_hashed_by_value(value)
    }

    /// Returns whether there is an element under the query's own hash that the query stands for.
    #[inline(always)]
    pub fn contains<Q: Query<T> + Hash>(&self, key: Q) -> bool
        // Whether an element is found. If so, the query stands for one of the set's elements.
        ensures found { result ≡ contains Q.stands_for Q.hash_input self.now key }
        ensures key { IsTrue result → HasKey (Q.stands_for key) self.now }
    {
        self.map.contains_key(key)
    }

    /// Returns whether there is an element under this hash that the query stands for.
    #[inline(always)]
    pub fn contains_hashed<Q: Query<T>>(&self, key: Hashed<Q>) -> bool
        // Whether an element is found. If so, the query stands for one of the set's elements.
        ensures found { result ≡ is_some (found (Q.stands_for (key_of key)) (hash_of key) self.now.entries) }
        ensures key { IsTrue result → HasKey (Q.stands_for (key_of key)) self.now }
    {
        self.map.contains_key_hashed(key)
    }

    /// Returns the element at an index, or `None` past the end.
    #[inline]
    pub fn get_index(&self, index: usize) -> Option<&T>
        ensures { option_copied result ≡ option_map entry_key (slice_get self.now.entries index) }
    {
        let (element, _) = self.map.get_index(index)?;
        Some(element)
    }

    /// Returns the first element, if there is one.
    #[inline]
    pub fn first(&self) -> Option<&T>
        ensures { option_copied result ≡ option_map entry_key (slice_get self.now.entries 0) }
    {
        let (element, _) = self.map.first()?;
        Some(element)
    }

    /// Returns the last element, if there is one.
    #[inline]
    pub fn last(&self) -> Option<&T>
        ensures { option_copied result ≡ option_map entry_key (slice_get self.now.entries (length self.now.entries - 1)) }
    {
        let (element, _) = self.map.last()?;
        Some(element)
    }
}
