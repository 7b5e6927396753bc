//! Look-ups in a `SmallMap`: by a precomputed hash and a query, by a query under its own hash, and by index.
ghost use Rattle.std.specs.List.{IsAmong};
ghost use Rattle.std.specs.Prelude.{◌≡◌, ◌-◌, ◌<◌, slice_get, length, is_some, map, IfSome, IsTrue, Some};
ghost use Rattle.std.specs.Map.Iter.{deref_pair};
ghost use Rattle.std.specs.Option.{option_copied, option_map};
ghost use Rattle.starlark_hash.specs.HashValue.{hash_of, key_of};
ghost use Rattle.starlark_hash.specs.Hasher.{own_hash};
ghost use Rattle.starlark_hash.specs.Entries.{IsSingle, entry_value, pair_of, position_of};
ghost use Rattle.starlark_hash.specs.Lookup.{found, found_key};
ghost use Rattle.starlark_hash.specs.Search.{CanSearch, Searches, keys_under};
ghost use Rattle.starlark_small.specs.Lookup.{HasKey, NamesIndex, contains, get, get_key};
ghost use Rattle.starlark_small.specs.Map.{own_match};

use super::SmallMap;
use starlark_hash::{Equivalent, Hashed, Query, StarlarkHashValue};
use std::hash::Hash;

impl<K: Eq, V> SmallMap<K, V> {
    /// The value under this hash whose key the query stands for.
    #[tactic(auto, using(crate::proofs::CallerLookup::look_ups))]
    #[inline(always)]
    pub fn get_hashed<Q: Query<K>>(&self, key: Hashed<Q>) -> Option<&V>
        // What is found comes back. It is one of the map's values, and the query stands for one of its keys.
        ensures value { option_copied result ≡ found (Q.stands_for (key_of key)) (hash_of key) self.now.entries }
        ensures member { IfSome (option_copied result) (λ value. IsAmong (map entry_value self.now.entries) value) }
        ensures key { IfSome result (λ _. HasKey (Q.stands_for (key_of key)) self.now) }
    {
        let index = self.get_index_of_hashed(key)?;
        let (_, value) = self.entries.get_unchecked(index);
        Some(value)
    }

    /// The value under this hash whose key is equivalent to the query, which is passed by value and dropped.
    #[inline]
    pub fn get_hashed_by_value<Q: Equivalent<K> + Drop>(&self, key: Hashed<Q>) -> Option<&V>
        // What is found comes back. It is one of the map's values, and the query stands for one of its keys.
        ensures value { option_copied result ≡ found (Q.equivalent (key_of key)) (hash_of key) self.now.entries }
        ensures member { IfSome (option_copied result) (λ value. IsAmong (map entry_value self.now.entries) value) }
        ensures key { IfSome result (λ _. HasKey (Q.equivalent (key_of key)) self.now) }
    {
        self.get_hashed(key.as_ref())
    }

    /// The index under this hash whose key the query stands for, with the key and the value there.
    #[tactic(auto, using(crate::proofs::CallerLookup::look_ups))]
    #[inline(always)]
    pub fn get_full_hashed<Q: Query<K>>(&self, key: Hashed<Q>) -> Option<(usize, &K, &V)>
        // The index of what is found, with the stored key and the value.
        ensures index { option_map (λ e. e.0) result ≡ position_of (hash_of key) (Q.stands_for (key_of key)) self.now.entries }
        ensures key { option_map (λ e. e.1.now) result ≡ found_key (Q.stands_for (key_of key)) (hash_of key) self.now.entries }
        ensures value { option_map (λ e. e.2.now) result ≡ found (Q.stands_for (key_of key)) (hash_of key) self.now.entries }
    {
        let index = self.get_index_of_hashed(key)?;
        let (key, value) = self.entries.get_unchecked(index);
        Some((index, key.into_key(), value))
    }

    /// The index under this hash whose key the query stands for.
    #[tactic(auto, using(crate::proofs::CallerLookup::look_ups))]
    #[inline(always)]
    pub fn get_index_of_hashed<Q: Query<K>>(&self, key: Hashed<Q>) -> Option<usize>
        ensures names { NamesIndex (Q.stands_for (key_of key)) (hash_of key) self.now result }
        ensures single { IsSingle K.eq self.now.entries }
    {
        self.index.position_of(&self.entries, key)
    }

    /// An index under this hash whose key `eq` accepts. `eq` is called only on the keys under this hash, at most once
    /// on each and in no promised order, until it accepts one; `None` says that it refused them all. The call requires
    /// only that `eq` may be called on those keys, in the states that its refusals leave.
    #[inline]
    pub fn find_by_hash<F: FnMut(&K) -> bool>(
        &self,
        hash: StarlarkHashValue,
        eq: F,
    ) -> Option<usize>
        requires { CanSearch F.FnMut (keys_under hash self.now.entries) eq }
        ensures { (last : F) × Searches F.FnMut (keys_under hash self.now.entries) eq result last }
    {
        self.index.find(&self.entries, hash, eq)
    }

    /// The index under this hash whose key is equivalent to the query, which is passed by value and dropped.
    #[inline]
    pub fn get_index_of_hashed_by_value<Q: Equivalent<K> + Drop>(
        &self,
        key: Hashed<Q>,
    ) -> Option<usize>
        ensures { NamesIndex (Q.equivalent (key_of key)) (hash_of key) self.now result }
    {
        self.get_index_of_hashed(key.as_ref())
    }

    /// Whether there is an entry under this hash whose key the query stands for.
    #[tactic(auto, using(crate::proofs::CallerLookup::look_ups))]
    #[inline(always)]
    pub fn contains_key_hashed<Q: Query<K>>(&self, key: Hashed<Q>) -> bool
        // Whether something is found; then the query stands for one of the map's keys.
        ensures found { result ≡ is_some (found (Q.stands_for (key_of key)) (hash_of key) self.now.entries) }
        ensures key { IsTrue result → HasKey (Q.stands_for (key_of key)) self.now }
    {
        self.get_index_of_hashed(key).is_some()
    }

    /// Whether an entry under this hash has a key that is equivalent to the query, which is passed by value and
    /// dropped.
    #[inline]
    pub fn contains_key_hashed_by_value<Q: Equivalent<K> + Drop>(&self, key: Hashed<Q>) -> bool
        // Whether something is found; then the query stands for one of the map's keys.
        ensures found { result ≡ is_some (found (Q.equivalent (key_of key)) (hash_of key) self.now.entries) }
        ensures key { IsTrue result → HasKey (Q.equivalent (key_of key)) self.now }
    {
        self.contains_key_hashed(key.as_ref())
    }

    /// The value under the query's own hash whose key the query stands for.
    #[inline(always)]
    pub fn get<Q: Query<K> + Hash>(&self, key: Q) -> Option<&V>
        // What is found comes back. It is one of the map's values, and the query stands for one of its keys.
        ensures value { option_copied result ≡ get Q.stands_for Q.hash_input self.now key }
        ensures member { IfSome (option_copied result) (λ value. IsAmong (map entry_value self.now.entries) value) }
        ensures key { IfSome result (λ _. HasKey (Q.stands_for key) self.now) }
    {
        self.get_hashed(Hashed::new(key))
    }

    /// The index under the query's own hash whose key the query stands for, with the key and the value there.
    #[inline(always)]
    pub fn get_full<Q: Query<K> + Hash>(&self, key: Q) -> Option<(usize, &K, &V)>
        // The index of what is found, with the stored key and the value.
        ensures index { option_map (λ e. e.0) result ≡ own_match Q.stands_for Q.hash_input self.now.entries key }
        ensures key { option_map (λ e. e.1.now) result ≡ get_key Q.stands_for Q.hash_input self.now key }
        ensures value { option_map (λ e. e.2.now) result ≡ get Q.stands_for Q.hash_input self.now key }
    {
        self.get_full_hashed(Hashed::new(key))
    }

    /// The index under the query's own hash whose key the query stands for.
    #[inline(always)]
    pub fn get_index_of<Q: Query<K> + Hash>(&self, key: Q) -> Option<usize>
        ensures { NamesIndex (Q.stands_for key) (own_hash Q.hash_input key) self.now result }
    {
        self.get_index_of_hashed(Hashed::new(key))
    }

    /// Whether there is an entry under the query's own hash whose key the query stands for.
    #[inline(always)]
    pub fn contains_key<Q: Query<K> + Hash>(&self, key: Q) -> bool
        // Whether something is found; then the query stands for one of the map's keys.
        ensures found { result ≡ contains Q.stands_for Q.hash_input self.now key }
        ensures key { IsTrue result → HasKey (Q.stands_for key) self.now }
    {
        self.contains_key_hashed(Hashed::new(key))
    }

    /// The key and the value at an index, or `None` past the end.
    #[inline]
    pub fn get_index(&self, index: usize) -> Option<(&K, &V)>
        ensures { option_map deref_pair result ≡ option_map pair_of (slice_get self.now.entries index) }
    {
        self.entries.get_index(index)
    }

    /// The key and the value of the first entry, if there is one.
    #[inline]
    pub fn first(&self) -> Option<(&K, &V)>
        ensures { option_map deref_pair result ≡ option_map pair_of (slice_get self.now.entries 0) }
    {
        self.entries.get_index(0)
    }

    /// The key and the value of the last entry, if there is one.
    #[inline]
    pub fn last(&self) -> Option<(&K, &V)>
        ensures { option_map deref_pair result ≡ option_map pair_of (slice_get self.now.entries (length self.now.entries - 1)) }
    {
        self.entries.get_index(self.len().saturating_sub(1))
    }

    // The key and the value at an index.
    #[inline]
    pub(crate) fn pair_at(&self, index: usize) -> (&K, &V)
        requires { index < length self.now.entries }
        ensures { option_map pair_of (slice_get self.now.entries index) ≡ Some (deref_pair result) }
    {
        let (key, value) = self.entries.get_unchecked(index);
        (key.into_key(), value)
    }
}
