//! Look-ups in an `UnorderedMap`.
ghost use Rattle.std.specs.Prelude.{◌≡◌, IfSome, IsSome, Some, is_some, true};
ghost use Rattle.std.specs.Borrow.{sem};
ghost use Rattle.std.specs.List.{IsAmong};
ghost use Rattle.std.specs.Map.{values_of};
ghost use Rattle.std.specs.Option.{option_copied, option_copied_mut};
ghost use Rattle.starlark_hash.specs.HashValue.{hash_of, key_of};
ghost use Rattle.starlark_hash.specs.Hasher.{own_hash};
ghost use Rattle.starlark_unordered.specs.Lookup.{contains, get, get_under};
ghost use Rattle.starlark_unordered.specs.Pairs.{pairs_of};

use super::UnorderedMap;
use starlark_hash::{HashQuery, Hashed, Query, StarlarkHashValue};
use std::hash::Hash;
use std::ops::Index;

impl<K: Eq + Hash, V> UnorderedMap<K, V> {
    ghost use Rattle.starlark_unordered.specs.Lend.{lends_at};

    /// The value at the key that the query stands for.
    #[tactic(auto, using(crate::proofs::Callers::among_found))]
    #[inline(always)]
    pub fn get<Q: HashQuery<K>>(&self, query: Q) -> Option<&V>
        ensures value { option_copied result ≡ get Q.stands_for self.now query }
        ensures member { IfSome (option_copied result) (λ value. IsAmong (values_of (pairs_of self.now)) value) }
    {
        let (_, value) = self.pair_under(StarlarkHashValue::new(&query), query)?;
        Some(value)
    }

    /// The value at the key, if this is the key's own hash. Another hash finds nothing.
    #[inline(always)]
    pub fn get_hashed<Q: Query<K>>(&self, key: Hashed<Q>) -> Option<&V>
        ensures value { option_copied result ≡ get_under Q.stands_for K.hash_input self.now key }
        // A look-up without a hash finds the same value. Conversely, for each key whose own hash this is and which the query
        // stands for, the result is what `get` finds at it.
        ensures found { IfSome (option_copied result) (λ value. get Q.stands_for self.now (key_of key) ≡ Some value) }
        ensures own { (same : K) → hash_of key ≡ own_hash K.hash_input same → Q.stands_for (key_of key) ≡ K.eq same → get K.eq self.now same ≡ option_copied result }
        ensures member { IfSome (option_copied result) (λ value. IsAmong (values_of (pairs_of self.now)) value) }
    {
        let (_, value) = self.pair_hashed(key.hash(), key.into_key())?;
        Some(value)
    }

    /// Whether the map has the key that the query stands for.
    #[inline(always)]
    pub fn contains_key<Q: HashQuery<K>>(&self, query: Q) -> bool
        ensures { result ≡ contains Q.stands_for self.now query }
    {
        self.get(query).is_some()
    }

    /// Whether the map has the key, and this is its own hash.
    #[inline(always)]
    pub fn contains_key_hashed<Q: Query<K>>(&self, key: Hashed<Q>) -> bool
        ensures value { result ≡ is_some (get_under Q.stands_for K.hash_input self.now key) }
        // If it is found, a look-up without a hash finds the key. If an equal key with this own hash is there, it is found
        // here too.
        ensures found { result ≡ true → contains Q.stands_for self.now (key_of key) ≡ true }
        ensures own { (same : K) → hash_of key ≡ own_hash K.hash_input same → Q.stands_for (key_of key) ≡ K.eq same → contains K.eq self.now same ≡ result }
    {
        self.get_hashed(key).is_some()
    }

    /// The value at the key that the query stands for, for writing. The map ends with what is left in it, and all else is
    /// unchanged. `None` if there is no such key; then the map is unchanged.
    #[inline(always)]
    pub fn get_mut<Q: HashQuery<K>>(&mut self, query: Q) -> Option<&mut V>
        ensures* writes_back { sem 𝓛 (lends_at K.row V.row K.Hash self.entry (Q.stands_for query) result) }
        ensures value { option_copied_mut result ≡ get Q.stands_for self.old query }
        ensures member { IfSome (option_copied_mut result) (λ value. IsAmong (values_of (pairs_of self.old)) value) }
    {
        match self.slot_under(StarlarkHashValue::new(&query), query) {
            Some(slot) => Some(self.value_at_mut(slot)),
            None => None,
        }
    }
}

impl<K: Eq + Hash, V, Q: HashQuery<K>> Index<Q> for UnorderedMap<K, V> {
    type Output = V;

    ghost can_index = { λ m query. IsSome (get Q.stands_for m query) };

    ghost index_gives = { λ m query value. get Q.stands_for m query ≡ Some value };

    /// The value at the key, which must be there.
    #[inline]
    fn index(&self, query: Q) -> &V {
        self.get(query).unwrap()
    }
}
