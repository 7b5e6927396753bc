//! Look-ups, by a key, by a key under its own hash, and by an index.
ghost use Rattle.std.specs.Prelude.{◌≡◌, ◌-◌, ◌<◌, is_some, slice_get, IfSome};
ghost use Rattle.std.specs.List.{IsAmong};
ghost use Rattle.std.specs.Map.Iter.{deref_pair};
ghost use Rattle.std.specs.Option.{option_copied, option_map};
ghost use Rattle.starlark_dict.specs.Dict.{dict_len, get_by, get_key_by, index_of_by, values};
ghost use Rattle.starlark_hash.specs.HashValue.{hash_of, key_of};
ghost use Rattle.starlark_hash.specs.Hasher.{own_hash};

use super::Dict;
use starlark_hash::{HashQuery, Hashed};
use std::hash::Hash;

impl<K: Eq + Hash, V> Dict<K, V> {
    /// The value at the key that the query stands for.
    #[inline(always)]
    pub fn get<Q: HashQuery<K>>(&self, key: Q) -> Option<&V>
        ensures value { option_copied result ≡ get_by (Q.stands_for key) self.now }
        ensures member { IfSome result (λ value. IsAmong (values self.now) value.now) }
    {
        self.get_hashed(Hashed::new(key))
    }

    /// `get` by a hash that was computed before, and is the query's own.
    #[inline(always)]
    #[tactic(auto, using(crate::proofs::OwnPairs::own_pairs))]
    pub fn get_hashed<Q: HashQuery<K>>(&self, key: Hashed<Q>) -> Option<&V>
        requires { hash_of key ≡ own_hash Q.hash_input (key_of key) }
        ensures value { option_copied result ≡ get_by (Q.stands_for (key_of key)) self.now }
        ensures member { IfSome result (λ value. IsAmong (values self.now) value.now) }
    {
        self.map.get_hashed(key)
    }

    /// Whether there is a key that the query stands for.
    #[inline(always)]
    pub fn contains_key<Q: HashQuery<K>>(&self, key: Q) -> bool
        ensures { result ≡ is_some (get_by (Q.stands_for key) self.now) }
    {
        self.contains_key_hashed(Hashed::new(key))
    }

    /// `contains_key` by a hash that was computed before, and is the query's own.
    #[inline(always)]
    #[tactic(auto, using(crate::proofs::OwnPairs::own_pairs))]
    pub fn contains_key_hashed<Q: HashQuery<K>>(&self, key: Hashed<Q>) -> bool
        requires { hash_of key ≡ own_hash Q.hash_input (key_of key) }
        ensures { result ≡ is_some (get_by (Q.stands_for (key_of key)) self.now) }
    {
        self.map.contains_key_hashed(key)
    }

    /// The index of the key that the query stands for.
    #[inline(always)]
    pub fn get_index_of<Q: HashQuery<K>>(&self, key: Q) -> Option<usize>
        ensures index { result ≡ index_of_by (Q.stands_for key) self.now }
        ensures found { is_some result ≡ is_some (get_by (Q.stands_for key) self.now) }
        ensures within { IfSome result (λ i. i < dict_len self.now) }
    {
        self.get_index_of_hashed(Hashed::new(key))
    }

    /// `get_index_of` by a hash that was computed before, and is the query's own.
    #[inline(always)]
    #[tactic(auto, using(crate::proofs::OwnPairs::own_pairs))]
    pub fn get_index_of_hashed<Q: HashQuery<K>>(&self, key: Hashed<Q>) -> Option<usize>
        requires { hash_of key ≡ own_hash Q.hash_input (key_of key) }
        ensures index { result ≡ index_of_by (Q.stands_for (key_of key)) self.now }
        ensures found { is_some result ≡ is_some (get_by (Q.stands_for (key_of key)) self.now) }
        ensures within { IfSome result (λ i. i < dict_len self.now) }
    {
        self.map.get_index_of_hashed(key)
    }

    /// The index of the key that the query stands for, with the stored key and the value there.
    #[inline(always)]
    pub fn get_full<Q: HashQuery<K>>(&self, key: Q) -> Option<(usize, &K, &V)>
        ensures index { option_map (λ found. found.0) result ≡ index_of_by (Q.stands_for key) self.now }
        ensures key { option_map (λ found. found.1.now) result ≡ get_key_by (Q.stands_for key) self.now }
        ensures value { option_map (λ found. found.2.now) result ≡ get_by (Q.stands_for key) self.now }
    {
        self.get_full_hashed(Hashed::new(key))
    }

    /// `get_full` by a hash that was computed before, and is the query's own.
    #[inline(always)]
    #[tactic(auto, using(crate::proofs::OwnPairs::own_pairs))]
    pub fn get_full_hashed<Q: HashQuery<K>>(&self, key: Hashed<Q>) -> Option<(usize, &K, &V)>
        requires { hash_of key ≡ own_hash Q.hash_input (key_of key) }
        ensures index { option_map (λ found. found.0) result ≡ index_of_by (Q.stands_for (key_of key)) self.now }
        ensures key { option_map (λ found. found.1.now) result ≡ get_key_by (Q.stands_for (key_of key)) self.now }
        ensures value { option_map (λ found. found.2.now) result ≡ get_by (Q.stands_for (key_of key)) self.now }
    {
        self.map.get_full_hashed(key)
    }

    /// The key and the value at an index; `None` past the end.
    #[inline]
    #[tactic(auto, using(crate::proofs::OwnPairs::own_pairs))]
    pub fn get_index(&self, index: usize) -> Option<(&K, &V)>
        ensures entry { option_map deref_pair result ≡ slice_get self.now.entries index }
    {
        self.map.get_index(index)
    }

    /// The first key and its value, if there is one.
    #[inline]
    #[tactic(auto, using(crate::proofs::OwnPairs::own_pairs))]
    pub fn first(&self) -> Option<(&K, &V)>
        ensures entry { option_map deref_pair result ≡ slice_get self.now.entries 0 }
    {
        self.map.first()
    }

    /// The last key and its value, if there is one.
    #[inline]
    #[tactic(auto, using(crate::proofs::OwnPairs::own_pairs))]
    pub fn last(&self) -> Option<(&K, &V)>
        ensures entry { option_map deref_pair result ≡ slice_get self.now.entries (dict_len self.now - 1) }
    {
        self.map.last()
    }
}
