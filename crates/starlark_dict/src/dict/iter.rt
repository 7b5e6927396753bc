//! The iterators: those that lend the entries, and those that take the map apart. Each goes from both ends, with exact length.
ghost use Rattle.std.specs.Prelude.{◌≡◌, ◌^◌, ◌<◌, length};
ghost use Rattle.std.specs.Map.Iter.{deref, deref_pair, GivesInOrder, GivesInReverse, ShowsInOrder, ShowsInReverse, ShowsValuesInOrder};
ghost use Rattle.starlark_dict.specs.Dict.{dict_len, keys, values, IsUnique};

use super::Dict;
use starlark_small::{IntoIter, IntoKeys, IntoValues, Iter, Keys, Values};
use std::hash::Hash;

impl<K: Eq + Hash, V> Dict<K, V> {
    /// The keys and values in the map's order.
    #[inline]
    pub fn iter(&self) -> Iter<'_, K, V>
        ensures rest { result ≡ self.now.entries }
        ensures len { length result ≡ dict_len self.now }
        ensures runs { ShowsInOrder (deref_pair {K = K} {X = V}) }
        ensures runs_back { ShowsInReverse (deref_pair {K = K} {X = V}) }
        ensures values_run { ShowsValuesInOrder (deref_pair {K = K} {X = V}) }
        ensures unique { IsUnique K.eq self.now }
        ensures fits { dict_len self.now < 2 ^ 63 }
    {
        self.map.iter()
    }

    /// The keys in the map's order.
    #[inline]
    #[tactic(auto, using(crate::proofs::OwnPairs::own_pairs))]
    pub fn keys(&self) -> Keys<'_, K, V>
        ensures rest { result ≡ keys self.now }
        ensures len { length result ≡ dict_len self.now }
        ensures runs { ShowsInOrder (deref {X = K}) }
        ensures runs_back { ShowsInReverse (deref {X = K}) }
        ensures unique { IsUnique K.eq self.now }
        ensures fits { dict_len self.now < 2 ^ 63 }
    {
        self.map.keys()
    }

    /// The values in the map's order.
    #[inline]
    #[tactic(auto, using(crate::proofs::OwnPairs::own_pairs))]
    pub fn values(&self) -> Values<'_, K, V>
        ensures rest { result ≡ values self.now }
        ensures len { length result ≡ dict_len self.now }
        ensures runs { ShowsInOrder (deref {X = V}) }
        ensures runs_back { ShowsInReverse (deref {X = V}) }
        ensures unique { IsUnique K.eq self.now }
        ensures fits { dict_len self.now < 2 ^ 63 }
    {
        self.map.values()
    }
}

impl<K: Eq + Hash + Drop, V: Drop> Dict<K, V> {
    /// The keys by value, in the map's order.
    #[inline]
    #[tactic(auto, using(crate::proofs::OwnPairs::own_pairs))]
    pub fn into_keys(self) -> IntoKeys<K, V>
        ensures rest { result ≡ keys self }
        ensures len { length result ≡ dict_len self }
        ensures runs { GivesInOrder K }
        ensures runs_back { GivesInReverse K }
        ensures unique { IsUnique K.eq self }
        ensures fits { dict_len self < 2 ^ 63 }
    {
        prove!(self.map.iter_hashed().len() == self.map.len());
        let Dict { map } = self;
        map.into_keys()
    }

    /// The values by value, in the map's order.
    #[inline]
    #[tactic(auto, using(crate::proofs::OwnPairs::own_pairs))]
    pub fn into_values(self) -> IntoValues<K, V>
        ensures rest { result ≡ values self }
        ensures len { length result ≡ dict_len self }
        ensures runs { GivesInOrder V }
        ensures runs_back { GivesInReverse V }
        ensures unique { IsUnique K.eq self }
        ensures fits { dict_len self < 2 ^ 63 }
    {
        prove!(self.map.iter_hashed().len() == self.map.len());
        let Dict { map } = self;
        map.into_values()
    }
}

impl<K: Eq + Hash + Drop, V: Drop> IntoIterator for Dict<K, V> {
    type Item = (K, V);

    type IntoIter = IntoIter<K, V>;

    ghost into_iter_gives = { λ d rest. (rest ≡ d.entries) × (dict_len d < 2 ^ 63) × GivesInOrder (K × V) × GivesInReverse (K × V) × ShowsValuesInOrder (λ (p : K × V). p) × IsUnique K.eq d };

    /// The keys and values by value, in the map's order.
    #[inline]
    fn into_iter(self) -> IntoIter<K, V> {
        prove!(self.map.iter_hashed().len() == self.map.len());
        let Dict { map } = self;
        map.into_iter()
    }
}

impl<'a, K: Eq + Hash, V> IntoIterator for &'a Dict<K, V> {
    type Item = (&'a K, &'a V);

    type IntoIter = Iter<'a, K, V>;

    ghost into_iter_gives = { λ d rest. (rest ≡ d.now.entries) × (dict_len d.now < 2 ^ 63) × ShowsInOrder (deref_pair {K = K} {X = V}) × ShowsInReverse (deref_pair {K = K} {X = V}) × ShowsValuesInOrder (deref_pair {K = K} {X = V}) × IsUnique K.eq d.now };

    /// The keys and values in the map's order.
    #[inline]
    fn into_iter(self) -> Iter<'a, K, V> {
        self.iter()
    }
}
