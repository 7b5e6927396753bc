//! The iterators of a `SortedMap`, in ascending order of the keys.
ghost use Rattle.std.specs.Prelude.{◌≡◌, map, ◌^◌, ◌<◌, length};
ghost use Rattle.std.specs.Map.{values_of};
ghost use Rattle.std.specs.Map.Iter.{deref, deref_pair};
ghost use Rattle.starlark_hash.specs.Entries.{IsSingle, entry_key, entry_value, pair_of};
ghost use Rattle.starlark_hash.specs.Sort.{Ascends};
ghost use Rattle.starlark_small.specs.Iter.{deref_entry, GivesEach, ShowsEach, ShowsValues};
ghost use Rattle.starlark_small.specs.Lookup.{AreOwn};
ghost use Rattle.starlark_map.specs.Sorted.{AscendsAlong, AscendsStrictly};
ghost use Rattle.std.specs.Borrow.{sem};
ghost use Rattle.starlark_small.specs.Lend.{KeepsAllButValues};
ghost use Rattle.starlark_map.specs.SortedLend.{values_follow};

use super::SortedMap;
use starlark_small::{IntoIter, Iter, IterHashed, IterMut, Keys, Values, ValuesMut};
use std::hash::Hash;

impl<K: Ord + Hash, V> SortedMap<K, V> {
    /// The keys and values in ascending order of the keys.
    #[inline]
    pub fn iter(&self) -> Iter<'_, K, V>
        ensures pairs { result ≡ map pair_of self.now.entries }
        ensures values { values_of result ≡ map entry_value self.now.entries }
        ensures ascends { Ascends K.cmp self.now.entries }
        ensures runs { ShowsEach self.now.entries result (deref_pair {K = K} {X = V}) }
    {
        self.map.iter()
    }

    /// The keys in ascending order.
    #[inline]
    pub fn keys(&self) -> Keys<'_, K, V>
        ensures keys { result ≡ map entry_key self.now.entries }
        ensures ascends { Ascends K.cmp self.now.entries }
        ensures along { AscendsAlong K.cmp result }
        ensures runs { ShowsEach self.now.entries result (deref {X = K}) }
    {
        self.map.keys()
    }

    /// The values in the order of their keys.
    #[inline]
    pub fn values(&self) -> Values<'_, K, V>
        ensures values { result ≡ map entry_value self.now.entries }
        ensures ascends { Ascends K.cmp self.now.entries }
        ensures runs { ShowsValues K.eq self.now.entries result }
    {
        self.map.values()
    }

    /// The entries in order, each key with its hash. No two have the same hash and equal keys; if each hash is the key's
    /// own, the keys ascend strictly.
    #[inline]
    pub fn iter_hashed(&self) -> IterHashed<'_, K, V>
        ensures entries { result ≡ self.now.entries }
        ensures single { IsSingle K.eq self.now.entries }
        ensures ascends { Ascends K.cmp self.now.entries }
        ensures strictly { AreOwn K.hash_input self.now → AscendsStrictly K.cmp self.now.entries }
        ensures runs { ShowsEach self.now.entries result (deref_entry {K = K} {V = V}) }
    {
        self.map.iter_hashed()
    }

    /// The keys and values in order, for writing the values. The map ends with what is left in them; keys, hashes, order,
    /// room, capacity and hash index are unchanged.
    #[inline]
    pub fn iter_mut(&mut self) -> IterMut<'_, K, V>
        ensures* writes_back { sem 𝓛 (values_follow K.row V.row K.cmp K.eq K.partial_cmp K.hash_input self.entry result.1) }
        ensures pairs { result.0 ≡ map pair_of self.old.entries }
        ensures fits { length self.old.entries < 2 ^ 64 }
        ensures keeps { KeepsAllButValues K.eq self.old }
    {
        self.map.iter_mut()
    }

    /// The values in the order of their keys, for writing. The map ends with what is left in them; keys, hashes, order,
    /// room, capacity and hash index are unchanged.
    #[tactic(auto, using(starlark_vecmap::proofs::WrittenValues::written))]
    #[inline]
    pub fn values_mut(&mut self) -> ValuesMut<'_, K, V>
        ensures* writes_back { sem 𝓛 (values_follow K.row V.row K.cmp K.eq K.partial_cmp K.hash_input self.entry result.1) }
        ensures values { values_of result.0 ≡ map entry_value self.old.entries }
        ensures fits { length self.old.entries < 2 ^ 64 }
        ensures keeps { KeepsAllButValues K.eq self.old }
    {
        ValuesMut::of(self.iter_mut())
    }
}

impl<K: Ord + Hash + Drop, V: Drop> IntoIterator for SortedMap<K, V> {
    type Item = (K, V);

    type IntoIter = IntoIter<K, V>;

    ghost into_iter_gives = { λ m rest. (rest ≡ map pair_of m.entries) × Ascends K.cmp m.entries × GivesEach m.entries rest (K × V) };

    /// The keys and values by value, in ascending order of the keys.
    #[inline]
    fn into_iter(self) -> IntoIter<K, V>
        ensures into_iter_gives { (result ≡ map pair_of self.entries) × Ascends K.cmp self.entries × GivesEach self.entries result (K × V) }
        ensures values { values_of result ≡ map entry_value self.entries }
    {
        self.map.into_iter()
    }
}

impl<'a, K: Ord + Hash, V> IntoIterator for &'a SortedMap<K, V> {
    type Item = (&'a K, &'a V);

    type IntoIter = Iter<'a, K, V>;

    ghost into_iter_gives = { λ m rest. (rest ≡ map pair_of m.now.entries) × Ascends K.cmp m.now.entries × ShowsEach m.now.entries rest (deref_pair {K = K} {X = V}) };

    /// The keys and values in ascending order of the keys.
    #[inline]
    fn into_iter(self) -> Iter<'a, K, V>
        ensures into_iter_gives { (result ≡ map pair_of self.now.entries) × Ascends K.cmp self.now.entries × ShowsEach self.now.entries result (deref_pair {K = K} {X = V}) }
        ensures values { values_of result ≡ map entry_value self.now.entries }
    {
        self.iter()
    }
}

impl<'a, K: Ord + Hash, V> IntoIterator for &'a mut SortedMap<K, V> {
    type Item = (&'a K, &'a mut V);

    type IntoIter = IterMut<'a, K, V>;

    ghost into_iter_gives = { λ m rest. (rest.0 ≡ map pair_of m.now.entries) × (length m.now.entries < 2 ^ 64) };

    /// The keys and values in order, for writing the values. They are those of `iter_mut`.
    #[inline]
    fn into_iter(self) -> IterMut<'a, K, V>
        ensures* writes_back { sem 𝓛 (values_follow K.row V.row K.cmp K.eq K.partial_cmp K.hash_input self.entry result.1) }
        ensures into_iter_gives { (result.0 ≡ map pair_of self.old.entries) × (length self.old.entries < 2 ^ 64) }
        ensures keeps { KeepsAllButValues K.eq self.old }
    {
        self.iter_mut()
    }
}
