//! The iterators of an `OrderedMap`, which lend its entries, write its values, or take it apart.
ghost use Rattle.std.specs.Prelude.{◌≡◌, map, ◌^◌, ◌<◌, length};
ghost use Rattle.std.specs.Map.{values_of};
ghost use Rattle.std.specs.Map.Iter.{deref, deref_pair};
ghost use Rattle.starlark_hash.specs.Entries.{IsSingle, entry_key, entry_value, pair_of};
ghost use Rattle.starlark_small.specs.Iter.{deref_entry, GivesEach, ShowsEach, ShowsValues};
ghost use Rattle.std.specs.Borrow.{sem};
ghost use Rattle.starlark_small.specs.Lend.{KeepsAllButValues};
ghost use Rattle.starlark_sets.specs.Lend.{values_follow};

use super::OrderedMap;
use starlark_small::{IntoIter, Iter, IterHashed, IterMut, Keys, Values, ValuesMut};

impl<K: Eq, V> OrderedMap<K, V> {
    /// Returns an iterator over the keys and values in order.
    #[inline]
    pub fn iter(&self) -> Iter<'_, K, V>
        ensures pairs { result ≡ map pair_of self.now.entries }
        ensures values { values_of result ≡ map entry_value self.now.entries }
        ensures runs { ShowsEach self.now.entries result (deref_pair {K = K} {X = V}) }
    {
        self.0.iter()
    }

    /// Returns an iterator over the keys in order.
    #[inline]
    pub fn keys(&self) -> Keys<'_, K, V>
        ensures keys { result ≡ map entry_key self.now.entries }
        ensures runs { ShowsEach self.now.entries result (deref {X = K}) }
    {
        self.0.keys()
    }

    /// Returns an iterator over the values in order.
    #[inline]
    pub fn values(&self) -> Values<'_, K, V>
        ensures values { result ≡ map entry_value self.now.entries }
        ensures runs { ShowsValues K.eq self.now.entries result }
    {
        self.0.values()
    }

    /// Returns an iterator over the entries in order, each key under its hash.
    #[inline]
    pub fn iter_hashed(&self) -> IterHashed<'_, K, V>
        ensures entries { result ≡ self.now.entries }
        ensures single { IsSingle K.eq self.now.entries }
        ensures runs { ShowsEach self.now.entries result (deref_entry {K = K} {V = V}) }
    {
        self.0.iter_hashed()
    }

    /// Returns an iterator over the keys and values in order, which lends the values. The map ends with what is left in
    /// them. Keys, hashes, order, room, capacity and hash index stay.
    #[inline]
    pub fn iter_mut(&mut self) -> IterMut<'_, K, V>
        ensures* writes_back { sem 𝓛 (values_follow K.row V.row K.PartialEq self.entry result.1) }
        ensures pairs { result.0 ≡ map pair_of self.old.entries }
        ensures fits { length self.old.entries < 2 ^ 64 }
        ensures keeps { KeepsAllButValues K.eq self.old }
    {
        self.as_mut_small_map().iter_mut()
    }

    /// Returns an iterator over the values in order, which lends them. The map ends with what is left in them. Keys,
    /// hashes, order, room, capacity and hash index stay.
    #[tactic(auto, using(starlark_vecmap::proofs::WrittenValues::written))]
    #[inline]
    pub fn values_mut(&mut self) -> ValuesMut<'_, K, V>
        ensures* writes_back { sem 𝓛 (values_follow K.row V.row K.PartialEq self.entry result.1) }
        ensures values { values_of result.0 ≡ map entry_value self.old.entries }
        ensures fits { length self.old.entries < 2 ^ 64 }
        ensures keeps { KeepsAllButValues K.eq self.old }
    {
        ValuesMut::of(self.iter_mut())
    }
}

impl<K: Eq + Drop, V: Drop> IntoIterator for OrderedMap<K, V> {
    type Item = (K, V);

    type IntoIter = IntoIter<K, V>;

    ghost into_iter_gives = { λ m rest. (rest ≡ map pair_of m.entries) × GivesEach m.entries rest (K × V) };

    /// Returns an iterator over the keys and values by value, in order.
    #[inline]
    fn into_iter(self) -> IntoIter<K, V>
        ensures into_iter_gives { (result ≡ map pair_of self.entries) × GivesEach self.entries result (K × V) }
        ensures values { values_of result ≡ map entry_value self.entries }
    {
        self.0.into_iter()
    }
}

impl<'a, K: Eq, V> IntoIterator for &'a OrderedMap<K, V> {
    type Item = (&'a K, &'a V);

    type IntoIter = Iter<'a, K, V>;

    ghost into_iter_gives = { λ m rest. (rest ≡ map pair_of m.now.entries) × ShowsEach m.now.entries rest (deref_pair {K = K} {X = V}) };

    /// Returns an iterator over the keys and values in order.
    #[inline]
    fn into_iter(self) -> Iter<'a, K, V>
        ensures into_iter_gives { (result ≡ map pair_of self.now.entries) × ShowsEach self.now.entries result (deref_pair {K = K} {X = V}) }
        ensures values { values_of result ≡ map entry_value self.now.entries }
    {
        self.iter()
    }
}

impl<'a, K: Eq, V> IntoIterator for &'a mut OrderedMap<K, V> {
    type Item = (&'a K, &'a mut V);

    type IntoIter = IterMut<'a, K, V>;

    ghost into_iter_gives = { λ m rest. (rest.0 ≡ map pair_of m.now.entries) × (length m.now.entries < 2 ^ 64) };

    /// Returns the iterator of `iter_mut`.
    #[inline]
    fn into_iter(self) -> IterMut<'a, K, V>
        ensures* writes_back { sem 𝓛 (values_follow K.row V.row K.PartialEq self.entry result.1) }
        ensures into_iter_gives { (result.0 ≡ map pair_of self.old.entries) × (length self.old.entries < 2 ^ 64) }
        ensures keeps { KeepsAllButValues K.eq self.old }
    {
        self.iter_mut()
    }
}
