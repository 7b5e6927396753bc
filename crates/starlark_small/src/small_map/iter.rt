//! The iterators of a `SmallMap`: those that lend its entries, those that write its values, and those that consume it.
ghost use Rattle.std.specs.Prelude.{◌≡◌, ◌^◌, ◌<◌, length, map};
ghost use Rattle.std.specs.Map.{values_of};
ghost use Rattle.std.specs.Map.Iter.{deref, deref_pair};
ghost use Rattle.starlark_hash.specs.Entries.{Entry, IsSingle, entry_key, entry_value, pair_of};
ghost use Rattle.starlark_small.specs.Iter.{deref_entry, GivesEach, GivesValues, HasDistinctKeys, ShowsEach, ShowsValues};
ghost use Rattle.std.specs.Borrow.{sem};
ghost use Rattle.starlark_small.specs.Lend.{values_follow, KeepsAllButValues};

use super::SmallMap;
use crate::iter::{
    IntoIter, IntoIterHashed, IntoKeys, IntoValues, Iter, IterHashed, IterMut, Keys, Values,
    ValuesMut,
};

impl<K: Eq, V> SmallMap<K, V> {
    /// The keys in order of insertion.
    #[tactic(auto, using(crate::proofs::CallerIter::walked))]
    #[inline]
    pub fn keys(&self) -> Keys<'_, K, V>
        ensures keys { result ≡ map entry_key self.now.entries }
        ensures runs { ShowsEach self.now.entries result (deref {X = K}) }
        // No two entries have the same hash and equal keys. So no two keys are equal if each is under its own hash.
        ensures single { IsSingle K.eq self.now.entries }
        ensures distinct { HasDistinctKeys K.eq self.now }
    {
        prove!(self.iter_hashed().len() == self.len());
        self.entries.keys()
    }

    /// The values in order of insertion.
    #[tactic(auto, using(crate::proofs::CallerIter::walked))]
    #[inline]
    pub fn values(&self) -> Values<'_, K, V>
        ensures values { result ≡ map entry_value self.now.entries }
        ensures runs { ShowsValues K.eq self.now.entries result }
        // No two entries have the same hash and equal keys. So no two keys are equal if each is under its own hash.
        ensures single { IsSingle K.eq self.now.entries }
        ensures distinct { HasDistinctKeys K.eq self.now }
    {
        prove!(self.iter_hashed().len() == self.len());
        self.entries.values()
    }

    /// The keys and values in order of insertion.
    #[tactic(auto, using(crate::proofs::CallerIter::walked))]
    #[inline]
    pub fn iter(&self) -> Iter<'_, K, V>
        ensures pairs { result ≡ map pair_of self.now.entries }
        ensures values { values_of result ≡ map entry_value self.now.entries }
        ensures runs { ShowsEach self.now.entries result (deref_pair {K = K} {X = V}) }
        // No two entries have the same hash and equal keys. So no two keys are equal if each is under its own hash.
        ensures single { IsSingle K.eq self.now.entries }
        ensures distinct { HasDistinctKeys K.eq self.now }
    {
        prove!(self.iter_hashed().len() == self.len());
        self.entries.iter()
    }

    /// The entries in order of insertion, each key with its hash.
    #[inline]
    pub fn iter_hashed(&self) -> IterHashed<'_, K, V>
        ensures entries { result ≡ self.now.entries }
        ensures runs { ShowsEach self.now.entries result (deref_entry {K = K} {V = V}) }
        // No two entries have the same hash and equal keys. So no two keys are equal if each is under its own hash.
        ensures single { IsSingle K.eq self.now.entries }
        ensures distinct { HasDistinctKeys K.eq self.now }
    {
        self.entries.iter_hashed()
    }

    /// The keys and values in order of insertion, for writing the values. The map ends with what is left in the values,
    /// and all else is unchanged.
    #[inline]
    pub fn iter_mut(&mut self) -> IterMut<'_, K, V>
        ensures* writes_back { sem 𝓛 (values_follow K.row V.row K.PartialEq self.entry result.1) }
        ensures pairs { result.0 ≡ map pair_of self.old.entries }
        ensures fits { length self.old.entries < 2 ^ 64 }
        ensures keeps { KeepsAllButValues K.eq self.old }
    {
        self.entries.iter_mut()
    }

    /// The values in order of insertion, for writing. The map ends with what is left in them, and all else is
    /// unchanged.
    #[tactic(auto, using(starlark_vecmap::proofs::WrittenValues::written))]
    #[inline]
    pub fn values_mut(&mut self) -> ValuesMut<'_, K, V>
        ensures* writes_back { sem 𝓛 (values_follow K.row V.row K.PartialEq self.entry result.1) }
        ensures values { values_of result.0 ≡ map entry_value self.old.entries }
        ensures fits { length self.old.entries < 2 ^ 64 }
        ensures keeps { KeepsAllButValues K.eq self.old }
    {
        ValuesMut::of(self.iter_mut())
    }
}

impl<K: Eq + Drop, V: Drop> SmallMap<K, V> {
    /// The keys by value, in order of insertion. A step drops the value of its key, and the iterator drops the rest.
    #[tactic(auto, using(crate::proofs::CallerIter::walked))]
    #[inline]
    pub fn into_keys(self) -> IntoKeys<K, V>
        ensures keys { result ≡ map entry_key self.entries }
        ensures runs { GivesEach self.entries result K }
    {
        let SmallMap {
            entries,
            index: _index,
        } = self;
        entries.into_keys()
    }

    /// The values by value, in order of insertion. A step drops the key of its value, and the iterator drops the rest.
    #[tactic(auto, using(crate::proofs::CallerIter::walked))]
    #[inline]
    pub fn into_values(self) -> IntoValues<K, V>
        ensures values { result ≡ map entry_value self.entries }
        ensures runs { GivesValues K.eq self.entries result }
    {
        let SmallMap {
            entries,
            index: _index,
        } = self;
        entries.into_values()
    }

    /// The entries by value, in order of insertion, each key with its hash.
    #[inline]
    pub fn into_iter_hashed(self) -> IntoIterHashed<K, V>
        ensures entries { result ≡ self.entries }
        ensures single { IsSingle K.eq self.entries }
        ensures runs { GivesEach self.entries result (Entry K V) }
    {
        let SmallMap {
            entries,
            index: _index,
        } = self;
        entries.into_iter_hashed()
    }
}

impl<K: Eq + Drop, V: Drop> IntoIterator for SmallMap<K, V> {
    type Item = (K, V);

    type IntoIter = IntoIter<K, V>;

    ghost into_iter_gives = { λ m rest. (rest ≡ map pair_of m.entries) × GivesEach m.entries rest (K × V) };

    /// The keys and values by value, in order of insertion.
    #[tactic(auto, using(crate::proofs::CallerIter::walked))]
    #[inline]
    fn into_iter(self) -> IntoIter<K, V>
        ensures into_iter_gives { (result ≡ map pair_of self.entries) × GivesEach self.entries result (K × V) }
        ensures values { values_of result ≡ map entry_value self.entries }
    {
        let SmallMap {
            entries,
            index: _index,
        } = self;
        entries.into_iter()
    }
}

impl<'a, K: Eq, V> IntoIterator for &'a SmallMap<K, V> {
    type Item = (&'a K, &'a V);

    type IntoIter = Iter<'a, K, V>;

    ghost into_iter_gives = { λ m rest. (rest ≡ map pair_of m.now.entries) × ShowsEach m.now.entries rest (deref_pair {K = K} {X = V}) };

    /// The keys and values in order of insertion.
    #[inline]
    fn into_iter(self) -> Iter<'a, K, V>
        ensures into_iter_gives { (result ≡ map pair_of self.now.entries) × ShowsEach self.now.entries result (deref_pair {K = K} {X = V}) }
        ensures values { values_of result ≡ map entry_value self.now.entries }
    {
        self.iter()
    }
}

impl<'a, K: Eq, V> IntoIterator for &'a mut SmallMap<K, V> {
    type Item = (&'a K, &'a mut V);

    type IntoIter = IterMut<'a, K, V>;

    ghost into_iter_gives = { λ m rest. (rest.0 ≡ map pair_of m.now.entries) × (length m.now.entries < 2 ^ 64) };

    /// The keys and values in order of insertion, for writing the values, as by `iter_mut`.
    #[inline]
    fn into_iter(self) -> IterMut<'a, K, V>
        ensures* writes_back { sem 𝓛 (values_follow K.row V.row K.PartialEq self.entry result.1) }
        ensures into_iter_gives { (result.0 ≡ map pair_of self.old.entries) × (length self.old.entries < 2 ^ 64) }
        ensures keeps { KeepsAllButValues K.eq self.old }
    {
        self.iter_mut()
    }
}
