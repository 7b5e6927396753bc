//! The iterators of a `SortedSet`, in ascending order.
ghost use Rattle.std.specs.Prelude.{◌≡◌, ◌^◌, ◌<◌, length, map};
ghost use Rattle.std.specs.Map.Iter.{deref};
ghost use Rattle.starlark_hash.specs.Entries.{IsSingle, entry_key};
ghost use Rattle.starlark_hash.specs.Sort.{Ascends};
ghost use Rattle.starlark_small.specs.Lookup.{AreOwn};
ghost use Rattle.starlark_map.specs.Sorted.{AscendsAlong, AscendsStrictly};
ghost use Rattle.starlark_map.specs.SortedUnion.{GivesRise, ShowsRise, rise, rise_rest};
ghost use Rattle.starlark_small.specs.Iter.{GivesEach, ShowsEach};

use super::SortedSet;
use crate::union::{Ahead, SortedUnion};
use starlark_sets::ordered_set::{IntoIter, Iter};
use std::hash::Hash;

impl<T: Ord + Hash> SortedSet<T> {
    /// The elements in order. No two have the same hash and are equal; if each is stored under its own hash, they ascend
    /// strictly.
    #[tactic(auto, using(crate::proofs::AscendingKeys::along))]
    #[inline]
    pub fn iter(&self) -> Iter<'_, T>
        ensures elements { result ≡ map entry_key self.now.entries }
        ensures single { IsSingle T.eq self.now.entries }
        ensures ascends { Ascends T.cmp self.now.entries }
        ensures along { AscendsAlong T.cmp result }
        ensures strictly { AreOwn T.hash_input self.now → AscendsStrictly T.cmp self.now.entries }
        ensures runs { ShowsEach self.now.entries result (deref {X = T}) }
    {
        prove!(self.inner.iter_hashed().len() == self.inner.len());
        self.inner.iter()
    }

    /// The elements of this set and those of the other that this one lacks, in ascending order. Each is looked up under its
    /// stored hash, so that an equal element of the other set under another hash is included; of equal elements those of
    /// this set come first. No two have the same hash and are equal, and they ascend strictly if each is stored under its
    /// own hash. It asks for no memory. The size hint's lower end is the number left of this set, plus the number left of
    /// the other less this set's length; its upper end is the number left of both. The lower end is cut at the greatest
    /// `usize`, and the upper end is `None` if the sum is above that. There is no exact length, and no clone.
    pub fn union<'a>(&'a self, other: &'a Self) -> SortedUnion<'a, T>
        ensures left { result ≡ record { left = self.now.entries; right = other.now.entries; there = self.now.entries } }
        ensures single { IsSingle T.eq (rise T.eq T.cmp self.now.entries other.now.entries) }
        ensures ascends { Ascends T.cmp (rise T.eq T.cmp self.now.entries other.now.entries) }
        ensures strictly { AreOwn T.hash_input self.now → AreOwn T.hash_input other.now → AscendsStrictly T.cmp (rise T.eq T.cmp self.now.entries other.now.entries) }
        ensures fits { length (rise_rest T.eq T.cmp result) < 2 ^ 64 }
        ensures gives { GivesRise T.cmp (length self.now.entries) (length other.now.entries) (rise_rest T.eq T.cmp result) }
        ensures runs { ShowsRise T.eq T.cmp }
    {
        SortedUnion::new(self.ahead(), other.ahead(), &self.inner)
    }

    // The elements in order, each with its stored hash. The first has been taken beforehand.
    #[inline]
    fn ahead(&self) -> Ahead<'_, T>
        ensures elements { result ≡ self.now.entries }
        ensures ascends { Ascends T.cmp self.now.entries }
        ensures single { IsSingle T.eq self.now.entries }
        ensures few { length self.now.entries < 2 ^ 63 }
    {
        Ahead::new(self.inner.iter_hashed())
    }
}

impl<T: Ord + Hash + Drop> IntoIterator for SortedSet<T> {
    type Item = T;

    type IntoIter = IntoIter<T>;

    ghost into_iter_gives = { λ s rest. (rest ≡ map entry_key s.entries) × Ascends T.cmp s.entries × GivesEach s.entries rest T };

    /// The elements by value, in order. No two have the same hash and are equal; if each is stored under its own hash, they
    /// ascend strictly.
    #[inline]
    fn into_iter(self) -> IntoIter<T>
        ensures into_iter_gives { (result ≡ map entry_key self.entries) × Ascends T.cmp self.entries × GivesEach self.entries result T }
        ensures single { IsSingle T.eq self.entries }
        ensures strictly { AreOwn T.hash_input self → AscendsStrictly T.cmp self.entries }
    {
        prove!(self.inner.iter_hashed().len() == self.inner.len());
        self.inner.into_iter()
    }
}

impl<'a, T: Ord + Hash> IntoIterator for &'a SortedSet<T> {
    type Item = &'a T;

    type IntoIter = Iter<'a, T>;

    ghost into_iter_gives = { λ s rest. (rest ≡ map entry_key s.now.entries) × Ascends T.cmp s.now.entries × ShowsEach s.now.entries rest (deref {X = T}) };

    /// The elements in order. They are those of `iter`.
    #[inline]
    fn into_iter(self) -> Iter<'a, T>
        ensures into_iter_gives { (result ≡ map entry_key self.now.entries) × Ascends T.cmp self.now.entries × ShowsEach self.now.entries result (deref {X = T}) }
        ensures single { IsSingle T.eq self.now.entries }
        ensures strictly { AreOwn T.hash_input self.now → AscendsStrictly T.cmp self.now.entries }
    {
        self.iter()
    }
}
