//! The calls that make the iterators of a `SmallSet`.
ghost use Rattle.std.specs.Prelude.{◌≡◌, ◌^◌, ◌<◌, length, map};
ghost use Rattle.std.specs.Map.{keys_of};
ghost use Rattle.std.specs.Map.Iter.{deref};
ghost use Rattle.starlark_hash.specs.declared.hashed.Hashed.{Hashed as Under};
ghost use Rattle.starlark_hash.specs.Entries.{IsSingle, entry_key};
ghost use Rattle.starlark_hash.specs.Unit.{deref_hashed};
ghost use Rattle.starlark_small.specs.Iter.{GivesEach, ShowsEach};

use super::SmallSet;
use crate::iter::{IntoIter, IntoIterHashed, Iter, IterHashed};
use starlark_small as map;

impl<T: Eq> SmallSet<T> {
    /// Returns an iterator over the elements in order of insertion.
    #[inline]
    pub fn iter(&self) -> Iter<'_, T>
        ensures elements { result ≡ map entry_key self.now.entries }
        ensures runs { ShowsEach self.now.entries result (deref {X = T}) }
    {
        self.map.keys()
    }

    /// Returns an iterator over the elements in order of insertion, each under its hash.
    #[inline]
    pub fn iter_hashed(&self) -> IterHashed<'_, T>
        ensures elements { result ≡ keys_of self.now.entries }
        ensures single { IsSingle T.eq self.now.entries }
        ensures runs { ShowsEach self.now.entries result (deref_hashed {T = T}) }
        ensures few { length self.now.entries < 2 ^ 63 }
    {
        IterHashed::new(self.entries())
    }

    // Returns an iterator over the entries of the map, in order.
    #[inline]
    pub(crate) fn entries(&self) -> map::IterHashed<'_, T, ()>
        ensures entries { result ≡ self.now.entries }
        ensures single { IsSingle T.eq self.now.entries }
        ensures fits { length self.now.entries < 2 ^ 64 }
        ensures few { length self.now.entries < 2 ^ 63 }
    {
        self.map.iter_hashed()
    }
}

impl<T: Eq + Drop> SmallSet<T> {
    /// Returns an iterator over the elements by value, in order of insertion, each under its hash.
    #[inline]
    pub fn into_iter_hashed(self) -> IntoIterHashed<T>
        ensures elements { result ≡ keys_of self.entries }
        ensures single { IsSingle T.eq self.entries }
        ensures runs { GivesEach self.entries result (Under T) }
    {
        let SmallSet { map, alloc: _alloc } = self;
        IntoIterHashed::new(map.into_iter_hashed())
    }
}

impl<T: Eq + Drop> IntoIterator for SmallSet<T> {
    type Item = T;

    type IntoIter = IntoIter<T>;

    ghost into_iter_gives = { λ s rest. (rest ≡ map entry_key s.entries) × GivesEach s.entries rest T };

    /// Returns an iterator over the elements by value, in order of insertion.
    #[inline]
    fn into_iter(self) -> IntoIter<T> {
        let SmallSet { map, alloc: _alloc } = self;
        map.into_keys()
    }
}

impl<'a, T: Eq> IntoIterator for &'a SmallSet<T> {
    type Item = &'a T;

    type IntoIter = Iter<'a, T>;

    ghost into_iter_gives = { λ s rest. (rest ≡ map entry_key s.now.entries) × ShowsEach s.now.entries rest (deref {X = T}) };

    /// Returns an iterator over the elements in order of insertion.
    #[inline]
    fn into_iter(self) -> Iter<'a, T> {
        self.iter()
    }
}
