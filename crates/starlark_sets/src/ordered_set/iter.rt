//! The iterators of an `OrderedSet`, which are those of the set inside.
ghost use Rattle.std.specs.Prelude.{◌≡◌, ◌||◌, ◌^◌, ◌<◌, length, map};
ghost use Rattle.std.specs.Map.{keys_of};
ghost use Rattle.std.specs.Map.Iter.{deref};
ghost use Rattle.std.specs.Set.{is_member};
ghost use Rattle.starlark_hash.specs.Entries.{IsSingle, entry_key};
ghost use Rattle.starlark_sets.specs.Union.{CountsEither, ShowsUnion, union, union_rest};
ghost use Rattle.starlark_hash.specs.Unit.{deref_hashed};
ghost use Rattle.starlark_small.specs.Iter.{GivesEach, ShowsEach};
ghost use Rattle.starlark_small.specs.Lookup.{AreOwn, contains};

use super::OrderedSet;
use crate::iter::{self, IterHashed};
use crate::union::Union;
use std::hash::Hash;

/// An iterator over the elements in order.
pub type Iter<'a, T> = iter::Iter<'a, T>;

/// An iterator over the elements by value, in order.
pub type IntoIter<T> = iter::IntoIter<T>;

impl<T: Eq> OrderedSet<T> {
    /// Returns an iterator over the elements in order.
    #[inline]
    pub fn iter(&self) -> Iter<'_, T>
        ensures elements { result ≡ map entry_key self.now.entries }
        ensures runs { ShowsEach self.now.entries result (deref {X = T}) }
    {
        self.0.iter()
    }

    /// Returns an iterator over the elements in order, each under its hash.
    #[inline]
    pub fn iter_hashed(&self) -> IterHashed<'_, T>
        ensures elements { result ≡ keys_of self.now.entries }
        ensures single { IsSingle T.eq self.now.entries }
        ensures runs { ShowsEach self.now.entries result (deref_hashed {T = T}) }
        ensures few { length self.now.entries < 2 ^ 63 }
    {
        self.0.iter_hashed()
    }

    /// Returns an iterator over the elements of this set, and then over those of the other that this one lacks. Those
    /// are looked up under their stored hashes. The size hint is that of `SmallSet::union`.
    pub fn union<'a>(&'a self, other: &'a Self) -> Union<'a, T>
    where
        T: Hash,
        ensures left { result ≡ record { first = self.now.entries; second = record { left = other.now.entries; other = self.now.entries } } }
        ensures single { IsSingle T.eq (union T.eq self.now.entries other.now.entries) }
        ensures fits { length (union_rest T.eq result) < 2 ^ 64 }
        ensures count { CountsEither (length self.now.entries) (length other.now.entries) (length (union_rest T.eq result)) }
        ensures members { AreOwn T.hash_input self.now → AreOwn T.hash_input other.now → (element : T) → is_member T.eq (union_rest T.eq result) element ≡ (contains T.eq T.hash_input self.now element || contains T.eq T.hash_input other.now element) }
        ensures runs { ShowsUnion T.eq }
    {
        self.0.union(&other.0)
    }
}

impl<T: Eq + Drop> IntoIterator for OrderedSet<T> {
    type Item = T;

    type IntoIter = IntoIter<T>;

    ghost into_iter_gives = { λ s rest. (rest ≡ map entry_key s.entries) × GivesEach s.entries rest T };

    /// Returns an iterator over the elements by value, in order.
    #[inline]
    fn into_iter(self) -> IntoIter<T> {
        self.0.into_iter()
    }
}

impl<'a, T: Eq> IntoIterator for &'a OrderedSet<T> {
    type Item = &'a T;

    type IntoIter = Iter<'a, T>;

    ghost into_iter_gives = { λ s rest. (rest ≡ map entry_key s.now.entries) × ShowsEach s.now.entries rest (deref {X = T}) };

    /// Returns an iterator over the elements in order.
    #[inline]
    fn into_iter(self) -> Iter<'a, T> {
        self.iter()
    }
}
