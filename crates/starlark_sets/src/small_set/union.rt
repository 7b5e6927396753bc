//! The difference and the union of two `SmallSet`s.
ghost use Rattle.std.specs.Prelude.{◌≡◌, ◌^◌, ◌<◌, ◌≤◌, ◌&&◌, ◌||◌, length, not};
ghost use Rattle.std.specs.Set.{is_member};
ghost use Rattle.starlark_hash.specs.Entries.{IsSingle};
ghost use Rattle.starlark_small.specs.Lookup.{AreOwn, contains};
ghost use Rattle.starlark_sets.specs.Difference.{ShowsDifference, difference, difference_rest};
ghost use Rattle.starlark_sets.specs.Union.{CountsEither, ShowsUnion, union, union_rest};

use super::SmallSet;
use crate::difference::Difference;
use crate::union::Union;
use std::hash::Hash;

impl<T: Eq> SmallSet<T> {
    /// Returns an iterator over the elements that the other set lacks, in order. Each element is looked up under its
    /// stored hash. The lower bound of the size hint is the number left to look at less the length of the other set,
    /// and the upper bound is the number left to look at.
    pub fn difference<'a>(&'a self, other: &'a Self) -> Difference<'a, T>
    where
        T: Hash,
        ensures left { result ≡ record { left = self.now.entries; other = other.now.entries } }
        ensures single { IsSingle T.eq (difference T.eq self.now.entries other.now.entries) }
        ensures members { AreOwn T.hash_input self.now → (element : T) → is_member T.eq (difference_rest T.eq result) element ≡ (contains T.eq T.hash_input self.now element && not (contains T.eq T.hash_input other.now element)) }
        ensures most { length (difference_rest T.eq result) ≤ length self.now.entries }
        ensures fits { length (difference_rest T.eq result) < 2 ^ 64 }
        ensures runs { ShowsDifference T.eq }
    {
        Difference::new(self.map.iter_hashed(), other)
    }

    /// Returns an iterator over the elements of this set, and then over those of the other that this one lacks. Those
    /// are looked up under their stored hashes. The size hint is the sum of the number left of this set and of the size
    /// hint of the other's `difference`. Its lower bound is at most the greatest `usize`, and its upper bound is `None`
    /// if the sum is above that.
    pub fn union<'a>(&'a self, other: &'a Self) -> Union<'a, T>
    where
        T: Hash,
        ensures left { result ≡ record { first = self.now.entries; second = record { left = other.now.entries; other = self.now.entries } } }
        ensures single { IsSingle T.eq (union T.eq self.now.entries other.now.entries) }
        ensures fits { length (union_rest T.eq result) < 2 ^ 64 }
        ensures count { CountsEither (length self.now.entries) (length other.now.entries) (length (union_rest T.eq result)) }
        ensures members { AreOwn T.hash_input self.now → AreOwn T.hash_input other.now → (element : T) → is_member T.eq (union_rest T.eq result) element ≡ (contains T.eq T.hash_input self.now element || contains T.eq T.hash_input other.now element) }
        ensures runs { ShowsUnion T.eq }
    {
        let first = self.entries();
        Union::new(first, Difference::new(other.entries(), self))
    }
}
