//! The iterators of a set, from both ends.
ghost use Rattle.std.specs.Prelude.{◌≡◌, ◌^◌, ◌<◌};
ghost use Rattle.std.specs.Map.Iter.{deref, GivesInOrder, GivesInReverse, ShowsInOrder, ShowsInReverse};
ghost use Rattle.starlark_dict.specs.DictSet.{set_len, IsUnique};

use super::DictSet;
use starlark_small::{IntoKeys, Keys};
use std::hash::Hash;

impl<T: Eq + Hash> DictSet<T> {
    /// The elements in the set's order. No two are equal.
    #[inline]
    pub fn iter(&self) -> Keys<'_, T, ()>
        ensures elements { result ≡ self.now.keys }
        ensures runs { ShowsInOrder (deref {X = T}) }
        ensures runs_back { ShowsInReverse (deref {X = T}) }
        ensures unique { IsUnique T.eq self.now }
        ensures fits { set_len self.now < 2 ^ 63 }
    {
        self.dict.keys()
    }
}

impl<'a, T: Eq + Hash> IntoIterator for &'a DictSet<T> {
    type Item = &'a T;

    type IntoIter = Keys<'a, T, ()>;

    ghost into_iter_gives = { λ s rest. (rest ≡ s.now.keys) × (set_len s.now < 2 ^ 63) × ShowsInOrder (deref {X = T}) × IsUnique T.eq s.now };

    /// The elements in the set's order.
    #[inline]
    fn into_iter(self) -> Keys<'a, T, ()> {
        self.iter()
    }
}

impl<T: Eq + Hash + Drop> IntoIterator for DictSet<T> {
    type Item = T;

    type IntoIter = IntoKeys<T, ()>;

    ghost into_iter_gives = { λ s rest. (rest ≡ s.keys) × (set_len s < 2 ^ 64) × GivesInOrder T × IsUnique T.eq s × GivesInReverse T };

    /// The elements by value, in the set's order.
    #[inline]
    fn into_iter(self) -> IntoKeys<T, ()> {
        let DictSet { dict } = self;
        dict.into_keys()
    }
}
