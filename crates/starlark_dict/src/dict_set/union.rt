//! A set beside another: what one has and the other lacks, and what is in either. Each iterator is seen as the list of
//! what it has left.
ghost use Rattle.std.specs.Iterator.{at_most};
ghost use Rattle.std.specs.List.{IsDistinct};
ghost use Rattle.std.specs.Map.Iter.{deref, ShowsInOrder, TakesFirst};
ghost use Rattle.std.specs.Prelude.{◌≡◌, ◌+◌, ◌^◌, ◌<◌, ◌≤◌, length};
ghost use Rattle.starlark_dict.specs.DictSet.{difference, set_len, union, IsDifference, IsUnion};

use super::DictSet;
use starlark_small::Keys;
use std::hash::Hash;
use std::marker::Model;

impl<T: Eq + Hash> DictSet<T> {
    /// The elements that the other set lacks, in order.
    pub fn difference<'a>(&'a self, other: &'a Self) -> Difference<'a, T>
        ensures rest { result ≡ difference T.eq self.now other.now }
        ensures members { IsDifference T.eq self.now other.now result }
        ensures unique { IsDistinct T.eq result }
        ensures bound { length result ≤ set_len self.now }
        ensures fits { length result < 2 ^ 63 }
        ensures runs { ShowsInOrder (deref {X = T}) }
    {
        Difference {
            left: self.iter(),
            other,
        }
    }

    /// The elements of this set, and then those of the other that this one lacks.
    pub fn union<'a>(&'a self, other: &'a Self) -> Union<'a, T>
        ensures rest { result ≡ union T.eq self.now other.now }
        ensures members { IsUnion T.eq self.now other.now result }
        ensures unique { IsDistinct T.eq result }
        ensures bound { length result ≤ set_len self.now + set_len other.now }
        ensures fits { length result < 2 ^ 64 }
        ensures runs { ShowsInOrder (deref {X = T}) }
    {
        Union {
            first: self.iter(),
            second: other.difference(self),
        }
    }
}

/// The elements of one set that another lacks, in order.
#[derive(Drop)]
pub struct Difference<'a, T: Eq + Hash> {
    left: Keys<'a, T, ()>,
    other: &'a DictSet<T>,
}

impl<'a, T: Eq + Hash> Model for Difference<'a, T> {
    ghost use Rattle.std.specs.Prelude.{List, filter, not};
    ghost use Rattle.starlark_dict.specs.DictSet.{contains};

    ghost Value = { List T };

    ghost view = { λ d. filter (λ x. not (contains T.eq d.other.now x)) d.left };
}

impl<'a, T: Eq + Hash> Iterator for Difference<'a, T> {
    type Item = &'a T;

    ghost next_gives = { TakesFirst deref };

    ghost remaining = { λ rest. at_most (length rest) };

    fn next(&mut self) -> Option<&'a T> {
        while let Some(element) = self.left.next() {
            if !self.other.contains(element) {
                return Some(element);
            }
        }
        None
    }

    fn size_hint(&self) -> (usize, Option<usize>) {
        (0, Some(self.left.len()))
    }
}

/// The elements of one set, and then those of another that it lacks.
#[derive(Drop)]
pub struct Union<'a, T: Eq + Hash> {
    first: Keys<'a, T, ()>,
    second: Difference<'a, T>,
}

impl<'a, T: Eq + Hash> Model for Union<'a, T> {
    ghost use Rattle.std.specs.Prelude.{◌++◌, List};

    ghost Value = { List T };

    ghost view = { λ u. u.first ++ u.second };
}

impl<'a, T: Eq + Hash> Iterator for Union<'a, T> {
    type Item = &'a T;

    ghost next_gives = { TakesFirst deref };

    ghost remaining = { λ rest. at_most (length rest) };

    fn next(&mut self) -> Option<&'a T> {
        if let Some(element) = self.first.next() {
            return Some(element);
        }
        self.second.next()
    }

    fn size_hint(&self) -> (usize, Option<usize>) {
        let first = self.first.len();
        match self.second.size_hint().1 {
            Some(most) => (first, first.checked_add(most)),
            None => (first, None),
        }
    }
}
