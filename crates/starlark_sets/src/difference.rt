//! The iterator over a difference of two sets.
ghost use Rattle.std.specs.Prelude.{◌≡◌, ◌-◌, length, Some, IfSome};
ghost use Rattle.std.specs.Iterator.{UpTo, at_most};
ghost use Rattle.std.specs.Iterator.SizeHint.{IsWithinCount};
ghost use Rattle.starlark_hash.specs.Entries.{IsSingle};
ghost use Rattle.starlark_sets.specs.Difference.{DifferenceSteps, difference_rest};

use crate::small_set::SmallSet;
use starlark_small::IterHashed;
use std::marker::Model;

/// An iterator over the elements of one set that another lacks, in order. Each element is looked up under its stored
/// hash, and a step passes over those that the other set has. A contract sees the elements left to look at, and the
/// list in which they are looked up.
#[derive(Drop)]
pub struct Difference<'a, T: Eq> {
    left: IterHashed<'a, T, ()>,
    other: &'a SmallSet<T>,
}

impl<'a, T: Eq> Model for Difference<'a, T> {
    ghost use Rattle.starlark_hash.specs.Entries.{IsSingle};
    ghost use Rattle.starlark_sets.specs.Difference.{Difference as Left};

    ghost Value = { Left T };

    ghost view = { λ d. record { left = d.left; other = d.other.now.entries } };

    // No two of the elements that are left have the same hash and are equal. So each element of the other set excludes
    // at most one, on which the lower bound of `size_hint` rests.
    ghost invariant = { λ d. IsSingle T.eq d.left };
}

impl<'a, T: Eq> Difference<'a, T> {
    #[inline]
    pub(crate) fn new(left: IterHashed<'a, T, ()>, other: &'a SmallSet<T>) -> Self
        requires { IsSingle T.eq left }
        ensures { result ≡ record { left = left.entry; other = other.now.entries } }
    {
        Difference { left, other }
    }
}

// Returns the first of the elements left that the other set lacks.
#[tactic(auto, using(crate::proofs::Differences::differences))]
fn next_lacking<'a, T: Eq>(left: &mut IterHashed<'a, T, ()>, other: &SmallSet<T>) -> Option<&'a T>
    ensures steps { DifferenceSteps T.eq (record { left = left.old; other = other.now.entries }) result (record { left = left.new; other = other.now.entries }) }
    ensures single { IsSingle T.eq left.old → IsSingle T.eq left.new }
{
    while let Some((element, _)) = left.next() {
        if !other.contains_hashed(element) {
            return Some(element.into_key());
        }
    }
    None
}

impl<'a, T: Eq> Iterator for Difference<'a, T> {
    type Item = &'a T;

    ghost next_gives = { DifferenceSteps T.eq };

    ghost remaining = { λ d. at_most (length (difference_rest T.eq d)) };

    fn next(&mut self) -> Option<&'a T> {
        next_lacking(&mut self.left, self.other)
    }

    fn size_hint(&self) -> (usize, Option<usize>)
        ensures lower { IsWithinCount result.0 (at_most (length (difference_rest T.eq self.now))) }
        ensures upper { IfSome result.1 (UpTo (at_most (length (difference_rest T.eq self.now)))) }
        ensures exact { result ≡ (length self.now.left - length self.now.other, Some (length self.now.left)) }
    {
        let left = self.left.len();
        (left.saturating_sub(self.other.len()), Some(left))
    }
}
