//! The iterator over a union of two sets.
ghost use Rattle.std.specs.Prelude.{◌≡◌, ◌+◌, ◌-◌, ◌^◌, length, min, IfSome};
ghost use Rattle.std.specs.Iterator.{UpTo, at_most};
ghost use Rattle.std.specs.Iterator.SizeHint.{IsWithinCount};
ghost use Rattle.starlark_sets.specs.Union.{UnionSteps, fits_in, union_rest};

use crate::difference::Difference;
use starlark_small::IterHashed;
use std::marker::Model;

/// An iterator over the elements of one set, and then over those of another that it lacks, in order. Those are looked
/// up under their stored hashes. A contract sees what is left of the first set, and the other's `Difference` to that
/// set.
#[derive(Drop)]
pub struct Union<'a, T: Eq> {
    first: IterHashed<'a, T, ()>,
    second: Difference<'a, T>,
}

impl<'a, T: Eq> Model for Union<'a, T> {
    ghost use Rattle.starlark_sets.specs.Union.{Union as Both};

    ghost Value = { Both T };

    ghost view = { λ u. record { first = u.first; second = u.second } };
}

impl<'a, T: Eq> Union<'a, T> {
    #[inline]
    pub(crate) fn new(first: IterHashed<'a, T, ()>, second: Difference<'a, T>) -> Self
        ensures { result ≡ record { first = first.entry; second = second.entry } }
    {
        Union { first, second }
    }
}

impl<'a, T: Eq> Iterator for Union<'a, T> {
    type Item = &'a T;

    ghost next_gives = { UnionSteps T.eq };

    ghost remaining = { λ u. at_most (length (union_rest T.eq u)) };

    #[tactic(auto, using(crate::proofs::Differences::unions))]
    fn next(&mut self) -> Option<&'a T> {
        if let Some((element, _)) = self.first.next() {
            return Some(element.into_key());
        }
        self.second.next()
    }

    #[tactic(auto, using(crate::proofs::Differences::unions))]
    fn size_hint(&self) -> (usize, Option<usize>)
        ensures lower { IsWithinCount result.0 (at_most (length (union_rest T.eq self.now))) }
        ensures upper { IfSome result.1 (UpTo (at_most (length (union_rest T.eq self.now)))) }
        ensures least { result.0 ≡ min (length self.now.first + (length self.now.second.left - length self.now.second.other)) (2 ^ 64 - 1) }
        ensures most { result.1 ≡ fits_in (length self.now.first + length self.now.second.left) }
    {
        let first = self.first.len();
        let (least, most) = self.second.size_hint();
        (
            first.saturating_add(least),
            match most {
                Some(most) => first.checked_add(most),
                None => None,
            },
        )
    }
}
