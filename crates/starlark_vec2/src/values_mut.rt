//! The iterator over a loan of pairs that lends only the values.
ghost use Rattle.std.specs.Prelude.{◌≡◌, length, IfSome, Some};
ghost use Rattle.std.specs.Iterator.{UpTo, at_most};
ghost use Rattle.std.specs.Iterator.SizeHint.{IsWithinCount};
ghost use Rattle.std.specs.Map.{values_of};
ghost use Rattle.std.specs.Map.Iter.{TakesFirst, TakesLast};
ghost use Rattle.starlark_vec2.specs.Loan.{deref_mut};

use crate::pairs_mut::PairsMut;
use std::iter::FusedIterator;
use std::marker::Model;

/// The values of pairs, each as `&mut V`. The model is that of a `PairsMut`.
#[derive(Drop)]
pub struct ValuesMut<'a, K, V> {
    pairs: PairsMut<'a, K, V>,
}

impl<'a, K, V> Model for ValuesMut<'a, K, V> {
    ghost use Rattle.std.specs.Prelude.{List};
    ghost use Rattle.std.specs.Borrow.{GName};

    ghost Value = { List (K × V) × GName };

    ghost view = { λ v. v.pairs };
}

impl<'a, K, V> ValuesMut<'a, K, V> {
    /// The values of the pairs that are left.
    #[inline]
    pub fn of(pairs: PairsMut<'a, K, V>) -> ValuesMut<'a, K, V>
        ensures { result ≡ pairs.entry }
    {
        ValuesMut { pairs }
    }
}

impl<'a, K, V> Iterator for ValuesMut<'a, K, V> {
    type Item = &'a mut V;

    ghost next_gives = { λ s r t. TakesFirst deref_mut (values_of s.0) r (values_of t.0) };

    ghost remaining = { λ s. at_most (length (values_of s.0)) };

    #[tactic(auto, using(crate::proofs::Pairs::values))]
    #[inline]
    fn next(&mut self) -> Option<&'a mut V> {
        match self.pairs.next() {
            Some((_, value)) => Some(value),
            None => None,
        }
    }

    #[tactic(auto, using(crate::proofs::Pairs::values))]
    #[inline]
    fn size_hint(&self) -> (usize, Option<usize>)
        ensures lower { IsWithinCount result.0 (at_most (length (values_of self.now.0))) }
        ensures upper { IfSome result.1 (UpTo (at_most (length (values_of self.now.0)))) }
        ensures exact { result ≡ (length self.now.0, Some (length self.now.0)) }
    {
        let len = self.len();
        (len, Some(len))
    }
}

impl<'a, K, V> DoubleEndedIterator for ValuesMut<'a, K, V> {
    ghost next_back_gives = { λ s r t. TakesLast deref_mut (values_of s.0) r (values_of t.0) };

    #[tactic(auto, using(crate::proofs::Pairs::values))]
    #[inline]
    fn next_back(&mut self) -> Option<&'a mut V> {
        match self.pairs.next_back() {
            Some((_, value)) => Some(value),
            None => None,
        }
    }
}

impl<'a, K, V> ExactSizeIterator for ValuesMut<'a, K, V> {
    #[tactic(auto, using(crate::proofs::Pairs::values))]
    #[inline]
    fn len(&self) -> usize {
        self.pairs.len()
    }
}

impl<'a, K, V> FusedIterator for ValuesMut<'a, K, V> {}
