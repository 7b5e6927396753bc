//! The iterator over a loan of pairs, which lends the values mutably.
ghost use Rattle.std.specs.Prelude.{◌≡◌, length, IfSome, Some};
ghost use Rattle.std.specs.Iterator.{UpTo, at_most};
ghost use Rattle.std.specs.Iterator.SizeHint.{IsWithinCount};
ghost use Rattle.std.specs.Map.Iter.{TakesFirst, TakesLast, deref_pair_mut};

use crate::loan::Loan;
use std::iter::FusedIterator;
use std::marker::Model;

/// Pairs, each as `(&K, &mut V)`. The model is the list of the pairs that are left, and the name of the loan: a
/// contract says by this name what the lent list ends as.
#[derive(Drop)]
pub struct PairsMut<'a, K, V> {
    loan: Loan<'a, K, V>,
    from: usize,
    to: usize,
}

impl<'a, K, V> Model for PairsMut<'a, K, V> {
    ghost use Rattle.std.specs.Prelude.{◌≡◌, ◌+◌, ◌<◌, List, length};
    ghost use Rattle.std.specs.Borrow.{GName};

    ghost Value = { List (K × V) × GName };

    ghost view = { λ p. (p.loan.rest, p.loan.tie) };

    ghost invariant = { λ p. (p.to ≡ p.from + length p.loan.rest) × (0 < length p.loan.rest → p.from ≡ p.loan.from) };
}

impl<'a, K, V> PairsMut<'a, K, V> {
    // An iterator over all pairs of a loan of `len` pairs, of which none is taken yet.
    #[inline]
    pub(crate) fn of(loan: Loan<'a, K, V>, len: usize) -> PairsMut<'a, K, V>
        requires untouched { loan.from ≡ 0 }
        requires all { len ≡ length loan.rest }
        ensures rest { result.0 ≡ loan.entry.rest }
        ensures name { result.1 ≡ loan.entry.tie }
    {
        PairsMut {
            loan,
            from: 0,
            to: len,
        }
    }
}

impl<'a, K, V> Iterator for PairsMut<'a, K, V> {
    type Item = (&'a K, &'a mut V);

    ghost next_gives = { λ s r t. TakesFirst deref_pair_mut s.0 r t.0 };

    ghost remaining = { λ s. at_most (length s.0) };

    #[inline]
    fn next(&mut self) -> Option<(&'a K, &'a mut V)> {
        let index = self.from;
        if index == self.to {
            return None;
        }
        self.from = index + 1;
        Some(self.loan.take_end(index))
    }

    #[inline]
    fn size_hint(&self) -> (usize, Option<usize>)
        ensures lower { IsWithinCount result.0 (at_most (length self.now.0)) }
        ensures upper { IfSome result.1 (UpTo (at_most (length self.now.0))) }
        ensures exact { result ≡ (length self.now.0, Some (length self.now.0)) }
    {
        let len = self.len();
        (len, Some(len))
    }
}

impl<'a, K, V> DoubleEndedIterator for PairsMut<'a, K, V> {
    ghost next_back_gives = { λ s r t. TakesLast deref_pair_mut s.0 r t.0 };

    #[inline]
    fn next_back(&mut self) -> Option<(&'a K, &'a mut V)> {
        if self.from == self.to {
            return None;
        }
        let index = self.to - 1;
        self.to = index;
        Some(self.loan.take_end(index))
    }
}

impl<'a, K, V> ExactSizeIterator for PairsMut<'a, K, V> {
    #[inline]
    fn len(&self) -> usize {
        self.to - self.from
    }
}

impl<'a, K, V> FusedIterator for PairsMut<'a, K, V> {}
