//! The mutable iterator over the values of a `ReadyTable` of pairs. Hashes and keys cannot change.
ghost use Rattle.std.specs.Prelude.{◌≡◌, length, IfSome, Some};
ghost use Rattle.std.specs.Iterator.{UpTo, at_most};
ghost use Rattle.std.specs.Iterator.SizeHint.{IsWithinCount};
ghost use Rattle.std.specs.Map.Iter.{TakesFirst, deref_pair_mut};
ghost use Rattle.starlark_table.specs.Table.{items_in};

use crate::kept_hash::KeptHash;
use crate::loan::PairLoan;
use std::iter::FusedIterator;
use std::marker::Model;

/// The mutable iterator over the pairs of a table, each as `(&K, &mut V)`. It is seen as the pairs that are left, and the
/// name of its loan.
#[derive(Drop)]
pub struct PairsMut<'a, K, V, H: KeptHash = u64> {
    loan: PairLoan<'a, K, V, H>,
    slot: usize,
    end: usize,
    left: usize,
}

impl<'a, K, V, H: KeptHash> Model for PairsMut<'a, K, V, H> {
    ghost use Rattle.std.specs.Prelude.{◌≡◌, ◌+◌, List, length};
    ghost use Rattle.std.specs.Borrow.{GName};
    ghost use Rattle.starlark_table.specs.Table.{filled, items_in};

    ghost Value = { List (K × V) × GName };

    ghost view = { λ it. (items_in it.loan.rest, it.loan.tie) };

    ghost invariant = { λ it. (it.slot ≡ it.loan.from) × (it.end ≡ it.loan.from + length it.loan.rest) × (it.left ≡ length (filled it.loan.rest)) };
}

impl<'a, K, V, H: KeptHash> PairsMut<'a, K, V, H> {
    ghost use Rattle.std.specs.Prelude.{length};
    ghost use Rattle.starlark_table.specs.Table.{filled};

    #[inline]
    pub(crate) fn new(loan: PairLoan<'a, K, V, H>, end: usize, left: usize) -> Self
        requires { (loan.from ≡ 0) × (end ≡ length loan.rest) × (left ≡ length (filled loan.rest)) }
        ensures { (result.0 ≡ items_in loan.entry.rest) × (result.1 ≡ loan.entry.tie) }
    {
        PairsMut {
            loan,
            slot: 0,
            end,
            left,
        }
    }
}

impl<'a, K, V, H: KeptHash> Iterator for PairsMut<'a, K, V, H> {
    type Item = (&'a K, &'a mut V);

    ghost next_gives = { λ s r t. TakesFirst deref_pair_mut s.0 r t.0 };

    ghost remaining = { λ s. at_most (length s.0) };

    #[inline]
    fn next(&mut self) -> Option<(&'a K, &'a mut V)> {
        let end = self.end;
        while self.slot != end {
            let slot = self.slot;
            self.slot = slot + 1;
            if let Some(pair) = self.loan.take(slot) {
                self.left -= 1;
                return Some(pair);
            }
        }
        None
    }

    #[inline]
    fn size_hint(&self) -> (usize, Option<usize>)
        ensures lower { IsWithinCount result.0 (at_most (length self.now.0)) }
        ensures upper { IfSome result.1 (UpTo (at_most (length self.now.0))) }
        ensures exact { result ≡ (length self.now.0, Some (length self.now.0)) }
    {
        (self.left, Some(self.left))
    }
}

impl<'a, K, V, H: KeptHash> ExactSizeIterator for PairsMut<'a, K, V, H> {
    #[inline]
    fn len(&self) -> usize {
        self.left
    }
}

impl<'a, K, V, H: KeptHash> FusedIterator for PairsMut<'a, K, V, H> {}
