//! The mutable iterator over the items of a `ReadyTable`. Their hashes cannot change.
ghost use Rattle.std.specs.Prelude.{◌≡◌, length, IfSome, Some};
ghost use Rattle.std.specs.Iterator.{UpTo, at_most};
ghost use Rattle.std.specs.Iterator.SizeHint.{IsWithinCount};
ghost use Rattle.std.specs.Map.Iter.{TakesFirst};
ghost use Rattle.starlark_table.specs.Table.{items_in};
ghost use Rattle.starlark_table.specs.Lend.{written_through};

use crate::kept_hash::KeptHash;
use crate::loan::Loan;
use std::iter::FusedIterator;
use std::marker::Model;

/// The mutable iterator over the items of a table. It is seen as the items that are left, and the name of its loan.
#[derive(Drop)]
pub struct IterMut<'a, T, H: KeptHash = u64> {
    loan: Loan<'a, T, H>,
    slot: usize,
    end: usize,
    left: usize,
}

impl<'a, T, H: KeptHash> Model for IterMut<'a, T, H> {
    ghost use Rattle.std.specs.Prelude.{◌≡◌, ◌+◌, List, length};
    ghost use Rattle.std.specs.Borrow.{GName};
    ghost use Rattle.starlark_table.specs.Table.{filled, items_in};

    ghost Value = { List T × GName };

    ghost view = { λ it. (items_in it.loan.rest, it.loan.tie) };

    ghost invariant = { λ it. (it.slot ≡ it.loan.from) × (it.end ≡ it.loan.from + length it.loan.rest) × (it.left ≡ length (filled it.loan.rest)) };
}

impl<'a, T, H: KeptHash> IterMut<'a, T, H> {
    ghost use Rattle.std.specs.Prelude.{length};
    ghost use Rattle.starlark_table.specs.Table.{filled};

    #[inline]
    pub(crate) fn new(loan: Loan<'a, T, H>, end: usize, left: usize) -> Self
        requires { (loan.from ≡ 0) × (end ≡ length loan.rest) × (left ≡ length (filled loan.rest)) }
        ensures { (result.0 ≡ items_in loan.entry.rest) × (result.1 ≡ loan.entry.tie) }
    {
        IterMut {
            loan,
            slot: 0,
            end,
            left,
        }
    }
}

impl<'a, T, H: KeptHash> Iterator for IterMut<'a, T, H> {
    type Item = &'a mut T;

    ghost next_gives = { λ s r t. TakesFirst written_through s.0 r t.0 };

    ghost remaining = { λ s. at_most (length s.0) };

    #[inline]
    fn next(&mut self) -> Option<&'a mut T> {
        let end = self.end;
        while self.slot != end {
            let slot = self.slot;
            self.slot = slot + 1;
            if let Some(item) = self.loan.take(slot) {
                self.left -= 1;
                return Some(item);
            }
        }
        None
    }

    #[inline]
    fn size_hint(&self) -> (usize, Option<usize>)
        ensures lower { IsWithinCount result.0 (at_most (length self.now.0)) }
        ensures upper { IfSome result.1 (UpTo (at_most (length self.now.0))) }
        ensures exact { result ≡ (length self.now.0, Some (length self.now.0)) }
    {
        (self.left, Some(self.left))
    }
}

impl<'a, T, H: KeptHash> ExactSizeIterator for IterMut<'a, T, H> {
    #[inline]
    fn len(&self) -> usize {
        self.left
    }
}

impl<'a, T, H: KeptHash> FusedIterator for IterMut<'a, T, H> {}
