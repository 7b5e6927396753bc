//! The iterator of a `Vec2` that owns its pairs. The model is the list of the pairs that are left.
ghost use Rattle.std.specs.Prelude.{◌≡◌, ◌<◌, ◌^◌, length, IfSome, Some};
ghost use Rattle.std.specs.Iterator.{UpTo, at_most};
ghost use Rattle.std.specs.Iterator.SizeHint.{IsWithinCount};
ghost use Rattle.std.specs.Map.Iter.{TakesFirst, TakesLast, GivesInOrder, GivesInReverse};

use super::Vec2;
use starlark_columns::pair::{Block, give_back};
use starlark_columns::{Row, Spot};
use std::alloc::Global;
use std::iter::FusedIterator;
use std::marker::Model;

/// The pairs, by value. Dropping it drops the pairs that are left.
pub struct IntoIter<A, B> {
    firsts: Row<A>,
    seconds: Row<B>,
    // The indices between which the pairs are left.
    from: usize,
    to: usize,
    // The address of the block, and how many cells each column has.
    spot: Spot<B>,
    alloc: Global,
    block: Block<B, A>,
}

impl<A, B> Model for IntoIter<A, B> {
    ghost use Rattle.std.specs.Prelude.{List, zip};
    ghost use Rattle.starlark_columns.specs.Block.{IsBlockOf, IsSpotOf};
    ghost use Rattle.starlark_columns.specs.Cells.{items_of};
    ghost use Rattle.starlark_columns.specs.Between.{IsBetween};

    ghost Value = { List (A × B) };

    ghost view = { λ it. zip (items_of it.firsts.cells) (items_of it.seconds.cells) };

    ghost invariant = { λ it. IsBetween it.firsts.cells it.from it.to × IsBetween it.seconds.cells it.from it.to × IsBlockOf it.block it.seconds it.firsts × IsSpotOf it.spot it.block };
}

impl<A: Drop, B: Drop> Iterator for IntoIter<A, B> {
    type Item = (A, B);

    ghost next_gives = { TakesFirst (λ p. p) };

    ghost remaining = { λ rest. at_most (length rest) };

    #[inline]
    fn next(&mut self) -> Option<(A, B)> {
        let (from, to) = (self.from, self.to);
        if from == to {
            return None;
        }
        let spot = self.spot;
        self.from = from + 1;
        Some((
            self.firsts
                .take_first_between(self.block.second(spot), from, to),
            self.seconds.take_first_between(spot, from, to),
        ))
    }

    #[inline]
    fn size_hint(&self) -> (usize, Option<usize>)
        ensures lower { IsWithinCount result.0 (at_most (length self.now)) }
        ensures upper { IfSome result.1 (UpTo (at_most (length self.now))) }
        ensures exact { result ≡ (length self.now, Some (length self.now)) }
    {
        let len = self.len();
        (len, Some(len))
    }
}

impl<A: Drop, B: Drop> DoubleEndedIterator for IntoIter<A, B> {
    ghost next_back_gives = { TakesLast (λ p. p) };

    #[tactic(auto, using(crate::proofs::Pairs::columns, std_collections::proofs::IterRuns::last_progress))]
    #[inline]
    fn next_back(&mut self) -> Option<(A, B)> {
        let from = self.from;
        if from == self.to {
            return None;
        }
        let last = self.to - 1;
        let spot = self.spot;
        self.to = last;
        Some((
            self.firsts
                .take_last_between(self.block.second(spot), from, last),
            self.seconds.take_last_between(spot, from, last),
        ))
    }
}

impl<A: Drop, B: Drop> ExactSizeIterator for IntoIter<A, B> {
    #[tactic(auto, using(crate::proofs::Pairs::columns))]
    #[inline]
    fn len(&self) -> usize {
        self.to - self.from
    }
}

impl<A: Drop, B: Drop> FusedIterator for IntoIter<A, B> {}

impl<A: Drop, B: Drop> IntoIterator for Vec2<A, B> {
    type Item = (A, B);

    type IntoIter = IntoIter<A, B>;

    ghost into_iter_gives = { λ v rest. (rest ≡ v.pairs) × (length v.pairs < 2 ^ 64) × GivesInOrder (A × B) × GivesInReverse (A × B) };

    #[inline]
    fn into_iter(self) -> IntoIter<A, B> {
        let to = self.len();
        let Vec2 {
            firsts,
            seconds,
            len: _,
            spot,
            alloc,
            block,
        } = self;
        IntoIter {
            firsts,
            seconds,
            from: 0,
            to,
            spot,
            alloc,
            block,
        }
    }
}

impl<A: Drop, B: Drop> Drop for IntoIter<A, B> {
    fn drop(self) {
        let IntoIter {
            mut firsts,
            mut seconds,
            from,
            to,
            spot,
            alloc,
            block,
        } = self;
        firsts.drop_between(block.second(spot), from, to);
        seconds.drop_between(spot, from, to);
        give_back(alloc, spot, seconds, firsts, block);
    }
}
