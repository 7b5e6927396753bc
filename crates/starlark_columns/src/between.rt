//! Rows whose items are in a range of cells, for an iterator that takes items from either end.
ghost use Rattle.std.specs.Prelude.{◌≡◌, ◌+◌, ◌<◌, [], ◌∷◌, ◌++◌, length};
ghost use Rattle.starlark_columns.specs.Cells.{items_of};
ghost use Rattle.starlark_columns.specs.Block.{LiesAt};
ghost use Rattle.starlark_columns.specs.Front.{IsFront};
ghost use Rattle.starlark_columns.specs.Between.{IsBetween};

use crate::block::Spot;
use crate::row::Row;

impl<T> Row<T> {
    /// Removes and returns the first item. The items are in the cells from `from` up to `to`.
    #[inline]
    #[tactic(auto, using(crate::proofs::ItemsBetween::first_filled))]
    pub fn take_first_between(&mut self, spot: Spot<T>, from: usize, to: usize) -> T
        requires spot { LiesAt spot self.old }
        requires between { IsBetween self.old.cells from to }
        requires some { from < to }
        ensures between { IsBetween self.new.cells (from + 1) to }
        ensures items { items_of self.old.cells ≡ result ∷ items_of self.new.cells }
        ensures cells { length self.new.cells ≡ length self.old.cells }
        ensures at { self.new.at ≡ self.old.at }
    {
        self.take(spot, from)
    }

    /// Removes and returns the last item. The items are in the cells from `from` to `last`.
    #[inline]
    pub fn take_last_between(&mut self, spot: Spot<T>, from: usize, last: usize) -> T
        requires spot { LiesAt spot self.old }
        requires between { IsBetween self.old.cells from (last + 1) }
        requires some { from < last + 1 }
        ensures between { IsBetween self.new.cells from last }
        ensures items { items_of self.old.cells ≡ items_of self.new.cells ++ result ∷ [] }
        ensures cells { length self.new.cells ≡ length self.old.cells }
        ensures at { self.new.at ≡ self.old.at }
    {
        self.take(spot, last)
    }
}

impl<T: Drop> Row<T> {
    /// Drops all items, which are in the cells from `from` up to `to`.
    #[tactic(auto, using(crate::proofs::ItemsAtFront::front_empties, crate::proofs::ItemsBetween::none_between))]
    pub fn drop_between(&mut self, spot: Spot<T>, from: usize, to: usize)
        requires spot { LiesAt spot self.old }
        requires between { IsBetween self.old.cells from to }
        ensures empty { IsFront self.new.cells 0 }
        ensures cells { length self.new.cells ≡ length self.old.cells }
        ensures at { self.new.at ≡ self.old.at }
    {
        let mut first = from;
        while first < to {
            let _item = self.take_first_between(spot, first, to);
            first += 1;
        }
    }
}
