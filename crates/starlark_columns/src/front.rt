//! Rows whose items are in the first cells. The length is passed to each call, so that two rows share one length.
ghost use Rattle.std.specs.Prelude.{◌≡◌, ◌+◌, ◌-◌, ◌<◌, ◌≤◌, [], ◌∷◌, ◌++◌, Some, length, take, reverse, slice_get, IsOk, OnOk, OnErr};
ghost use Rattle.std.specs.Borrow.{sem};
ghost use Rattle.std.specs.List.{remove, AllZip};
ghost use Rattle.starlark_columns.specs.Cells.{items_of};
ghost use Rattle.starlark_columns.specs.Block.{LiesAt};
ghost use Rattle.starlark_columns.specs.Front.{IsFront};

use crate::block::{Address, Spot};
use crate::row::Row;
use std::alloc::AllocError;
use std::slice;

impl<T> Row<T> {
    ghost use Rattle.starlark_columns.specs.Lend.{lends_front, lends_item};

    /// The items, which are in the first `len` cells.
    #[inline]
    #[tactic(auto, using(crate::proofs::ItemsAtFront::front_full, crate::proofs::ItemsAtFront::front_items))]
    pub fn items(&self, address: Address<T>, len: usize) -> &[T]
        requires at { address.at ≡ self.now.at }
        requires front { IsFront self.now.cells len }
        ensures { result.now ≡ items_of self.now.cells }
    {
        self.slice(address, 0, len)
    }

    /// The items, which are in the first `len` cells, mutably.
    #[inline]
    pub fn items_mut(&mut self, address: Address<T>, len: usize) -> &mut [T]
        requires at { address.at ≡ self.old.at }
        requires front { IsFront self.old.cells len }
        ensures* writes_back { sem 𝓛 (lends_front T.row self.entry result) }
        ensures value { result.now ≡ items_of self.old.cells }
    {
        unsafe { slice::from_raw_parts_mut(address.at.cast_mut(), len) }
    }

    /// The item at this index.
    #[inline]
    pub fn item(&self, address: Address<T>, len: usize, index: usize) -> &T
        requires at { address.at ≡ self.now.at }
        requires front { IsFront self.now.cells len }
        requires within { index < len }
        ensures { slice_get (items_of self.now.cells) index ≡ Some result.now }
    {
        self.get(address, len, index)
    }

    /// The item at this index, mutably. All other items stay.
    #[inline]
    pub fn item_mut(&mut self, address: Address<T>, len: usize, index: usize) -> &mut T
        requires at { address.at ≡ self.old.at }
        requires front { IsFront self.old.cells len }
        requires within { index < len }
        ensures* writes_back { sem 𝓛 (lends_item T.row self.entry index result) }
        ensures value { slice_get (items_of self.old.cells) index ≡ Some result.now }
    {
        self.get_mut(address, index)
    }

    /// Appends an item to the `len` that are there. The row must have an empty cell.
    #[inline]
    #[tactic(auto, using(crate::proofs::ItemsAtFront::front_free))]
    pub fn push_last(&mut self, spot: Spot<T>, len: usize, item: T)
        requires spot { LiesAt spot self.old }
        requires front { IsFront self.old.cells len }
        requires room { len < length self.old.cells }
        ensures front { IsFront self.new.cells (len + 1) }
        ensures items { items_of self.new.cells ≡ items_of self.old.cells ++ item ∷ [] }
        ensures cells { length self.new.cells ≡ length self.old.cells }
        ensures at { self.new.at ≡ self.old.at }
    {
        self.write(spot, len, item);
    }

    /// Removes and returns the last item, which is at the index `last`.
    #[inline]
    #[tactic(auto, using(crate::proofs::ItemsAtFront::front_filled))]
    pub fn take_last(&mut self, spot: Spot<T>, last: usize) -> T
        requires spot { LiesAt spot self.old }
        requires front { IsFront self.old.cells (last + 1) }
        ensures front { IsFront self.new.cells last }
        ensures items { items_of self.old.cells ≡ items_of self.new.cells ++ result ∷ [] }
        ensures cells { length self.new.cells ≡ length self.old.cells }
        ensures at { self.new.at ≡ self.old.at }
    {
        self.take(spot, last)
    }

    /// Removes and returns the item at `index`. Each later item moves one cell down.
    #[inline]
    #[tactic(auto, using(crate::proofs::ItemsAtFront::gap_empty))]
    pub fn remove_at(&mut self, spot: Spot<T>, len: usize, index: usize) -> T
        requires spot { LiesAt spot self.old }
        requires front { IsFront self.old.cells len }
        requires within { index < len }
        ensures taken { slice_get (items_of self.old.cells) index ≡ Some result }
        ensures front { IsFront self.new.cells (len - 1) }
        ensures items { items_of self.new.cells ≡ remove (items_of self.old.cells) index }
        ensures cells { length self.new.cells ≡ length self.old.cells }
        ensures at { self.new.at ≡ self.old.at }
    {
        let item = self.take(spot, index);
        self.move_down(spot, index + 1, len, index);
        item
    }

    /// Moves all `len` items to the row `to`, whose cells must be empty and at least as many. No item is left here.
    #[inline]
    pub fn move_all(&mut self, spot: Spot<T>, len: usize, to: &mut Row<T>, to_spot: Spot<T>)
        requires spot { LiesAt spot self.old }
        requires other { LiesAt to_spot to.old }
        requires front { IsFront self.old.cells len }
        requires empty { IsFront to.old.cells 0 }
        requires room { len ≤ length to.old.cells }
        ensures left { IsFront self.new.cells 0 }
        ensures front { IsFront to.new.cells len }
        ensures items { items_of to.new.cells ≡ items_of self.old.cells }
        ensures cells { (length self.new.cells ≡ length self.old.cells) × (length to.new.cells ≡ length to.old.cells) }
        ensures at { (self.new.at ≡ self.old.at) × (to.new.at ≡ to.old.at) }
    {
        if len != 0 {
            let mut slots = self.open(spot.address, spot.count);
            let mut others = to.open(to_spot.address, to_spot.count);
            slots.move_run(0, &mut others, 0, len);
            self.close(slots, 0, len);
            to.close(others, 0, 0);
        }
    }

    /// Reverses the order of the items.
    #[inline]
    #[tactic(auto, using(crate::proofs::ItemsAtFront::all_written))]
    pub fn turn_round(&mut self, address: Address<T>, len: usize)
        requires at { address.at ≡ self.old.at }
        requires front { IsFront self.old.cells len }
        ensures front { IsFront self.new.cells len }
        ensures items { items_of self.new.cells ≡ reverse (items_of self.old.cells) }
        ensures cells { length self.new.cells ≡ length self.old.cells }
        ensures at { self.new.at ≡ self.old.at }
    {
        self.items_mut(address, len).reverse();
    }
}

impl<T: Drop> Row<T> {
    /// Drops the items from the index `to` on, the last one first.
    #[tactic(auto, using(crate::proofs::ItemsAtFront::one_fewer))]
    pub fn truncate(&mut self, spot: Spot<T>, len: usize, to: usize)
        requires spot { LiesAt spot self.old }
        requires front { IsFront self.old.cells len }
        requires within { to ≤ len }
        ensures front { IsFront self.new.cells to }
        ensures items { items_of self.new.cells ≡ take to (items_of self.old.cells) }
        ensures cells { length self.new.cells ≡ length self.old.cells }
        ensures at { self.new.at ≡ self.old.at }
    {
        let mut left = len;
        while to < left {
            left -= 1;
            let _item = self.take_last(spot, left);
        }
    }
}

impl<T: Clone + Drop> Row<T> {
    /// Stores clones of all `len` items in the row `to`, whose cells must be empty. If a clone is refused, the clones
    /// that were made are dropped, and `to` is empty again.
    pub fn clone_items(
        &self,
        address: Address<T>,
        len: usize,
        to: &mut Row<T>,
        to_spot: Spot<T>,
    ) -> Result<(), AllocError>
        requires at { address.at ≡ self.now.at }
        requires other { LiesAt to_spot to.old }
        requires front { IsFront self.now.cells len }
        requires empty { IsFront to.old.cells 0 }
        requires room { len ≤ length to.old.cells }
        ensures refused { OnErr result (IsFront to.new.cells 0) }
        ensures front { OnOk result (IsFront to.new.cells len) }
        ensures items { OnOk result (AllZip T.is_clone (items_of self.now.cells) (items_of to.new.cells)) }
        ensures cells { length to.new.cells ≡ length to.old.cells }
        ensures at { to.new.at ≡ to.old.at }
        ensures succeeds { len ≡ 0 → IsOk result }
    {
        let items = self.items(address, len);
        for made in 0..len {
            match items[made].clone() {
                Ok(item) => to.push_last(to_spot, made, item),
                Err(refused) => {
                    to.truncate(to_spot, made, 0);
                    return Err(refused);
                }
            }
        }
        Ok(())
    }
}
