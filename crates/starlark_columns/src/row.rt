//! `Row`, a row of cells without the right to deallocate their block, since another row may be in the same block. Items
//! move through the kit's `Slots`, in which every slot holds a value.
ghost use Rattle.std.specs.Prelude.{◌≡◌, ◌+◌, ◌-◌, ◌<◌, ◌≤◌, List, [], Option, Some, None, map, length, get_or, slice_set, slice_range};
ghost use Rattle.std.specs.Borrow.{sem};
ghost use denote.RawPtr.{Ptr};
ghost use Rattle.core.specs.Mem.Slots.{slots_items, slots_filled, slots_len, slots_ptr};
ghost use Rattle.starlark_columns.specs.Ownership.{row_owned, row_lent};
ghost use Rattle.starlark_columns.specs.Cells.{IsFilled, AreFilled, AreEmpty, moved_down};

use crate::block::{Address, Spot};
use core::slots::Slots;
use std::marker::{Model, PhantomData, Send, Sync};
use std::slice;

/// A row of cells, each empty or with an item. Nothing at run time says which cells are full: the type above has to
/// know it. The model has the cells and their address, so that `pair::give_back` takes only rows of one block. No call
/// changes the address. A row takes no bytes: each call that moves items is given the spot of the row, and each call
/// that reads or lends them its address, so that two rows of a block share one address and one count.
pub struct Row<T> {
    pub(crate) mark: PhantomData<*const T>,
    pub ghost at: { Ptr },
    pub ghost cells: { List (Option T) },
}

impl<T> Model for Row<T> {
    ghost also_owns = { λ r. row_owned T.row r.at r.cells };

    ghost also_shares = { λ r _ κ. row_lent T.row r.at r.cells κ };
}

unsafe impl<T: Send> Send for Row<T> {}

unsafe impl<T: Sync> Sync for Row<T> {}

impl<T> Row<T> {
    ghost use Rattle.starlark_columns.specs.Slots.{cells_of, emptied};

    // Moves the cells to the kit's `Slots`. The row is left without cells.
    pub(crate) fn open(&mut self, address: Address<T>, count: usize) -> Slots<T>
        requires any { T }
        requires cells { (address.at ≡ self.old.at) × (count ≡ length self.old.cells) }
        ensures cells { cells_of (slots_items result) (slots_filled result) ≡ self.old.cells }
        ensures slots { (slots_ptr result ≡ self.old.at) × (slots_len result ≡ count) }
        ensures left { (self.new.at ≡ self.old.at) × (self.new.cells ≡ []) }
    {
        unsafe { Slots::from_raw_parts(address.at.cast_mut(), count) }
    }

    // Moves the slots back to the row. The cells from `from` up to `to` are empty afterwards; their items are
    // forgotten, not dropped.
    pub(crate) fn close(&mut self, slots: Slots<T>, from: usize, to: usize)
        requires { (slots_ptr slots ≡ self.old.at) × (self.old.cells ≡ []) }
        ensures { (self.new.at ≡ self.old.at) × (self.new.cells ≡ emptied from to (cells_of (slots_items slots) (slots_filled slots))) }
    {
        let _parts = unsafe { slots.into_raw_parts() };
    }
}

impl<T> Row<T> {
    ghost use Rattle.starlark_columns.specs.Block.{LiesAt};
    ghost use Rattle.starlark_columns.specs.Lend.{lends_item};

    /// Stores an item in an empty cell.
    #[inline]
    #[tactic(auto, using(crate::proofs::CellsOfSlots::set_row, crate::proofs::CellsOfSlots::none_emptied))]
    pub fn write(&mut self, spot: Spot<T>, index: usize, item: T)
        requires spot { LiesAt spot self.old }
        requires empty { (index < length self.old.cells) × (get_or self.old.cells index None ≡ None) }
        ensures cells { self.new.cells ≡ slice_set self.old.cells index (Some item) }
        ensures at { self.new.at ≡ self.old.at }
    {
        let mut slots = self.open(spot.address, spot.count);
        slots.put(index, item);
        self.close(slots, 0, 0);
    }

    /// Moves the item out of a full cell, which is then empty.
    #[inline]
    #[tactic(auto, using(crate::proofs::CellsOfSlots::clear_row, crate::proofs::CellsOfSlots::none_emptied, crate::proofs::CellsOfSlots::at_item))]
    pub fn take(&mut self, spot: Spot<T>, index: usize) -> T
        requires spot { LiesAt spot self.old }
        requires filled { IsFilled self.old.cells index }
        ensures value { get_or self.old.cells index None ≡ Some result }
        ensures cells { self.new.cells ≡ slice_set self.old.cells index None }
        ensures at { self.new.at ≡ self.old.at }
    {
        let mut slots = self.open(spot.address, spot.count);
        let item = slots.take(index);
        self.close(slots, 0, 0);
        item
    }

    /// The item of a full cell, whose index is below `end`.
    #[inline]
    pub fn get(&self, address: Address<T>, end: usize, index: usize) -> &T
        requires at { address.at ≡ self.now.at }
        requires below { index < end }
        requires filled { IsFilled self.now.cells index }
        ensures { get_or self.now.cells index None ≡ Some result.now }
    {
        &self.slice(address, index, index + 1)[0]
    }

    /// The item of a full cell, mutably. All other cells stay.
    #[inline]
    pub fn get_mut(&mut self, address: Address<T>, index: usize) -> &mut T
        requires at { address.at ≡ self.old.at }
        requires filled { IsFilled self.old.cells index }
        ensures* writes_back { sem 𝓛 (lends_item T.row self.entry index result) }
        ensures value { get_or self.old.cells index None ≡ Some result.now }
    {
        unsafe { &mut *address.at.cast_mut().add(index) }
    }

    /// The items of the cells from `from` up to `to`, which must all be full.
    #[inline]
    pub fn slice(&self, address: Address<T>, from: usize, to: usize) -> &[T]
        requires at { address.at ≡ self.now.at }
        requires filled { AreFilled self.now.cells from to }
        ensures { slice_range self.now.cells from to ≡ map Some result.now }
    {
        unsafe { slice::from_raw_parts(address.at.add(from), to - from) }
    }

    /// Moves the items of the cells from `from` up to `end` down to the cells from `to` on, in their order. The cells
    /// from `to` up to `from` must be empty. Afterwards the last `from - to` cells below `end` are empty.
    #[inline]
    #[tactic(auto, using(crate::proofs::CellsOfSlots::stays_down))]
    pub fn move_down(&mut self, spot: Spot<T>, from: usize, end: usize, to: usize)
        requires spot { LiesAt spot self.old }
        requires items { AreFilled self.old.cells from end }
        requires gap { AreEmpty self.old.cells to from }
        ensures cells { self.new.cells ≡ moved_down self.old.cells from end to }
        ensures at { self.new.at ≡ self.old.at }
    {
        if from != end {
            let mut slots = self.open(spot.address, spot.count);
            slots.move_within(from, to, end - from);
            self.close(slots, to + (end - from), end);
        }
    }
}
