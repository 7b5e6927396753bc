//! `Column`, a row of cells in one block of memory, or without a block if they take no bytes.
ghost use Rattle.std.specs.Prelude.{◌≡◌, ◌+◌, ◌-◌, ◌*◌, ◌^◌, ◌<◌, ◌≤◌, [], ◌++◌, Some, None, map, length, take, drop, get_or, slice_set, slice_range, IfOk, IsOk};
ghost use Rattle.std.specs.Borrow.{sem};
ghost use Rattle.std.specs.Mem.{type_size};
ghost use Rattle.starlark_columns.specs.Cells.{empties, IsFilled};
ghost use Rattle.starlark_columns.specs.Front.{IsFront};

use crate::block::{
    Address, Claim, Spot, allocate, bare, bare_claim, deallocate, item_size, let_go,
};
use crate::loan::{Keeps, Loan};
use crate::row::Row;
use std::alloc::{AllocError, Global};
use std::marker::{Model, PhantomData};
use std_alloc::room::may_hold;

/// A row of cells, each empty or with an item. Nothing at run time says which cells are full: the type above has to
/// know it. `give_back` gives the memory back, when every cell is empty. The model is the list of the cells, and the
/// contract of each call says what the whole list is afterwards.
pub struct Column<T> {
    address: Address<T>,
    count: usize,
    row: Row<T>,
    claim: Claim<T, Global>,
}

impl<T> Model for Column<T> {
    ghost use Rattle.std.specs.Prelude.{◌≡◌, List, Option, length};
    ghost use Rattle.starlark_columns.specs.Block.{IsColumn};

    ghost Value = { List (Option T) };

    ghost view = { λ c. c.row.cells };

    ghost invariant = { λ c. IsColumn c.address c.count c.row c.claim };
}

// Construction and deallocation

impl<T> Column<T> {
    /// A column without cells, which takes no memory.
    #[inline]
    pub fn new(alloc: Global) -> Column<T>
        ensures cells { result ≡ [] }
        ensures front { IsFront result 0 }
    {
        Column::without_block(alloc, 0)
    }

    // A column of cells that take no bytes, which has no block.
    #[inline]
    fn without_block(alloc: Global, count: usize) -> Column<T>
        requires { count * type_size T.row ≡ 0 }
        ensures { result ≡ empties count }
    {
        let (address, row) = bare(count);
        let claim = bare_claim(&alloc, address, count);
        Column {
            address,
            count,
            row,
            claim,
        }
    }

    /// A column of `count` empty cells. It is refused if there is no memory, or if that many items cannot be addressed.
    /// Cells that take no bytes are never refused, and need no memory.
    pub fn with_cells(alloc: Global, count: usize) -> Result<Column<T>, AllocError>
        ensures made { IfOk result (λ c. c ≡ empties count) }
        ensures fits { IfOk result (λ _. count * type_size T.row < 2 ^ 63) }
        ensures succeeds { count * type_size T.row ≡ 0 → IsOk result }
    {
        if count == 0 || item_size::<T>() == 0 {
            return Ok(Column::without_block(alloc, count));
        }
        if !may_hold::<T>(count) {
            return Err(AllocError);
        }
        let (address, row, claim) = allocate(&alloc, count)?;
        Ok(Column {
            address,
            count,
            row,
            claim,
        })
    }

    /// Gives the memory back. Every cell must be empty, so that no item is forgotten.
    #[inline]
    pub fn give_back(self, alloc: Global)
        requires { self ≡ empties (length self) }
    {
        let Column {
            address,
            count,
            row,
            claim,
        } = self;
        if count == 0 || item_size::<T>() == 0 {
            let_go(row, claim);
        } else {
            deallocate(&alloc, address, count, row, claim);
        }
    }

    /// The number of cells.
    #[inline]
    pub fn cells(&self) -> usize
        ensures cells { result ≡ length self.now }
        ensures fits { length self.now < 2 ^ 64 }
    {
        self.count
    }
}

// One cell

impl<T> Column<T> {
    ghost use Rattle.starlark_columns.specs.Lend.{lends_column_item};

    /// Stores an item in an empty cell.
    #[inline]
    pub fn write(&mut self, index: usize, item: T)
        requires { (index < length self.old) × (get_or self.old index None ≡ None) }
        ensures { self.new ≡ slice_set self.old index (Some item) }
    {
        let spot = Spot {
            address: self.address,
            count: self.count,
        };
        self.row.write(spot, index, item);
    }

    /// Moves the item out of a full cell, which is then empty.
    #[inline]
    pub fn take(&mut self, index: usize) -> T
        requires { IsFilled self.old index }
        ensures value { get_or self.old index None ≡ Some result }
        ensures cells { self.new ≡ slice_set self.old index None }
    {
        let spot = Spot {
            address: self.address,
            count: self.count,
        };
        self.row.take(spot, index)
    }

    /// The item of a full cell.
    #[inline]
    pub fn get(&self, index: usize) -> &T
        requires { IsFilled self.now index }
        ensures { get_or self.now index None ≡ Some result.now }
    {
        let count = self.count;
        prove!(index < count);
        self.row.get(self.address, count, index)
    }

    /// The item of a full cell, mutably. All other cells stay.
    #[inline]
    #[tactic(auto, using(std::proofs::lemmas::Grind::common_steps))]
    pub fn get_mut(&mut self, index: usize) -> &mut T
        requires { IsFilled self.old index }
        ensures* writes_back { sem 𝓛 (lends_column_item T.row self.entry index result) }
        ensures value { get_or self.old index None ≡ Some result.now }
    {
        self.row.get_mut(self.address, index)
    }
}

// Many cells

impl<T> Column<T> {
    ghost use Rattle.starlark_columns.specs.Loan.{cells_follow};

    /// The right to write the items, from which an iterator takes them one by one. Each full cell ends with the item
    /// that is written there, except for the part that `P` keeps, which does not change. Empty cells stay empty.
    #[inline]
    pub fn lend<P: Keeps<T>>(&mut self) -> Loan<'_, T, P>
        ensures* writes_back { sem 𝓛 (cells_follow T.row P.kept self.entry result.tie) }
        ensures untouched { result.from ≡ 0 }
        ensures rest { result.rest ≡ self.old }
    {
        Loan {
            start: self.address.at.cast_mut(),
            mark: PhantomData,
        }
    }
}
