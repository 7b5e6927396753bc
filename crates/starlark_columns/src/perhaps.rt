//! `Perhaps`, an item in a block of its own, or none: one pointer, which is null if there is none.
ghost use Rattle.std.specs.Prelude.{◌≡◌, Some, None, false, is_none, IfOk};
ghost use Rattle.std.specs.Borrow.{sem};
ghost use Rattle.std.specs.Option.{option_copied, option_copied_mut};

use crate::block::{
    Address, Claim, Spot, allocate, bare, bare_claim, deallocate, is_nowhere, item_size, known,
    let_go, nowhere,
};
use crate::row::Row;
use std::alloc::{AllocError, Global};
use std::marker::Model;
use std_alloc::room::may_hold;

/// An item in a block of its own, or none. It takes the 8 bytes of a pointer, while `Option<Box<T>>` takes 16. The
/// model is an `Option` of the item. When it is dropped, the item is dropped and its block is deallocated.
pub struct Perhaps<T> {
    address: Address<T>,
    row: Row<T>,
    claim: Claim<T, Global>,
    // The allocator of the block.
    alloc: Global,
}

impl<T> Model for Perhaps<T> {
    ghost use Rattle.std.specs.Prelude.{Option, None, get_or};
    ghost use Rattle.starlark_columns.specs.Perhaps.{IsPerhaps};

    ghost Value = { Option T };

    ghost view = { λ p. get_or p.row.cells 0 None };

    ghost invariant = { λ p. IsPerhaps p.address p.row p.claim };
}

impl<T> Perhaps<T> {
    ghost use Rattle.starlark_columns.specs.Lend.{lends_some, lends_there};

    /// No item and no block. It needs no memory.
    #[inline]
    pub fn none(alloc: Global) -> Perhaps<T>
        ensures { result ≡ None }
    {
        let (address, row) = bare(0);
        let claim = bare_claim(&alloc, address, 0);
        Perhaps {
            address: nowhere(),
            row,
            claim,
            alloc,
        }
    }

    /// The item, if there is one.
    #[inline]
    pub fn get(&self) -> Option<&T>
        ensures { option_copied result ≡ self.now }
    {
        if is_nowhere(self.address) {
            return None;
        }
        Some(self.row.get(self.address, 1, 0))
    }

    /// The item, if there is one, mutably.
    #[inline]
    pub fn get_mut(&mut self) -> Option<&mut T>
        ensures* writes_back { sem 𝓛 (lends_some T.row self.entry result) }
        ensures value { option_copied_mut result ≡ self.old }
    {
        if is_nowhere(self.address) {
            return None;
        }
        Some(self.there_mut())
    }

    // The item, which must be there, mutably.
    #[inline]
    fn there_mut(&mut self) -> &mut T
        requires { is_none self.old ≡ false }
        ensures* writes_back { sem 𝓛 (lends_there T.row self.entry result) }
        ensures value { self.old ≡ Some result.now }
    {
        self.row.get_mut(self.address, 0)
    }

    // Moves the item out of its block, and deallocates the block.
    fn into_inner(self) -> Option<T>
        ensures { result ≡ self }
    {
        let Perhaps {
            address,
            mut row,
            claim,
            alloc,
        } = self;
        if is_nowhere(address) {
            let_go(row, claim);
            return None;
        }
        let item = row.take(Spot { address, count: 1 }, 0);
        if item_size::<T>() == 0 {
            let_go(row, claim);
        } else {
            deallocate(&alloc, address, 1, row, claim);
        }
        Some(item)
    }
}

impl<T: Drop> Perhaps<T> {
    /// An item in a block of its own. It is refused if there is no memory, and always if the item takes no bytes; the
    /// item is then dropped.
    pub fn of(alloc: Global, item: T) -> Result<Perhaps<T>, AllocError>
        ensures { IfOk result (λ p. p ≡ Some item) }
    {
        if item_size::<T>() == 0 || !may_hold::<T>(1) {
            return Err(AllocError);
        }
        let (address, mut row, claim) = allocate(&alloc, 1)?;
        row.write(Spot { address, count: 1 }, 0, item);
        Ok(Perhaps {
            address,
            row,
            claim: known(claim),
            alloc,
        })
    }
}

impl<T: Drop> Drop for Perhaps<T> {
    fn drop(self) {
        let _item = self.into_inner();
    }
}
