//! `Bytes`, bytes in a block of their own, of which only the address is stored.
ghost use Rattle.std.specs.Prelude.{◌≡◌, ◌<◌, [], length, replicate, IfOk};
ghost use Rattle.std.specs.Borrow.{sem};
ghost use Rattle.starlark_columns.specs.Cells.{empties};

use crate::block::{Address, Claim, Spot, allocate, bare, bare_claim, deallocate, let_go};
use crate::row::Row;
use std::alloc::{AllocError, Global};
use std::marker::Model;
use std_alloc::room::may_hold;

/// Bytes in one block of memory; without bytes there is no block. It is stored as an address of 8 bytes: the type above
/// stores the number of bytes, and passes it to each call. `give_back` deallocates the block. The model is the list of
/// the bytes.
pub struct Bytes {
    address: Address<u8>,
    row: Row<u8>,
    claim: Claim<u8, Global>,
    // The allocator of the block.
    alloc: Global,
}

impl Model for Bytes {
    ghost use Rattle.std.specs.Prelude.{ℕ, List};
    ghost use Rattle.starlark_columns.specs.Bytes.{IsBytes};
    ghost use Rattle.starlark_columns.specs.Cells.{items_of};

    ghost Value = { List ℕ };

    ghost view = { λ b. items_of b.row.cells };

    ghost invariant = { λ b. IsBytes b.address b.row b.claim };
}

impl Bytes {
    ghost use Rattle.starlark_columns.specs.Lend.{lends_bytes};

    /// No bytes, which take no memory.
    #[inline]
    pub fn none(alloc: Global) -> Bytes
        ensures { result ≡ [] }
    {
        let (address, row) = bare(0);
        let claim = bare_claim(&alloc, address, 0);
        Bytes {
            address,
            row,
            claim,
            alloc,
        }
    }

    /// The byte `byte`, `count` times. It is refused if there is no memory.
    pub fn filled(alloc: Global, count: usize, byte: u8) -> Result<Bytes, AllocError>
        requires { 0 < count }
        ensures { IfOk result (λ b. b ≡ replicate count byte) }
    {
        if !may_hold::<u8>(count) {
            return Err(AllocError);
        }
        let (address, mut row, claim) = allocate(&alloc, count)?;
        let spot = Spot { address, count };
        for made in 0..count {
            row.push_last(spot, made, byte);
        }
        Ok(Bytes {
            address,
            row,
            claim,
            alloc,
        })
    }

    /// The allocator of the block.
    #[inline]
    pub fn allocator(&self) -> Global {
        self.alloc
    }

    /// The bytes.
    #[inline]
    pub fn as_slice(&self, count: usize) -> &[u8]
        requires { count ≡ length self.now }
        ensures { result.now ≡ self.now }
    {
        self.row.items(self.address, count)
    }

    /// The bytes, mutably.
    #[inline]
    pub fn as_mut_slice(&mut self, count: usize) -> &mut [u8]
        requires { count ≡ length self.old }
        ensures* writes_back { sem 𝓛 (lends_bytes self.entry result) }
        ensures value { result.now ≡ self.old }
    {
        self.row.items_mut(self.address, count)
    }

    /// Deallocates the block.
    #[inline]
    pub fn give_back(self, count: usize)
        requires { count ≡ length self }
    {
        let Bytes {
            address,
            row,
            claim,
            alloc,
        } = self;
        let row = emptied(row, address, count);
        if count == 0 {
            let_go(row, claim);
        } else {
            deallocate(&alloc, address, count, row, claim);
        }
    }
}

// The row with all cells emptied, so that its block can be deallocated.
#[inline]
#[tactic(auto, using(crate::proofs::ItemsAtFront::all_emptied))]
fn emptied(mut row: Row<u8>, address: Address<u8>, count: usize) -> Row<u8>
    requires { (address.at ≡ row.at) × (count ≡ length row.cells) }
    ensures { (result.at ≡ row.at) × (result.cells ≡ empties count) }
{
    let cells = row.open(address, count);
    row.close(cells, 0, count);
    row
}
