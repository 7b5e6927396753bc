//! Two rows with the same number of cells in one block of memory, so that one call of the allocator allocates both, and
//! one deallocates both. The first row is at the start of the block. The address of the second row is computed, so that
//! one stored address serves both.
ghost use Rattle.std.specs.Prelude.{◌≡◌, ◌↔◌, ◌+◌, ◌*◌, ◌^◌, ◌<◌, [], length, IfOk, IsOk, IsTrue};
ghost use Rattle.std.specs.Mem.{type_size};
ghost use Rattle.starlark_columns.specs.Cells.{empties, items_of};
ghost use Rattle.starlark_columns.specs.Front.{IsFront};
ghost use denote.RawPtr.{InBlock};
ghost use Rattle.starlark_columns.specs.Pair.{behind};
ghost use Rattle.starlark_columns.specs.Block.{IsBlockOf, IsSpotOf};

use crate::block::{
    Address, PairClaim, Spot, allocate_pair, bare_pair, deallocate_pair, item_size, let_go_pair,
    moved,
};
use crate::layout::{laid_out, skip};
use crate::row::Row;
use std::alloc::{AllocError, Global};

/// The right to deallocate the block of two rows. It takes no bytes.
pub type Block<A, B> = PairClaim<A, B, Global>;

impl<A, B> PairClaim<A, B, Global> {
    /// The spot of the second row, from that of the block. Both rows have the same number of cells.
    #[inline]
    pub fn second(&self, spot: Spot<A>) -> Spot<B>
        requires { IsSpotOf spot self.now }
        ensures at { result.address.at ≡ self.now.seconds }
        ensures count { result.count ≡ spot.count }
    {
        self.told();
        Spot {
            address: second_at(spot),
            count: spot.count,
        }
    }
}

/// The address of the second row, computed without the right to the block. The spot must be in a block.
#[inline]
pub fn second_at<A, B>(spot: Spot<A>) -> Address<B>
    requires { InBlock spot.address.at }
    ensures { result.at ≡ behind A.row B.row spot.count spot.address.at }
{
    moved(spot.address, skip::<A, B>(spot.count))
}

/// Two rows of `count` empty cells each in one block of memory, the spot of the block, and the right to deallocate it.
/// They are refused if there is no memory, or if that many items cannot be addressed. Cells that take no bytes are
/// never refused, and need no memory.
pub fn with_rows<A, B>(
    alloc: Global,
    count: usize,
) -> Result<(Spot<A>, Row<A>, Row<B>, Block<A, B>), AllocError>
    ensures fronts { IfOk result (λ r. IsFront r.1.cells 0 × IsFront r.2.cells 0) }
    ensures items { IfOk result (λ r. (items_of r.1.cells ≡ []) × (items_of r.2.cells ≡ [])) }
    ensures cells { IfOk result (λ r. (length r.1.cells ≡ count) × (length r.2.cells ≡ count)) }
    ensures block { IfOk result (λ r. IsBlockOf r.3 r.1 r.2) }
    ensures spot { IfOk result (λ r. IsSpotOf r.0 r.3) }
    ensures succeeds { count * type_size A.row ≡ 0 → count * type_size B.row ≡ 0 → IsOk result }
{
    if weightless::<A, B>(count) {
        return Ok(bare_rows(alloc, count));
    }
    let layout = laid_out::<A, B>(count);
    if layout.size >= 1 << 63 {
        return Err(AllocError);
    }
    let (address, firsts, seconds, block) = allocate_pair(
        &alloc,
        count,
        layout.size,
        layout.align,
    )?;
    Ok((Spot { address, count }, firsts, seconds, block))
}

/// Two rows without cells, which take no memory.
#[inline]
pub fn no_rows<A, B>(alloc: Global) -> (Spot<A>, Row<A>, Row<B>, Block<A, B>)
    ensures fronts { IsFront result.1.cells 0 × IsFront result.2.cells 0 }
    ensures cells { (length result.1.cells ≡ 0) × (length result.2.cells ≡ 0) }
    ensures block { IsBlockOf result.3 result.1 result.2 }
    ensures spot { IsSpotOf result.0 result.3 }
{
    bare_rows(alloc, 0)
}

/// Deallocates the block of both rows, which begins at the spot. Every cell of both rows must be empty.
#[inline]
#[tactic(auto, using(crate::proofs::ItemsAtFront::none_at_front))]
pub fn give_back<A, B>(
    alloc: Global,
    spot: Spot<A>,
    firsts: Row<A>,
    seconds: Row<B>,
    block: Block<A, B>,
)
    requires spot { IsSpotOf spot block }
    requires empty { IsFront firsts.cells 0 × IsFront seconds.cells 0 }
    requires block { IsBlockOf block firsts seconds }
{
    if weightless::<A, B>(spot.count) {
        let_go_pair(firsts, seconds, block);
    } else {
        let layout = laid_out::<A, B>(spot.count);
        deallocate_pair(
            &alloc,
            spot.address,
            layout.size,
            layout.align,
            firsts,
            seconds,
            block,
        );
    }
}

// Whether `count` cells of both rows take no bytes.
fn weightless<A, B>(count: usize) -> bool
    ensures { IsTrue result ↔ (count * (type_size A.row + type_size B.row) ≡ 0) }
{
    count == 0 || (item_size::<A>() == 0 && item_size::<B>() == 0)
}

// Two rows of cells that take no bytes, which have no block.
fn bare_rows<A, B>(alloc: Global, count: usize) -> (Spot<A>, Row<A>, Row<B>, Block<A, B>)
    requires { count * (type_size A.row + type_size B.row) ≡ 0 }
    ensures fronts { IsFront result.1.cells 0 × IsFront result.2.cells 0 }
    ensures items { (items_of result.1.cells ≡ []) × (items_of result.2.cells ≡ []) }
    ensures cells { (length result.1.cells ≡ count) × (length result.2.cells ≡ count) }
    ensures block { IsBlockOf result.3 result.1 result.2 }
    ensures spot { IsSpotOf result.0 result.3 }
{
    let (address, firsts, seconds, block) = bare_pair(&alloc, count);
    (Spot { address, count }, firsts, seconds, block)
}
