//! Blocks of memory: where rows of cells lie, how a block is allocated, and the right to deallocate it.
ghost use Rattle.std.specs.Prelude.{◌≡◌, ℕ, ◌+◌, ◌*◌, ◌^◌, ◌<◌, IfOk, MatchBool};
ghost use Rattle.std.specs.Mem.{type_size};
ghost use Rattle.std.specs.Vec.Ownership.{FitsInBlock};
ghost use base.Fml.{ftrue};
ghost use denote.Sharing.{said, nothing, beside};
ghost use denote.RawPtr.{Ptr, InBlock, Testable, null_ptr, ◌+ₚ◌};
ghost use prog.Memory.{capped};
ghost use Rattle.core.specs.Allocator.{HasLayout};
ghost use Rattle.starlark_columns.specs.Ownership.{claim_owned};
ghost use Rattle.starlark_columns.specs.Pair.{type_align, pair_ty, second_offset, skipped, behind, apart, pair_claimed};
ghost use Rattle.starlark_columns.specs.Cells.{empties};

use crate::row::Row;
use std::alloc::{AllocError, Allocator, Global};
use std::marker::{Model, PhantomData, Send, Sync};
use std::mem::{align_of, size_of};
use std::ptr::{NonNull, null};

/// The address of the first cell of a row. It owns nothing.
pub struct Address<T> {
    pub(crate) at: *const T,
}

impl<T> Clone for Address<T> {
    ghost is_clone = { λ x y. y ≡ x };

    ghost is_infallible = { λ _. Unit {0} };

    fn clone(&self) -> Result<Address<T>, AllocError> {
        Ok(*self)
    }
}

impl<T> Copy for Address<T> {}

unsafe impl<T> Send for Address<T> {}

unsafe impl<T> Sync for Address<T> {}

/// The address of a block of two rows, which is that of the first cell of one of them, and how many cells each row has.
/// It owns nothing.
pub struct Spot<T> {
    pub address: Address<T>,
    pub count: usize,
}

impl<T> Clone for Spot<T> {
    ghost is_clone = { λ x y. y ≡ x };

    ghost is_infallible = { λ _. Unit {0} };

    fn clone(&self) -> Result<Spot<T>, AllocError> {
        Ok(*self)
    }
}

impl<T> Copy for Spot<T> {}

unsafe impl<T> Send for Spot<T> {}

unsafe impl<T> Sync for Spot<T> {}

// The right to deallocate the block of `count` cells. If the cells take no bytes, there is no block, and it is a right
// to nothing. It takes no bytes itself.
pub struct Claim<T, A: Allocator> {
    mark: PhantomData<*const (T, A)>,
    ghost at: { Ptr },
    ghost count: { ℕ },
    ghost alloc: { A },
}

impl<T, A: Allocator> Model for Claim<T, A> {
    ghost also_owns = { λ c. claim_owned T.row (A.dealloc_token c.alloc) c.at c.count };

    ghost also_shares = { λ _ _ _. ftrue };
}

unsafe impl<T, A: Allocator + Send> Send for Claim<T, A> {}

// A `&` to it lends nothing, so threads may share it.
unsafe impl<T, A: Allocator> Sync for Claim<T, A> {}

// The right to deallocate the block with `count` cells at `firsts` and `count` cells at `seconds`. The count determines
// how far these are apart. If the cells take no bytes, there is no block, and it is a right to nothing. It takes no
// bytes itself.
pub struct PairClaim<T, U, A: Allocator> {
    mark: PhantomData<*const (T, U, A)>,
    pub ghost firsts: { Ptr },
    pub ghost seconds: { Ptr },
    pub ghost count: { ℕ },
    ghost alloc: { A },
}

impl<T, U, A: Allocator> Model for PairClaim<T, U, A> {
    ghost also_owns = { λ c. pair_claimed T.row U.row (A.dealloc_token c.alloc) c.firsts c.seconds c.count };

    ghost also_shares = { λ c _ κ. beside (said (apart T.row U.row c.firsts c.seconds c.count)) nothing κ };
}

unsafe impl<T, U, A: Allocator + Send> Send for PairClaim<T, U, A> {}

// A `&` to it lends nothing, so threads may share it.
unsafe impl<T, U, A: Allocator> Sync for PairClaim<T, U, A> {}

impl<T, U> PairClaim<T, U, Global> {
    // Gives proofs the addresses of both rows, which the right determines. It does nothing when it runs.
    #[inline]
    pub(crate) fn told(&self)
        ensures { InBlock self.now.firsts × (self.now.seconds ≡ behind T.row U.row self.now.count self.now.firsts) }
    {}
}

#[inline]
pub(crate) fn moved<T, U>(first: Address<T>, offset: usize) -> Address<U>
    requires { InBlock first.at }
    ensures { result.at ≡ first.at +ₚ offset }
{
    let at = unsafe { first.at.byte_add(offset) } as *const U;
    Address { at }
}

pub(crate) fn item_size<T>() -> usize
    ensures { result ≡ capped (type_size T.row) }
{
    size_of::<T>()
}

pub(crate) fn item_align<T>() -> usize
    ensures { result ≡ capped (type_align T.row) }
{
    align_of::<T>()
}

#[inline]
pub(crate) fn nowhere<T>() -> Address<T>
    ensures { result.at ≡ null_ptr }
{
    Address { at: null() }
}

#[inline]
pub(crate) fn is_nowhere<T>(address: Address<T>) -> bool
    requires { Testable address.at }
    ensures { MatchBool result (address.at ≡ null_ptr) (InBlock address.at) }
{
    NonNull::new(address.at.cast_mut()).is_none()
}

// A row of `count` cells that take no bytes, at the address of an empty array, which is aligned.
pub(crate) fn bare<T>(count: usize) -> (Address<T>, Row<T>)
    requires { count * type_size T.row ≡ 0 }
    ensures { (result.1.at ≡ result.0.at) × (result.1.cells ≡ empties count) }
{
    let nowhere: [T; 0] = [];
    let at = &raw const nowhere as *const T;
    (Address { at }, Row { mark: PhantomData })
}

// The right to nothing, for cells that take no bytes.
pub(crate) fn bare_claim<T, A: Allocator>(
    _alloc: &A,
    address: Address<T>,
    count: usize,
) -> Claim<T, A>
    requires { count * type_size T.row ≡ 0 }
    ensures { (result.at ≡ address.at) × (result.count ≡ count) }
{
    Claim { mark: PhantomData }
}

pub(crate) fn let_go<T>(row: Row<T>, claim: Claim<T, Global>)
    requires empty { row.cells ≡ empties claim.count }
    requires light { claim.count * type_size T.row ≡ 0 }
{
    let Row { mark: _ } = row;
    let Claim { mark: _ } = claim;
}

// Gives proofs the fact that the address of a block of `Global` may be compared with null. The claim comes back
// unchanged.
#[inline]
pub(crate) fn known<T>(claim: Claim<T, Global>) -> Claim<T, Global>
    requires { 0 < claim.count * type_size T.row }
    ensures { (result ≡ claim) × Testable claim.at }
{
    claim
}

pub(crate) fn allocate<T, A: Allocator>(
    alloc: &A,
    count: usize,
) -> Result<(Address<T>, Row<T>, Claim<T, A>), AllocError>
    requires fits { FitsInBlock T.row count }
    requires bytes { 0 < count * type_size T.row }
    ensures { IfOk result (λ r. (r.1.at ≡ r.0.at) × (r.1.cells ≡ empties count) × (r.2.at ≡ r.0.at) × (r.2.count ≡ count) × (r.2.alloc ≡ alloc.now) × InBlock r.0.at) }
{
    match alloc.allocate(count * size_of::<T>(), align_of::<T>()) {
        Ok(block) => {
            let at = block as *const T;
            Ok((
                Address { at },
                Row { mark: PhantomData },
                Claim { mark: PhantomData },
            ))
        }
        Err(refused) => Err(refused),
    }
}

pub(crate) fn deallocate<T, A: Allocator>(
    alloc: &A,
    address: Address<T>,
    count: usize,
    row: Row<T>,
    claim: Claim<T, A>,
)
    requires empty { (row.at ≡ address.at) × (row.cells ≡ empties count) }
    requires claim { (claim.at ≡ address.at) × (claim.count ≡ count) × (claim.alloc ≡ alloc.now) }
    requires bytes { 0 < count * type_size T.row }
{
    let Row { mark: _ } = row;
    let Claim { mark: _ } = claim;
    unsafe {
        alloc.deallocate(
            address.at as *mut u8,
            count * size_of::<T>(),
            align_of::<T>(),
        );
    }
}

// Two rows of cells that take no bytes, and a right to nothing. They are at the address of an empty array of pairs,
// which is aligned for both.
pub(crate) fn bare_pair<T, U, A: Allocator>(
    _alloc: &A,
    count: usize,
) -> (Address<T>, Row<T>, Row<U>, PairClaim<T, U, A>)
    requires { count * (type_size T.row + type_size U.row) ≡ 0 }
    ensures { (result.1.at ≡ result.0.at) × (result.1.cells ≡ empties count) × (result.2.cells ≡ empties count) × (result.3.firsts ≡ result.0.at) × (result.3.seconds ≡ result.2.at) × (result.3.count ≡ count) }
{
    let nowhere: [(T, U); 0] = [];
    let at = &raw const nowhere as *const T;
    (
        Address { at },
        Row { mark: PhantomData },
        Row { mark: PhantomData },
        PairClaim { mark: PhantomData },
    )
}

pub(crate) fn let_go_pair<T, U>(firsts: Row<T>, seconds: Row<U>, claim: PairClaim<T, U, Global>)
    requires empty { (firsts.cells ≡ empties claim.count) × (seconds.cells ≡ empties claim.count) }
    requires light { claim.count * (type_size T.row + type_size U.row) ≡ 0 }
{
    let Row { mark: _ } = firsts;
    let Row { mark: _ } = seconds;
    let PairClaim { mark: _ } = claim;
}

// Allocates one block for two rows. The address of the second row is computed from that of the first and from the
// count.
pub(crate) fn allocate_pair<T, U, A: Allocator>(
    alloc: &A,
    count: usize,
    size: usize,
    align: usize,
) -> Result<(Address<T>, Row<T>, Row<U>, PairClaim<T, U, A>), AllocError>
    requires layout { HasLayout (pair_ty T.row U.row count) size align }
    requires offset { skipped T.row U.row count ≡ second_offset T.row U.row count }
    requires fits { size < 2 ^ 63 }
    requires bytes { 0 < count * (type_size T.row + type_size U.row) }
    ensures { IfOk result (λ r. (r.1.at ≡ r.0.at) × (r.1.cells ≡ empties count) × (r.2.cells ≡ empties count) × (r.3.firsts ≡ r.0.at) × (r.3.seconds ≡ r.2.at) × (r.3.count ≡ count) × (r.3.alloc ≡ alloc.now)) }
{
    match alloc.allocate(size, align) {
        Ok(block) => {
            let at = block as *const T;
            Ok((
                Address { at },
                Row { mark: PhantomData },
                Row { mark: PhantomData },
                PairClaim { mark: PhantomData },
            ))
        }
        Err(refused) => Err(refused),
    }
}

pub(crate) fn deallocate_pair<T, U, A: Allocator>(
    alloc: &A,
    first: Address<T>,
    size: usize,
    align: usize,
    firsts: Row<T>,
    seconds: Row<U>,
    claim: PairClaim<T, U, A>,
)
    requires layout { HasLayout (pair_ty T.row U.row claim.count) size align }
    requires bytes { 0 < claim.count * (type_size T.row + type_size U.row) }
    requires empty { (firsts.at ≡ claim.firsts) × (firsts.cells ≡ empties claim.count) × (seconds.at ≡ claim.seconds) × (seconds.cells ≡ empties claim.count) }
    requires claim { (first.at ≡ claim.firsts) × (claim.alloc ≡ alloc.now) }
{
    let Row { mark: _ } = firsts;
    let Row { mark: _ } = seconds;
    let PairClaim { mark: _ } = claim;
    unsafe {
        alloc.deallocate(first.at as *mut u8, size, align);
    }
}
