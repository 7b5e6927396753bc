//! The layout of a block of two rows: the first row is at its start, and the second behind the first, at the next
//! address with its alignment.
ghost use Rattle.std.specs.Prelude.{◌≡◌, ◌+◌, ◌-◌, ◌*◌, ◌%◌, ◌^◌, ◌<◌, min};
ghost use Rattle.core.specs.Allocator.{HasLayout};
ghost use prog.Memory.{pad};
ghost use Rattle.starlark_columns.specs.Pair.{pair_ty, skipped};

use crate::block::{item_align, item_size};

// The size and the alignment of a block of two rows. Numbers above the greatest `usize` are capped at it.
#[derive(Drop)]
pub(crate) struct Layout {
    pub size: usize,
    pub align: usize,
}

#[tactic(auto, using(crate::proofs::Layouts::some_align))]
pub(crate) fn laid_out<T, U>(count: usize) -> Layout
    ensures { HasLayout (pair_ty T.row U.row count) result.size result.align }
{
    let first = item_align::<T>();
    let second = item_align::<U>();
    let align = first.max(second);
    let firsts = count.saturating_mul(item_size::<T>());
    let seconds = count.saturating_mul(item_size::<U>());
    let offset = rounded_up(firsts, second);
    let end = offset.saturating_add(seconds);
    let size = rounded_up(end, align);
    Layout { size, align }
}

// The offset of the second row in bytes. There is no test, since in an allocated block no number is above the greatest
// `usize`.
#[inline]
#[tactic(auto, using(crate::proofs::Layouts::some_align))]
pub(crate) fn skip<T, U>(count: usize) -> usize
    ensures { result ≡ skipped T.row U.row count }
{
    wrapped_up(count.wrapping_mul(item_size::<T>()), item_align::<U>())
}

// The least multiple of `align` that is not below `bytes`, capped at the greatest `usize`.
fn rounded_up(bytes: usize, align: usize) -> usize
    requires { 0 < align }
    ensures { result ≡ min (bytes + pad align bytes) (2 ^ 64 - 1) }
{
    bytes.saturating_add((align - bytes % align) % align)
}

// The least multiple of `align` that is not below `bytes`, modulo 2^64, so that there is no test.
#[inline]
fn wrapped_up(bytes: usize, align: usize) -> usize
    requires { 0 < align }
    ensures { result ≡ (bytes + pad align bytes) % 2 ^ 64 }
{
    bytes.wrapping_add((align - bytes % align) % align)
}
