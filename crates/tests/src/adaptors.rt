//! The ordinary adaptors over a walk: `count`, and `map`, `filter` and `collect`.
ghost use Rattle.std.specs.Iterator.{IsFinite, size};
ghost use Rattle.std.specs.Prelude.{◌<◌, ◌^◌};

use crate::given::same;
use std::alloc::{AllocError, Global};
use std::process::Abort;

/// What is walked: three keys in the order in which they are inserted, each with ten times itself.
pub(crate) const PAIRS: [(u32, u32); 3] = [(3, 30), (1, 10), (2, 20)];

/// The keys as they were inserted.
pub(crate) const KEYS: [u32; 3] = [3, 1, 2];

/// Ends the process where a walk does not give so many items.
pub(crate) fn counts<I: Iterator<Item = T> + Drop, T: Drop>(rt: &impl Abort, walk: I, wanted: usize)
    requires can { I.can_next walk }
    requires ends { IsFinite (I.remaining walk) }
    requires fits { size (I.remaining walk) < 2 ^ 64 }
{
    same(rt, walk.count(), wanted);
}

// The numbers of a walk that are above 1.
fn above<I: Iterator<Item = T> + Drop, T, F: FnMut(T) -> u32>(
    alloc: Global,
    walk: I,
    number: F,
) -> Result<Vec<u32>, AllocError>
    requires can { I.can_next walk }
    requires ends { IsFinite (I.remaining walk) }
    requires asks { (state : F) (x : _) → F.pre state x }
{
    walk.map(number).filter(|number| *number > 1).collect(alloc)
}

/// Ends the process where these are not the numbers of a walk that are above 1.
pub(crate) fn gives<I: Iterator<Item = T> + Drop, T, F: FnMut(T) -> u32>(
    rt: &impl Abort,
    alloc: Global,
    walk: I,
    number: F,
    wanted: &[u32],
)
    requires can { I.can_next walk }
    requires ends { IsFinite (I.remaining walk) }
    requires asks { (state : F) (x : _) → F.pre state x }
{
    match above(alloc, walk, number) {
        Ok(found) => same(rt, found.as_slice(), wanted),
        Err(_) => same(rt, "no memory", "a list"),
    }
}

/// The same, where the walk has an order of its own.
pub(crate) fn gives_in_some_order<I: Iterator<Item = T> + Drop, T, F: FnMut(T) -> u32>(
    rt: &impl Abort,
    alloc: Global,
    walk: I,
    number: F,
    wanted: &[u32],
)
    requires can { I.can_next walk }
    requires ends { IsFinite (I.remaining walk) }
    requires asks { (state : F) (x : _) → F.pre state x }
{
    match above(alloc, walk, number) {
        Ok(mut found) => {
            found.sort_unstable();
            same(rt, found.as_slice(), wanted);
        }
        Err(_) => same(rt, "no memory", "a list"),
    }
}

/// The number of an item that is lent.
pub(crate) fn lent(item: &u32) -> u32 {
    *item
}

/// The number of an item that is lent to be written.
pub(crate) fn written(item: &mut u32) -> u32 {
    *item
}

/// The number of an item that is lent to be written, after 1 was added to it.
pub(crate) fn raised(item: &mut u32) -> u32 {
    *item = item.wrapping_add(1);
    *item
}

/// The same of the second of a pair.
pub(crate) fn second_raised(pair: (&u32, &mut u32)) -> u32 {
    raised(pair.1)
}

/// The number of an item by value.
pub(crate) fn given(item: u32) -> u32 {
    item
}

/// The first number of a pair.
pub(crate) fn first(pair: (&u32, &u32)) -> u32 {
    *pair.0
}

/// The first number of a pair by value.
pub(crate) fn first_given(pair: (u32, u32)) -> u32 {
    pair.0
}
