//! Growth: the number of slots for a capacity, new empty slots, and the move of every member into them with its stored
//! hash.
ghost use Rattle.std.specs.Prelude.{◌≡◌, ℕ, ◌+◌, ◌^◌, ◌*◌, ◌<◌, ◌≤◌, ◌++◌, None, length, IfOk, OnOk, IsPermutation, IfSome, IfNone};
ghost use Rattle.std.specs.List.{AllZip};
ghost use Rattle.starlark_columns.specs.Cells.{empties};
ghost use Rattle.starlark_table.specs.Table.{filled, IsSlotClone};
ghost use Rattle.starlark_table.specs.Layout.{at, tags_of_empty, window, AreDoubled, InPlace, IsTagged, IsTaggedFrom, TellsFar};
ghost use Rattle.starlark_table.specs.Growth.{limit, most_for};

use crate::kept_hash::KeptHash;
use crate::probe::{Slots, put};
use crate::tags::{EMPTY, PADDING, WINDOW, full_slots, tags_beside};
use starlark_columns::{Bytes, Column};
use std::alloc::{AllocError, Global};

// The maximum load of `count` slots: how many members they may have.
#[inline]
pub(crate) fn limit(count: usize) -> usize
    ensures { result ≡ limit count }
{
    count / 8 * 6 + count / 16
}

// The least number of slots for `needed` members. It is at least eight and a power of two, so that a slot is found by a
// mask.
pub(crate) fn slots_for(needed: usize) -> Option<usize>
    ensures some { IfSome result (λ count. 0 < count) }
    ensures fits { IfSome result (λ count. count ≤ 2 ^ 62) }
    ensures enough { IfSome result (λ count. needed ≤ limit count) }
    ensures most { IfSome result (λ count. limit count ≤ most_for needed) }
    ensures doubled { IfSome result (λ count. (k : ℕ) × (count ≡ 8 * 2 ^ k)) }
    ensures fewest { IfSome result (λ count. (k : ℕ) → needed ≤ limit (8 * 2 ^ k) → count ≤ 8 * 2 ^ k) }
    ensures none { IfNone result (2 ^ 60 < needed) }
{
    if needed > 1 << 60 {
        return None;
    }
    let mut count = 8;
    while limit(count) < needed {
        count *= 2;
    }
    Some(count)
}

// New empty slots, and their tags.
pub(crate) fn empty_slots<T, H: KeptHash>(
    alloc: Global,
    count: usize,
) -> Result<(Slots<T, H>, Bytes), AllocError>
    requires { count + window < 2 ^ 64 }
    ensures slots { IfOk result (λ r. r.0 ≡ empties count) }
    ensures tags { IfOk result (λ r. r.1 ≡ tags_of_empty count) }
{
    let slots = Column::with_cells(alloc, count)?;
    match empty_tags(alloc, count) {
        Ok(tags) => Ok((slots, tags)),
        Err(refused) => {
            slots.give_back(alloc);
            Err(refused)
        }
    }
}

// The tags of `count` empty slots, followed by the padding of one group.
fn empty_tags(alloc: Global, count: usize) -> Result<Bytes, AllocError>
    requires { count + window < 2 ^ 64 }
    ensures { IfOk result (λ tags. tags ≡ tags_of_empty count) }
{
    let mut tags = Bytes::filled(alloc, count + WINDOW, EMPTY)?;
    tags.as_mut_slice(count + WINDOW)[count..].fill(PADDING);
    Ok(tags)
}

// Moves each member to the new slots, which have room for all, and frees the old ones.
pub(crate) fn move_all<T, H: KeptHash>(
    mut old: Slots<T, H>,
    old_tags: Bytes,
    slots: &mut Slots<T, H>,
    tags: &mut [u8],
    far: &mut u64,
)
    requires old_tagged { IsTagged old_tags old }
    requires old_doubled { AreDoubled old }
    requires some { 0 < length slots.old }
    requires in_place { InPlace (length slots.old) slots.old }
    requires tagged { IsTagged tags.old slots.old }
    requires told { TellsFar far.old slots.old }
    requires room { length (filled slots.old) + length (filled old) ≤ limit (length slots.old) }
    ensures sized { length slots.new ≡ length slots.old }
    ensures told { TellsFar far.new slots.new }
    ensures bag { IsPermutation (filled old ++ filled slots.old) (filled slots.new) }
    ensures in_place { InPlace (length slots.new) slots.new }
    ensures tagged { IsTagged tags.new slots.new }
{
    let count = tags_beside(&old);
    let mut start = 0;
    'windows: while start < old.cells() {
        start = move_window(&mut old, old_tags.as_slice(count), start, slots, tags, far);
    }
    old.give_back(old_tags.allocator());
    old_tags.give_back(count);
}

// Moves the members of a group of slots, and returns the end of the group.
fn move_window<T, H: KeptHash>(
    from: &mut Slots<T, H>,
    from_tags: &[u8],
    start: usize,
    slots: &mut Slots<T, H>,
    tags: &mut [u8],
    far: &mut u64,
) -> usize
    requires start { start < length from.old }
    requires from_tagged { IsTaggedFrom start from_tags.now from.old }
    requires some { 0 < length slots.old }
    requires in_place { InPlace (length slots.old) slots.old }
    requires tagged { IsTagged tags.old slots.old }
    requires told { TellsFar far.old slots.old }
    requires room { length (filled from.old ++ filled slots.old) ≤ limit (length slots.old) }
    ensures some { start < result }
    ensures sized { length slots.new ≡ length slots.old }
    ensures told { TellsFar far.new slots.new }
    ensures bag { IsPermutation (filled from.old ++ filled slots.old) (filled from.new ++ filled slots.new) }
    ensures in_place { InPlace (length slots.new) slots.new }
    ensures tagged { IsTagged tags.new slots.new }
    ensures from_sized { length from.new ≡ length from.old }
    ensures emptied { (p : ℕ) → start ≤ p → p < result → at from.new p ≡ None }
    ensures before { (p : ℕ) → p < start → at from.new p ≡ at from.old p }
    ensures after { (p : ℕ) → result ≤ p → at from.new p ≡ at from.old p }
{
    let (mut full, end) = full_slots(from_tags, start);
    'members: while full != 0 {
        let slot = start + full.trailing_zeros() as usize;
        let (hash, item) = from.take(slot);
        put(slots, tags, far, hash, item);
        full &= full - 1;
    }
    end
}

// Clones each member into the same slot of `copy`, which is empty. If a clone is refused, those already made are in
// `copy`.
pub(crate) fn clone_members<T: Clone, H: KeptHash>(
    slots: &Slots<T, H>,
    tags: &[u8],
    copy: &mut Slots<T, H>,
    copy_tags: &mut [u8],
) -> Result<(), AllocError>
    requires tagged { IsTagged tags.now slots.now }
    requires copy_tagged { IsTagged copy_tags.old copy.old }
    requires empty { copy.old ≡ empties (length slots.now) }
    ensures cloned { OnOk result (AllZip (IsSlotClone T.is_clone) slots.now copy.new) }
    ensures tagged { IsTagged copy_tags.new copy.new }
    ensures sized { length copy.new ≡ length slots.now }
{
    for slot in 0..slots.cells() {
        if tags[slot] != EMPTY {
            let (hash, item) = slots.get(slot);
            let item = item.clone()?;
            copy_tags[slot] = tags[slot];
            copy.write(slot, (hash.copied(), item));
        }
    }
    Ok(())
}
