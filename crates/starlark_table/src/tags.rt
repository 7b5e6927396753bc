//! Tags, one byte for each slot. By them a search sees where a hash may be and which slots are empty.
ghost use Rattle.std.specs.Prelude.{◌≡◌, ℕ, ◌+◌, ◌-◌, ◌<◌, ◌≤◌, ◌≢◌, None, false, length, slice_index_or};
ghost use Rattle.starlark_table.specs.Layout.{tag, at, window, tag_count, tag_bits, hash_tag_bits, empty_tag, AreDoubled, BitsUpToEmpty, IsBetweenEmpty, IsTagged, HasTags, IsPadded};

use crate::kept_hash::KeptHash;
use crate::probe::Slots;
use std::simd::prelude::*;

// The size of a group: how many tags a search compares at once. There are this many more tags than slots, so that a
// group may begin at each slot.
pub(crate) const WINDOW: usize = 16;

// The size of a group in an iteration over all slots, if as many tags are left. The end of the loop over full slots is
// often mispredicted, and one such end for 64 tags is better than four.
const WIDE_WINDOW: usize = 64;

// How many tags a hash may have.
const TAGS: u64 = 254;

// The tag of an empty slot.
pub(crate) const EMPTY: u8 = 255;

// The tags behind those of the slots: neither the tag of a hash nor that of an empty slot.
pub(crate) const PADDING: u8 = 254;

// The tag of a hash, by its number. The more tags there are, the fewer other hashes a search compares.
#[inline]
#[tactic(auto, unfolding(crate::specs::Layout::tag))]
pub(crate) fn tag(number: u64) -> u8
    ensures { result ≡ tag number }
{
    ((((number >> 16) & 0xffff) * TAGS) >> 16) as u8
}

// The number of tags beside these slots.
#[inline]
#[tactic(auto, using(crate::proofs::TagCount::tags_fit))]
pub(crate) fn tags_beside<T, H: KeptHash>(slots: &Slots<T, H>) -> usize
    requires { AreDoubled slots.now }
    ensures { result ≡ tag_count (length slots.now) }
{
    let count = slots.cells();
    if count == 0 { 0 } else { count + WINDOW }
}

// A bit for each slot of the group from `start` on: whether it has this tag.
#[inline]
pub(crate) fn slots_with(tags: &[u8], start: usize, tag: u8) -> u64
    requires { start + window ≤ length tags.now }
    ensures { result ≡ tag_bits tag tags.now start window }
{
    let lanes = u8x16::from_slice(&tags[start..]);
    lanes.simd_eq(u8x16::splat(tag)).to_bitmask()
}

// A bit for each slot of the group from `start` on, up to the first with the empty tag: whether it has this tag.
#[inline]
pub(crate) fn slots_up_to_empty(tags: &[u8], start: usize, tag: u8) -> u64
    requires { start + window ≤ length tags.now }
    ensures { BitsUpToEmpty tag tags.now start result }
{
    let same = slots_with(tags, start, tag);
    let empty = slots_with(tags, start, EMPTY);
    if empty == 0 {
        return same;
    }
    same & ((1 << empty.trailing_zeros()) - 1)
}

// Whether the path of an overflowed member may lead over this full slot. It may not if there are empty slots on both sides
// that are at most sixteen slots apart.
#[inline]
pub(crate) fn is_passed(tags: &[u8], slot: usize) -> bool
    requires room { slot + 1 + window ≤ length tags.now }
    requires full { slice_index_or tags.now slot 0 ≢ empty_tag }
    ensures { result ≡ false → IsBetweenEmpty tags.now slot }
{
    let behind = slots_with(tags, slot + 1, EMPTY);
    if behind == 0 {
        return true;
    }
    let apart = behind.trailing_zeros();
    if slot >= WINDOW {
        // This group does not depend on the other one, so both are read at once.
        return slots_with(tags, slot - WINDOW, EMPTY) >> apart == 0;
    }
    let end = slot + 1 + apart as usize;
    if end <= WINDOW {
        let before = slots_with(tags, 0, EMPTY);
        return before.trailing_zeros() as usize >= slot;
    }
    slots_with(tags, end - 1 - WINDOW, EMPTY) == 0
}

// A bit for each slot of the group from `start` on: whether it is full. The second part of the result is the end of the
// group.
#[inline]
pub(crate) fn full_slots(tags: &[u8], start: usize) -> (u64, usize)
    requires { start + window ≤ length tags.now }
    ensures some { start < result.1 }
    ensures short { result.1 ≤ start + 64 }
    ensures within { result.1 ≤ length tags.now }
    ensures bits { result.0 ≡ hash_tag_bits tags.now start (result.1 - start) }
{
    if tags.len() - start < WIDE_WINDOW {
        let lanes = u8x16::from_slice(&tags[start..]);
        let full = lanes.simd_lt(u8x16::splat(PADDING));
        (full.to_bitmask(), start + WINDOW)
    } else {
        let lanes = u8x64::from_slice(&tags[start..]);
        let full = lanes.simd_lt(u8x64::splat(PADDING));
        (full.to_bitmask(), start + WIDE_WINDOW)
    }
}

// Writes the empty tag for each slot. All slots are empty.
pub(crate) fn untag<T, H: KeptHash>(tags: &mut [u8], slots: &Slots<T, H>)
    requires sized { HasTags tags.old slots.now }
    requires padded { IsPadded tags.old slots.now }
    requires empty { (k : ℕ) → at slots.now k ≡ None }
    ensures { IsTagged tags.new slots.now }
{
    tags[..slots.cells()].fill(EMPTY);
}
