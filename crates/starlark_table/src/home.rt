//! The slots as a circle: the home of a hash, the slot after one, and the distance between two.
ghost use Rattle.std.specs.Prelude.{◌≡◌, ℕ, ◌+◌, ◌^◌, ◌<◌, ◌≤◌, ◌==◌, if◌then◌else◌, true, false};
ghost use Rattle.starlark_table.specs.Layout.{distance, home, window, IsFar, IsMask};

use crate::kept_hash::{Kept, KeptHash};
use crate::probe::Slots;
use crate::tags::WINDOW;

#[inline]
pub(crate) fn next_slot(slot: usize, count: usize) -> usize
    requires { slot < count }
    ensures { result ≡ (if slot + 1 == count then 0 else slot + 1) }
{
    if slot + 1 == count { 0 } else { slot + 1 }
}

// The start of the next group, or the first slot if that start would lie behind the last slot.
#[inline]
pub(crate) fn window_after(start: usize, mask: usize) -> usize
    requires { start ≤ mask }
    ensures on { start + window ≤ mask → result ≡ start + window }
    ensures round { mask < start + window → result ≡ 0 }
{
    if mask - start < WINDOW {
        0
    } else {
        start + WINDOW
    }
}

// The slot sixteen slots on, round a circle whose size is a power of two. It is only a guess, so no proof needs to know
// which slot it is.
#[inline]
pub(crate) fn window_behind(slot: usize, count: usize) -> usize
    requires { 0 < count }
    ensures { result < count }
{
    slot.wrapping_add(WINDOW) & (count - 1)
}

// The mask of these slots. If there are no slots the answer is never used, so that no test is made.
#[inline]
pub(crate) fn mask_of<T, H: KeptHash>(slots: &Slots<T, H>) -> usize
    ensures { IsMask result slots.now }
{
    slots.cells().wrapping_sub(1)
}

// The home of a hash, by its number. A search computes the number once, for the home and for the tag.
#[inline]
#[tactic(auto, unfolding(crate::specs::Layout::home))]
pub(crate) fn home(number: u64, mask: usize) -> usize
    ensures { result ≡ home (mask + 1) number }
{
    ((number >> 32) ^ number) as usize & mask
}

#[inline]
pub(crate) fn home_among<H: KeptHash>(count: usize, hash: &Kept<H>) -> usize
    requires { 0 < count }
    ensures { result ≡ home count hash.now }
{
    home(hash.number(), count - 1)
}

// Whether a slot is outside the group that starts at `from`.
#[inline]
pub(crate) fn is_far(from: usize, slot: usize) -> bool
    ensures yes { result ≡ true → IsFar from slot }
    ensures no { result ≡ false → IsFar from slot → ⊥ }
{
    slot < from || slot - from >= WINDOW
}

// How many steps lead from one slot to another.
#[inline]
#[tactic(auto, unfolding(crate::specs::Layout::distance))]
pub(crate) fn distance(count: usize, from: usize, to: usize) -> usize
    requires from { from < count }
    requires to { to < count }
    ensures { result ≡ distance count from to }
{
    if from <= to {
        to - from
    } else {
        count - (from - to)
    }
}
