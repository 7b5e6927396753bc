//! `retain`: asks for each member whether it is kept, and then moves members back into the vacated slots.
ghost use Rattle.std.specs.Prelude.{◌≡◌, ℕ, ◌<◌, ◌≤◌, ◌⊎◌, None, List, length, IsSome, IsPermutation};
ghost use Rattle.std.specs.List.Retain.{RetainsInTurn};
ghost use Rattle.starlark_table.specs.Table.{filled, items_in};
ghost use Rattle.starlark_table.specs.Walk.{CanRetain, TakesAtMut, AsksMember};
ghost use Rattle.starlark_table.specs.Layout.{at, distance, InPlace, IsFar, IsTagged, ReachesBefore, StandsIn};
ghost use Rattle.starlark_table.specs.Growth.{limit};

use crate::home::{home_among, is_far, next_slot};
use crate::kept_hash::{Kept, KeptHash};
use crate::probe::{Slots, free_slot};
use crate::tags::EMPTY;

// Removes the members that `f` does not keep, and moves the others back where needed. Returns how many are left.
#[tactic(auto, using(std::proofs::lemmas::List::Sorted::length_permutation, crate::proofs::BackwardShiftPass::reaches_before))]
pub(crate) fn retain_items<T: Drop, H: KeptHash, F: FnMut(&mut T) -> bool>(
    slots: &mut Slots<T, H>,
    tags: &mut [u8],
    f: F,
) -> usize
    requires load { length (filled slots.old) ≤ limit (length slots.old) }
    requires in_place { InPlace (length slots.old) slots.old }
    requires tagged { IsTagged tags.old slots.old }
    requires callable { CanRetain F.FnMut (items_in slots.old) f }
    ensures kept { (kept : List (ℕ × T)) × RetainsInTurn (AsksMember F.FnMut) f (filled slots.old) kept × IsPermutation kept (filled slots.new) }
    ensures counted { result ≡ length (filled slots.new) }
    ensures sized { length slots.new ≡ length slots.old }
    ensures in_place { InPlace (length slots.new) slots.new }
    ensures tagged { IsTagged tags.new slots.new }
{
    if slots.cells() == 0 {
        return 0;
    }
    let start = free_slot(slots, tags, 0);
    let kept = keep_items(slots, tags, f);
    settle(slots, tags, start);
    kept
}

// Empties the slots of the members that `f` does not keep. Returns how many are left.
fn keep_items<T: Drop, H: KeptHash, F: FnMut(&mut T) -> bool>(
    slots: &mut Slots<T, H>,
    tags: &mut [u8],
    mut f: F,
) -> usize
    requires tagged { IsTagged tags.old slots.old }
    requires callable { CanRetain F.FnMut (items_in slots.old) f }
    ensures kept { RetainsInTurn (AsksMember F.FnMut) f (filled slots.old) (filled slots.new) }
    ensures counted { result ≡ length (filled slots.new) }
    ensures stand { StandsIn slots.old slots.new }
    ensures tagged { IsTagged tags.new slots.new }
{
    let mut kept = 0;
    for slot in 0..slots.cells() {
        if tags[slot] != EMPTY {
            if ask(slots.get_mut(slot), &mut f) {
                kept += 1;
            } else {
                tags[slot] = EMPTY;
                let _member = slots.take(slot);
            }
        }
    }
    kept
}

// Asks `f` whether a member is kept.
fn ask<T, H: KeptHash, F: FnMut(&mut T) -> bool>(member: &mut (Kept<H>, T), f: &mut F) -> bool
    requires { TakesAtMut F.FnMut f.old member.old.1 }
    ensures { AsksMember F.FnMut f.old member.old result f.new member.new }
{
    f(&mut member.1)
}

// Moves members back towards their homes, so that no empty slot is left on their paths. No path leads over `start`.
#[tactic(auto, using(crate::proofs::BackwardShiftPass::homes))]
fn settle<T, H: KeptHash>(slots: &mut Slots<T, H>, tags: &mut [u8], start: usize)
    requires start { start < length slots.old }
    requires tagged { IsTagged tags.old slots.old }
    requires reaches { ReachesBefore (length slots.old) slots.old start }
    ensures bag { IsPermutation (filled slots.old) (filled slots.new) }
    ensures sized { length slots.new ≡ length slots.old }
    ensures in_place { InPlace (length slots.new) slots.new }
    ensures tagged { IsTagged tags.new slots.new }
{
    let count = slots.cells();
    let mut slot = next_slot(start, count);
    for step in 1..count {
        if tags[slot] != EMPTY {
            let home = home_among(count, &slots.get(slot).0);
            let to = moves_to(slots, tags, home, slot);
            if to != slot {
                let member = slots.take(slot);
                slots.write(to, member);
                tags.swap(to, slot);
            }
        }
        slot = next_slot(slot, count);
    }
}

// The slot that a member moves to. If it is outside its home's group, this is the first empty slot on its path, if there
// is one; otherwise it is the member's own slot.
fn moves_to<T, H: KeptHash>(slots: &Slots<T, H>, tags: &[u8], home: usize, slot: usize) -> usize
    requires tagged { IsTagged tags.now slots.now }
    requires home { home < length slots.now }
    requires slot { slot < length slots.now }
    ensures within { result < length slots.now }
    ensures near { distance (length slots.now) home result ≤ distance (length slots.now) home slot }
    ensures empty { (result ≡ slot) ⊎ (at slots.now result ≡ None) }
    ensures path { IsFar home slot → (q : ℕ) → q < length slots.now → distance (length slots.now) home q < distance (length slots.now) home result → IsSome (at slots.now q) }
{
    if is_far(home, slot) {
        free_before(slots, tags, home, slot)
    } else {
        slot
    }
}

// The first empty slot from `start` on, or `end` if none comes before it.
#[tactic(auto, using(crate::proofs::BackwardShiftPass::free_way))]
fn free_before<T, H: KeptHash>(slots: &Slots<T, H>, tags: &[u8], start: usize, end: usize) -> usize
    requires tagged { IsTagged tags.now slots.now }
    requires start { start < length slots.now }
    requires end { end < length slots.now }
    ensures within { result < length slots.now }
    ensures near { distance (length slots.now) start result ≤ distance (length slots.now) start end }
    ensures empty { (result ≡ end) ⊎ (at slots.now result ≡ None) }
    ensures path { (q : ℕ) → q < length slots.now → distance (length slots.now) start q < distance (length slots.now) start result → IsSome (at slots.now q) }
{
    let mut slot = start;
    while slot != end && tags[slot] != EMPTY {
        slot = next_slot(slot, slots.cells());
    }
    slot
}
