//! Removal from the slots, with backward shift: members behind a vacated slot move back, so that a search still finds each.
ghost use Rattle.std.specs.Prelude.{◌≡◌, ◌≢◌, ℕ, ◌+◌, ◌<◌, ◌≤◌, ◌⊎◌, None, true, false, ◌∷◌, Some, length, IfSome, IfNone, IsPermutation, slice_index_or, slice_set};
ghost use Rattle.std.specs.List.{swap};
ghost use Rattle.starlark_columns.specs.Cells.{IsFilled};
ghost use Rattle.starlark_table.specs.Table.{filled};
ghost use Rattle.starlark_table.specs.Layout.{at, empty_tag, window, Crosses, InPlace, HasGap, IsBetweenEmpty, IsTagged, TellsFar};
ghost use Rattle.starlark_table.specs.Growth.{limit};

use crate::follow::Follows;
use crate::home::{distance, home_among, is_far, next_slot, window_behind};
use crate::kept_hash::{Kept, KeptHash};
use crate::probe::Slots;
use crate::tags::{EMPTY, is_passed};

// Whether the member of a slot has overflowed, and its path from the home leads over the vacated slot.
#[inline]
#[tactic(auto, using(crate::proofs::BackwardShiftPass::homes))]
fn crosses<T, H: KeptHash>(slots: &Slots<T, H>, hole: usize, slot: usize) -> bool
    requires hole { hole < length slots.now }
    requires full { IsFilled slots.now slot }
    ensures yes { result ≡ true → Crosses (length slots.now) slots.now hole slot }
    ensures no { result ≡ false → Crosses (length slots.now) slots.now hole slot → ⊥ }
{
    let count = slots.cells();
    let home = home_among(count, &slots.get(slot).0);
    is_far(home, slot) && distance(count, home, hole) < distance(count, home, slot)
}

// A member that crosses the vacated slot: the one sixteen slots on if it does, otherwise the first one. So of many
// members that share a home only one in sixteen moves, and the members of a group stay together.
#[inline]
fn next_across<T, H: KeptHash>(slots: &Slots<T, H>, tags: &[u8], hole: usize) -> Option<usize>
    requires hole { hole < length slots.now }
    requires empty { at slots.now hole ≡ None }
    requires gap { HasGap (length slots.now) slots.now hole }
    requires tagged { IsTagged tags.now slots.now }
    requires free { (q : ℕ) × (q < length slots.now) × (q ≢ hole) × (at slots.now q ≡ None) }
    ensures found { IfSome result (λ slot. Crosses (length slots.now) slots.now hole slot) }
    ensures none { IfNone result (InPlace (length slots.now) slots.now) }
{
    let count = slots.cells();
    let beyond = window_behind(hole, count);
    if tags[beyond] != EMPTY && crosses(slots, hole, beyond) {
        return Some(beyond);
    }
    let mut next = next_slot(hole, count);
    while tags[next] != EMPTY {
        if crosses(slots, hole, next) {
            return Some(next);
        }
        next = next_slot(next, count);
    }
    None
}

// Moves a member and its tag into an empty slot, and notifies the observer.
#[inline]
fn move_into<T, H: KeptHash, F: Follows<T>>(
    slots: &mut Slots<T, H>,
    tags: &mut [u8],
    hole: usize,
    slot: usize,
    follower: &mut F,
)
    requires hole { hole < length slots.old }
    requires empty { at slots.old hole ≡ None }
    requires full { IsFilled slots.old slot }
    requires tagged { IsTagged tags.old slots.old }
    requires known { F.knows follower.old slots.old }
    ensures moved { slots.new ≡ swap slots.old hole slot }
    ensures tagged { IsTagged tags.new slots.new }
    ensures known { F.knows follower.new slots.new }
    ensures size { F.size follower.new ≡ F.size follower.old }
{
    let member = slots.take(slot);
    follower.moved(&member.1, hole);
    slots.write(hole, member);
    tags.swap(hole, slot);
}

// Moves members back, so that no member's path from its home leads over the empty slot `start`. Few removals need this, so
// it is not inlined.
#[inline(never)]
pub(crate) fn close_gap<T, H: KeptHash, F: Follows<T>>(
    slots: &mut Slots<T, H>,
    tags: &mut [u8],
    start: usize,
    follower: &mut F,
)
    requires start { start < length slots.old }
    requires empty { at slots.old start ≡ None }
    requires gap { HasGap (length slots.old) slots.old start }
    requires tagged { IsTagged tags.old slots.old }
    requires free { (q : ℕ) × (q < length slots.old) × (q ≢ start) × (at slots.old q ≡ None) }
    requires known { F.knows follower.old slots.old }
    ensures in_place { InPlace (length slots.new) slots.new }
    ensures known { F.knows follower.new slots.new }
    ensures size { F.size follower.new ≡ F.size follower.old }
    ensures sized { length slots.new ≡ length slots.old }
    ensures bag { IsPermutation (filled slots.old) (filled slots.new) }
    ensures told { (far : ℕ) → TellsFar far slots.old → TellsFar far slots.new }
    ensures tagged { IsTagged tags.new slots.new }
{
    let mut hole = start;
    while let Some(slot) = next_across(slots, tags, hole) {
        move_into(slots, tags, hole, slot, follower);
        hole = slot;
    }
}

// Whether removing this slot's member may leave a gap in another member's path: the overflow filter is not empty, and a
// path may lead over the slot.
#[inline]
fn leaves_gap(tags: &[u8], slot: usize, far: u64) -> bool
    requires room { slot + 1 + window ≤ length tags.now }
    requires full { slice_index_or tags.now slot 0 ≢ empty_tag }
    ensures { result ≡ false → (far ≡ 0) ⊎ IsBetweenEmpty tags.now slot }
{
    far != 0 && is_passed(tags, slot)
}

// Removes the member of a full slot, and moves others back where needed.
#[inline]
pub(crate) fn take_out<T, H: KeptHash, F: Follows<T>>(
    slots: &mut Slots<T, H>,
    tags: &mut [u8],
    far: u64,
    slot: usize,
    follower: &mut F,
) -> (Kept<H>, T)
    requires full { IsFilled slots.old slot }
    requires load { length (filled slots.old) ≤ limit (length slots.old) }
    requires in_place { InPlace (length slots.old) slots.old }
    requires tagged { IsTagged tags.old slots.old }
    requires told { TellsFar far slots.old }
    requires known { F.knows follower.old (slice_set slots.old slot None) }
    ensures sized { length slots.new ≡ length slots.old }
    ensures known { F.knows follower.new slots.new }
    ensures size { F.size follower.new ≡ F.size follower.old }
    ensures found { at slots.old slot ≡ Some result }
    ensures rest { IsPermutation (filled slots.old) (result ∷ filled slots.new) }
    ensures in_place { InPlace (length slots.new) slots.new }
    ensures told { TellsFar far slots.new }
    ensures tagged { IsTagged tags.new slots.new }
{
    let passed = leaves_gap(tags, slot, far);
    let member = slots.take(slot);
    tags[slot] = EMPTY;
    if passed {
        close_gap(slots, tags, slot, follower);
    }
    member
}
