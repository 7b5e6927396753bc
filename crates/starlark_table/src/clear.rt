//! Emptying all slots, and finding the next full one.
ghost use Rattle.std.specs.Prelude.{◌≡◌, ℕ, ◌<◌, ◌≤◌, None, length, IfNone, IfSome, IsSome};
ghost use Rattle.starlark_table.specs.Layout.{at, AreDoubled, IsTagged};

use crate::kept_hash::KeptHash;
use crate::probe::Slots;
use crate::tags::{EMPTY, full_slots, tags_beside};
use starlark_columns::Bytes;

// Drops every member. The tags are left as they are, for the caller to overwrite.
pub(crate) fn empty_all<T: Drop, H: KeptHash>(slots: &mut Slots<T, H>, tags: &[u8])
    requires { IsTagged tags.now slots.old }
    ensures sized { length slots.new ≡ length slots.old }
    ensures empty { (k : ℕ) → at slots.new k ≡ None }
{
    for slot in 0..slots.cells() {
        if tags[slot] != EMPTY {
            let _member = slots.take(slot);
        }
    }
}

// Drops every member and frees the memory.
#[tactic(auto, using(crate::proofs::FilledSlots::all_empty))]
pub(crate) fn drop_all<T: Drop, H: KeptHash>(mut slots: Slots<T, H>, tags: Bytes)
    requires tagged { IsTagged tags slots }
    requires doubled { AreDoubled slots }
{
    let count = tags_beside(&slots);
    empty_all(&mut slots, tags.as_slice(count));
    slots.give_back(tags.allocator());
    tags.give_back(count);
}

// The first full slot from `from` on, or `None`.
#[inline]
pub(crate) fn next_full<T, H: KeptHash>(
    slots: &Slots<T, H>,
    tags: &[u8],
    from: usize,
) -> Option<usize>
    requires { IsTagged tags.now slots.now }
    ensures full { IfSome result (λ slot. from ≤ slot × IsSome (at slots.now slot)) }
    ensures passed { IfSome result (λ slot. (p : ℕ) → from ≤ p → p < slot → at slots.now p ≡ None) }
    ensures none { IfNone result ((p : ℕ) → from ≤ p → at slots.now p ≡ None) }
{
    let mut start = from;
    'windows: while start < slots.cells() {
        let (full, end) = full_slots(tags, start);
        if full != 0 {
            return Some(start + full.trailing_zeros() as usize);
        }
        start = end;
    }
    None
}
