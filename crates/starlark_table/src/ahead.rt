//! The position of an iterator over the slots: the full slots of one group that it has still to reach.
ghost use Rattle.std.specs.Prelude.{◌≡◌, ◌≢◌, ℕ, ◌+◌, ◌<◌, ◌≤◌, ◌∷◌, None, IfSome, drop, length};
ghost use Rattle.starlark_columns.specs.Cells.{IsFilled};
ghost use Rattle.starlark_table.specs.Layout.{at, IsTagged, LeftInWindow};
ghost use Rattle.starlark_table.specs.Table.{filled};

use crate::kept_hash::KeptHash;
use crate::probe::Slots;
use crate::tags::full_slots;

// A group of slots of which those before `next` have been passed. Each full slot left has its bit set.
#[derive(Clone, Copy)]
pub(crate) struct Ahead {
    pub(crate) start: usize,
    pub(crate) end: usize,
    pub(crate) next: usize,
    pub(crate) full: u64,
}

impl Ahead {
    // The position before the first slot.
    #[inline]
    pub(crate) fn of_all() -> Self
        ensures { result ≡ record { start = 0; end = 0; next = 0; full = 0 } }
    {
        Ahead {
            start: 0,
            end: 0,
            next: 0,
            full: 0,
        }
    }

    // Advances past the next full slot and returns it. There is one.
    #[inline]
    pub(crate) fn step<T, H: KeptHash>(&mut self, slots: &Slots<T, H>, tags: &[u8]) -> usize
        requires tagged { IsTagged tags.now slots.now }
        requires left { LeftInWindow slots.now self.old.start self.old.end self.old.next self.old.full }
        requires some { 0 < length (filled (drop self.old.next slots.now)) }
        ensures passed { (p : ℕ) → self.old.next ≤ p → p < result → at slots.now p ≡ None }
        ensures full { IsFilled slots.now result }
        ensures front { IfSome (at slots.now result) (λ m. filled (drop self.old.next slots.now) ≡ m ∷ filled (drop (result + 1) slots.now)) }
        ensures behind { self.old.next ≤ result }
        ensures next { self.new.next ≡ result + 1 }
        ensures left { LeftInWindow slots.now self.new.start self.new.end self.new.next self.new.full }
    {
        self.open(slots, tags);
        let slot = self.start + self.full.trailing_zeros() as usize;
        self.full &= self.full - 1;
        self.next = slot + 1;
        slot
    }

    // Advances to the next group with a full slot, if this one has none left. A full slot is left.
    #[inline]
    #[tactic(auto, using(crate::proofs::FullBits::window_done))]
    fn open<T, H: KeptHash>(&mut self, slots: &Slots<T, H>, tags: &[u8])
        requires tagged { IsTagged tags.now slots.now }
        requires left { LeftInWindow slots.now self.old.start self.old.end self.old.next self.old.full }
        requires some { 0 < length (filled (drop self.old.next slots.now)) }
        ensures some { self.new.full ≢ 0 }
        ensures behind { self.old.next ≤ self.new.next }
        ensures passed { (p : ℕ) → self.old.next ≤ p → p < self.new.next → at slots.now p ≡ None }
        ensures left { LeftInWindow slots.now self.new.start self.new.end self.new.next self.new.full }
    {
        if self.full == 0 {
            *self = first_full(slots, tags, self.end);
        }
    }
}

// The first group from a slot on that has a full slot. There is one.
fn first_full<T, H: KeptHash>(slots: &Slots<T, H>, tags: &[u8], from: usize) -> Ahead
    requires tagged { IsTagged tags.now slots.now }
    requires some { 0 < length (filled (drop from slots.now)) }
    ensures some { result.full ≢ 0 }
    ensures behind { from ≤ result.next }
    ensures passed { (p : ℕ) → from ≤ p → p < result.next → at slots.now p ≡ None }
    ensures left { LeftInWindow slots.now result.start result.end result.next result.full }
{
    let mut start = from;
    'windows: loop {
        let (full, end) = full_slots(tags, start);
        if full != 0 {
            return Ahead {
                start,
                end,
                next: start,
                full,
            };
        }
        start = end;
    }
}
