//! Reads and writes along the probe sequence of a hash, which begins at its home and ends at the first group with an empty
//! slot.
ghost use Rattle.std.specs.Prelude.{◌≡◌, ◌≢◌, ◌⊎◌, ℕ, true, ◌+◌, ◌<◌, ◌≤◌, [], ◌∷◌, Some, None, drop, length, IfSome, IsSome, is_some, slice_set};
ghost use Rattle.std.specs.Option.{option_copied, option_map};
ghost use Rattle.starlark_hash.specs.Search.{Searches, CanSearch};
ghost use Rattle.starlark_table.specs.Table.{filled, holders_in};
ghost use Rattle.starlark_table.specs.Layout.{distance, at, tag_bits, empty_tag, window, InPlace, IsFar, IsMask, IsTagged, MayBeFar, TellsFar, IsVacancy};

use crate::far::{may_be_far, with_far};
use crate::home::{home, window_after};
use crate::kept_hash::{Kept, KeptHash};
use crate::tags::{EMPTY, slots_up_to_empty, slots_with, tag};
use starlark_columns::Column;

/// Slots, each with room for one member: its stored hash and its item.
pub(crate) type Slots<T, H> = Column<(Kept<H>, T)>;

// The slot of an item that `eq` accepts, with the item.
#[inline(always)]
#[tactic(auto, using(crate::proofs::ProbeSequence::at_home))]
pub(crate) fn find_slot<'a, T, H: KeptHash, F: FnMut(&T) -> bool>(
    slots: &'a Slots<T, H>,
    tags: &[u8],
    far: u64,
    mask: usize,
    hash: Kept<H>,
    mut eq: F,
) -> Option<(usize, &'a T)>
    requires mask { IsMask mask slots.now }
    requires in_place { InPlace (length slots.now) slots.now }
    requires tagged { IsTagged tags.now slots.now }
    requires told { TellsFar far slots.now }
    requires free { (q : ℕ) × (q < length slots.now) × (at slots.now q ≡ None) }
    requires callable { CanSearch F.FnMut (holders_in hash slots.now) eq }
    ensures found { (last : F) × Searches F.FnMut (holders_in hash slots.now) eq (option_map (λ p. p.0) result) last }
    ensures item { IfSome result (λ p. at slots.now p.0 ≡ Some (hash, p.1.now)) }
{
    let number = hash.number();
    let sought = tag(number);
    let mut start = home(number, mask);
    let mut slot = start;
    let mut same = slots_with(tags, start, sought);
    // The first slot with the tag is most often the right one. Testing it before the loop saves a jump.
    if same != 0 {
        slot += same.trailing_zeros() as usize;
        let (stored, item) = slots.get(slot);
        if stored.is(&hash) && eq(item) {
            return Some((slot, item));
        }
        same = same >> same.trailing_zeros() >> 1;
        slot += 1;
    } else if ends_at_home(tags, start, far, sought) {
        return None;
    }
    'windows: loop {
        if same == 0 {
            if slots_with(tags, start, EMPTY) != 0 {
                return None;
            }
            start = window_after(start, mask);
            slot = start;
            same = slots_up_to_empty(tags, start, sought);
        } else {
            slot += same.trailing_zeros() as usize;
            let (stored, item) = slots.get(slot);
            if stored.is(&hash) && eq(item) {
                return Some((slot, item));
            }
            same = same >> same.trailing_zeros() >> 1;
            slot += 1;
        }
    }
}

// Whether no member with this tag can be outside its home's group: that group has an empty slot, or the overflow filter
// has no bit for the tag. Both are computed before the branch, which is then predicted well.
#[inline]
fn ends_at_home(tags: &[u8], home: usize, far: u64, tag: u8) -> bool
    requires { home + window ≤ length tags.now }
    ensures { result ≡ true → (tag_bits empty_tag tags.now home window ≢ 0) ⊎ (MayBeFar far tag → ⊥) }
{
    (slots_with(tags, home, EMPTY) != 0) | !may_be_far(far, tag)
}

// The first empty slot of the home's group, if no tag of the group is that of the hash. No member has the hash then.
#[inline(always)]
#[tactic(auto, using(crate::proofs::ProbeSequence::at_home))]
pub(crate) fn vacancy<T, H: KeptHash>(
    slots: &Slots<T, H>,
    tags: &[u8],
    mask: usize,
    hash: Kept<H>,
) -> Option<usize>
    requires some { 0 < length slots.now }
    requires mask { IsMask mask slots.now }
    requires in_place { InPlace (length slots.now) slots.now }
    requires tagged { IsTagged tags.now slots.now }
    ensures none { IfSome result (λ _. holders_in hash slots.now ≡ []) }
    ensures vacant { IfSome result (λ slot. IsVacancy hash slots.now slot) }
{
    let number = hash.number();
    let start = home(number, mask);
    let same = slots_with(tags, start, tag(number));
    if same != 0 {
        return None;
    }
    let empty = slots_with(tags, start, EMPTY);
    if empty == 0 {
        return None;
    }
    Some(start + empty.trailing_zeros() as usize)
}

// The first empty slot from `home` on.
#[inline]
#[tactic(auto, using(crate::proofs::BackwardShiftPass::homes))]
pub(crate) fn free_slot<T, H: KeptHash>(slots: &Slots<T, H>, tags: &[u8], home: usize) -> usize
    requires home { home < length slots.now }
    requires tagged { IsTagged tags.now slots.now }
    requires free { (q : ℕ) × (q < length slots.now) × (at slots.now q ≡ None) }
    ensures in_range { result < length slots.now }
    ensures empty { at slots.now result ≡ None }
    ensures path { (q : ℕ) → q < length slots.now → distance (length slots.now) home q < distance (length slots.now) home result → IsSome (at slots.now q) }
{
    let mask = slots.cells() - 1;
    let mut start = home;
    let mut empty = slots_with(tags, start, EMPTY);
    'windows: while empty == 0 {
        start = window_after(start, mask);
        empty = slots_with(tags, start, EMPTY);
    }
    start + empty.trailing_zeros() as usize
}

// The first empty slot from a home on, for a member with this tag. If the slot is outside the home's group, the bit of the
// tag is set in the overflow filter.
#[inline]
fn slot_from<T, H: KeptHash>(
    slots: &Slots<T, H>,
    tags: &[u8],
    far: &mut u64,
    home: usize,
    tag: u8,
) -> usize
    requires home { home < length slots.now }
    requires tagged { IsTagged tags.now slots.now }
    requires free { (q : ℕ) × (q < length slots.now) × (at slots.now q ≡ None) }
    ensures in_range { result < length slots.now }
    ensures empty { at slots.now result ≡ None }
    ensures path { (q : ℕ) → q < length slots.now → distance (length slots.now) home q < distance (length slots.now) home result → IsSome (at slots.now q) }
    ensures others { (other : ℕ) → MayBeFar far.old other → MayBeFar far.new other }
    ensures its { IsFar home result → MayBeFar far.new tag }
{
    let empty = slots_with(tags, home, EMPTY);
    if empty == 0 {
        *far = with_far(*far, tag);
        return free_slot(slots, tags, home);
    }
    home + empty.trailing_zeros() as usize
}

// Stores a member in the first empty slot from its home on, and writes its tag.
#[inline]
#[tactic(auto, using(crate::proofs::BackwardShiftPass::homes))]
pub(crate) fn put<T, H: KeptHash>(
    slots: &mut Slots<T, H>,
    tags: &mut [u8],
    far: &mut u64,
    hash: Kept<H>,
    item: T,
) -> usize
    requires in_place { InPlace (length slots.old) slots.old }
    requires tagged { IsTagged tags.old slots.old }
    requires told { TellsFar far.old slots.old }
    requires free { (q : ℕ) × (q < length slots.old) × (at slots.old q ≡ None) }
    ensures in_range { result < length slots.old }
    ensures empty { at slots.old result ≡ None }
    ensures told { TellsFar far.new slots.new }
    ensures set { slots.new ≡ slice_set slots.old result (Some (hash, item)) }
    ensures in_place { InPlace (length slots.new) slots.new }
    ensures tagged { IsTagged tags.new slots.new }
{
    let number = hash.number();
    let tag = tag(number);
    let slot = slot_from(slots, tags, far, home(number, slots.cells() - 1), tag);
    tags[slot] = tag;
    slots.write(slot, (hash, item));
    slot
}

// Stores a member in a slot that `vacancy` returned for its hash, and writes its tag.
#[inline(always)]
pub(crate) fn put_at<T, H: KeptHash>(
    slots: &mut Slots<T, H>,
    tags: &mut [u8],
    slot: usize,
    hash: Kept<H>,
    item: T,
)
    requires in_place { InPlace (length slots.old) slots.old }
    requires tagged { IsTagged tags.old slots.old }
    requires vacant { IsVacancy hash slots.old slot }
    ensures set { slots.new ≡ slice_set slots.old slot (Some (hash, item)) }
    ensures in_place { InPlace (length slots.new) slots.new }
    ensures tagged { IsTagged tags.new slots.new }
    ensures told { (far : ℕ) → TellsFar far slots.old → TellsFar far slots.new }
{
    tags[slot] = tag(hash.number());
    slots.write(slot, (hash, item));
}

// Whether a slot is full, by its tag.
#[inline]
#[tactic(auto, using(crate::proofs::FilledSlots::tells))]
pub(crate) fn is_full<T, H: KeptHash>(slots: &Slots<T, H>, tags: &[u8], slot: usize) -> bool
    requires { IsTagged tags.now slots.now }
    ensures { result ≡ is_some (at slots.now slot) }
{
    slot < slots.cells() && tags[slot] != EMPTY
}
