//! The iterators of a `ReadyTable`. Each is seen as the list of the items that are left.
ghost use Rattle.std.specs.Prelude.{◌≡◌, length, ⊤, IfSome, Some};
ghost use Rattle.std.specs.Iterator.{YieldsFirst, YieldsFirstBy, YieldsFirstRef, UpTo, at_most, item_count};
ghost use Rattle.std.specs.Iterator.SizeHint.{IsWithinCount};
ghost use Rattle.starlark_table.specs.Table.{filled, items_in};

use crate::ahead::Ahead;
use crate::clear::drop_all;
use crate::kept_hash::KeptHash;
use crate::probe::Slots;
use crate::tags::{EMPTY, tags_beside};
use starlark_columns::Bytes;
use std::alloc::AllocError;
use std::iter::FusedIterator;
use std::marker::Model;

/// The iterator over the items of a table, each by `&`.
#[derive(Drop)]
pub struct Iter<'a, T, H: KeptHash = u64> {
    slots: &'a Slots<T, H>,
    tags: &'a [u8],
    // The position of the iterator, and how many items are left.
    ahead: Ahead,
    left: usize,
}

impl<'a, T, H: KeptHash> Model for Iter<'a, T, H> {
    ghost use Rattle.std.specs.Prelude.{◌≡◌, List, drop, length};
    ghost use Rattle.starlark_table.specs.Layout.{IsTagged, LeftInWindow};
    ghost use Rattle.starlark_table.specs.Table.{filled, items_in};

    ghost Value = { List T };

    ghost view = { λ it. items_in (drop it.ahead.next it.slots.now) };

    ghost invariant = { λ it. IsTagged it.tags.now it.slots.now × LeftInWindow it.slots.now it.ahead.start it.ahead.end it.ahead.next it.ahead.full × (it.left ≡ length (filled (drop it.ahead.next it.slots.now))) };
}

impl<'a, T, H: KeptHash> Iter<'a, T, H> {
    ghost use Rattle.std.specs.Prelude.{length};
    ghost use Rattle.starlark_table.specs.Layout.{IsTagged};

    #[inline]
    #[tactic(auto, using(crate::proofs::FullBits::window_before_all))]
    pub(crate) fn new(slots: &'a Slots<T, H>, tags: &'a [u8], left: usize) -> Self
        requires tagged { IsTagged tags.now slots.now }
        requires all { left ≡ length (filled slots.now) }
        ensures { result ≡ items_in slots.now }
    {
        Iter {
            slots,
            tags,
            ahead: Ahead::of_all(),
            left,
        }
    }
}

impl<'a, T, H: KeptHash> Iterator for Iter<'a, T, H> {
    type Item = &'a T;

    ghost next_gives = { YieldsFirstRef (λ rest. rest) };

    ghost remaining = { item_count (λ rest. rest) };

    #[inline]
    fn next(&mut self) -> Option<&'a T> {
        if self.left == 0 {
            return None;
        }
        let slot = self.ahead.step(self.slots, self.tags);
        self.left -= 1;
        Some(&self.slots.get(slot).1)
    }

    #[inline]
    fn size_hint(&self) -> (usize, Option<usize>)
        ensures lower { IsWithinCount result.0 (at_most (length self.now)) }
        ensures upper { IfSome result.1 (UpTo (at_most (length self.now))) }
        ensures exact { result ≡ (length self.now, Some (length self.now)) }
    {
        (self.left, Some(self.left))
    }
}

impl<'a, T, H: KeptHash> ExactSizeIterator for Iter<'a, T, H> {
    #[inline]
    fn len(&self) -> usize {
        self.left
    }
}

impl<'a, T, H: KeptHash> FusedIterator for Iter<'a, T, H> {}

impl<'a, T, H: KeptHash> Clone for Iter<'a, T, H> {
    ghost is_clone = { λ it copy. copy ≡ it };

    ghost is_infallible = { λ _. ⊤ };

    #[inline]
    fn clone(&self) -> Result<Self, AllocError> {
        Ok(Iter {
            slots: self.slots,
            tags: self.tags,
            ahead: self.ahead,
            left: self.left,
        })
    }
}

/// The iterator over the members of a table, each as its hash and its item, by value. The members left when it is dropped
/// are dropped with it.
pub struct IntoIter<T, H: KeptHash = u64> {
    slots: Slots<T, H>,
    tags: Bytes,
    ahead: Ahead,
    left: usize,
}

impl<T, H: KeptHash> Model for IntoIter<T, H> {
    ghost use Rattle.std.specs.Prelude.{◌≡◌, ℕ, ◌<◌, List, length, None};
    ghost use Rattle.starlark_table.specs.Layout.{at, AreDoubled, IsTagged, LeftInWindow};
    ghost use Rattle.starlark_table.specs.Table.{filled};

    ghost Value = { List (ℕ × T) };

    ghost view = { λ it. filled it.slots };

    // A returned member has left its slot but not its tag, so the slots before the position are empty.
    ghost invariant = { λ it. IsTagged it.tags it.slots × (it.left ≡ length (filled it.slots)) × ((p : ℕ) → p < it.ahead.next → at it.slots p ≡ None) × AreDoubled it.slots × LeftInWindow it.slots it.ahead.start it.ahead.end it.ahead.next it.ahead.full };
}

impl<T, H: KeptHash> IntoIter<T, H> {
    ghost use Rattle.std.specs.Prelude.{length};
    ghost use Rattle.starlark_table.specs.Layout.{AreDoubled, IsTagged};

    #[inline]
    #[tactic(auto, using(crate::proofs::FullBits::window_before_all))]
    pub(crate) fn new(slots: Slots<T, H>, tags: Bytes, left: usize) -> Self
        requires tagged { IsTagged tags slots }
        requires doubled { AreDoubled slots }
        requires all { left ≡ length (filled slots) }
        ensures { result ≡ filled slots }
    {
        IntoIter {
            slots,
            tags,
            ahead: Ahead::of_all(),
            left,
        }
    }

    /// The next member, with its hash in the form that the table keeps, for another table to store.
    #[inline]
    pub fn next_kept(&mut self) -> Option<(H, T)>
        ensures { YieldsFirstBy (λ m. (H.number m.0, m.1)) (λ rest. rest) self.old result self.new }
    {
        if self.left == 0 {
            return None;
        }
        let count = tags_beside(&self.slots);
        let slot = self.ahead.step(&self.slots, self.tags.as_slice(count));
        self.left -= 1;
        self.tags.as_mut_slice(count)[slot] = EMPTY;
        let (hash, item) = self.slots.take(slot);
        Some((hash.into_inner(), item))
    }
}

impl<T: Drop, H: KeptHash> Iterator for IntoIter<T, H> {
    type Item = (u64, T);

    ghost next_gives = { YieldsFirst (λ rest. rest) };

    ghost remaining = { item_count (λ rest. rest) };

    #[inline]
    fn next(&mut self) -> Option<(u64, T)> {
        let (hash, item) = self.next_kept()?;
        Some((hash.number(), item))
    }

    #[inline]
    fn size_hint(&self) -> (usize, Option<usize>)
        ensures lower { IsWithinCount result.0 (at_most (length self.now)) }
        ensures upper { IfSome result.1 (UpTo (at_most (length self.now))) }
        ensures exact { result ≡ (length self.now, Some (length self.now)) }
    {
        (self.left, Some(self.left))
    }
}

impl<T: Drop, H: KeptHash> ExactSizeIterator for IntoIter<T, H> {
    #[inline]
    fn len(&self) -> usize {
        self.left
    }
}

impl<T: Drop, H: KeptHash> FusedIterator for IntoIter<T, H> {}

impl<T: Drop, H: KeptHash> Drop for IntoIter<T, H> {
    fn drop(self) {
        let IntoIter {
            slots,
            tags,
            ahead: _,
            left: _,
        } = self;
        drop_all(slots, tags);
    }
}
