//! The union of two ascending sets, in ascending order.
ghost use Rattle.std.specs.Prelude.{◌≡◌, ◌+◌, ◌-◌, ◌^◌, ◌<◌, [], ◌∷◌, not, length, min, drop, Some, IfSome, MatchOption};
ghost use Rattle.std.specs.Iterator.{UpTo, at_most};
ghost use Rattle.std.specs.Iterator.SizeHint.{IsWithinCount};
ghost use Rattle.std.specs.Map.Iter.{TakesFirst};
ghost use Rattle.starlark_hash.specs.Entries.{IsSingle};
ghost use Rattle.starlark_hash.specs.Sort.{Ascends};
ghost use Rattle.starlark_sets.specs.Difference.{lacks};
ghost use Rattle.starlark_sets.specs.Union.{fits_in};
ghost use Rattle.starlark_map.specs.SortedUnion.{ComesNext, Follows, OwnNext, RiseSteps, after_own, comes_first, elements_under, own_rest, rise_rest, shown_element};

use starlark_hash::Hashed;
use starlark_sets::{IterHashed, OrderedSet};
use std::cmp::Ordering;
use std::marker::Model;

/// The elements of one set and those of another that it lacks, in ascending order; of equal elements those of the first set
/// come first. An element is looked up under the hash that it is stored under. The iterator is seen as what it has left of
/// both, and the list of the first set. A step skips elements of the other set only if they come before all that is left of
/// the first.
#[derive(Drop)]
pub struct SortedUnion<'a, T: Ord> {
    left: Ahead<'a, T>,
    right: Ahead<'a, T>,
    // the element of the first set that was returned last
    last: Option<Hashed<&'a T>>,
    there: &'a OrderedSet<T>,
}

impl<'a, T: Ord> Model for SortedUnion<'a, T> {
    ghost use Rattle.std.specs.Prelude.{};
    ghost use Rattle.starlark_hash.specs.Sort.{Ascends};
    ghost use Rattle.starlark_map.specs.SortedUnion.{SortedUnion as Both, Follows};

    ghost Value = { Both T };

    ghost view = { λ u. record { left = u.left; right = u.right; there = u.there.now.entries } };

    ghost invariant = { λ u. Ascends T.cmp u.there.now.entries × Follows u.last u.left u.there.now.entries };
}

impl<'a, T: Ord> SortedUnion<'a, T> {
    #[inline]
    pub(crate) fn new(left: Ahead<'a, T>, right: Ahead<'a, T>, there: &'a OrderedSet<T>) -> Self
        requires ascends { Ascends T.cmp there.now.entries }
        requires all { there.now.entries ≡ left }
        ensures { result ≡ record { left = left.entry; right = right.entry; there = there.now.entries } }
    {
        SortedUnion {
            left,
            right,
            last: None,
            there,
        }
    }

    // Takes the next element of the first set, and records it as the last returned.
    #[inline]
    fn take_own(&mut self) -> Option<Hashed<&'a T>>
        ensures taken { MatchOption result ((own_rest T.eq T.cmp self.old ≡ []) × (drop 1 (own_rest T.eq T.cmp self.old) ≡ [])) (λ h. own_rest T.eq T.cmp self.old ≡ h.key.now ∷ rise_rest T.eq T.cmp self.new) }
        ensures left { self.new ≡ after_own self.old }
    {
        let element = self.left.take()?;
        self.last = Some(element);
        Some(element)
    }
}

impl<'a, T: Ord> Iterator for SortedUnion<'a, T> {
    type Item = &'a T;

    ghost next_gives = { RiseSteps T.eq T.cmp };

    ghost remaining = { λ u. at_most (length (rise_rest T.eq T.cmp u)) };

    fn next(&mut self) -> Option<&'a T> {
        if let Some(element) = next_before(&mut self.right, &self.left, self.last, self.there) {
            return Some(element.into_key());
        }
        let element = self.take_own()?;
        Some(element.into_key())
    }

    fn size_hint(&self) -> (usize, Option<usize>)
        ensures lower { IsWithinCount result.0 (at_most (length (rise_rest T.eq T.cmp self.now))) }
        ensures upper { IfSome result.1 (UpTo (at_most (length (rise_rest T.eq T.cmp self.now)))) }
        ensures least { result.0 ≡ min (length self.now.left + (length self.now.right - length self.now.there)) (2 ^ 64 - 1) }
        ensures most { result.1 ≡ fits_in (length self.now.left + length self.now.right) }
    {
        let left = self.left.len();
        let right = self.right.len();
        (
            left.saturating_add(right.saturating_sub(self.there.len())),
            left.checked_add(right),
        )
    }
}

// Takes the next element if it is the other set's. It first skips elements that this set has, as long as they come before
// all that is left of this set.
fn next_before<'a, T: Ord>(
    right: &mut Ahead<'a, T>,
    left: &Ahead<'a, T>,
    last: Option<Hashed<&'a T>>,
    there: &OrderedSet<T>,
) -> Option<Hashed<&'a T>>
    requires ascends { Ascends T.cmp there.now.entries }
    requires follows { Follows last left.now there.now.entries }
    ensures steps { MatchOption result (OwnNext T.eq T.cmp (record { left = left.now; right = right.old; there = there.now.entries }) (record { left = left.now; right = right.new; there = there.now.entries })) (λ f. RiseSteps T.eq T.cmp (record { left = left.now; right = right.old; there = there.now.entries }) (Some f.key) (record { left = left.now; right = right.new; there = there.now.entries })) }
{
    while let Some(element) = right.first() {
        if !stands_before(element, left) {
            return None;
        }
        right.take();
        if !is_given(element, last, there) {
            return Some(element);
        }
    }
    None
}

// Whether a set has an element that comes before all that is left of the set. The set can have it only if it is not less
// than the last returned.
#[tactic(auto, using(starlark_small::proofs::CallerLookup::look_ups))]
fn is_given<T: Ord>(element: Hashed<&T>, last: Option<Hashed<&T>>, there: &OrderedSet<T>) -> bool
    requires { ComesNext T.cmp last there.now.entries (shown_element element) }
    ensures { result ≡ not (lacks T.eq there.now.entries (shown_element element.entry)) }
{
    match last {
        None => false,
        Some(last) => match last.key().cmp(element.key()) {
            Ordering::Less => false,
            // The element last returned is in the set itself.
            Ordering::Equal if last.hash() == element.hash() => true,
            _ => there.contains_hashed(element),
        },
    }
}

// Whether an element comes before all that is left of an ascending list.
fn stands_before<T: Ord>(element: Hashed<&T>, left: &Ahead<'_, T>) -> bool
    ensures { result ≡ comes_first T.cmp left.now (shown_element element.entry) }
{
    match left.first() {
        None => true,
        Some(first) => element.key().cmp(first.key()) == Ordering::Less,
    }
}

// The elements that an iterator has left: they ascend, and no two have the same hash and are equal. The first has already
// been taken from the iterator. The union's own invariant does not repeat this, so that a wrong step breaks the clause of
// `next` and not an invariant.
#[derive(Drop)]
pub(crate) struct Ahead<'a, T: Ord> {
    first: Option<Hashed<&'a T>>,
    rest: IterHashed<'a, T>,
}

impl<'a, T: Ord> Model for Ahead<'a, T> {
    ghost use Rattle.std.specs.Prelude.{◌<◌, ◌^◌, length};
    ghost use Rattle.starlark_hash.specs.Entries.{IsSingle};
    ghost use Rattle.starlark_hash.specs.Sort.{Ascends};
    ghost use Rattle.starlark_sets.specs.Set.{Elements};
    ghost use Rattle.starlark_map.specs.SortedUnion.{ahead};

    ghost Value = { Elements T };

    ghost view = { λ a. ahead a.first a.rest };

    ghost invariant = { λ a. (length (ahead a.first a.rest) < 2 ^ 64) × Ascends T.cmp (ahead a.first a.rest) × IsSingle T.eq (ahead a.first a.rest) };
}

impl<'a, T: Ord> Ahead<'a, T> {
    #[inline]
    pub(crate) fn new(walk: IterHashed<'a, T>) -> Self
        requires fits { length walk < 2 ^ 64 }
        requires ascends { Ascends T.cmp (elements_under walk) }
        requires single { IsSingle T.eq (elements_under walk) }
        ensures { result ≡ elements_under walk.entry }
    {
        let mut rest = walk;
        let first = rest.next();
        Ahead { first, rest }
    }

    // The next element, which is not taken.
    fn first(&self) -> Option<Hashed<&'a T>>
        ensures first { MatchOption result (self.now ≡ []) (λ h. self.now ≡ shown_element h ∷ drop 1 self.now) }
        ensures ascends { Ascends T.cmp self.now }
    {
        self.first
    }

    fn take(&mut self) -> Option<Hashed<&'a T>>
        ensures { TakesFirst shown_element self.old result self.new }
    {
        let first = self.first?;
        self.first = self.rest.next();
        Some(first)
    }

    fn len(&self) -> usize
        ensures number { result ≡ length self.now }
        ensures single { IsSingle T.eq self.now }
    {
        match self.first {
            None => 0,
            Some(_) => self.rest.len() + 1,
        }
    }
}
