//! Comparison and hashing of `SortedSet`s, which are those of their ordered sets.
ghost use Rattle.std.specs.Prelude.{[]};
ghost use Rattle.std.proofs.Common.{refl};
ghost use Rattle.std.specs.Cmp.{on_equiv, on_per, on_total, partial_order_from_agreeing_total};
ghost use Rattle.std.specs.Ordering.{as_partial_cmp, on};
ghost use Rattle.starlark_hash.specs.Compare.{same_ordered};
ghost use Rattle.starlark_sets.specs.Compare.{entries_cmp};
ghost use Rattle.starlark_sets.specs.CompareLaws.{entries_ties, entries_total, feed_alike, same_order_equiv, same_order_per};
ghost use Rattle.starlark_hash.specs.Unit.{same_unit, set_feed, unit_cmp, unit_equiv, unit_per, unit_total};

use super::SortedSet;
use std::cmp::Ordering;
use std::hash::{Hash, Hasher};

/// Sets are equal if they have as many elements and, item by item, the same hash and equal elements.
impl<T: Ord + Hash> PartialEq for SortedSet<T> {
    ghost eq = { on (λ s. s.entries) (same_ordered T.eq same_unit) };

    ghost laws = { on_per (λ s. s.entries) (same_order_per T.Eq.laws unit_per) };

    fn eq(&self, other: &SortedSet<T>) -> bool {
        self.inner == other.inner
    }
}

impl<T: Ord + Hash> Eq for SortedSet<T> {
    ghost laws = { on_equiv (λ s. s.entries) (same_order_equiv T.Eq.laws unit_equiv) };
}

/// Feeds the hash of each element, as one number of 32 bits.
impl<T: Ord + Hash> Hash for SortedSet<T> {
    ghost hash_input = { λ s. set_feed s.entries };

    ghost respects_eq = { λ x y. feed_alike T.eq same_unit (λ _. []) (λ _ _ _. refl) x.entries y.entries };

    fn hash<H: Hasher>(&self, state: &mut H) {
        self.inner.hash(state);
    }
}

impl<T: Ord + Hash> PartialOrd for SortedSet<T> {
    ghost partial_cmp = { as_partial_cmp (on (λ s. s.entries) (entries_cmp T.cmp unit_cmp)) };

    ghost laws = { partial_order_from_agreeing_total (on (λ s. s.entries) (entries_cmp T.cmp unit_cmp)) (on_total (λ s. s.entries) (entries_total T.total unit_total)) (λ _ _. refl) (λ x y. entries_ties T.eq same_unit T.cmp unit_cmp T.Ord.matches_eq (λ _ _. refl) x.entries y.entries) };

    fn partial_cmp(&self, other: &SortedSet<T>) -> Option<Ordering> {
        Some(self.cmp(other))
    }
}

/// Compares the lists of elements, and then the lists of hashes, so that `Equal` means `==`.
impl<T: Ord + Hash> Ord for SortedSet<T> {
    ghost cmp = { on (λ s. s.entries) (entries_cmp T.cmp unit_cmp) };

    ghost total = { on_total (λ s. s.entries) (entries_total T.total unit_total) };

    ghost matches_partial_cmp = { λ _ _. refl };

    ghost matches_eq = { λ x y. entries_ties T.eq same_unit T.cmp unit_cmp T.Ord.matches_eq (λ _ _. refl) x.entries y.entries };

    fn cmp(&self, other: &SortedSet<T>) -> Ordering {
        self.inner.cmp(&other.inner)
    }
}
