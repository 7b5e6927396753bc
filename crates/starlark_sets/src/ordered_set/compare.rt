//! The comparisons of `OrderedSet`s, and what they feed to a hasher.
ghost use Rattle.std.specs.Prelude.{[]};
ghost use Rattle.std.proofs.Common.{refl};
ghost use Rattle.std.specs.Cmp.{on_equiv, on_per, on_total, partial_order_from_agreeing_total};
ghost use Rattle.std.specs.Ordering.{as_partial_cmp, on};
ghost use Rattle.starlark_hash.specs.Compare.{same_ordered};
ghost use Rattle.starlark_sets.specs.Compare.{entries_cmp};
ghost use Rattle.starlark_sets.specs.CompareLaws.{entries_ties, entries_total, feed_alike, same_order_equiv, same_order_per};
ghost use Rattle.starlark_hash.specs.Unit.{same_unit, set_feed, unit_cmp, unit_equiv, unit_per, unit_total};

use super::OrderedSet;
use crate::ordered::{cmp_hashes, cmp_pairs};
use std::cmp::Ordering;
use std::hash::{Hash, Hasher};

/// Sets are equal if they have the same number of elements and, at each index, the same hash and equal elements.
impl<T: Eq> PartialEq for OrderedSet<T> {
    ghost eq = { on (λ s. s.entries) (same_ordered T.eq same_unit) };

    ghost laws = { on_per (λ s. s.entries) (same_order_per T.Eq.laws unit_per) };

    fn eq(&self, other: &OrderedSet<T>) -> bool {
        self.0.eq_ordered(&other.0)
    }
}

impl<T: Eq> Eq for OrderedSet<T> {
    ghost laws = { on_equiv (λ s. s.entries) (same_order_equiv T.Eq.laws unit_equiv) };
}

/// A set feeds the hash of each element, as one number of 32 bits.
impl<T: Eq> Hash for OrderedSet<T> {
    ghost hash_input = { λ s. set_feed s.entries };

    ghost respects_eq = { λ x y. feed_alike T.eq same_unit (λ _. []) (λ _ _ _. refl) x.entries y.entries };

    fn hash<H: Hasher>(&self, state: &mut H) {
        self.0.hash_ordered(state);
    }
}

impl<T: Ord> PartialOrd for OrderedSet<T> {
    ghost partial_cmp = { as_partial_cmp (on (λ s. s.entries) (entries_cmp T.cmp unit_cmp)) };

    ghost laws = { partial_order_from_agreeing_total (on (λ s. s.entries) (entries_cmp T.cmp unit_cmp)) (on_total (λ s. s.entries) (entries_total T.total unit_total)) (λ _ _. refl) (λ x y. entries_ties T.eq same_unit T.cmp unit_cmp T.Ord.matches_eq (λ _ _. refl) x.entries y.entries) };

    fn partial_cmp(&self, other: &OrderedSet<T>) -> Option<Ordering> {
        Some(self.cmp(other))
    }
}

/// Sets are ordered by their lists of elements and then by their lists of hashes, so `Equal` means `==`.
impl<T: Ord> Ord for OrderedSet<T> {
    ghost cmp = { on (λ s. s.entries) (entries_cmp T.cmp unit_cmp) };

    ghost total = { on_total (λ s. s.entries) (entries_total T.total unit_total) };

    ghost matches_partial_cmp = { λ _ _. refl };

    ghost matches_eq = { λ x y. entries_ties T.eq same_unit T.cmp unit_cmp T.Ord.matches_eq (λ _ _. refl) x.entries y.entries };

    fn cmp(&self, other: &OrderedSet<T>) -> Ordering {
        let pairs = cmp_pairs(self.0.entries(), other.0.entries());
        pairs.then(cmp_hashes(self.0.entries(), other.0.entries()))
    }
}
