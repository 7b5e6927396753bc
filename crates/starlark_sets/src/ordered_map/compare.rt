//! The comparisons of `OrderedMap`s, and what they feed to a hasher.
ghost use Rattle.std.proofs.Common.{refl};
ghost use Rattle.std.specs.Cmp.{on_per, on_equiv, on_total, partial_order_from_agreeing_total};
ghost use Rattle.std.specs.Ordering.{as_partial_cmp, on};
ghost use Rattle.starlark_hash.specs.Compare.{ordered_feed, same_ordered};
ghost use Rattle.starlark_sets.specs.Compare.{entries_cmp};
ghost use Rattle.starlark_sets.specs.CompareLaws.{entries_ties, entries_total, feed_alike, same_order_equiv, same_order_per};

use super::OrderedMap;
use crate::ordered::{cmp_hashes, cmp_pairs};
use std::cmp::Ordering;
use std::hash::{Hash, Hasher};

/// Maps are equal if they have the same number of entries and, at each index, the same hash, equal keys and equal
/// values.
impl<K: Eq, V: PartialEq> PartialEq for OrderedMap<K, V> {
    ghost eq = { on (λ m. m.entries) (same_ordered K.eq V.eq) };

    ghost laws = { on_per (λ m. m.entries) (same_order_per K.Eq.laws V.laws) };

    fn eq(&self, other: &OrderedMap<K, V>) -> bool {
        self.0.eq_ordered(&other.0)
    }
}

impl<K: Eq, V: Eq> Eq for OrderedMap<K, V> {
    ghost laws = { on_equiv (λ m. m.entries) (same_order_equiv K.Eq.laws V.Eq.laws) };
}

/// A map feeds, for each entry, its hash as one number of 32 bits and then what its value feeds.
impl<K: Eq, V: Hash> Hash for OrderedMap<K, V> {
    ghost hash_input = { λ m. ordered_feed V.hash_input m.entries };

    ghost respects_eq = { λ x y. feed_alike K.eq V.eq V.hash_input V.respects_eq x.entries y.entries };

    fn hash<H: Hasher>(&self, state: &mut H) {
        self.0.hash_ordered(state);
    }
}

impl<K: Ord, V: Ord> PartialOrd for OrderedMap<K, V> {
    ghost partial_cmp = { as_partial_cmp (on (λ m. m.entries) (entries_cmp K.cmp V.cmp)) };

    ghost laws = { partial_order_from_agreeing_total (on (λ m. m.entries) (entries_cmp K.cmp V.cmp)) (on_total (λ m. m.entries) (entries_total K.total V.total)) (λ _ _. refl) (λ x y. entries_ties K.eq V.eq K.cmp V.cmp K.Ord.matches_eq V.Ord.matches_eq x.entries y.entries) };

    fn partial_cmp(&self, other: &OrderedMap<K, V>) -> Option<Ordering> {
        Some(self.cmp(other))
    }
}

/// Maps are ordered by their lists of keys and values and then by their lists of hashes, so `Equal` means `==`.
impl<K: Ord, V: Ord> Ord for OrderedMap<K, V> {
    ghost cmp = { on (λ m. m.entries) (entries_cmp K.cmp V.cmp) };

    ghost total = { on_total (λ m. m.entries) (entries_total K.total V.total) };

    ghost matches_partial_cmp = { λ _ _. refl };

    ghost matches_eq = { λ x y. entries_ties K.eq V.eq K.cmp V.cmp K.Ord.matches_eq V.Ord.matches_eq x.entries y.entries };

    fn cmp(&self, other: &OrderedMap<K, V>) -> Ordering {
        let pairs = cmp_pairs(self.0.iter_hashed(), other.0.iter_hashed());
        pairs.then(cmp_hashes(self.0.iter_hashed(), other.0.iter_hashed()))
    }
}
