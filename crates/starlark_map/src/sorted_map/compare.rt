//! Comparison and hashing of `SortedMap`s, which are those of their ordered maps.
ghost use Rattle.std.proofs.Common.{refl};
ghost use Rattle.std.specs.Cmp.{on_per, on_equiv, on_total, partial_order_from_agreeing_total};
ghost use Rattle.std.specs.Ordering.{as_partial_cmp, on};
ghost use Rattle.starlark_hash.specs.Compare.{ordered_feed, same_ordered};
ghost use Rattle.starlark_sets.specs.Compare.{entries_cmp};
ghost use Rattle.starlark_sets.specs.CompareLaws.{entries_ties, entries_total, feed_alike, same_order_equiv, same_order_per};

use super::SortedMap;
use std::cmp::Ordering;
use std::hash::{Hash, Hasher};

/// Maps are equal if they have as many entries and, item by item, the same hash, equal keys and equal values.
impl<K: Ord + Hash, V: PartialEq> PartialEq for SortedMap<K, V> {
    ghost eq = { on (λ m. m.entries) (same_ordered K.eq V.eq) };

    ghost laws = { on_per (λ m. m.entries) (same_order_per K.Eq.laws V.laws) };

    fn eq(&self, other: &SortedMap<K, V>) -> bool {
        self.map == other.map
    }
}

impl<K: Ord + Hash, V: Eq> Eq for SortedMap<K, V> {
    ghost laws = { on_equiv (λ m. m.entries) (same_order_equiv K.Eq.laws V.Eq.laws) };
}

/// Feeds the hash of each entry, as one number of 32 bits, and then what its value feeds.
impl<K: Ord + Hash, V: Hash> Hash for SortedMap<K, V> {
    ghost hash_input = { λ m. ordered_feed V.hash_input m.entries };

    ghost respects_eq = { λ x y. feed_alike K.eq V.eq V.hash_input V.respects_eq x.entries y.entries };

    fn hash<H: Hasher>(&self, state: &mut H) {
        self.map.hash(state);
    }
}

impl<K: Ord + Hash, V: Ord> PartialOrd for SortedMap<K, V> {
    ghost partial_cmp = { as_partial_cmp (on (λ m. m.entries) (entries_cmp K.cmp V.cmp)) };

    ghost laws = { partial_order_from_agreeing_total (on (λ m. m.entries) (entries_cmp K.cmp V.cmp)) (on_total (λ m. m.entries) (entries_total K.total V.total)) (λ _ _. refl) (λ x y. entries_ties K.eq V.eq K.cmp V.cmp K.Ord.matches_eq V.Ord.matches_eq x.entries y.entries) };

    fn partial_cmp(&self, other: &SortedMap<K, V>) -> Option<Ordering> {
        Some(self.cmp(other))
    }
}

/// Compares the lists of keys and values, and then the lists of hashes, so that `Equal` means `==`.
impl<K: Ord + Hash, V: Ord> Ord for SortedMap<K, V> {
    ghost cmp = { on (λ m. m.entries) (entries_cmp K.cmp V.cmp) };

    ghost total = { on_total (λ m. m.entries) (entries_total K.total V.total) };

    ghost matches_partial_cmp = { λ _ _. refl };

    ghost matches_eq = { λ x y. entries_ties K.eq V.eq K.cmp V.cmp K.Ord.matches_eq V.Ord.matches_eq x.entries y.entries };

    fn cmp(&self, other: &SortedMap<K, V>) -> Ordering {
        self.map.cmp(&other.map)
    }
}
