//! Comparison and hashing of `SortedVec`s, which are those of their items in order.
ghost use Rattle.std.specs.Cmp.Lexicographic.{lists_agrees, lists_equiv, lists_per, lists_po, lists_ties, lists_total, pointwise, slice_cmp, slice_partial_cmp};
ghost use Rattle.std.specs.Hash as fed;
ghost use Rattle.std.specs.Hash.{items_Alike};

use super::SortedVec;
use std::cmp::Ordering;
use std::hash::{Hash, Hasher};

impl<T: Ord> PartialEq for SortedVec<T> {
    ghost eq = { pointwise T.eq };

    ghost laws = { lists_per T.PartialEq.laws };

    fn eq(&self, other: &SortedVec<T>) -> bool {
        self.vec == other.vec
    }
}

impl<T: Ord> Eq for SortedVec<T> {
    ghost laws = { lists_equiv T.Eq.laws };
}

impl<T: Ord> PartialOrd for SortedVec<T> {
    ghost partial_cmp = { slice_partial_cmp T.partial_cmp };

    ghost laws = { lists_po T.PartialOrd.laws };

    fn partial_cmp(&self, other: &SortedVec<T>) -> Option<Ordering> {
        self.vec.partial_cmp(&other.vec)
    }
}

impl<T: Ord> Ord for SortedVec<T> {
    ghost cmp = { slice_cmp T.cmp };

    ghost total = { lists_total T.total };

    ghost matches_partial_cmp = { λ x y. lists_agrees T.matches_partial_cmp x y };

    ghost matches_eq = { λ x y. lists_ties T.cmp T.matches_eq x y };

    fn cmp(&self, other: &SortedVec<T>) -> Ordering {
        self.vec.cmp(&other.vec)
    }
}

impl<T: Ord + Hash> Hash for SortedVec<T> {
    ghost hash_input = { fed.slice T.hash_input };

    ghost respects_eq = { (items_Alike (record { fed = T.Hash.respects_eq })).fed };

    fn hash<H: Hasher>(&self, state: &mut H) {
        self.vec.hash(state);
    }
}
