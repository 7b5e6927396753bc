//! The comparisons of `SmallSet`s, and what they feed to a hasher.
ghost use Rattle.std.specs.Prelude.{◌≡◌, fold};
ghost use Rattle.starlark_hash.specs.Hasher.{after_writes, finish_small};
ghost use Rattle.starlark_hash.specs.HashValue.{hashed};
ghost use Rattle.starlark_small.specs.Compare.{same_entries};
ghost use Rattle.starlark_small.specs.CompareLaws.{same_entries_laws, same_entries_equivalence};
ghost use Rattle.starlark_hash.specs.Compare.{same_ordered};
ghost use Rattle.starlark_hash.specs.Unit.{same_unit, set_feed, unit_per, unit_equiv};

use super::SmallSet;
use starlark_hash::{Hashed, StarlarkHasher};
use std::hash::Hasher;

/// Sets are equal if they have the same number of elements, and each element of one is found in the other by its hash
/// and equality. The order does not count.
impl<T: Eq> PartialEq for SmallSet<T> {
    ghost eq = { λ s t. same_entries T.eq same_unit s.entries t.entries };

    ghost laws = { same_entries_laws T.eq same_unit T.Eq.laws unit_per };

    fn eq(&self, other: &SmallSet<T>) -> bool {
        self.map == other.map
    }
}

impl<T: Eq> Eq for SmallSet<T> {
    ghost laws = { same_entries_equivalence T.eq same_unit T.Eq.laws unit_equiv };
}

impl<T: Eq> SmallSet<T> {
    /// Returns whether both sets have the same number of elements and, at each index, the same hash and equal elements.
    pub fn eq_ordered(&self, other: &Self) -> bool
        ensures { result ≡ same_ordered T.eq same_unit self.now.entries other.now.entries }
    {
        self.map.eq_ordered(&other.map)
    }

    /// Feeds each element's hash to the hasher, as one number of 32 bits. It feeds no length and no element, whose own
    /// `hash` is not called.
    pub fn hash_ordered<H: Hasher>(&self, state: &mut H)
        ensures { state.new ≡ fold H.write state.old (set_feed self.now.entries) }
    {
        self.map.hash_ordered(state);
    }

    /// Puts the set under a hash: the low 32 bits of what its `hash_ordered` leaves in a new `StarlarkHasher`.
    pub fn hashed(self) -> Hashed<Self>
        ensures { result ≡ hashed (finish_small (after_writes (set_feed self.entries))) self }
    {
        let mut hasher = StarlarkHasher::new();
        self.hash_ordered(&mut hasher);
        Hashed::new_unchecked(hasher.finish_small(), self)
    }
}
