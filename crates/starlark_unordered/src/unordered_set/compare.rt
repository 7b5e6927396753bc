//! Equality of `UnorderedSet`s.
ghost use Rattle.std.specs.Ordering.{on};
ghost use Rattle.std.specs.Cmp.{on_equiv, on_per, partial_equiv_from_equiv};
ghost use Rattle.starlark_unordered.specs.Bag.{same_bag};
ghost use Rattle.starlark_unordered.specs.BagLaws.{pair_equiv, same_bag_equiv};
ghost use Rattle.starlark_unordered.specs.Pairs.{pairs_of, pair_eq};
ghost use Rattle.std.specs.Prelude.{◌≡◌, true};
ghost use Rattle.starlark_unordered.specs.Lookup.{contains};
ghost use Rattle.starlark_hash.specs.Unit.{same_unit, unit_equiv};

use super::UnorderedSet;
use std::hash::Hash;

impl<T: Eq + Hash> PartialEq for UnorderedSet<T> {
    ghost eq = { on pairs_of (same_bag (pair_eq T.eq same_unit)) };

    ghost laws = { on_per pairs_of (partial_equiv_from_equiv (same_bag_equiv (pair_eq T.eq same_unit) (pair_equiv T.eq same_unit T.Eq.laws unit_equiv))) };

    fn eq(&self, other: &UnorderedSet<T>) -> bool
        ensures same { result ≡ same_bag (pair_eq T.eq same_unit) (pairs_of self.now) (pairs_of other.now) }
        // If the sets are equal, each has the elements that the other has.
        ensures agrees { result ≡ true → (element : T) → contains T.eq self.now element ≡ contains T.eq other.now element }
    {
        self.map == other.map
    }
}

impl<T: Eq + Hash> Eq for UnorderedSet<T> {
    ghost laws = { on_equiv pairs_of (same_bag_equiv (pair_eq T.eq same_unit) (pair_equiv T.eq same_unit T.Eq.laws unit_equiv)) };
}
