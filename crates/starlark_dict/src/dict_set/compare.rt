//! How sets compare, and what they feed to a hasher.
ghost use Rattle.std.specs.Cmp.{partial_equiv_from_equiv};
ghost use Rattle.std.specs.Cmp.Lexicographic.{pointwise};
ghost use Rattle.std.specs.HashSet.Eq.{hash_set_eq_equiv};
ghost use Rattle.std.specs.Prelude.{◌≡◌, [], fold};
ghost use Rattle.starlark_dict.specs.Compare.{ordered_feed};
ghost use Rattle.starlark_dict.specs.DictSet.{as_dict, set_eq};

use super::DictSet;
use std::hash::{Hash, Hasher};

/// Two are equal where they have the same elements. The order does not count.
impl<T: Eq + Hash> PartialEq for DictSet<T> {
    ghost eq = { set_eq T.eq };

    ghost laws = { partial_equiv_from_equiv (hash_set_eq_equiv T.Eq.laws) };

    fn eq(&self, other: &DictSet<T>) -> bool {
        self.dict == other.dict
    }
}

impl<T: Eq + Hash> Eq for DictSet<T> {
    ghost laws = { hash_set_eq_equiv T.Eq.laws };
}

impl<T: Eq + Hash> DictSet<T> {
    /// Whether both have as many elements, and equal ones in the same order.
    pub fn eq_ordered(&self, other: &Self) -> bool
        ensures { result ≡ pointwise T.eq self.now.keys other.now.keys }
    {
        self.dict.eq_ordered(&other.dict)
    }

    /// Writes each element's hash as one number of 32 bits; no length. What is equal in order writes the same.
    pub fn hash_ordered<H: Hasher>(&self, state: &mut H)
        ensures { state.new ≡ fold H.write state.old (ordered_feed T.hash_input (λ _. []) (as_dict self.now).entries) }
    {
        self.dict.hash_ordered(state);
    }
}
