//! The traits of `Hashed`: equality of hashes and keys, order by keys and then by hashes, and a `Hash` that feeds only
//! the hash.
ghost use Rattle.std.proofs.Common.{rules};
ghost use Rattle.std.specs.Prelude.{◌≡◌};
ghost use Rattle.std.specs.Cmp.{partial_order_from_own_ties};
ghost use Rattle.std.specs.Cmp.Rules.{comparing, hashing};
ghost use Rattle.std.specs.Ordering.{as_partial_cmp};
ghost use Rattle.std.specs.Hash as fed;
ghost use Rattle.starlark_hash.specs.HashValue.{hash_number, hash_of, key_of};
ghost use Rattle.starlark_hash.specs.Compare.{hashed_eq, hashed_cmp};

use crate::hashed::Hashed;
use std::cmp::Ordering;
use std::fmt;
use std::hash::{Hash, Hasher};
use std::ops::Deref;

impl<K: PartialEq> PartialEq for Hashed<K> {
    ghost eq = { hashed_eq K.eq };

    ghost laws = { Prim.search (comparing, rules) };

    #[inline]
    fn eq(&self, other: &Hashed<K>) -> bool {
        self.hash() == other.hash() && self.key() == other.key()
    }
}

impl<K: Eq> Eq for Hashed<K> {
    ghost laws = { Prim.search (comparing, rules) };
}

impl<K: Ord> PartialOrd for Hashed<K> {
    ghost partial_cmp = { as_partial_cmp (hashed_cmp K.cmp) };

    ghost laws = { partial_order_from_own_ties (Prim.search (comparing, rules)) (Prim.search (comparing, rules)) };

    #[inline]
    fn partial_cmp(&self, other: &Hashed<K>) -> Option<Ordering> {
        Some(self.cmp(other))
    }
}

// Equal keys are ordered by their hashes, so that two values compare as `Equal` only if they are `==`.
impl<K: Ord> Ord for Hashed<K> {
    ghost cmp = { hashed_cmp K.cmp };

    ghost total = { Prim.search (comparing, rules) };

    ghost matches_partial_cmp = { Prim.search (comparing, rules) };

    ghost matches_eq = { Prim.search (comparing, rules) };

    #[inline]
    fn cmp(&self, other: &Hashed<K>) -> Ordering {
        self.key()
            .cmp(other.key())
            .then(self.hash().get().cmp(&other.hash().get()))
    }
}

impl<K: Eq> Hash for Hashed<K> {
    ghost hash_input = { λ h. fed.u32 (hash_number (hash_of h)) };

    ghost respects_eq = { Prim.search (hashing, rules) };

    #[inline]
    fn hash<H: Hasher>(&self, state: &mut H) {
        state.write_u32(self.hash().get());
    }
}

impl<K> Deref for Hashed<K> {
    type Target = K;

    ghost deref_gives = { λ h key. key ≡ key_of h };

    #[inline]
    fn deref(&self) -> &K {
        self.key()
    }
}

impl<K: fmt::Display> fmt::Display for Hashed<K> {
    ghost output = { λ h. K.output (key_of h) };

    ghost styled_output = { λ h. K.styled_output (key_of h) };

    fn fmt<W: fmt::Write>(&self, f: &mut fmt::Formatter<W>) -> fmt::Result {
        self.key().fmt(f)
    }
}
