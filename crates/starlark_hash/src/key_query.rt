//! Queries that hash as the keys that they stand for, and queries that can make those keys.
ghost use Rattle.std.specs.Prelude.{◌≡◌, ⊤, IsTrue, IsOk, IfOk};
ghost use Rattle.starlark_hash.specs.Hasher.{own_hash};

use crate::equivalent::Equivalent;
use std::alloc::{AllocError, Global};
use std::hash::Hash;

/// A query that feeds a hasher what each key that it stands for feeds, so that its own hash is the key's.
pub trait KeyQuery<K: Eq + Hash>: Equivalent<K> + Hash {
    // A query that is equivalent to a key feeds a hasher what the key feeds.
    ghost feeds_alike: { (q : Self) (k : K) → IsTrue (Self.equivalent q k) → Self.hash_input q ≡ K.hash_input k };
}

impl<K: Eq + Hash> KeyQuery<K> for K {
    ghost feeds_alike = { K.Hash.respects_eq };
}

/// The own hash of a query is the own hash of each key that it is equivalent to.
pub fn query_has_the_hash_of_its_key<K: Eq + Hash, Q: KeyQuery<K>>(query: &Q, key: &K)
    ensures { IsTrue (Q.equivalent query.now key.now) → own_hash Q.hash_input query.now ≡ own_hash K.hash_input key.now }
{}

/// A query that can make a key that it stands for.
pub trait ToOwnedKey<T: Eq>: Equivalent<T> {
    // Holds of a query whose `to_owned_key` is never refused.
    ghost is_infallible: { Self → Type 0 } = { λ _. ⊥ };

    /// Makes a key to which the query is equivalent. It is refused only if there is no memory.
    fn to_owned_key(&self, alloc: Global) -> Result<T, AllocError>
        ensures key { IfOk result (λ key. IsTrue (Self.equivalent self.now key)) }
        ensures succeeds { is_infallible self.now → IsOk result };
}

impl ToOwnedKey<u32> for u32 {
    ghost is_infallible = { λ _. ⊤ };

    #[inline]
    fn to_owned_key(&self, _alloc: Global) -> Result<u32, AllocError> {
        Ok(*self)
    }
}

impl ToOwnedKey<i64> for i64 {
    ghost is_infallible = { λ _. ⊤ };

    #[inline]
    fn to_owned_key(&self, _alloc: Global) -> Result<i64, AllocError> {
        Ok(*self)
    }
}
