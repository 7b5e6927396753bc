//! What a look-up takes in place of a key: a reference to a key or to an `Equivalent` of one, a text, or a slice.
ghost use Rattle.std.proofs.Common.{rules};
ghost use Rattle.std.specs.Box.{boxed_str_bytes};
ghost use Rattle.std.specs.Cmp.Lexicographic.{lists_equiv, nat_list_eq_equiv, pointwise};
ghost use Rattle.std.specs.Cmp.Rules.{hashing};
ghost use Rattle.std.specs.Hash.{items_Alike};
ghost use Rattle.std.specs.Prelude.{◌≡◌, Bool, IfOk, IsOk, IsTrue};
ghost use Rattle.std.specs.Rc.{rc_str_bytes};
ghost use Rattle.std.specs.Str.{bytes_eq};
ghost use Rattle.std.specs.String.{string_bytes};

use crate::equivalent::Equivalent;
use crate::key_query::{KeyQuery, ToOwnedKey};
use crate::same_text::same_text;
use std::alloc::{AllocError, Global};
use std::boxed::BoxedStr;
use std::hash::Hash;
use std::rc::RcStr;

/// What a look-up takes in place of a key, by value.
pub trait Query<K: Eq>: Copy {
    // What `stands_for` returns.
    ghost stands_for: { Self → K → Bool };

    /// Whether the query stands for this key.
    fn stands_for(&self, key: &K) -> bool
        ensures { result ≡ stands_for self.now key.now };

    // A query that stands for a key stands for exactly the keys that are equal to it.
    ghost respects_eq: { (q : Self) (x y : K) → IsTrue (stands_for q x) → stands_for q y ≡ K.eq x y };
}

/// A query that feeds a hasher what each key that it stands for feeds, so that its own hash is the key's.
pub trait HashQuery<K: Eq + Hash>: Query<K> + Hash {
    // A query that stands for a key feeds a hasher what the key feeds.
    ghost feeds_alike: { (q : Self) (k : K) → IsTrue (Self.stands_for q k) → Self.hash_input q ≡ K.hash_input k };
}

/// A query that can make a key that it stands for.
pub trait OwnedQuery<K: Eq>: Query<K> {
    // Holds of a query whose `to_owned_key` is never refused.
    ghost is_infallible: { Self → Type 0 } = { λ _. ⊥ };

    /// Makes a key that the query stands for. It is refused only if there is no memory.
    fn to_owned_key(&self, alloc: Global) -> Result<K, AllocError>
        ensures key { IfOk result (λ key. IsTrue (Self.stands_for self.now key)) }
        ensures succeeds { is_infallible self.now → IsOk result };
}

// References

impl<K: Eq, Q: Equivalent<K>> Query<K> for &Q {
    ghost stands_for = { λ q. Q.equivalent q.now };

    ghost respects_eq = { λ q. Q.respects_eq q.now };

    #[inline]
    fn stands_for(&self, key: &K) -> bool {
        (*self).equivalent(key)
    }
}

impl<K: Eq + Hash, Q: KeyQuery<K>> HashQuery<K> for &Q {
    ghost feeds_alike = { λ q. Q.feeds_alike q.now };
}

impl<K: Eq, Q: ToOwnedKey<K>> OwnedQuery<K> for &Q {
    ghost is_infallible = { λ q. Q.is_infallible q.now };

    #[inline]
    fn to_owned_key(&self, alloc: Global) -> Result<K, AllocError> {
        ToOwnedKey::to_owned_key(*self, alloc)
    }
}

// Texts

impl Query<String> for &str {
    ghost stands_for = { λ q k. bytes_eq q.now (string_bytes k) };

    ghost respects_eq = { λ q x y. nat_list_eq_equiv.congr q.now (string_bytes x) (string_bytes y) };

    #[inline]
    fn stands_for(&self, key: &String) -> bool {
        same_text(*self, key.as_str())
    }
}

impl HashQuery<String> for &str {
    ghost feeds_alike = { Prim.search (hashing, rules) };
}

impl OwnedQuery<String> for &str {
    fn to_owned_key(&self, alloc: Global) -> Result<String, AllocError> {
        String::from_str(alloc, *self)
    }
}

impl<'b> Query<&'b str> for &str {
    ghost stands_for = { λ q k. bytes_eq q.now k.now };

    ghost respects_eq = { λ q x y. nat_list_eq_equiv.congr q.now x.now y.now };

    #[inline]
    fn stands_for(&self, key: &&'b str) -> bool {
        same_text(*self, *key)
    }
}

impl<'b> HashQuery<&'b str> for &str {
    ghost feeds_alike = { Prim.search (hashing, rules) };
}

impl Query<BoxedStr> for &str {
    ghost stands_for = { λ q k. bytes_eq q.now (boxed_str_bytes k) };

    ghost respects_eq = { λ q x y. nat_list_eq_equiv.congr q.now (boxed_str_bytes x) (boxed_str_bytes y) };

    #[inline]
    fn stands_for(&self, key: &BoxedStr) -> bool {
        same_text(*self, key.as_str())
    }
}

impl HashQuery<BoxedStr> for &str {
    ghost feeds_alike = { Prim.search (hashing, rules) };
}

impl Query<RcStr> for &str {
    ghost stands_for = { λ q k. bytes_eq q.now (rc_str_bytes k) };

    ghost respects_eq = { λ q x y. nat_list_eq_equiv.congr q.now (rc_str_bytes x) (rc_str_bytes y) };

    #[inline]
    fn stands_for(&self, key: &RcStr) -> bool {
        same_text(*self, key.as_str())
    }
}

impl HashQuery<RcStr> for &str {
    ghost feeds_alike = { Prim.search (hashing, rules) };
}

// Slices

impl<T: Eq> Query<Vec<T>> for &[T] {
    ghost stands_for = { λ q k. pointwise T.eq q.now k.items };

    ghost respects_eq = { λ q x y. (lists_equiv T.Eq.laws).congr q.now x.items y.items };

    #[inline]
    fn stands_for(&self, key: &Vec<T>) -> bool {
        *self == key.as_slice()
    }
}

impl<T: Eq + Hash> HashQuery<Vec<T>> for &[T] {
    ghost feeds_alike = { λ q k. (items_Alike (record { fed = T.respects_eq })).fed q.now k.items };
}
