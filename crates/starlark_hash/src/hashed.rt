//! `Hashed`, a key with the hash that it is stored under.
ghost use Rattle.std.specs.Prelude.{◌≡◌, IsTrue, IsOk, IfOk};
ghost use Rattle.std.specs.Borrow.{sem};
ghost use Rattle.starlark_hash.specs.HashValue.{hashed, hash_of, key_of};
ghost use Rattle.starlark_hash.specs.Hasher.{own_hash};
ghost use Rattle.starlark_hash.specs.Lend.{lends_key};

use crate::hash_value::StarlarkHashValue;
use crate::query::OwnedQuery;
use std::alloc::{AllocError, Global};
use std::hash::Hash;

/// A key and the hash that it is stored under. `==` compares both. The order compares the keys, and then the hashes.
/// `Hash` feeds only the hash, as one number of 32 bits.
#[derive(Clone, Copy, Debug, Drop)]
pub struct Hashed<K> {
    hash: StarlarkHashValue,
    key: K,
}

impl<K> Hashed<K> {
    /// The key with its own hash.
    #[inline]
    pub fn new(key: K) -> Self
    where
        K: Hash,
        ensures { result ≡ hashed (own_hash K.hash_input key) key }
    {
        Hashed {
            hash: StarlarkHashValue::new(&key),
            key,
        }
    }

    /// The key with this hash, which need not be its own.
    #[inline]
    pub fn new_unchecked(hash: StarlarkHashValue, key: K) -> Self
        ensures { result ≡ hashed hash key }
    {
        Hashed { hash, key }
    }

    /// The key.
    #[inline]
    pub fn key(&self) -> &K
        ensures { result.now ≡ key_of self.now }
    {
        &self.key
    }

    /// The key, mutably. The hash does not change, even if it is no longer the key's own.
    #[inline]
    pub fn key_mut(&mut self) -> &mut K
        ensures* writes_back { sem 𝓛 (lends_key K.row self.entry result) }
        ensures value { result.now ≡ key_of self.old }
    {
        &mut self.key
    }

    /// The key, by value.
    #[inline]
    pub fn into_key(self) -> K
        ensures { result ≡ key_of self }
    {
        self.key
    }

    /// The hash.
    #[inline]
    pub fn hash(&self) -> StarlarkHashValue
        ensures { result ≡ hash_of self.now }
    {
        self.hash
    }

    /// A reference to the key, with the same hash.
    #[inline]
    pub fn as_ref(&self) -> Hashed<&K>
        ensures hash { hash_of result ≡ hash_of self.now }
        ensures key { (key_of result).now ≡ key_of self.now }
    {
        Hashed::new_unchecked(self.hash, &self.key)
    }

    /// The key that the query makes, with the same hash. It is refused only if `to_owned_key` is.
    #[inline]
    pub fn owned<T: Eq>(self, alloc: Global) -> Result<Hashed<T>, AllocError>
    where
        K: OwnedQuery<T>,
        ensures hash { IfOk result (λ h. hash_of h ≡ hash_of self) }
        ensures key { IfOk result (λ h. IsTrue (K.stands_for (key_of self) (key_of h))) }
        ensures succeeds { K.OwnedQuery.is_infallible (key_of self) → IsOk result }
    {
        Ok(Hashed::new_unchecked(self.hash, self.key.to_owned_key(alloc)?))
    }
}

impl<'a, K> Hashed<&'a K> {
    /// A copy of the key that is referred to, with the same hash.
    #[inline]
    pub fn copied(self) -> Hashed<K>
    where
        K: Copy,
        ensures { result ≡ hashed (hash_of self.entry) (key_of self.entry).now }
    {
        Hashed::new_unchecked(self.hash, *self.key)
    }

    /// A clone of the key that is referred to, with the same hash. It is refused only if the key's own `clone` is.
    #[inline]
    pub fn cloned(self) -> Result<Hashed<K>, AllocError>
    where
        K: Clone,
        ensures hash { IfOk result (λ h. hash_of h ≡ hash_of self.entry) }
        ensures key { IfOk result (λ h. K.is_clone (key_of self.entry).now (key_of h)) }
        ensures succeeds { K.is_infallible (key_of self.entry).now → IsOk result }
    {
        Ok(Hashed::new_unchecked(self.hash, self.key.clone()?))
    }
}
