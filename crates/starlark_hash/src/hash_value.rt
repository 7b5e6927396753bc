//! Hash values: what an entry is stored under.
ghost use Rattle.std.specs.Prelude.{◌≡◌, ◌%◌, ◌^◌, ◌<◌, IsTrue};
ghost use Rattle.starlark_hash.specs.HashValue.{hash_number, promoted, mixed};
ghost use Rattle.starlark_hash.specs.Hasher.{own_hash};

use crate::hasher::StarlarkHasher;
use std::hash::Hash;

/// A hash value: a number of 32 bits.
#[derive(Clone, Copy, PartialEq, Eq, Hash, Debug)]
pub struct StarlarkHashValue(u32);

impl StarlarkHashValue {
    /// The key's own hash: the low 32 bits of what a new hasher finishes with after it is fed the key.
    #[tactic(auto, unfolding(crate::specs::Hasher::hash_of_writes))]
    #[inline]
    pub fn new<K: Hash>(key: &K) -> Self
        ensures { result ≡ own_hash K.hash_input key.now }
    {
        let mut hasher = StarlarkHasher::new();
        key.hash(&mut hasher);
        hasher.finish_small()
    }

    /// The hash value with this number.
    #[inline]
    pub const fn new_unchecked(hash: u32) -> Self
        ensures { hash_number result ≡ hash }
    {
        StarlarkHashValue(hash)
    }

    /// Mixes the bits of the number with the finalizer of MurmurHash3, and keeps the low 32 bits.
    #[inline]
    pub fn hash_64(h: u64) -> Self
        ensures { hash_number result ≡ mixed h % 2 ^ 32 }
    {
        let h = h ^ (h >> 33);
        let h = h.wrapping_mul(0xff51afd7ed558ccd);
        let h = h ^ (h >> 33);
        let h = h.wrapping_mul(0xc4ceb9fe1a85ec53);
        let h = h ^ (h >> 33);
        StarlarkHashValue((h & 0xffff_ffff) as u32)
    }

    /// The hash as a number of 32 bits.
    #[inline]
    pub const fn get(self) -> u32
        ensures number { result ≡ hash_number self }
        ensures fits { result < 2 ^ 32 }
    {
        self.0
    }

    /// A 64-bit hash computed from this one, for tables that take the slot from the upper bits. Different hashes have
    /// different promotions.
    #[inline]
    pub fn promote(self) -> u64
        ensures promoted { result ≡ promoted (hash_number self) }
        ensures fits { hash_number self < 2 ^ 32 }
    {
        (self.0 as u64).wrapping_mul(0x9e3779b97f4a7c15)
    }
}

/// Different hash values have different promoted hashes.
pub fn promotion_is_injective(first: StarlarkHashValue, second: StarlarkHashValue)
    ensures { promoted (hash_number first) ≡ promoted (hash_number second) → first ≡ second }
{
    let _numbers = (first.get(), second.get());
}

/// Equal keys have equal own hashes.
pub fn equal_keys_have_one_hash<K: Hash>(first: &K, second: &K)
    ensures { IsTrue (K.eq first.now second.now) → own_hash K.hash_input first.now ≡ own_hash K.hash_input second.now }
{}
