//! `UnorderedMap`, asked by keys, and asked by keys whose hash was computed before.

use crate::fault::Fault;
use crate::keys::Key;
use crate::peer::{Asked, Walked};
use starlark_hash::Hashed;
use starlark_unordered::UnorderedMap;
use std::alloc::Global;

/// The map, asked by keys whose hash was computed before.
#[derive(Drop)]
pub struct UnorderedByHash<K: Key>(UnorderedMap<K, K>);

impl<K: Key> Asked<K> for UnorderedByHash<K> {
    type Query = Hashed<K>;

    #[inline(always)]
    fn empty(alloc: Global) -> Self {
        UnorderedByHash(UnorderedMap::new(alloc))
    }

    #[inline(always)]
    fn put(&mut self, key: K, value: K) -> Result<(), Fault> {
        self.0.insert(key, value)?;
        Ok(())
    }

    #[inline(always)]
    fn query(key: K) -> Hashed<K> {
        Hashed::new(key)
    }

    #[inline(always)]
    fn at(&self, query: &Hashed<K>) -> Option<K> {
        self.0.get_hashed(query.as_ref()).copied()
    }
}

impl<K: Key> Asked<K> for UnorderedMap<K, K> {
    type Query = K;

    #[inline(always)]
    fn empty(alloc: Global) -> Self {
        UnorderedMap::new(alloc)
    }

    #[inline(always)]
    fn put(&mut self, key: K, value: K) -> Result<(), Fault> {
        self.insert(key, value)?;
        Ok(())
    }

    #[inline(always)]
    fn query(key: K) -> K {
        key
    }

    #[inline(always)]
    fn at(&self, query: &K) -> Option<K> {
        self.get(query).copied()
    }
}

impl<K: Key> Walked<K> for UnorderedMap<K, K> {
    #[inline(always)]
    fn entries(&self) -> usize {
        self.len()
    }

    #[inline(always)]
    fn take(&mut self, key: &K) -> Option<K> {
        self.remove(key)
    }

    #[inline(always)]
    fn last_or(&self, other: u64) -> u64 {
        other
    }

    #[inline(always)]
    fn sum(&self) -> u64 {
        let mut sum = 0_u64;
        for (key, value) in self.entries_unordered() {
            sum = sum.wrapping_add(key.number()).wrapping_add(value.number());
        }
        sum
    }
}
