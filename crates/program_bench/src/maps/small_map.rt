//! `SmallMap`, asked by keys, and asked by keys whose hash was computed before.

use crate::fault::Fault;
use crate::keys::Key;
use crate::pass::mix;
use crate::peer::{Asked, Listed, Roomy, Walked};
use starlark_hash::Hashed;
use starlark_small::SmallMap;
use std::alloc::Global;

/// The map, asked by keys whose hash was computed before.
#[derive(Drop)]
pub struct SmallByHash<K: Key>(SmallMap<K, K>);

impl<K: Key> Asked<K> for SmallByHash<K> {
    type Query = Hashed<K>;

    #[inline(always)]
    fn empty(alloc: Global) -> Self {
        SmallByHash(SmallMap::new(alloc))
    }

    #[inline(always)]
    fn put(&mut self, key: K, value: K) -> Result<(), Fault> {
        self.0.insert(key, value)?;
        Ok(())
    }

    #[inline(always)]
    fn query(key: K) -> Hashed<K> {
        Hashed::new(key)
    }

    #[inline(always)]
    fn at(&self, query: &Hashed<K>) -> Option<K> {
        self.0.get_hashed(query.as_ref()).copied()
    }
}

impl<K: Key> Asked<K> for SmallMap<K, K> {
    type Query = K;

    #[inline(always)]
    fn empty(alloc: Global) -> Self {
        SmallMap::new(alloc)
    }

    #[inline(always)]
    fn put(&mut self, key: K, value: K) -> Result<(), Fault> {
        self.insert(key, value)?;
        Ok(())
    }

    #[inline(always)]
    fn query(key: K) -> K {
        key
    }

    #[inline(always)]
    fn at(&self, query: &K) -> Option<K> {
        self.get(query).copied()
    }
}

impl<K: Key> Walked<K> for SmallMap<K, K> {
    #[inline(always)]
    fn entries(&self) -> usize {
        self.len()
    }

    #[inline(always)]
    fn take(&mut self, key: &K) -> Option<K> {
        self.shift_remove(key)
    }

    #[inline(always)]
    fn last_or(&self, _other: u64) -> u64 {
        self.last().map_or(0, |(_, value)| value.number())
    }

    #[inline(always)]
    fn sum(&self) -> u64 {
        let mut sum = 0_u64;
        for (key, value) in self {
            sum = sum.wrapping_add(key.number()).wrapping_add(value.number());
        }
        sum
    }
}

impl<K: Key> Roomy<K> for SmallMap<K, K> {
    #[inline(always)]
    fn with_room(alloc: Global, n: usize) -> Result<Self, Fault> {
        Ok(SmallMap::with_capacity(alloc, n)?)
    }
}

impl<K: Key> Listed<K> for SmallMap<K, K> {
    #[inline(always)]
    fn key_at(&self, place: usize) -> Option<K> {
        match self.get_index(place) {
            Some((key, _)) => Some(*key),
            None => None,
        }
    }

    #[inline(always)]
    fn pop_value(&mut self) -> Option<K> {
        let (_, value) = self.pop()?;
        Some(value)
    }

    #[inline(always)]
    fn sort(&mut self) -> Result<(), Fault> {
        self.sort_keys()?;
        Ok(())
    }

    fn mixed(&self, checksum: u64) -> u64 {
        let mut checksum = checksum;
        for (_, value) in self {
            checksum = mix(checksum, value.number());
        }
        checksum
    }
}
