//! `IndexMap`, with its own hasher and with ours.

use super::Hashing;
use crate::fault::Fault;
use crate::keys::Key;
use crate::pass::mix;
use crate::peer::{Asked, Listed, Roomy, Walked};
use indexmap::IndexMap;
use std::alloc::Global;

impl<K: Key, S: Hashing> Asked<K> for IndexMap<K, K, S> {
    type Query = K;

    #[inline(always)]
    fn empty(alloc: Global) -> Self {
        IndexMap::with_hasher(alloc, S::hashing())
    }

    #[inline(always)]
    fn put(&mut self, key: K, value: K) -> Result<(), Fault> {
        self.insert(key, value)?;
        Ok(())
    }

    #[inline(always)]
    fn query(key: K) -> K {
        key
    }

    #[inline(always)]
    fn at(&self, query: &K) -> Option<K> {
        self.get(query).copied()
    }
}

impl<K: Key, S: Hashing> Walked<K> for IndexMap<K, K, S> {
    #[inline(always)]
    fn entries(&self) -> usize {
        self.len()
    }

    #[inline(always)]
    fn take(&mut self, key: &K) -> Option<K> {
        self.shift_remove(key)
    }

    #[inline(always)]
    fn last_or(&self, _other: u64) -> u64 {
        self.last().map_or(0, |(_, value)| value.number())
    }

    #[inline(always)]
    fn sum(&self) -> u64 {
        let mut sum = 0_u64;
        for (key, value) in self {
            sum = sum.wrapping_add(key.number()).wrapping_add(value.number());
        }
        sum
    }
}

impl<K: Key, S: Hashing> Roomy<K> for IndexMap<K, K, S> {
    #[inline(always)]
    fn with_room(alloc: Global, n: usize) -> Result<Self, Fault> {
        Ok(IndexMap::with_capacity_and_hasher(alloc, n, S::hashing())?)
    }
}

impl<K: Key, S: Hashing> Listed<K> for IndexMap<K, K, S> {
    #[inline(always)]
    fn key_at(&self, place: usize) -> Option<K> {
        match self.get_index(place) {
            Some((key, _)) => Some(*key),
            None => None,
        }
    }

    #[inline(always)]
    fn pop_value(&mut self) -> Option<K> {
        let (_, value) = self.pop()?;
        Some(value)
    }

    #[inline(always)]
    fn sort(&mut self) -> Result<(), Fault> {
        self.sort_keys()?;
        Ok(())
    }

    fn mixed(&self, checksum: u64) -> u64 {
        let mut checksum = checksum;
        for (_, value) in self {
            checksum = mix(checksum, value.number());
        }
        checksum
    }
}
