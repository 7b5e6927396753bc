//! `HashMap`, with its own hasher and with ours.

use super::Hashing;
use crate::fault::Fault;
use crate::keys::Key;
use crate::peer::{Asked, Roomy, Walked};
use std::alloc::Global;
use std::collections::HashMap;

impl<K: Key, S: Hashing> Asked<K> for HashMap<K, K, S> {
    type Query = K;

    #[inline(always)]
    fn empty(alloc: Global) -> Self {
        HashMap::with_hasher(alloc, S::hashing())
    }

    #[inline(always)]
    fn put(&mut self, key: K, value: K) -> Result<(), Fault> {
        self.insert(key, value)?;
        Ok(())
    }

    #[inline(always)]
    fn query(key: K) -> K {
        key
    }

    #[inline(always)]
    fn at(&self, query: &K) -> Option<K> {
        self.get(query).copied()
    }
}

impl<K: Key, S: Hashing> Walked<K> for HashMap<K, K, S> {
    #[inline(always)]
    fn entries(&self) -> usize {
        self.len()
    }

    #[inline(always)]
    fn take(&mut self, key: &K) -> Option<K> {
        self.remove(key)
    }

    #[inline(always)]
    fn last_or(&self, other: u64) -> u64 {
        other
    }

    #[inline(always)]
    fn sum(&self) -> u64 {
        let mut sum = 0_u64;
        for (key, value) in self {
            sum = sum.wrapping_add(key.number()).wrapping_add(value.number());
        }
        sum
    }
}

impl<K: Key, S: Hashing> Roomy<K> for HashMap<K, K, S> {
    #[inline(always)]
    fn with_room(alloc: Global, n: usize) -> Result<Self, Fault> {
        Ok(HashMap::with_capacity_and_hasher(alloc, n, S::hashing())?)
    }
}
