//! What the workloads ask of a map, so that each runs the same code on all of them.

use crate::fault::Fault;
use crate::keys::Key;
use std::alloc::Global;

/// A map that is filled and asked, with the keys' type for its values too.
pub trait Asked<K: Key>: Drop {
    /// What a look-up is asked by, made before the clock runs.
    type Query: Drop;

    /// An empty map.
    fn empty(alloc: Global) -> Self;
    /// Inserts a pair.
    fn put(&mut self, key: K, value: K) -> Result<(), Fault>;
    /// What a key is looked up by.
    fn query(key: K) -> Self::Query;
    /// The value under a key.
    fn at(&self, query: &Self::Query) -> Option<K>;
}

/// A map that is walked, and that gives a key away.
pub trait Walked<K: Key>: Asked<K> {
    /// How many keys there are.
    fn entries(&self) -> usize;
    /// Removes a key. In a list of entries the others keep their order.
    fn take(&mut self, key: &K) -> Option<K>;
    /// The value of the last entry, or the other number where the map has no order of insertion.
    fn last_or(&self, other: u64) -> u64;
    /// The sum of all keys and values.
    fn sum(&self) -> u64;
}

/// A map that makes room for its keys.
pub trait Roomy<K: Key>: Walked<K> {
    /// An empty map with room for `n` keys.
    fn with_room(alloc: Global, n: usize) -> Result<Self, Fault>;
}

/// A map that is a list of entries, in order of insertion until it is sorted.
pub trait Listed<K: Key>: Roomy<K> {
    /// The key at a place.
    fn key_at(&self, place: usize) -> Option<K>;
    /// Removes the last entry, and returns its value.
    fn pop_value(&mut self) -> Option<K>;
    /// Sorts the entries by their keys.
    fn sort(&mut self) -> Result<(), Fault>;
    /// The checksum after all values, in the map's order.
    fn mixed(&self, checksum: u64) -> u64;
}
