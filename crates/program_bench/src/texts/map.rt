//! What the workloads ask of a map from texts to numbers, so that each runs the same code on all of them.

use crate::fault::Fault;
use starlark_hash::Hashed;
use std::alloc::Global;

/// A map from texts to numbers. One that owns its keys clones the text that it is given, and one that cannot be asked by
/// a hash is asked by the text.
pub trait TextMap<'a>: Drop {
    /// An empty map.
    fn empty(alloc: Global) -> Self;
    /// Puts a number under a text.
    fn put(&mut self, alloc: Global, text: &'a str, number: u64) -> Result<(), Fault>;
    /// The number under a text.
    fn at(&self, text: &'a str) -> Option<u64>;
    /// The number under a text, for writing.
    fn at_mut(&mut self, text: &'a str) -> Option<&mut u64>;
    /// Puts a number under a text whose hash was computed before.
    fn put_hashed(
        &mut self,
        alloc: Global,
        text: Hashed<&'a str>,
        number: u64,
    ) -> Result<(), Fault>;
    /// The number under a text whose hash was computed before.
    fn at_hashed(&self, text: Hashed<&'a str>) -> Option<u64>;
}

/// What a map is asked by: a text, or a text whose hash was computed before the clock runs.
pub trait Asks<'a, M: TextMap<'a>>: Copy + Drop {
    /// What a text is asked by.
    fn of(text: &'a str) -> Self;
    /// Puts a number under it.
    fn put(self, alloc: Global, map: &mut M, number: u64) -> Result<(), Fault>;
    /// The number under it.
    fn find(self, map: &M) -> Option<u64>;
}

impl<'a, M: TextMap<'a>> Asks<'a, M> for &'a str {
    #[inline(always)]
    fn of(text: &'a str) -> Self {
        text
    }

    #[inline(always)]
    fn put(self, alloc: Global, map: &mut M, number: u64) -> Result<(), Fault> {
        map.put(alloc, self, number)
    }

    #[inline(always)]
    fn find(self, map: &M) -> Option<u64> {
        map.at(self)
    }
}

impl<'a, M: TextMap<'a>> Asks<'a, M> for Hashed<&'a str> {
    #[inline(always)]
    fn of(text: &'a str) -> Self {
        Hashed::new(text)
    }

    #[inline(always)]
    fn put(self, alloc: Global, map: &mut M, number: u64) -> Result<(), Fault> {
        map.put_hashed(alloc, self, number)
    }

    #[inline(always)]
    fn find(self, map: &M) -> Option<u64> {
        map.at_hashed(self)
    }
}
