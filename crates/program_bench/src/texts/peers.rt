//! The maps of the kit, which cannot be asked by a hash.

use super::map::TextMap;
use crate::fault::Fault;
use crate::maps::Hashing;
use indexmap::IndexMap;
use starlark_hash::Hashed;
use std::alloc::Global;
use std::collections::HashMap;

impl<'a, S: Hashing> TextMap<'a> for IndexMap<String, u64, S> {
    #[inline(always)]
    fn empty(alloc: Global) -> Self {
        IndexMap::with_hasher(alloc, S::hashing())
    }

    #[inline(always)]
    fn put(&mut self, alloc: Global, text: &'a str, number: u64) -> Result<(), Fault> {
        self.insert(String::from_str(alloc, text)?, number)?;
        Ok(())
    }

    #[inline(always)]
    fn at(&self, text: &'a str) -> Option<u64> {
        self.get(text).copied()
    }

    #[inline(always)]
    fn at_mut(&mut self, text: &'a str) -> Option<&mut u64> {
        self.get_mut(text)
    }

    #[inline(always)]
    fn put_hashed(
        &mut self,
        alloc: Global,
        text: Hashed<&'a str>,
        number: u64,
    ) -> Result<(), Fault> {
        self.put(alloc, text.into_key(), number)
    }

    #[inline(always)]
    fn at_hashed(&self, text: Hashed<&'a str>) -> Option<u64> {
        self.at(text.into_key())
    }
}

impl<'a, S: Hashing> TextMap<'a> for HashMap<String, u64, S> {
    #[inline(always)]
    fn empty(alloc: Global) -> Self {
        HashMap::with_hasher(alloc, S::hashing())
    }

    #[inline(always)]
    fn put(&mut self, alloc: Global, text: &'a str, number: u64) -> Result<(), Fault> {
        self.insert(String::from_str(alloc, text)?, number)?;
        Ok(())
    }

    #[inline(always)]
    fn at(&self, text: &'a str) -> Option<u64> {
        self.get(text).copied()
    }

    #[inline(always)]
    fn at_mut(&mut self, text: &'a str) -> Option<&mut u64> {
        self.get_mut(text)
    }

    #[inline(always)]
    fn put_hashed(
        &mut self,
        alloc: Global,
        text: Hashed<&'a str>,
        number: u64,
    ) -> Result<(), Fault> {
        self.put(alloc, text.into_key(), number)
    }

    #[inline(always)]
    fn at_hashed(&self, text: Hashed<&'a str>) -> Option<u64> {
        self.at(text.into_key())
    }
}
