//! Our maps, with keys that they own and with keys that they borrow.

use super::map::TextMap;
use crate::fault::Fault;
use starlark_hash::Hashed;
use starlark_small::SmallMap;
use starlark_unordered::UnorderedMap;
use std::alloc::Global;

impl<'a> TextMap<'a> for SmallMap<String, u64> {
    #[inline(always)]
    fn empty(alloc: Global) -> Self {
        SmallMap::new(alloc)
    }

    #[inline(always)]
    fn put(&mut self, alloc: Global, text: &'a str, number: u64) -> Result<(), Fault> {
        self.insert(String::from_str(alloc, text)?, number)?;
        Ok(())
    }

    #[inline(always)]
    fn at(&self, text: &'a str) -> Option<u64> {
        self.get(text).copied()
    }

    #[inline(always)]
    fn at_mut(&mut self, text: &'a str) -> Option<&mut u64> {
        self.get_mut(text)
    }

    #[inline(always)]
    fn put_hashed(
        &mut self,
        alloc: Global,
        text: Hashed<&'a str>,
        number: u64,
    ) -> Result<(), Fault> {
        self.insert_hashed(text.owned::<String>(alloc)?, number)?;
        Ok(())
    }

    #[inline(always)]
    fn at_hashed(&self, text: Hashed<&'a str>) -> Option<u64> {
        self.get_hashed(text).copied()
    }
}

impl<'a> TextMap<'a> for SmallMap<&'a str, u64> {
    #[inline(always)]
    fn empty(alloc: Global) -> Self {
        SmallMap::new(alloc)
    }

    #[inline(always)]
    fn put(&mut self, _alloc: Global, text: &'a str, number: u64) -> Result<(), Fault> {
        self.insert(text, number)?;
        Ok(())
    }

    #[inline(always)]
    fn at(&self, text: &'a str) -> Option<u64> {
        self.get(text).copied()
    }

    #[inline(always)]
    fn at_mut(&mut self, text: &'a str) -> Option<&mut u64> {
        self.get_mut(text)
    }

    #[inline(always)]
    fn put_hashed(
        &mut self,
        _alloc: Global,
        text: Hashed<&'a str>,
        number: u64,
    ) -> Result<(), Fault> {
        self.insert_hashed(text, number)?;
        Ok(())
    }

    #[inline(always)]
    fn at_hashed(&self, text: Hashed<&'a str>) -> Option<u64> {
        self.get_hashed(text).copied()
    }
}

// It has no insertion under a hash but by a raw entry.
impl<'a> TextMap<'a> for UnorderedMap<String, u64> {
    #[inline(always)]
    fn empty(alloc: Global) -> Self {
        UnorderedMap::new(alloc)
    }

    #[inline(always)]
    fn put(&mut self, alloc: Global, text: &'a str, number: u64) -> Result<(), Fault> {
        self.insert(String::from_str(alloc, text)?, number)?;
        Ok(())
    }

    #[inline(always)]
    fn at(&self, text: &'a str) -> Option<u64> {
        self.get(text).copied()
    }

    #[inline(always)]
    fn at_mut(&mut self, text: &'a str) -> Option<&mut u64> {
        self.get_mut(text)
    }

    #[inline(always)]
    fn put_hashed(
        &mut self,
        alloc: Global,
        text: Hashed<&'a str>,
        number: u64,
    ) -> Result<(), Fault> {
        self.put(alloc, text.into_key(), number)
    }

    #[inline(always)]
    fn at_hashed(&self, text: Hashed<&'a str>) -> Option<u64> {
        self.get_hashed(text).copied()
    }
}
