//! A set: a map whose values are all `()`. The files of this module alone see that map.
ghost use Rattle.starlark_small.specs.New.{IsBare, MakesEmptyFor};
ghost use Rattle.std.specs.Prelude.{◌≡◌, ◌-◌, ◌≤◌, ◌==◌, length, ◌<◌, ◌^◌};
ghost use Rattle.starlark_small.specs.Memory.{Reserves};

mod clone;
mod collect;
mod compare;
mod debug;
mod get;
mod get_or_insert;
mod insert;
mod iter;
mod remove;
mod retain;
mod sort;
mod union;

use starlark_small::SmallMap;
use std::alloc::{AllocError, Global};
use std::marker::Model;

/// A set that iterates in the order of insertion. A contract sees it as the map whose keys are the elements and whose
/// values are all `()`.
///
/// An element is stored under a hash that its caller supplies, which need not be its own. A look-up finds the equal
/// element that is stored under the query's hash. No two elements have the same hash and are equal. A list that has
/// grown longer than `UNINDEXED` has a hash index, which changes no answer. The iterators run from both ends, with
/// exact length and size hint.
#[derive(Drop)]
pub struct SmallSet<T: Eq> {
    map: SmallMap<T, ()>,
    // The allocator from which `index_or_insert_owned` takes the memory of a new element.
    alloc: Global,
}

impl<T: Eq> Model for SmallSet<T> {
    ghost use Rattle.starlark_sets.specs.Set.{Set};

    ghost Value = { Set T };

    ghost view = { λ s. s.map };
}

impl<T: Eq> SmallSet<T> {
    /// Makes an empty set without room, capacity and hash index. It asks for no memory until the first insertion.
    #[inline]
    pub fn new(alloc: Global) -> Self
        ensures { IsBare result }
    {
        SmallSet {
            map: SmallMap::new(alloc),
            alloc,
        }
    }

    /// Makes an empty set of this capacity, with room for that many elements, and with a hash index if that many need
    /// one. If memory is refused, or for more than 3,489,660,928 elements, nothing is made. Capacity 0 asks for no
    /// memory.
    pub fn with_capacity(alloc: Global, capacity: usize) -> Result<Self, AllocError>
        ensures { MakesEmptyFor capacity result }
    {
        Ok(SmallSet {
            map: SmallMap::with_capacity(alloc, capacity)?,
            alloc,
        })
    }

    /// Returns the number of elements.
    #[inline]
    pub fn len(&self) -> usize
        ensures len { result ≡ length self.now.entries }
        ensures few { length self.now.entries < 2 ^ 63 }
    {
        self.map.len()
    }

    /// Returns whether there are no elements.
    #[inline]
    pub fn is_empty(&self) -> bool
        ensures { result ≡ (length self.now.entries == 0) }
    {
        self.map.is_empty()
    }

    /// Returns the number of elements that the list can hold before it grows.
    #[inline]
    pub fn capacity(&self) -> usize
        ensures capacity { result ≡ self.now.capacity }
        ensures within { length self.now.entries ≤ result }
    {
        self.map.capacity()
    }

    /// Makes room for this many new elements, and a hash index if the length with them is above `UNINDEXED`. If the
    /// room is there, the call asks for no memory and changes nothing. A refusal leaves elements and hash index
    /// unchanged. The capacity may have grown.
    pub fn reserve(&mut self, additional: usize) -> Result<(), AllocError>
        ensures reserves { Reserves additional self.old self.new result }
    {
        self.map.reserve(additional)
    }
}
