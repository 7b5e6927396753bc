//! The map. This file and its modules alone see the list of entries and its index.
ghost use Rattle.starlark_small.specs.New.{IsBare, MakesEmptyFor};
ghost use Rattle.std.specs.Prelude.{◌≡◌, ◌-◌, ◌<◌, ◌≤◌, ◌==◌, ◌^◌, length, is_some, IfSome, IsPermutation, IsSome};
ghost use Rattle.starlark_small.specs.Index.{positions, unindexed};
ghost use Rattle.starlark_table.specs.Table.{members};

mod clone;
mod collect;
mod compare;
mod debug;
mod get;
mod get_mut;
mod insert;
mod iter;
mod remove;
mod reserve;
mod retain;
mod sort;

use crate::index::Index;
use starlark_hash::StarlarkHashValue;
use starlark_table::ReadyTable;
use starlark_vecmap::VecMap;
use std::alloc::{AllocError, Global};
use std::marker::Model;

/// A map that iterates in the order of insertion. A contract sees the list of its entries, its room, its capacity, and
/// whether it has a hash index.
///
/// An entry is stored under a hash that the caller supplies, which need not be the key's own. A look-up finds the entry
/// with that hash and an equal key. No two entries have the same hash and equal keys. Two entries may have equal keys
/// under two hashes, and each is found under its own hash alone. A list longer than `UNINDEXED` has a hash index, which
/// changes no answer. The iterators go from both ends, with exact length and size hint.
#[derive(Drop)]
pub struct SmallMap<K: Eq, V> {
    entries: VecMap<K, V>,
    index: Index,
}

impl<K: Eq, V> Model for SmallMap<K, V> {
    ghost use Rattle.starlark_small.specs.Index.{IsSound, map_of};
    ghost use Rattle.starlark_small.specs.Map.{Map};

    ghost Value = { Map K V };

    ghost view = { λ m. map_of m.entries m.index };

    ghost invariant = { λ m. IsSound K.eq m.entries.entries m.index };
}

impl<K: Eq, V> SmallMap<K, V> {
    /// An empty map without room, capacity and hash index. It asks for no memory until the first insertion.
    #[tactic(auto, using(crate::proofs::CallerOwn::emptied))]
    #[inline]
    pub fn new(alloc: Global) -> Self
        ensures { IsBare result }
    {
        SmallMap {
            entries: VecMap::new(alloc),
            index: Index::none(alloc),
        }
    }

    /// An empty map with this capacity and with room for this many entries. It has a hash index if this many entries
    /// need one. If memory is refused, or for more than 3,489,660,928 entries, nothing is made. Capacity 0 asks for no
    /// memory.
    #[tactic(auto, using(crate::proofs::CallerOwn::emptied))]
    #[inline(always)]
    pub fn with_capacity(alloc: Global, capacity: usize) -> Result<Self, AllocError>
        ensures { MakesEmptyFor capacity result }
    {
        let index = Index::with_capacity(alloc, capacity)?;
        let entries = VecMap::with_capacity(alloc, capacity)?;
        Ok(SmallMap { entries, index })
    }

    /// The number of entries.
    #[inline]
    pub fn len(&self) -> usize
        ensures len { result ≡ length self.now.entries }
        ensures few { length self.now.entries < 2 ^ 63 }
    {
        prove!(self.entries.iter_hashed().len() == self.entries.len());
        self.entries.len()
    }

    /// Whether there are no entries.
    #[inline]
    pub fn is_empty(&self) -> bool
        ensures { result ≡ (length self.now.entries == 0) }
    {
        self.entries.is_empty()
    }

    /// The number of entries up to which the list does not grow.
    #[inline]
    pub fn capacity(&self) -> usize
        ensures capacity { result ≡ self.now.capacity }
        ensures within { length self.now.entries ≤ result }
    {
        self.entries.capacity()
    }

    /// How many new entries certainly need no memory, neither for the list nor for the hash index.
    #[inline]
    pub fn room(&self) -> usize
        ensures { result ≡ self.now.room }
    {
        let spare = self.entries.capacity() - self.entries.len();
        spare.min(self.index.room(self.entries.len()))
    }

    /// The hash index, if there is one. It is a table whose members are the indices of the list, each under the
    /// promoted hash of its entry. A list longer than `UNINDEXED` has one.
    #[inline]
    pub fn index(&self) -> Option<&ReadyTable<u32, StarlarkHashValue>>
        ensures indices { IfSome result (λ table. IsPermutation (positions self.now.entries) (members table.now)) }
        ensures indexed { is_some result ≡ self.now.indexed }
        ensures long { unindexed < length self.now.entries → IsSome result }
    {
        self.index.table()
    }
}
