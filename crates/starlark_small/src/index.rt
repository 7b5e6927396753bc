//! The hash index of a list of entries, if the list needs one. The list itself is stored beside it.
ghost use Rattle.std.specs.Prelude.{◌≡◌, ℕ, ◌+◌, ◌-◌, ◌^◌, ◌<◌, ◌≤◌, [], List, None, IfOk, IfSome, OnErr, OnOk, true, false, if◌then◌else◌, is_some, length, nat_le};
ghost use Rattle.std.specs.Option.{option_map};
ghost use Rattle.starlark_hash.specs.HashValue.{hash_number};
ghost use Rattle.starlark_small.specs.Hashes.{cleared, forgotten, noted, reversed};
ghost use Rattle.starlark_small.specs.Index.{IsIndexed, IsIndexedAt, index_room, unindexed};
ghost use Rattle.starlark_small.specs.IndexCalls.{IsFilled, IsNotedIn, IsRenamed, MakesIndexFor, MakesIndexOf, ReservesIndex, ShowsTable};
ghost use Rattle.starlark_table.specs.Growth.{most_for};
ghost use Rattle.starlark_vec2.specs.Sort.{Moves};

mod find;
mod hash_table;

use hash_table::HashTable;
use starlark_columns::Perhaps;
use starlark_hash::StarlarkHashValue;
use starlark_table::ReadyTable;
use starlark_vecmap::VecMap;
use std::alloc::{AllocError, Global};
use std::marker::Model;

/// The greatest length that a list may have without a hash index; a longer list always has one. Definitions name it
/// `unindexed`. docs/DESIGN.md says why it is 16.
pub const UNINDEXED: usize = 16;

// The least capacity of a hash index that is made as a list grows. It is twice the threshold, so that the next few
// insertions do not rebuild the index.
const FIRST: usize = 2 * UNINDEXED;

/// The hash index of a list, or nothing if the list is short enough. A contract sees the hashes of the list, in order.
/// The table is in a block of its own, so that a map holds no more of it than a pointer.
#[derive(Drop)]
pub(crate) struct Index {
    table: Perhaps<HashTable>,
    // The table and its block get their memory from it.
    alloc: Global,
}

impl Model for Index {
    ghost use Rattle.std.specs.Prelude.{Option};
    ghost use Rattle.starlark_small.specs.Hashes.{Hashes};

    ghost Value = { Option Hashes };

    ghost view = { λ i. i.table };
}

// Constructors

impl Index {
    /// No hash index, for a short list.
    #[inline]
    pub(crate) fn none(alloc: Global) -> Self
        ensures { result ≡ None }
    {
        Index {
            table: Perhaps::none(alloc),
            alloc,
        }
    }

    /// The hash index of an empty list, with room for `capacity` entries, if a list of this length needs one.
    pub(crate) fn with_capacity(alloc: Global, capacity: usize) -> Result<Self, AllocError>
        ensures { MakesIndexFor capacity result }
    {
        if capacity <= UNINDEXED {
            return Ok(Index::none(alloc));
        }
        let table = Perhaps::of(alloc, HashTable::with_capacity(alloc, capacity)?)?;
        Ok(Index { table, alloc })
    }

    /// The hash index of these entries, if they need one, for as many entries as their capacity. Of this index only the
    /// allocator is used.
    pub(crate) fn of_other<K, V>(&self, entries: &VecMap<K, V>) -> Result<Self, AllocError>
        ensures made { MakesIndexOf entries.now.entries result }
        ensures most { IfOk result (λ index. IfSome index (λ h. length h.list + h.room ≤ most_for entries.now.capacity)) }
    {
        if entries.len() <= UNINDEXED {
            return Ok(Index::none(self.alloc));
        }
        let mut index = Index::with_capacity(self.alloc, entries.capacity())?;
        index.note_all(entries);
        Ok(index)
    }

    /// Makes room for `additional` new entries. The list has room for them already.
    pub(crate) fn reserve<K, V>(
        &mut self,
        entries: &VecMap<K, V>,
        additional: usize,
    ) -> Result<(), AllocError>
        requires indexed { IsIndexed entries.now.entries self.old }
        requires spare { length entries.now.entries + additional ≤ entries.now.capacity }
        ensures { ReservesIndex entries.now.entries additional self.old self.new result }
    {
        let len = entries.len();
        if additional <= self.room(len) {
            return Ok(());
        }
        prove!(additional <= entries.capacity() - len);
        let needed = len + additional;
        match self.table.get_mut() {
            Some(table) if table.moves_slots() => table.grow(self.alloc, needed),
            _ => self.make_anew(entries, needed.max(FIRST)),
        }
    }

    // Replaces the hash index by a new one with room for `capacity` entries, filled from the list.
    fn make_anew<K, V>(&mut self, entries: &VecMap<K, V>, capacity: usize) -> Result<(), AllocError>
        requires long { unindexed < capacity }
        requires fits { length entries.now.entries ≤ capacity }
        ensures indexed { OnOk result (IsIndexed entries.now.entries self.new) }
        ensures made { OnOk result (is_some self.new ≡ true) }
        ensures room { OnOk result (capacity ≤ length entries.now.entries + index_room (length entries.now.entries) self.new) }
        ensures most { OnOk result (length entries.now.entries + index_room (length entries.now.entries) self.new ≤ most_for capacity) }
        ensures unchanged { OnErr result (self.new ≡ self.old) }
    {
        let mut index = Index::with_capacity(self.alloc, capacity)?;
        index.note_all(entries);
        *self = index;
        Ok(())
    }

    /// Drops the hash index if a list of length `len` needs none.
    pub(crate) fn drop_if_short(&mut self, len: usize)
        ensures { self.new ≡ (if nat_le len unindexed then None else self.old) }
    {
        if len <= UNINDEXED {
            self.table = Perhaps::none(self.alloc);
        }
    }
}

// Changes of the list

impl Index {
    /// Adds the hash of an entry that is about to be appended.
    #[inline(always)]
    pub(crate) fn note(&mut self, hash: StarlarkHashValue)
        requires { IfSome self.old (λ h. 0 < h.room) }
        ensures fits { IfSome self.old (λ _. hash_number hash < 2 ^ 32) }
        ensures noted { self.new ≡ option_map (noted hash) self.old }
    {
        if let Some(table) = self.table.get_mut() {
            table.note(hash);
        }
    }

    /// Adds the hash of an entry that is about to be appended, if the first group shows that no entry has the hash, and
    /// hash index and list have room. Otherwise nothing changes. `spare` is the room of the list.
    #[inline(always)]
    pub(crate) fn note_new(&mut self, hash: StarlarkHashValue, spare: usize) -> bool
        ensures noted { result ≡ true → IsNotedIn hash spare self.old self.new }
        ensures unchanged { result ≡ false → self.new ≡ self.old }
    {
        match self.table.get_mut() {
            Some(table) => spare > 0 && table.note_new(hash),
            None => false,
        }
    }

    /// Fills an empty hash index with the hash of each entry of the list.
    pub(crate) fn note_all<K, V>(&mut self, entries: &VecMap<K, V>)
        requires { IfSome self.old (λ h. (h.list ≡ []) × (length entries.now.entries ≤ h.room)) }
        ensures { IsFilled entries.now.entries self.old self.new }
    {
        let Some(table) = self.table.get_mut() else {
            return;
        };
        for i in 0..entries.len() {
            let hash = entries.get_unchecked(i).0.hash();
            table.note(hash);
        }
    }

    /// Removes the hash of the entry at this index.
    #[inline]
    pub(crate) fn forget(&mut self, index: usize)
        requires { IfSome self.old (λ h. index < length h.list) }
        ensures { self.new ≡ option_map (forgotten index) self.old }
    {
        if let Some(table) = self.table.get_mut() {
            table.forget(index);
        }
    }

    /// Removes the hash of the last entry.
    #[inline]
    pub(crate) fn forget_last(&mut self)
        requires { IfSome self.old (λ h. 0 < length h.list) }
        ensures { self.new ≡ option_map (λ h. forgotten (length h.list - 1) h) self.old }
    {
        if let Some(table) = self.table.get_mut() {
            table.forget_last();
        }
    }

    /// Removes all hashes.
    pub(crate) fn clear(&mut self)
        ensures { self.new ≡ option_map cleared self.old }
    {
        if let Some(table) = self.table.get_mut() {
            table.clear();
        }
    }

    /// Whether there are only a few slots for each hash. A pass over the slots then costs less than to remove and add
    /// each hash.
    pub(crate) fn is_dense(&self) -> bool {
        match self.table.get() {
            Some(table) => table.room() / 8 <= table.len(),
            None => false,
        }
    }

    /// Gives each hash the new index of its entry, which `to` has at the old index.
    pub(crate) fn rename(&mut self, to: &[u32])
        requires { IfSome self.old (λ h. (list : List ℕ) × Moves h.list to.now list) }
        ensures { IsRenamed to.now self.old self.new }
    {
        if let Some(table) = self.table.get_mut() {
            table.rename(to);
        }
    }

    /// Reverses the order of the hashes.
    pub(crate) fn reverse(&mut self)
        ensures { self.new ≡ option_map reversed self.old }
    {
        if let Some(table) = self.table.get_mut() {
            table.reverse();
        }
    }
}

// Reads

impl Index {
    /// How many new entries certainly need no memory for the hash index of a list of this length.
    #[inline]
    pub(crate) fn room(&self, len: usize) -> usize
        requires { IsIndexedAt len self.now }
        ensures { result ≡ index_room len self.now }
    {
        match self.table.get() {
            Some(table) => table.room(),
            None => UNINDEXED - len,
        }
    }

    /// The table that has the index of each entry under its hash, or none if there is no hash index.
    #[inline]
    pub(crate) fn table(&self) -> Option<&ReadyTable<u32, StarlarkHashValue>>
        ensures { ShowsTable self.now result }
    {
        match self.table.get() {
            Some(table) => Some(table.table()),
            None => None,
        }
    }
}
