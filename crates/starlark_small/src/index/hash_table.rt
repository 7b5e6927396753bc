//! The hash index: a table of the indices of a list, each under its hash, and beside it the slot of each index. So no
//! removal or move searches for its slot. The hash index sees no key.
ghost use Rattle.std.specs.Prelude.{◌≡◌, ℕ, ◌+◌, ◌-◌, ◌^◌, ◌<◌, ◌≤◌, [], List, length, vec_capacity, IfOk, IsPermutation};
ghost use Rattle.starlark_hash.specs.HashValue.{hash_number};
ghost use Rattle.starlark_hash.specs.Search.{CanSearch, Searches};
ghost use Rattle.starlark_small.specs.Hashes.{NotesNew, cleared, forgotten, hash_under, indices_under, noted, numbered, reversed};
ghost use Rattle.starlark_small.specs.IndexCalls.{GrowsHashes};
ghost use Rattle.starlark_small.specs.Slots.{IsSited};
ghost use Rattle.starlark_table.specs.Growth.{most_for};
ghost use Rattle.starlark_table.specs.Table.{members};
ghost use Rattle.starlark_vec2.specs.Sort.{Moves};

mod slots;

use super::UNINDEXED;
use slots::{lower_above, name_slots, rename_each, reverse_each, take_index};
use starlark_hash::StarlarkHashValue;
use starlark_table::{Follows, ReadyTable};
use std::alloc::{AllocError, Global};
use std::marker::Model;
use std::mem;

// The greatest length that a hash index is made for. 2^32 slots hold as many members, so 32 bits number the slots.
const LONGEST: usize = 13 << 28;

// The greatest length up to which a larger table is filled from the list. The hashes are read in order there, and the
// slots still fit a processor's cache. For a longer list the table is filled from the old slots, whose order is that of
// the new.
const FILLED_FROM_LIST: usize = 1 << 17;

/// A table of the indices of a list. It stores each hash of 32 bits in place of its promotion.
pub(super) type Indices = ReadyTable<u32, StarlarkHashValue>;

/// The slot of each index.
#[derive(Drop)]
pub(crate) struct Cells(Vec<u32>);

impl Follows<u32> for Cells {
    ghost knows = { λ cells slots. IsSited cells.0.items slots × (length slots ≤ 2 ^ 32) };

    ghost size = { λ cells. (length cells.0.items, vec_capacity cells.0) };

    #[inline(always)]
    fn moved(&mut self, item: &u32, slot: usize) {
        self.0[*item as usize] = slot as u32;
    }
}

/// The hash index of a list. A contract sees the promoted hashes of the list, in order, and a room.
#[derive(Drop)]
pub(crate) struct HashTable {
    table: Indices,
    // There is memory for as many cells as the table has room for.
    cells: Cells,
}

impl Model for HashTable {
    ghost use Rattle.std.specs.Prelude.{vec_capacity};
    ghost use Rattle.starlark_small.specs.Hashes.{Hashes};
    ghost use Rattle.starlark_small.specs.Slots.{KeepsIndices, hashes_in};

    ghost Value = { Hashes };

    ghost view = { λ t. record { list = hashes_in t.table.slots t.cells.0.items; room = t.table.room } };

    ghost invariant = { λ t. KeepsIndices t.table t.cells.0.items (vec_capacity t.cells.0) };
}

impl HashTable {
    /// No hash, and room for `capacity` hashes, of which there is one at least.
    pub(super) fn with_capacity(alloc: Global, capacity: usize) -> Result<Self, AllocError>
        requires { 0 < capacity }
        ensures empty { IfOk result (λ t. t.list ≡ []) }
        ensures room { IfOk result (λ t. capacity ≤ t.room) }
        ensures most { IfOk result (λ t. t.room ≤ most_for capacity) }
    {
        if capacity > LONGEST {
            return Err(AllocError);
        }
        let table = ReadyTable::keeping(alloc, capacity)?;
        let cells = Vec::with_capacity(alloc, table.room())?;
        Ok(HashTable {
            table,
            cells: Cells(cells),
        })
    }

    /// The table of the indices.
    #[inline]
    pub(super) fn table(&self) -> &Indices
        ensures { IsPermutation (numbered self.now.list) (members result.now) }
    {
        &self.table
    }

    /// The number of hashes.
    #[tactic(auto, using(crate::proofs::TableLengths::lengths))]
    #[inline]
    pub(super) fn len(&self) -> usize
        ensures { result ≡ length self.now.list }
    {
        self.cells.0.len()
    }

    /// How many further hashes certainly need no memory.
    #[inline]
    pub(super) fn room(&self) -> usize
        ensures { result ≡ self.now.room }
    {
        self.table.room()
    }

    /// Whether a larger table is filled from the old slots, and not from the list.
    pub(super) fn moves_slots(&self) -> bool {
        self.len() <= UNINDEXED || self.len() > FILLED_FROM_LIST
    }

    /// Makes room for `needed` hashes in all, for which there is no room yet.
    pub(super) fn grow(&mut self, alloc: Global, needed: usize) -> Result<(), AllocError>
        requires { length self.old.list + self.old.room < needed }
        ensures { GrowsHashes needed self.old self.new result }
    {
        if needed > LONGEST {
            return Err(AllocError);
        }
        let mut old: Indices = ReadyTable::keeping(alloc, needed)?;
        self.cells.0.reserve_exact(old.room() - self.cells.0.len())?;
        mem::swap(&mut self.table, &mut old);
        self.table.take_members(old);
        name_slots(&self.table, &mut self.cells.0);
        Ok(())
    }

    /// Appends a hash, for which there is room.
    #[inline]
    pub(super) fn note(&mut self, hash: StarlarkHashValue)
        requires { 0 < self.old.room }
        ensures fits { hash_number hash < 2 ^ 32 }
        ensures noted { self.new ≡ noted hash self.old }
    {
        // A hash is below 2^32.
        let _number = hash.get();
        let index = self.cells.0.len() as u32;
        let slot = self.table.insert_reserved(hash, index);
        self.cells.0.push_reserved(slot as u32);
    }

    /// Appends a hash if the first group shows that it is new, and there is room for it. Otherwise nothing changes.
    #[inline(always)]
    pub(super) fn note_new(&mut self, hash: StarlarkHashValue) -> bool
        ensures fits { hash_number hash < 2 ^ 32 }
        ensures new { NotesNew hash self.old self.new result }
    {
        // A hash is below 2^32.
        let _number = hash.get();
        let Some(slot) = self.table.vacancy(hash) else {
            return false;
        };
        if self.table.room() == 0 {
            return false;
        }
        let index = self.cells.0.len() as u32;
        self.table.insert_at(hash, index, slot);
        self.cells.0.push_reserved(slot as u32);
        true
    }

    /// Removes the hash at this index. The index of each later hash falls by one.
    #[tactic(auto, using(crate::proofs::TableLengths::lengths))]
    #[inline(never)]
    pub(super) fn forget(&mut self, index: usize)
        requires { index < length self.old.list }
        ensures { self.new ≡ forgotten index self.old }
    {
        take_index(&mut self.table, &mut self.cells, index);
        lower_above(&mut self.table, &self.cells.0, index);
        self.cells.0.remove(index);
    }

    /// Removes the last hash.
    #[tactic(auto, using(crate::proofs::TableLengths::lengths))]
    #[inline(always)]
    pub(super) fn forget_last(&mut self)
        requires { 0 < length self.old.list }
        ensures { self.new ≡ forgotten (length self.old.list - 1) self.old }
    {
        let last = self.cells.0.len() - 1;
        take_index(&mut self.table, &mut self.cells, last);
        self.cells.0.pop();
    }

    /// Removes all hashes. Few hashes among many slots are removed one by one, since a pass over the slots takes
    /// longer.
    pub(super) fn clear(&mut self)
        ensures { self.new ≡ cleared self.old }
    {
        let len = self.len();
        if len.saturating_mul(len) > len.saturating_add(self.room()) {
            self.table.clear();
            self.cells.0.clear();
            return;
        }
        for i in 0..len {
            self.forget_last();
        }
    }

    /// Gives each hash the new index that `to` has at the old one.
    #[inline(never)]
    pub(super) fn rename(&mut self, to: &[u32])
        requires { (list : List ℕ) × Moves self.old.list to.now list }
        ensures list { (list : List ℕ) → Moves self.old.list to.now list → self.new.list ≡ list }
        ensures room { self.new.room ≡ self.old.room }
    {
        rename_each(&mut self.table, to);
        name_slots(&self.table, &mut self.cells.0);
    }

    /// Reverses the order of the hashes.
    #[inline(never)]
    pub(super) fn reverse(&mut self)
        ensures { self.new ≡ reversed self.old }
    {
        reverse_each(&mut self.table, self.cells.0.len());
        self.cells.0.reverse();
    }

    /// An index of this hash that `eq` accepts. `eq` is called only on the indices of this hash, at most once on each,
    /// until it accepts one.
    #[inline(always)]
    pub(super) fn find<F: FnMut(&u32) -> bool>(
        &self,
        hash: StarlarkHashValue,
        eq: F,
    ) -> Option<usize>
        requires { CanSearch F.FnMut (indices_under (hash_under hash) self.now.list) eq }
        ensures { (last : F) × Searches F.FnMut (indices_under (hash_under hash) self.now.list) eq result last }
    {
        let index = self.table.find_item_unchecked(hash, eq)?;
        Some(*index as usize)
    }
}
