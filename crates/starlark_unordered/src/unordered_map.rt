//! The map. No other module sees its table.
ghost use Rattle.std.specs.Prelude.{◌≡◌, ◌==◌, ◌≤◌, [], IfOk, IsOk, length};
ghost use Rattle.starlark_table.specs.Growth.{most_for};
ghost use Rattle.starlark_unordered.specs.Lookup.{IsEmpty};
ghost use Rattle.starlark_unordered.specs.Pairs.{pairs_of, HasDistinctKeys};

mod clone;
mod collect;
mod compare;
mod debug;
mod get;
mod insert;
mod iter;
mod remove;
mod retain;
mod slots;

use starlark_hash::StarlarkHashValue;
use starlark_table::ReadyTable;
use std::alloc::{AllocError, Global};
use std::hash::Hash;
use std::marker::Model;

/// A map without an order: pairs, no two of which have equal keys. It is seen as a table of pairs, each stored under its
/// key's own hash, promoted to 64 bits. `pairs_of` lists them in an order that nothing promises.
///
/// `==` is true of maps with equal pairs, in any order. `Hash` feeds the length, and then the sum of the pairs' hashes in
/// 64 bits.
#[derive(Drop)]
pub struct UnorderedMap<K: Eq + Hash, V> {
    // The table stores the 32 bits of each hash, which it promotes when it needs the 64.
    table: ReadyTable<(K, V), StarlarkHashValue>,
    // The allocator that `map_values` uses.
    alloc: Global,
}

impl<K: Eq + Hash, V> Model for UnorderedMap<K, V> {
    ghost use Rattle.starlark_table.specs.Table.{Table, members};
    ghost use Rattle.starlark_unordered.specs.Sound.{IsKeyed, keyed};

    ghost Value = { Table (K × V) };

    ghost view = { λ m. m.table };

    ghost invariant = { λ m. IsKeyed K.eq K.hash_input (keyed (members m.table)) };
}

impl<K: Eq + Hash, V> UnorderedMap<K, V> {
    /// An empty map without room. It asks for no memory before the first insertion.
    #[tactic(auto, using(crate::proofs::Callers::callers))]
    pub fn new(alloc: Global) -> Self
        ensures empty { pairs_of result ≡ [] }
        ensures found { IsEmpty result }
        ensures room { result.room ≡ 0 }
    {
        UnorderedMap {
            table: ReadyTable::without_slots(alloc),
            alloc,
        }
    }

    /// An empty map with room for at least `capacity` pairs, and for at most twice as many, or 6. If memory is refused,
    /// nothing is made. Capacity 0 is never refused.
    #[tactic(auto, using(crate::proofs::Callers::callers))]
    pub fn with_capacity(alloc: Global, capacity: usize) -> Result<Self, AllocError>
        ensures empty { IfOk result (λ map. pairs_of map ≡ []) }
        ensures found { IfOk result (λ map. IsEmpty map) }
        ensures room { IfOk result (λ map. capacity ≤ map.room) }
        ensures most { IfOk result (λ map. map.room ≤ most_for capacity) }
        ensures none_for_none { capacity ≡ 0 → IsOk result }
    {
        Ok(UnorderedMap {
            table: ReadyTable::keeping(alloc, capacity)?,
            alloc,
        })
    }

    /// The number of pairs.
    #[inline]
    pub fn len(&self) -> usize
        ensures len { result ≡ length (pairs_of self.now) }
        ensures distinct { HasDistinctKeys K.eq (pairs_of self.now) }
    {
        self.table.len()
    }

    /// Whether there is no pair.
    #[inline]
    pub fn is_empty(&self) -> bool
        ensures { result ≡ (length (pairs_of self.now) == 0) }
    {
        self.table.len() == 0
    }

    /// How many new pairs certainly need no memory.
    #[inline]
    pub fn room(&self) -> usize
        ensures { result ≡ self.now.room }
    {
        self.table.room()
    }
}
