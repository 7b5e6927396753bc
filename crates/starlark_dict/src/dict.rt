//! The map. It alone sees the map inside.
ghost use Rattle.std.specs.Prelude.{◌≡◌, ◌≤◌, ◌<◌, ◌==◌, false, nat_lt, IfOk, IsOk, OnOk, OnErr};
ghost use Rattle.starlark_small.specs.Index.{unindexed};
ghost use Rattle.starlark_dict.specs.Dict.{dict_len, memory, room, IsEmpty, IsUnchanged, IsUnique, KeepsRoom, StaysOrGrows};

mod clone;
mod collect;
mod compare;
mod convert;
mod debug;
pub mod entry;
mod get;
mod get_mut;
mod insert;
mod iter;
mod iter_mut;
mod remove;
mod retain;
mod sort;

use starlark_small::SmallMap;
use std::alloc::{AllocError, Global};
use std::hash::Hash;
use std::marker::Model;

/// A map that iterates in the order of insertion, until a sort or `reverse` changes it, with each key under its own hash. It
/// is seen as the list of its keys and values, its room, and its memory: no contract names a hash.
#[derive(Drop)]
pub struct Dict<K: Eq + Hash, V> {
    map: SmallMap<K, V>,
}

impl<K: Eq + Hash, V> Model for Dict<K, V> {
    ghost use Rattle.starlark_dict.specs.Dict.{Dict as Entries, dict_of, memory_code};
    ghost use Rattle.starlark_small.specs.Lookup.{AreOwn};
    ghost use Rattle.std_collections.specs.Layout.HashMap.{hash_map_code};

    ghost Value = { Entries K V };

    ghost coded = { hash_map_code K.code V.code memory_code };

    ghost view = { λ d. dict_of d.map };

    ghost invariant = { λ d. AreOwn K.hash_input d.map };
}

impl<K: Eq + Hash, V> Dict<K, V> {
    /// An empty map. It asks for no memory until the first insertion.
    #[inline]
    pub fn new(alloc: Global) -> Self
        ensures empty { IsEmpty result }
        ensures room { room result ≡ 0 }
        ensures capacity { (memory result).capacity ≡ 0 }
        ensures indexed { (memory result).indexed ≡ false }
    {
        Dict {
            map: SmallMap::new(alloc),
        }
    }

    /// An empty dictionary of this capacity, with room for so many entries, and with a hash index where so many need one.
    /// Where memory is refused, or for more than 3,489,660,928 entries, nothing is made; capacity 0 asks for none.
    pub fn with_capacity(alloc: Global, capacity: usize) -> Result<Self, AllocError>
        ensures empty { IfOk result IsEmpty }
        ensures room { IfOk result (λ d. capacity ≤ room d) }
        ensures capacity { IfOk result (λ d. (memory d).capacity ≡ capacity) }
        ensures indexed { IfOk result (λ d. (memory d).indexed ≡ nat_lt unindexed capacity) }
        ensures succeeds { capacity ≡ 0 → IsOk result }
    {
        Ok(Dict {
            map: SmallMap::with_capacity(alloc, capacity)?,
        })
    }

    /// How many entries there are. No two have equal keys.
    #[inline]
    #[tactic(auto, using(crate::proofs::OwnPairs::own_pairs))]
    pub fn len(&self) -> usize
        ensures len { result ≡ dict_len self.now }
        ensures unique { IsUnique K.eq self.now }
    {
        let count = self.map.len();
        prove!(self.map.iter_hashed().len() == count);
        count
    }

    /// Whether there are no entries.
    #[inline]
    #[tactic(auto, using(crate::proofs::OwnPairs::own_pairs))]
    pub fn is_empty(&self) -> bool
        ensures { result ≡ (dict_len self.now == 0) }
    {
        self.map.is_empty()
    }

    /// How many new keys surely need no memory.
    #[inline]
    pub fn room(&self) -> usize
        ensures { result ≡ room self.now }
    {
        self.map.room()
    }

    /// How many entries there may be before the list grows.
    #[inline]
    pub fn capacity(&self) -> usize
        ensures { result ≡ (memory self.now).capacity }
    {
        self.map.capacity()
    }

    /// Makes room for so many new keys. Where the room is there it asks for no memory and changes nothing. A refusal
    /// leaves the entries as they were.
    #[tactic(auto, using(crate::proofs::OwnPairs::own_pairs))]
    pub fn reserve(&mut self, additional: usize) -> Result<(), AllocError>
        ensures entries { IsUnchanged self.old self.new }
        ensures enough { OnOk result (additional ≤ room self.new) }
        ensures lacking { OnErr result (room self.old < additional) }
        ensures there { additional ≤ room self.old → self.new ≡ self.old }
        ensures room { KeepsRoom self.old self.new }
        ensures capacity { StaysOrGrows additional self.old self.new }
    {
        self.map.reserve(additional)
    }
}
