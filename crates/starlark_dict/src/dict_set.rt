//! The set, a dictionary whose every value is `()`. It alone sees that dictionary.
ghost use Rattle.std.specs.Prelude.{◌≡◌, ◌<◌, ◌≤◌, ◌==◌, false, nat_lt, IfOk, IsOk, OnErr, OnOk};
ghost use Rattle.starlark_small.specs.Index.{unindexed};
ghost use Rattle.starlark_dict.specs.Dict.{StaysOrGrows};
ghost use Rattle.starlark_dict.specs.DictSet.{as_dict, memory, room, set_len, IsEmpty, IsUnchanged, IsUnique, KeepsRoom};

mod clone;
mod collect;
mod compare;
mod debug;
mod get;
mod insert;
mod iter;
mod remove;
mod retain;
mod sort;
mod union;

use crate::Dict;
use std::alloc::{AllocError, Global};
use std::hash::Hash;
use std::marker::Model;
pub use union::{Difference, Union};

/// A set that iterates in the order of insertion, until a sort or `reverse` changes it. It is seen as the list of its
/// elements, its room, and its memory: no contract names a hash.
#[derive(Drop)]
pub struct DictSet<T: Eq + Hash> {
    dict: Dict<T, ()>,
}

impl<T: Eq + Hash> Model for DictSet<T> {
    ghost use Rattle.starlark_dict.specs.Dict.{memory_code};
    ghost use Rattle.starlark_dict.specs.DictSet.{DictSet as Elements};
    ghost use Rattle.std_collections.specs.Layout.HashSet.{hash_set_code, key_set};

    ghost Value = { Elements T };

    ghost coded = { hash_set_code T.code memory_code };

    ghost view = { λ s. key_set s.dict };
}

impl<T: Eq + Hash> DictSet<T> {
    /// An empty set. It asks for no memory until the first insertion.
    #[inline]
    pub fn new(alloc: Global) -> Self
        ensures empty { IsEmpty result }
        ensures room { room result ≡ 0 }
        ensures capacity { (memory result).capacity ≡ 0 }
        ensures indexed { (memory result).indexed ≡ false }
    {
        DictSet {
            dict: Dict::new(alloc),
        }
    }

    /// An empty set of this capacity, with room for so many elements, and with a hash index where so many need one. Where
    /// memory is refused, or for more than 3,489,660,928 elements, nothing is made; capacity 0 asks for none.
    pub fn with_capacity(alloc: Global, capacity: usize) -> Result<Self, AllocError>
        ensures empty { IfOk result IsEmpty }
        ensures room { IfOk result (λ s. capacity ≤ room s) }
        ensures capacity { IfOk result (λ s. (memory s).capacity ≡ capacity) }
        ensures indexed { IfOk result (λ s. (memory s).indexed ≡ nat_lt unindexed capacity) }
        ensures succeeds { capacity ≡ 0 → IsOk result }
    {
        Ok(DictSet {
            dict: Dict::with_capacity(alloc, capacity)?,
        })
    }

    /// How many elements there are. No two are equal.
    #[inline]
    #[tactic(auto, using(crate::proofs::Elements::elements))]
    pub fn len(&self) -> usize
        ensures len { result ≡ set_len self.now }
        ensures unique { IsUnique T.eq self.now }
    {
        self.dict.len()
    }

    /// Whether there are no elements.
    #[inline]
    #[tactic(auto, using(crate::proofs::Elements::elements))]
    pub fn is_empty(&self) -> bool
        ensures { result ≡ (set_len self.now == 0) }
    {
        self.dict.is_empty()
    }

    /// How many new elements surely need no memory.
    #[inline]
    pub fn room(&self) -> usize
        ensures { result ≡ room self.now }
    {
        self.dict.room()
    }

    /// How many elements there may be before the list grows.
    #[inline]
    pub fn capacity(&self) -> usize
        ensures { result ≡ (memory self.now).capacity }
    {
        self.dict.capacity()
    }

    /// Makes room for so many new elements. Where the room is there it asks for no memory and changes nothing. A refusal
    /// leaves the elements as they were.
    #[tactic(auto, using(crate::proofs::Elements::elements))]
    pub fn reserve(&mut self, additional: usize) -> Result<(), AllocError>
        ensures elements { IsUnchanged self.old self.new }
        ensures enough { OnOk result (additional ≤ room self.new) }
        ensures lacking { OnErr result (room self.old < additional) }
        ensures there { additional ≤ room self.old → self.new ≡ self.old }
        ensures room { KeepsRoom self.old self.new }
        ensures capacity { StaysOrGrows additional (as_dict self.old) (as_dict self.new) }
    {
        self.dict.reserve(additional)
    }
}
