//! Finite maps without an order. They compare and hash alike whatever history built them.
#![tactic(auto)]

pub mod entry;
mod into_hash_map;
pub mod iter;
pub mod iter_mut;
pub mod laws;
mod map_values;
pub mod raw_entry;
pub mod unordered_map;
pub mod unordered_set;

pub use entry::{Entry, OccupiedEntry, VacantEntry};
pub use iter::{Entries, KeysUnordered, ValuesUnordered};
pub use iter_mut::{EntriesMut, ValuesUnorderedMut};
pub use raw_entry::{RawEntryBuilderMut, RawEntryMut, RawOccupiedEntryMut, RawVacantEntryMut};
pub use unordered_map::UnorderedMap;
pub use unordered_set::UnorderedSet;
