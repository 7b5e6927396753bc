//! `UnorderedMap`: a finite map in an unspecified order, equal and hashed alike whatever history built it; its entries, raw
//! entries and iterators.

pub use starlark_unordered::{
    Entries, EntriesMut, Entry, KeysUnordered, OccupiedEntry, RawEntryBuilderMut, RawEntryMut,
    RawOccupiedEntryMut, RawVacantEntryMut, UnorderedMap, VacantEntry, ValuesUnordered,
    ValuesUnorderedMut,
};
