//! `UnorderedSet`: a finite set in an unspecified order; its raw entries.

pub use starlark_unordered::unordered_set::{
    RawEntryBuilderMut, RawEntryMut, RawOccupiedEntryMut, RawVacantEntryMut, UnorderedSet,
};
