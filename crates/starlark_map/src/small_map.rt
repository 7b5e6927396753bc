//! `SmallMap`: a map that iterates in the order of insertion, with look-ups under precomputed hashes; its iterators and
//! entries, and the greatest length of a list without a hash index.

pub use starlark_small::{
    Entry, IntoIter, IntoIterHashed, IntoKeys, IntoValues, Iter, IterHashed, IterMut, Keys,
    OccupiedEntry, SmallMap, UNINDEXED as NO_INDEX_THRESHOLD, VacantEntry, Values, ValuesMut,
};
