//! Dictionaries: maps and sets that iterate in the order of insertion, and are seen without a hash.
#![tactic(auto)]

pub mod dict;
pub mod dict_set;
pub mod macros;

pub use dict::Dict;
pub use dict::entry::{Entry, OccupiedEntry, VacantEntry};
pub use dict_set::{DictSet, Difference, Union};
