//! Small maps that iterate in the order of insertion.
#![tactic(auto)]

pub mod entry;
mod index;
pub mod iter;
pub mod macros;
pub mod small_map;

pub use entry::{Entry, OccupiedEntry, VacantEntry};
pub use index::UNINDEXED;
pub use iter::{
    IntoIter, IntoIterHashed, IntoKeys, IntoValues, Iter, IterHashed, IterMut, Keys, Values,
    ValuesMut,
};
pub use small_map::SmallMap;
