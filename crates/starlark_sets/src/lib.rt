//! Sets that iterate in the order of insertion, and the maps and sets that compare in order.
#![tactic(auto)]

pub mod difference;
pub mod iter;
pub mod macros;
mod ordered;
pub mod ordered_map;
pub mod ordered_set;
pub mod small_set;
pub mod union;

pub use difference::Difference;
pub use iter::{IntoIter, IntoIterHashed, Iter, IterHashed};
pub use ordered_map::OrderedMap;
pub use ordered_set::{OccupiedError, OrderedSet, TryInsertError};
pub use small_set::SmallSet;
pub use union::Union;
