//! `OrderedSet`: a small set whose equality, order and hash depend on the order of its elements; its iterators, its union,
//! and what `try_insert` returns for an element that is there.

pub use starlark_sets::ordered_set::{IntoIter, Iter, OccupiedError, OrderedSet, TryInsertError};
pub use starlark_sets::{IterHashed, Union};
