//! `SmallSet`: a set that iterates in the order of insertion; its iterators, difference and union.

pub use starlark_sets::{Difference, IntoIter, IntoIterHashed, Iter, IterHashed, SmallSet, Union};
