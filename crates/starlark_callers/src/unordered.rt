//! Callers of unordered maps and sets.

pub mod change;
pub mod collect;
pub mod read;
