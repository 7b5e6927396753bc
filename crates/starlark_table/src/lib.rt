//! A hash table whose callers supply 64-bit hashes. It never hashes its items.
#![tactic(auto)]

mod ahead;
mod clear;
mod far;
mod follow;
mod growth;
mod home;
pub mod iter;
mod iter_mut;
mod kept_hash;
mod loan;
mod pairs_mut;
mod probe;
pub mod ready_table;
mod remove;
mod replace;
mod retain;
mod tags;

pub use follow::Follows;
pub use iter::{IntoIter, Iter};
pub use iter_mut::IterMut;
pub use kept_hash::KeptHash;
pub use pairs_mut::PairsMut;
pub use ready_table::ReadyTable;
