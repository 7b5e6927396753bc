//! The vector map: a list of entries in two columns, in which a key is looked up by a search for its hash.
#![tactic(auto)]

mod columns;
mod hash_search;
pub mod vec_map;

pub use hash_search::find_hash_in_array;
pub use vec_map::VecMap;
