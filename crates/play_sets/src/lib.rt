//! The commands on small, ordered and sorted sets, and on sorted vectors.
#![tactic(auto)]

mod ordered_sets;
mod sets;
mod small_sets;
mod sorted_sets;
mod sorted_vectors;

pub use sets::Sets;
