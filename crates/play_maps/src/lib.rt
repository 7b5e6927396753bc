//! The commands on small, ordered and sorted maps, and on pair lists.
#![tactic(auto)]

mod entries;
mod maps;
mod ordered_entries;
mod ordered_maps;
mod pair_lists;
mod small_calls;
mod small_entries;
mod small_maps;
mod sorted_maps;

pub use maps::Maps;
