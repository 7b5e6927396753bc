//! The commands on unordered maps and sets, on keys under a hash and on the hasher.
#![tactic(auto)]

mod asked;
pub mod hashes;
mod raw_maps;
mod raw_sets;
mod tables;
mod unordered_maps;
mod unordered_sets;

pub use tables::Tables;
