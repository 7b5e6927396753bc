//! The commands on dictionaries.
#![tactic(auto)]

mod calls;
pub mod dicts;
mod entries;

pub use dicts::Dicts;
